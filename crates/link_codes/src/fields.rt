//! The numbers of fields.
ghost use Rattle.std.specs.Prelude.{◌≡◌, ◌<◌, ◌^◌, ℕ, List, IfOk, length};
ghost use Rattle.link_rules.specs.Classes.{DeclaredField, fields_of};
ghost use Rattle.link_rules.specs.Codes.{instance_number, static_number};
ghost use Rattle.link_codes.specs.Fields.{field_numbers};

use link_classes::Classes;
use lists::NoMemory;
use std::alloc::Global;
use std::marker::Model;

/// The numbers that a field has: from 1 on in class order as an instance field, from 0 on as a static one. Of these the one that it is counts.
#[derive(Clone, Copy, Debug, PartialEq, Eq)]
pub struct FieldNumber {
    pub instance_field: u32,
    pub static_field: u32,
}

/// The numbers of all fields, by their rows.
#[derive(Drop)]
pub struct FieldNumbers {
    numbers: Vec<FieldNumber>,
}

impl Model for FieldNumbers {
    ghost use Rattle.std.specs.Prelude.{List};
    ghost use Rattle.link_codes.specs.declared.fields.FieldNumber.{FieldNumber as ANumber};

    ghost Value = { List ANumber };

    ghost view = { λ f. f.numbers.items };
}

impl FieldNumbers {
    /// The numbers of the fields of these classes, in one pass. Nothing but memory can be wanting.
    pub fn new(alloc: Global, classes: &Classes) -> Result<Self, NoMemory>
        ensures { IfOk result (λ numbers. numbers ≡ field_numbers (fields_of classes.now.world.classes)) }
    {
        let mut numbers = Vec::new(alloc);
        let mut instances: u32 = 0;
        let mut statics: u32 = 0;
        for row in 0..classes.field_count() {
            numbers.push(FieldNumber {
                instance_field: instances + 1,
                static_field: statics,
            })?;
            if classes.field(row).decl.is_static {
                statics += 1;
            } else {
                instances += 1;
            }
        }
        Ok(FieldNumbers { numbers })
    }

    /// The number of an instance field.
    pub fn instance_field(&self, row: u32) -> u32
        requires { row < length self.now }
        ensures { (fields : List DeclaredField) → self.now ≡ field_numbers fields → result ≡ instance_number fields row }
    {
        self.numbers[row as usize].instance_field
    }

    /// The number of a static field.
    pub fn static_field(&self, row: u32) -> u32
        requires { row < length self.now }
        ensures { (fields : List DeclaredField) → self.now ≡ field_numbers fields → result ≡ static_number fields row }
    {
        self.numbers[row as usize].static_field
    }
}
