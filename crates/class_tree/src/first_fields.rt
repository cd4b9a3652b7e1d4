ghost use Rattle.std.specs.Prelude.{◌≡◌, ℕ, ◌^◌, ◌<◌, length, slice_index, All, Contains, IfOk, None};
ghost use Rattle.std.specs.List.Sorted.{IsNonDecreasingBy};
ghost use Rattle.class_order.specs.Tables.{IsOver};
ghost use Rattle.class_rules.specs.Lookups.{own_field};
ghost use Rattle.class_rules.specs.Paths.{ProperPath};
ghost use Rattle.class_tree.specs.FirstFields.{TellFirstFields, rows_of_firsts};
ghost use Rattle.class_tree.specs.FirstRows.{row_at};
ghost use Rattle.class_tree.specs.Turns.{turned, turns_of};

use super::first_rows::{FirstRows, field_members};
use super::numbering::Numbering;
use super::paths::Paths;
use class_order::Groups;
use class_rules::{ClassRow, FieldRow};
use std::alloc::{AllocError, Global};

/// What look-ups of fields give that go from each class to its first interface. The order in which
/// interfaces are looked through begins with these, so what such a look-up finds is the field. The
/// search is that of methods along the parents, where the first interface stands for the parent: it
/// takes the logarithm of how many fields there are, however long the way is.
#[derive(Drop)]
pub struct FirstFields {
    numbers: Vec<u32>,
    fields: Paths,
}

// For each class a row that names its first interface as its parent.
fn rows_of_firsts(alloc: Global, interfaces: &Groups<u32>) -> Result<Vec<ClassRow>, AllocError>
    ensures { IfOk result (λ rows. rows.items ≡ rows_of_firsts interfaces.now) }
{
    let mut rows = Vec::with_capacity(alloc, interfaces.len())?;
    for class in 0..interfaces.len() {
        rows.push(ClassRow {
            parent: interfaces.get(class).first().copied(),
            interface: false,
        })?;
    }
    Ok(rows)
}

impl FirstFields {
    /// Those of the fields, by the interfaces of each class in order. The classes stand in `order`
    /// after those that name them as interfaces, and `own_fields` has the first rows of the fields.
    pub fn new(
        alloc: Global,
        interfaces: &Groups<u32>,
        fields: &[FieldRow],
        own_fields: &FirstRows,
        order: &[u32],
    ) -> Result<Self, AllocError>
        requires few { length interfaces.now < 2 ^ 32 }
        requires few_fields { length fields.now < 2 ^ 32 }
        requires fields { All (λ f. f.class < length interfaces.now) fields.now }
        requires known { (a b : ℕ) → IsOver interfaces.now a b → b < length interfaces.now }
        requires acyclic { (a : ℕ) → ProperPath (IsOver interfaces.now) a a → ⊥ }
        requires own { (c k : ℕ) → row_at own_fields.now c k ≡ own_field fields.now c k }
        requires within { All (λ c. c < length interfaces.now) order.now }
        requires all { (c : ℕ) → c < length interfaces.now → Contains order.now c }
        ensures { IfOk result (TellFirstFields interfaces.now fields.now) }
    {
        let rows = rows_of_firsts(alloc, interfaces)?;
        let numbering = Numbering::new(alloc, rows.as_slice(), order)?;
        let members = field_members(alloc, fields)?;
        Ok(FirstFields {
            fields: Paths::new(
                alloc,
                rows.as_slice(),
                &numbering,
                members.as_slice(),
                own_fields,
            )?,
            numbers: numbering.numbers,
        })
    }

    /// The row of the field that the class has, or else its first interface, its first interface in
    /// turn, and so on.
    pub fn find(&self, class: u32, key: u32) -> Option<u32>
        requires class { class < length self.now.numbers.items }
        requires len { length self.now.fields.turns ≡ length self.now.fields.keys }
        requires rising { IsNonDecreasingBy (λ t. t.at) (turns_of self.now.fields key) }
        ensures { result ≡ turned None (turns_of self.now.fields key) (slice_index self.now.numbers.items class) }
    {
        self.fields.find(self.numbers[class as usize], key)
    }
}
