ghost use Rattle.std.specs.Prelude.{◌≡◌, ℕ, ◌==◌, ◌&&◌, ◌^◌, ◌<◌, length, All, Some, None, Option, IfOk, OnOk, cond, map};
ghost use Rattle.std.specs.Option.{option_or, is_some};
ghost use Rattle.class_tree.specs.Holders.{IsInterface};
ghost use Rattle.class_rules.specs.Lookups.{own_body, own_field, own_row};
ghost use Rattle.class_tree.specs.FirstRows.{row_at, AddsRow};
ghost use Rattle.class_tree.specs.KeySpans.{member_of_field, member_of_method};

use class_rules::{ClassRow, FieldRow, MethodRow};
use std::alloc::{AllocError, Global};
use std::collections::BTreeMap;

/// A key that a class declares. They are ordered by class, and within a class by key.
#[derive(Clone, Copy, Debug, PartialEq, Eq, PartialOrd, Ord)]
pub struct Member {
    pub class: u32,
    pub key: u32,
}

/// For a class and a key the first row that was added. A look-up takes time with the logarithm of how
/// many rows there are, whichever numbers their classes and keys have.
#[derive(Drop)]
pub struct FirstRows {
    rows: BTreeMap<Member, u32>,
}

impl FirstRows {
    fn new(alloc: Global) -> Self
        ensures { (c k : ℕ) → row_at result c k ≡ None }
    {
        FirstRows {
            rows: BTreeMap::new(alloc),
        }
    }

    fn add(&mut self, class: u32, key: u32, row: u32) -> Result<(), AllocError>
        ensures { OnOk result (AddsRow self.old class key row self.new) }
    {
        let member = Member { class, key };
        if !self.rows.contains_key(&member) {
            self.rows.insert(member, row)?;
        }
        Ok(())
    }

    /// The first row of the class with this key.
    pub fn get(&self, class: u32, key: u32) -> Option<u32>
        ensures { result ≡ row_at self.now class key }
    {
        self.rows.get(&Member { class, key }).copied()
    }

    /// The first rows of methods with a body.
    pub fn of_bodies(alloc: Global, methods: &[MethodRow]) -> Result<Self, AllocError>
        requires { length methods.now < 2 ^ 32 }
        ensures { IfOk result (λ rows. (c k : ℕ) → row_at rows c k ≡ own_body methods.now c k) }
    {
        let mut rows = FirstRows::new(alloc);
        for (row, method) in methods.iter().enumerate() {
            if method.body.has_body() {
                rows.add(method.class, method.key, row as u32)?;
            }
        }
        Ok(rows)
    }

    /// The first rows of methods of interfaces, with a body or without.
    pub fn of_interfaces(
        alloc: Global,
        classes: &[ClassRow],
        methods: &[MethodRow],
    ) -> Result<Self, AllocError>
        requires few { length methods.now < 2 ^ 32 }
        requires known { All (λ m. m.class < length classes.now) methods.now }
        ensures { IfOk result (λ rows. (c k : ℕ) → IsInterface classes.now c → row_at rows c k ≡ own_row methods.now c k) }
    {
        let mut rows = FirstRows::new(alloc);
        for (row, method) in methods.iter().enumerate() {
            if classes[method.class as usize].interface {
                rows.add(method.class, method.key, row as u32)?;
            }
        }
        Ok(rows)
    }

    /// The first rows of fields.
    pub fn of_fields(alloc: Global, fields: &[FieldRow]) -> Result<Self, AllocError>
        requires { length fields.now < 2 ^ 32 }
        ensures { IfOk result (λ rows. (c k : ℕ) → row_at rows c k ≡ own_field fields.now c k) }
    {
        let mut rows = FirstRows::new(alloc);
        for (row, field) in fields.iter().enumerate() {
            rows.add(field.class, field.key, row as u32)?;
        }
        Ok(rows)
    }
}

/// The classes and keys of methods.
pub fn method_members(alloc: Global, methods: &[MethodRow]) -> Result<Vec<Member>, AllocError>
    ensures { IfOk result (λ members. members.items ≡ map member_of_method methods.now) }
{
    methods
        .iter()
        .map(|method| Member {
            class: method.class,
            key: method.key,
        })
        .collect(alloc)
}

/// The classes and keys of fields.
pub fn field_members(alloc: Global, fields: &[FieldRow]) -> Result<Vec<Member>, AllocError>
    ensures { IfOk result (λ members. members.items ≡ map member_of_field fields.now) }
{
    fields
        .iter()
        .map(|field| Member {
            class: field.class,
            key: field.key,
        })
        .collect(alloc)
}
