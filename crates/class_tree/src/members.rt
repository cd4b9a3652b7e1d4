ghost use Rattle.std.specs.Prelude.{◌≡◌, ℕ, ◌^◌, ◌<◌, length, All, IfOk};
ghost use Rattle.class_order.specs.Groups.{group};
ghost use Rattle.class_tree.specs.Indexed.{AreMembers};
ghost use Rattle.class_order.specs.Spans.{AreApart};

use super::first_rows::{FirstRows, field_members, method_members};
use super::owners::Owners;
use class_order::{Groups, Span};
use class_rules::{ClassRow, FieldRow, MethodRow};
use std::alloc::{AllocError, Global};

/// What is kept of methods and fields.
#[derive(Drop)]
pub struct Members {
    pub declared: Owners,
    pub near_fields: Owners,
    pub bodies: FirstRows,
    pub interface_rows: FirstRows,
    pub own_fields: FirstRows,
}

impl Members {
    /// The tables of some methods and fields. `reach` has for each class the places of those from which
    /// it is reached, `near` of those from which it is reached by interfaces alone, and `ranks` are
    /// higher than those of parents and interfaces.
    pub fn new(
        alloc: Global,
        classes: &[ClassRow],
        methods: &[MethodRow],
        fields: &[FieldRow],
        reach: &Groups<Span>,
        near: &Groups<Span>,
        ranks: &[u32],
    ) -> Result<Self, AllocError>
        requires few_methods { length methods.now < 2 ^ 32 }
        requires few_fields { length fields.now < 2 ^ 32 }
        requires reach_len { length reach.now ≡ length classes.now }
        requires near_len { length near.now ≡ length classes.now }
        requires methods { All (λ m. m.class < length classes.now) methods.now }
        requires fields { All (λ f. f.class < length classes.now) fields.now }
        requires reach { (c : ℕ) → AreApart (group reach.now c) }
        requires near { (c : ℕ) → AreApart (group near.now c) }
        ensures { IfOk result (AreMembers classes.now methods.now fields.now reach.now near.now) }
    {
        let of_methods = method_members(alloc, methods)?;
        let of_fields = field_members(alloc, fields)?;
        Ok(Members {
            declared: Owners::new(alloc, classes, of_methods.as_slice(), reach, ranks)?,
            near_fields: Owners::new(alloc, classes, of_fields.as_slice(), near, ranks)?,
            bodies: FirstRows::of_bodies(alloc, methods)?,
            interface_rows: FirstRows::of_interfaces(alloc, classes, methods)?,
            own_fields: FirstRows::of_fields(alloc, fields)?,
        })
    }
}
