ghost use Rattle.std.specs.Prelude.{◌≡◌, IfOk};
ghost use Rattle.class_tree.specs.Indexed.{rows_in};
ghost use Rattle.class_rules.specs.Rows.{rows_of};

use class_rules::{ClassRow, FieldRow, MethodRow};
use std::alloc::{AllocError, Global};

/// The rows that a tree was built from.
#[derive(Drop)]
pub struct KeptRows {
    pub classes: Vec<ClassRow>,
    pub implements: Vec<(u32, u32)>,
    pub methods: Vec<MethodRow>,
    pub fields: Vec<FieldRow>,
}

impl KeptRows {
    /// A copy of the rows.
    pub fn copy_of(
        alloc: Global,
        classes: &[ClassRow],
        implements: &[(u32, u32)],
        methods: &[MethodRow],
        fields: &[FieldRow],
    ) -> Result<Self, AllocError>
        ensures { IfOk result (λ rows. rows_in rows ≡ rows_of classes.now implements.now methods.now fields.now) }
    {
        Ok(KeptRows {
            classes: Vec::from_slice(alloc, classes)?,
            implements: Vec::from_slice(alloc, implements)?,
            methods: Vec::from_slice(alloc, methods)?,
            fields: Vec::from_slice(alloc, fields)?,
        })
    }
}
