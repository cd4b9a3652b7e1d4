//! All rows of the classes, and the hierarchy that they make.
ghost use Rattle.std.specs.Prelude.{IfOk};
ghost use Rattle.link_classes.specs.RowTables.{AreRowTables};
ghost use Rattle.link_classes.specs.Seen.{IsOrder};

use super::member_tables::{FieldTable, MethodTable};
use super::order::ClassOrder;
use super::rows::{class_rows, interface_pairs};
use class_rules::ClassRow;
use lists::NoMemory;
use std::alloc::Global;

/// All rows of the classes, with the members.
#[derive(Drop)]
pub struct RowTables<'a> {
    pub classes: Vec<ClassRow>,
    pub implements: Vec<(u32, u32)>,
    pub methods: MethodTable<'a>,
    pub fields: FieldTable<'a>,
}

impl<'a> RowTables<'a> {
    /// The rows of these classes. Each name and each key is looked up once.
    pub fn new(alloc: Global, order: &ClassOrder<'a>) -> Result<Self, NoMemory>
        requires { IsOrder order.now }
        ensures { IfOk result (AreRowTables order.now) }
    {
        Ok(RowTables {
            classes: class_rows(alloc, order)?,
            implements: interface_pairs(alloc, order)?,
            methods: MethodTable::new(alloc, order)?,
            fields: FieldTable::new(alloc, order)?,
        })
    }
}
