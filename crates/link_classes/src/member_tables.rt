//! The methods and the fields with their rows and keys.
ghost use Rattle.std.specs.Prelude.{◌≡◌, ◌<◌, ◌^◌, IfOk};
ghost use Rattle.link_rules.specs.Keys.{field_key, method_key};
ghost use Rattle.link_rules.specs.World.{kind_of_body};
ghost use Rattle.link_classes.specs.Classes.{IsKnown};
ghost use Rattle.link_classes.specs.Keyed.{IsFieldKeyIn, IsMethodKeyIn};
ghost use Rattle.link_classes.specs.MemberTables.{IsFieldTable, IsMethodTable};
ghost use Rattle.link_classes.specs.Seen.{IsFieldSeen, IsOrder, seen_field, seen_method};

use super::keys::{FieldKeyIn, MethodKeyIn, field_key_in, method_key_in};
use super::members::{fields_in_order, methods_in_order};
use super::order::ClassOrder;
use super::seen::{FieldIn, MethodIn};
use super::tables::{FieldKeys, MethodKeys};
use class_rules::{BodyKind, FieldRow, MethodRow};
use jim_ast::{MethodDecl, Names};
use lists::NoMemory;
use std::alloc::Global;

/// The methods in order, with their rows and the numbers of their keys.
#[derive(Drop)]
pub struct MethodTable<'a> {
    pub methods: Vec<MethodIn<'a>>,
    pub rows: Vec<MethodRow>,
    pub keys: MethodKeys,
}

/// The fields in order, with their rows and the numbers of their keys.
#[derive(Drop)]
pub struct FieldTable<'a> {
    pub fields: Vec<FieldIn<'a>>,
    pub rows: Vec<FieldRow>,
    pub keys: FieldKeys,
}

// What stands behind a method's head.
fn body_kind(decl: &MethodDecl) -> BodyKind
    ensures { result ≡ kind_of_body decl.now.body decl.now.is_native }
{
    if decl.body.is_some() {
        BodyKind::Plain
    } else if decl.is_native {
        BodyKind::Native
    } else {
        BodyKind::Missing
    }
}

// The key of a method.
fn key_of_method(alloc: Global, method: &MethodIn) -> Result<MethodKeyIn, NoMemory>
    requires { IsKnown method.now.all.now method.now }
    ensures { IfOk result (IsMethodKeyIn method.now.all.now (method_key (seen_method method.now))) }
{
    let decl = method.decl;
    method_key_in(
        alloc,
        method.ids,
        decl.name,
        decl.params.as_slice(),
        decl.result,
        decl.is_static,
    )
}

// The key of a field.
fn key_of_field(all: &Names, field: &FieldIn) -> FieldKeyIn
    requires { IsFieldSeen all.now field.now }
    ensures { IsFieldKeyIn all.now (field_key (seen_field field.now)) result }
{
    let decl = field.decl;
    field_key_in(field.ids, decl.name, decl.ty, decl.is_static)
}

impl<'a> MethodTable<'a> {
    /// The methods of these classes.
    pub fn new(alloc: Global, order: &ClassOrder<'a>) -> Result<Self, NoMemory>
        requires { IsOrder order.now }
        ensures { IfOk result (IsMethodTable order.now) }
    {
        let methods = methods_in_order(alloc, order)?;
        let mut rows = Vec::new(alloc);
        let mut keys = MethodKeys::new(alloc);
        let members = methods.as_slice();
        for (row, method) in members.iter().enumerate() {
            let key = key_of_method(alloc, method)?;
            let first = keys.number(key, row as u32)?;
            rows.push(MethodRow {
                class: method.class,
                key: first,
                body: body_kind(method.decl),
            })?;
        }
        Ok(MethodTable {
            methods,
            rows,
            keys,
        })
    }
}

impl<'a> FieldTable<'a> {
    /// The fields of these classes.
    pub fn new(alloc: Global, order: &ClassOrder<'a>) -> Result<Self, NoMemory>
        requires { IsOrder order.now }
        ensures { IfOk result (IsFieldTable order.now) }
    {
        let fields = fields_in_order(alloc, order)?;
        let mut rows = Vec::new(alloc);
        let mut keys = FieldKeys::new(alloc);
        let members = fields.as_slice();
        for (row, field) in members.iter().enumerate() {
            let key = key_of_field(&order.all.texts, field);
            let first = keys.number(key, row as u32)?;
            rows.push(FieldRow {
                class: field.class,
                key: first,
            })?;
        }
        Ok(FieldTable { fields, rows, keys })
    }
}
