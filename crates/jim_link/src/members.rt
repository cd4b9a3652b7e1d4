//! The classes, the keys and the fields of a linked program.
ghost use Rattle.std.specs.Prelude.{◌≡◌, ◌<◌, ◌^◌, Some, IfOk, length, map, slice_get};
ghost use Rattle.link_program.specs.Classes.{AreClasses, classes_in, linked_class};
ghost use Rattle.link_program.specs.Parts.{linked_field, linked_key};
ghost use Rattle.link_classes.specs.Seen.{seen_field};
ghost use Rattle.link_rules.specs.Classes.{DeclaredClass, fields_of, methods_of};
ghost use Rattle.link_rules.specs.Linked.{IsLinkedClass, instance_fields, key_of, linked_field_of};
ghost use Rattle.link_rules.specs.Conditions.{AreWithin, field_names};
ghost use Rattle.lists.specs.Lists.{Each};
ghost use Rattle.jim_link.specs.Members.{AreMembers, static_fields};

use super::texts::{name_text, owned};
use jim_ast::List;
use link_classes::{Classes, FieldIn};
use link_program::{ClassEntry, ClassTable, FieldEntry, KeyEntry, MemberPart};
use lists::NoMemory;
use std::alloc::Global;

// A class as it is kept.
fn class_entry(alloc: Global, classes: &Classes, number: u32) -> Result<ClassEntry, NoMemory>
    requires { number < length classes.now.world.classes }
    ensures { IfOk result (λ e. (c : DeclaredClass) → slice_get classes.now.world.classes number ≡ Some c → IsLinkedClass c (linked_class e)) }
{
    let name = owned(alloc, classes.class_name(number))?;
    Ok(ClassEntry {
        name,
        instantiable: classes.is_instantiable(number),
    })
}

// The classes, in order.
fn class_table(alloc: Global, classes: &Classes) -> Result<ClassTable, NoMemory>
    ensures are { IfOk result AreClasses }
    ensures each { IfOk result (λ table. Each IsLinkedClass classes.now.world.classes (classes_in table)) }
{
    let mut table = ClassTable::new(alloc);
    for number in 0..classes.class_count() {
        table.push(class_entry(alloc, classes, number)?)?;
    }
    Ok(table)
}

// The key of the method of a row.
fn key_entry(alloc: Global, classes: &Classes, row: u32) -> Result<KeyEntry, NoMemory>
    requires { row < length (methods_of classes.now.world.classes) }
    ensures { IfOk result (λ k. slice_get (map key_of (methods_of classes.now.world.classes)) row ≡ Some (linked_key k)) }
{
    let method = classes.method(row);
    let name = owned(alloc, name_text(&method, method.decl.name))?;
    Ok(KeyEntry {
        name,
        is_static: method.decl.is_static,
    })
}

// The keys of all methods.
fn keys(alloc: Global, classes: &Classes) -> Result<List<KeyEntry>, NoMemory>
    ensures { IfOk result (λ keys. map linked_key keys ≡ map key_of (methods_of classes.now.world.classes)) }
{
    let mut keys = Vec::new(alloc);
    for row in 0..classes.method_count() {
        keys.push(key_entry(alloc, classes, row)?)?;
    }
    Ok(List::from_vec(keys))
}

// An instance field as it is kept.
fn field_entry(alloc: Global, field: &FieldIn) -> Result<FieldEntry, NoMemory>
    requires { AreWithin field.now.names.now (field_names field.now.decl.now) }
    ensures { IfOk result (λ e. linked_field e ≡ linked_field_of (seen_field field.now)) }
{
    let name = owned(alloc, field.names.text(field.decl.name))?;
    Ok(FieldEntry {
        class: field.class,
        name,
    })
}

// The instance fields, in order.
fn fields(alloc: Global, classes: &Classes) -> Result<List<FieldEntry>, NoMemory>
    ensures fields { IfOk result (λ found. map linked_field found ≡ instance_fields (fields_of classes.now.world.classes)) }
    ensures few { IfOk result (λ found. length found < 2 ^ 32) }
{
    let mut found = Vec::new(alloc);
    for row in 0..classes.field_count() {
        let field = classes.field(row);
        if !field.decl.is_static {
            found.push(field_entry(alloc, &field)?)?;
        }
    }
    Ok(List::from_vec(found))
}

// How many fields are static.
fn static_count(classes: &Classes) -> u32
    ensures { result ≡ static_fields (fields_of classes.now.world.classes) }
{
    let mut count = 0;
    for row in 0..classes.field_count() {
        if classes.field(row).decl.is_static {
            count += 1;
        }
    }
    count
}

/// The classes, the keys and the fields.
pub fn member_part(alloc: Global, classes: &Classes) -> Result<MemberPart, NoMemory>
    ensures { IfOk result (AreMembers classes.now.world) }
{
    let keys = keys(alloc, classes)?;
    let fields = fields(alloc, classes)?;
    Ok(MemberPart {
        classes: class_table(alloc, classes)?,
        keys,
        fields,
        static_count: static_count(classes),
    })
}
