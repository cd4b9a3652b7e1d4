//! The methods and fields of all classes, in order.
ghost use Rattle.std.specs.Prelude.{◌≡◌, ◌<◌, ◌^◌, ◌++◌, IfOk, OnOk, All, length};
ghost use Rattle.link_rules.specs.Classes.{fields_in, fields_of, methods_in, methods_of};
ghost use Rattle.link_classes.specs.Classes.{IsKnown};
ghost use Rattle.link_classes.specs.Seen.{IsFieldSeen, IsOrder, IsSeen, seen_class, seen_classes, seen_fields, seen_methods};

use super::order::ClassOrder;
use super::seen::{ClassIn, FieldIn, MethodIn};
use jim_ast::Names;
use lists::NoMemory;
use std::alloc::{AllocError, Global};

// Puts a class's methods behind others. There is room for 4,294,967,295.
fn push_methods<'a>(
    methods: &mut Vec<MethodIn<'a>>,
    all: &'a Names,
    number: u32,
    class: &ClassIn<'a>,
) -> Result<(), NoMemory>
    requires few { length methods.old.items < 2 ^ 32 }
    requires known { All (IsKnown all.now) methods.old.items }
    requires seen { IsSeen all.now class.now }
    ensures pushed { OnOk result (seen_methods methods.new.items ≡ seen_methods methods.old.items ++ methods_in number (seen_class class.now)) }
    ensures few { OnOk result (length methods.new.items < 2 ^ 32) }
    ensures known { OnOk result (All (IsKnown all.now) methods.new.items) }
{
    let owner = class.names.text(class.class.name);
    let decls = class.class.methods.as_slice();
    for decl in decls {
        if methods.len() >= u32::MAX as usize {
            return Err(AllocError);
        }
        methods.push(MethodIn {
            class: number,
            owner,
            all,
            ids: class.ids,
            decl,
        })?;
    }
    Ok(())
}

// Puts a class's fields behind others. There is room for 4,294,967,295.
fn push_fields<'a>(
    fields: &mut Vec<FieldIn<'a>>,
    all: &Names,
    number: u32,
    class: &ClassIn<'a>,
) -> Result<(), NoMemory>
    requires few { length fields.old.items < 2 ^ 32 }
    requires known { All (IsFieldSeen all.now) fields.old.items }
    requires seen { IsSeen all.now class.now }
    ensures pushed { OnOk result (seen_fields fields.new.items ≡ seen_fields fields.old.items ++ fields_in number (seen_class class.now)) }
    ensures few { OnOk result (length fields.new.items < 2 ^ 32) }
    ensures known { OnOk result (All (IsFieldSeen all.now) fields.new.items) }
{
    let decls = class.class.fields.as_slice();
    for decl in decls {
        if fields.len() >= u32::MAX as usize {
            return Err(AllocError);
        }
        fields.push(FieldIn {
            class: number,
            names: class.names,
            ids: class.ids,
            decl,
        })?;
    }
    Ok(())
}

/// The methods, class by class in written order.
pub fn methods_in_order<'a>(
    alloc: Global,
    order: &ClassOrder<'a>,
) -> Result<Vec<MethodIn<'a>>, NoMemory>
    requires { IsOrder order.now }
    ensures methods { IfOk result (λ methods. seen_methods methods.items ≡ methods_of (seen_classes order.now.classes.items)) }
    ensures few { IfOk result (λ methods. length methods.items < 2 ^ 32) }
    ensures known { IfOk result (λ methods. All (IsKnown order.now.all.now.texts) methods.items) }
{
    let all = &order.all.texts;
    let classes = order.classes.as_slice();
    let mut methods = Vec::new(alloc);
    for (number, class) in classes.iter().enumerate() {
        push_methods(&mut methods, all, number as u32, class)?;
    }
    Ok(methods)
}

/// The fields, class by class in written order.
pub fn fields_in_order<'a>(
    alloc: Global,
    order: &ClassOrder<'a>,
) -> Result<Vec<FieldIn<'a>>, NoMemory>
    requires { IsOrder order.now }
    ensures fields { IfOk result (λ fields. seen_fields fields.items ≡ fields_of (seen_classes order.now.classes.items)) }
    ensures few { IfOk result (λ fields. length fields.items < 2 ^ 32) }
    ensures known { IfOk result (λ fields. All (IsFieldSeen order.now.all.now.texts) fields.items) }
{
    let all = &order.all.texts;
    let classes = order.classes.as_slice();
    let mut fields = Vec::new(alloc);
    for (number, class) in classes.iter().enumerate() {
        push_fields(&mut fields, all, number as u32, class)?;
    }
    Ok(fields)
}
