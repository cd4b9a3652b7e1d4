//! The rows of the hierarchy that classes have.
ghost use Rattle.std.specs.Prelude.{◌≡◌, ◌<◌, ◌++◌, ℕ, List, Option, IfOk, OnOk, All, length};
ghost use Rattle.link_rules.specs.Classes.{IsParentName, NamedInterface, interfaces_in, named_interfaces, object_name};
ghost use Rattle.lists.specs.Lists.{Each};
ghost use Rattle.link_rules.specs.World.{IsClassNumber, IsClassRow, IsInterfacePair, IsParentRow};
ghost use Rattle.link_classes.specs.Seen.{IsOrder, IsParentOf, IsSeen, seen_class, seen_classes};

use super::order::ClassOrder;
use super::seen::ClassIn;
use class_rules::ClassRow;
use lists::NoMemory;
use std::alloc::Global;

/// The class that has no parent unless it names one.
pub const OBJECT: &str = "java.lang.Object";

// The number of the class's parent: of what it extends, or else of `java.lang.Object`, which `object` is, unless it is that class.
fn parent(order: &ClassOrder, class: &ClassIn, object: u32) -> Option<u32>
    requires order { IsOrder order.now }
    requires class { IsSeen order.now.all.now.texts class.now }
    requires object { IsClassNumber (seen_classes order.now.classes.items) object_name object }
    ensures { IsParentOf (seen_classes order.now.classes.items) (seen_class class.now) result }
{
    if let Some(extended) = class.class.parent {
        return Some(order.number_or_end(class.ids[extended.0 as usize]));
    }
    if class.names.text(class.class.name) == OBJECT {
        return None;
    }
    Some(object)
}

// The row of a class.
fn class_row(order: &ClassOrder, class: &ClassIn, object: u32) -> ClassRow
    requires order { IsOrder order.now }
    requires class { IsSeen order.now.all.now.texts class.now }
    requires object { IsClassNumber (seen_classes order.now.classes.items) object_name object }
    ensures { IsClassRow (seen_classes order.now.classes.items) (seen_class class.now) result }
{
    ClassRow {
        parent: parent(order, class, object),
        interface: class.class.interface,
    }
}

/// The rows of the classes, in order.
pub fn class_rows(alloc: Global, order: &ClassOrder) -> Result<Vec<ClassRow>, NoMemory>
    requires { IsOrder order.now }
    ensures { IfOk result (λ rows. Each (IsClassRow (seen_classes order.now.classes.items)) (seen_classes order.now.classes.items) rows.items) }
{
    let object = order.find(OBJECT);
    let classes = order.classes.as_slice();
    let mut rows = Vec::new(alloc);
    for class in classes {
        rows.push(class_row(order, class, object))?;
    }
    Ok(rows)
}

// Puts the pairs of a class and its interfaces behind others.
fn push_interfaces(
    pairs: &mut Vec<(u32, u32)>,
    order: &ClassOrder,
    number: u32,
    class: &ClassIn,
) -> Result<(), NoMemory>
    requires order { IsOrder order.now }
    requires class { IsSeen order.now.all.now.texts class.now }
    ensures { OnOk result ((before : List NamedInterface) → Each (IsInterfacePair (seen_classes order.now.classes.items)) before pairs.old.items
        → Each (IsInterfacePair (seen_classes order.now.classes.items)) (before ++ interfaces_in number (seen_class class.now)) pairs.new.items) }
{
    let interfaces = class.class.interfaces.as_slice();
    for interface in interfaces {
        let above = order.number_or_end(class.ids[interface.0 as usize]);
        pairs.push((number, above))?;
    }
    Ok(())
}

/// The pairs of a class and one of its interfaces, class by class in written order.
pub fn interface_pairs(alloc: Global, order: &ClassOrder) -> Result<Vec<(u32, u32)>, NoMemory>
    requires { IsOrder order.now }
    ensures { IfOk result (λ pairs. Each (IsInterfacePair (seen_classes order.now.classes.items)) (named_interfaces (seen_classes order.now.classes.items)) pairs.items) }
{
    let classes = order.classes.as_slice();
    let mut pairs = Vec::new(alloc);
    for (number, class) in classes.iter().enumerate() {
        push_interfaces(&mut pairs, order, number as u32, class)?;
    }
    Ok(pairs)
}
