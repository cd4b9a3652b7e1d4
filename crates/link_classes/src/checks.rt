//! The first three rules that refuse a program: a class with the name of an earlier one, a parent that isn't declared, a class that is its own
//! ancestor.
ghost use Rattle.std.specs.Prelude.{◌≡◌, ◌<◌, ◌^◌, ℕ, List, Err, IfErr, IfOk, length};
ghost use Rattle.class_rules.specs.Rows.{IsOwnAncestor, NameClasses, NamesUnknown};
ghost use Rattle.link_rules.specs.declared.refusal.LinkKind.{LinkKind as AKind};
ghost use Rattle.link_rules.specs.Classes.{IsNamed};
ghost use Rattle.link_rules.specs.Refusals.{HasEarlierName, IsFirst, IsPlaceOf, whole};
ghost use Rattle.link_classes.specs.RowTables.{AreRowTables, IsSound, Tells, rows_in, world_in};
ghost use Rattle.link_classes.specs.Seen.{IsOrder, seen_classes};

use super::classes::NoClasses;
use super::order::ClassOrder;
use super::repeated::first_repeated;
use super::row_tables::RowTables;
use class_tree::{Tree, TreeError, build};
use jim_ast::Name;
use link_rules::LinkKind;
use std::alloc::Global;

// Says that a rule refuses the class with this number.
fn refused(alloc: Global, order: &ClassOrder, kind: LinkKind, number: u32) -> NoClasses
    requires order { IsOrder order.now }
    requires number { number < length order.now.classes.items }
    ensures { (told : AKind) (place : List ℕ) → result ≡ NoClasses.Refused told place → (told ≡ kind) × IsNamed (seen_classes order.now.classes.items) place number }
{
    let class = &order.classes[number as usize];
    match String::from_str(alloc, class.names.text(class.class.name)) {
        Ok(text) => NoClasses::Refused {
            kind,
            place: Name::from_string(text),
        },
        Err(_) => NoClasses::NoMemory,
    }
}

// The tree of these rows.
fn tree_of(alloc: Global, tables: &RowTables) -> Result<Tree, TreeError>
    requires classes { length (rows_in tables.now).classes < 2 ^ 32 }
    requires methods { length (rows_in tables.now).methods < 2 ^ 32 }
    requires fields { length (rows_in tables.now).fields < 2 ^ 32 }
    requires named { NameClasses (rows_in tables.now) }
    ensures ok { IfOk result (λ tree. tree ≡ rows_in tables.now) }
    ensures known { IfOk result (λ _. (a : ℕ) → NamesUnknown (rows_in tables.now).classes (rows_in tables.now).implements a → ⊥) }
    ensures acyclic { IfOk result (λ _. (a : ℕ) → IsOwnAncestor (rows_in tables.now).classes (rows_in tables.now).implements a → ⊥) }
    ensures tells { IfErr result (Tells (rows_in tables.now)) }
{
    build(
        alloc,
        tables.classes.as_slice(),
        tables.implements.as_slice(),
        tables.methods.rows.as_slice(),
        tables.fields.rows.as_slice(),
    )
}

// What the error of the tree says of the program, of which no class has the name of another.
fn refused_by(alloc: Global, order: &ClassOrder, tables: &RowTables, error: TreeError) -> NoClasses
    requires order { IsOrder order.now }
    requires tables { AreRowTables order.now tables.now }
    requires single { (entry : List ℕ) (number : ℕ) → HasEarlierName (world_in order.now tables.now entry) number → ⊥ }
    requires tells { Tells (rows_in tables.now) error }
    ensures { (kind : AKind) (place : List ℕ) → result ≡ NoClasses.Refused kind place
        → (number : ℕ) × ((entry : List ℕ) → IsFirst (world_in order.now tables.now entry) (whole kind number) × IsPlaceOf (world_in order.now tables.now entry) kind number place) }
{
    match error {
        TreeError::UnknownParent { class } => refused(alloc, order, LinkKind::UnknownParent, class),
        TreeError::Cyclic { class } => refused(alloc, order, LinkKind::CyclicClass, class),
        TreeError::NoMemory => NoClasses::NoMemory,
    }
}

/// The hierarchy of these rows, unless one of the three rules refuses the program, with the first refusal.
pub fn checked_tree(
    alloc: Global,
    order: &ClassOrder,
    tables: &RowTables,
) -> Result<Tree, NoClasses>
    requires order { IsOrder order.now }
    requires tables { AreRowTables order.now tables.now }
    ensures tree { IfOk result (λ tree. tree ≡ rows_in tables.now) }
    ensures sound { IfOk result (λ _. (entry : List ℕ) → IsSound (world_in order.now tables.now entry)) }
    ensures refused { (kind : AKind) (place : List ℕ) → result ≡ Err (NoClasses.Refused kind place)
        → (number : ℕ) × ((entry : List ℕ) → IsFirst (world_in order.now tables.now entry) (whole kind number) × IsPlaceOf (world_in order.now tables.now entry) kind number place) }
{
    if let Some(number) = first_repeated(order) {
        return Err(refused(alloc, order, LinkKind::DuplicateClass, number));
    }
    match tree_of(alloc, tables) {
        Ok(tree) => Ok(tree),
        Err(error) => Err(refused_by(alloc, order, tables, error)),
    }
}
