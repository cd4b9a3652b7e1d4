ghost use Rattle.std.specs.Prelude.{◌≡◌, ℕ, ◌+◌, ◌<◌, List, length, All, Contains, IfOk, IfSome, IsTrue, OnOk, Some, None, slice_get, slice_index};
ghost use Rattle.std.specs.List.Sorted.{IsNonDecreasingBy};
ghost use Rattle.class_tree.specs.declared.own_rows.Own.{Own as AnOwn};
ghost use Rattle.class_rules.specs.declared.rows.ClassRow.{ClassRow as ARow};
ghost use Rattle.class_order.specs.Groups.{group};
ghost use Rattle.class_tree.specs.Turns.{AreHere, AreUpTo, HaveOneRow, HaveTurned, IsBefore, IsForest, SlotPath, TellBefore, numbered, row_over, turned};

use super::own_rows::Own;
use super::turns::{Turn, row_at};
use class_order::Groups;
use class_rules::ClassRow;
use std::alloc::{AllocError, Global};

/// The first rows of the classes and their numbers, in an order in which those above come first.
#[derive(Drop)]
pub struct Forest {
    pub owns: Groups<Own>,
    pub numbers: Vec<u32>,
}

// Each slot takes a turn to its row.
fn enter(turns: &mut Groups<Turn>, owns: &[Own], number: u32) -> Result<(), AllocError>
    requires slots { All (λ o. o.slot < length turns.old) owns.now }
    requires one { HaveOneRow owns.now }
    ensures { OnOk result (HaveTurned number owns.now (λ o. Some o.row) turns.old turns.new) }
{
    for own in owns {
        turns.push(
            own.slot,
            Turn {
                at: number,
                row: Some(own.row),
            },
        )?;
    }
    Ok(())
}

// Each slot takes a turn to the row that the class with the number `above` has there.
fn leave(
    turns: &mut Groups<Turn>,
    owns: &[Own],
    number: u32,
    above: Option<u32>,
) -> Result<(), AllocError>
    requires slots { All (λ o. o.slot < length turns.old) owns.now }
    requires ordered { (s : ℕ) → AreUpTo number (group turns.old s) }
    requires above { IfSome above (λ n. n < number) }
    ensures { OnOk result (HaveTurned number owns.now (λ o. row_over above (group turns.old o.slot)) turns.old turns.new) }
{
    for own in owns {
        let row = match above {
            Some(over) => row_at(turns.get(own.slot), over),
            None => None,
        };
        turns.push(own.slot, Turn { at: number, row })?;
    }
    Ok(())
}

// The number of a class, where there is one.
fn number_of(numbers: &[u32], class: Option<u32>) -> Option<u32>
    requires { IfSome class (λ c. c < length numbers.now) }
    ensures { result ≡ numbered numbers.now class }
{
    match class {
        Some(class) => Some(numbers[class as usize]),
        None => None,
    }
}

// Leaves the classes from one upwards, up to another that comes before the number, or up to the top.
// Gives whether the other one was met.
fn leave_up_to(
    turns: &mut Groups<Turn>,
    classes: &[ClassRow],
    forest: &Forest,
    number: u32,
    from: Option<u32>,
    to: Option<u32>,
) -> Result<bool, AllocError>
    requires forest { IsForest classes.now forest.now.owns forest.now.numbers.items (length turns.old) }
    requires told { TellBefore classes.now forest.now.owns forest.now.numbers.items number turns.old }
    requires from { IfSome from (IsBefore forest.now.numbers.items number) }
    requires here { AreHere classes.now forest.now.owns turns.old from }
    ensures len { OnOk result (length turns.new ≡ length turns.old) }
    ensures told { OnOk result (TellBefore classes.now forest.now.owns forest.now.numbers.items number turns.new) }
    ensures here { IfOk result (λ met. IsTrue met → AreHere classes.now forest.now.owns turns.new to) }
{
    let mut at = from;
    while let Some(class) = at {
        if to == Some(class) {
            return Ok(true);
        }
        let parent = classes[class as usize].parent;
        let above = number_of(forest.numbers.as_slice(), parent);
        leave(turns, forest.owns.get(class as usize), number, above)?;
        at = parent;
    }
    Ok(to.is_none())
}

// One for each slot. Its row says nothing.
fn all_slots(alloc: Global, count: usize) -> Result<Vec<Own>, AllocError>
    ensures within { IfOk result (λ owns. All (λ o. o.slot < count) owns.items) }
    ensures all { IfOk result (λ owns. (s : ℕ) → s < count → (o : AnOwn) × Contains owns.items o × (o.slot ≡ s)) }
{
    let mut owns = Vec::with_capacity(alloc, count)?;
    for slot in 0..count {
        owns.push(Own { slot, row: 0 })?;
    }
    Ok(owns)
}

// Each slot takes a turn to the row that a class before the number has there, wherever the way was.
fn take_up(
    alloc: Global,
    turns: &mut Groups<Turn>,
    numbers: &[u32],
    number: u32,
    class: Option<u32>,
) -> Result<(), AllocError>
    requires ordered { (s : ℕ) → AreUpTo number (group turns.old s) }
    requires class { IfSome class (IsBefore numbers.now number) }
    ensures len { OnOk result (length turns.new ≡ length turns.old) }
    ensures told { (classes : List ARow) (owns : List (List AnOwn)) → TellBefore classes owns numbers.now number turns.old → OnOk result (TellBefore classes owns numbers.now number turns.new × AreHere classes owns turns.new class) }
{
    let all = all_slots(alloc, turns.len())?;
    leave(turns, all.as_slice(), number, number_of(numbers, class))
}

/// For each slot the turns of look-ups along the parents. The classes stand in `order` after those
/// below them, each with its number. A class is entered when its turn comes, after the way was left
/// up to its parent: where the order is that of a search, each class is left once.
pub fn turns_by_slot(
    alloc: Global,
    classes: &[ClassRow],
    forest: &Forest,
    order: &[u32],
    slots: usize,
) -> Result<Groups<Turn>, AllocError>
    requires forest { IsForest classes.now forest.now.owns forest.now.numbers.items slots }
    requires within { (c : ℕ) → Contains order.now c → c < length classes.now }
    requires all { (c : ℕ) → c < length classes.now → Contains order.now c }
    requires placed { (i c : ℕ) → slice_get order.now i ≡ Some c → slice_index forest.now.numbers.items c + 1 + i ≡ length order.now }
    ensures len { IfOk result (λ turns. length turns ≡ slots) }
    ensures rising { IfOk result (λ turns. (s : ℕ) → IsNonDecreasingBy (λ t. t.at) (group turns s)) }
    ensures told { IfOk result (λ turns. (c s : ℕ) → c < length classes.now → SlotPath classes.now forest.now.owns s c (turned None (group turns s) (slice_index forest.now.numbers.items c))) }
{
    let mut turns = Groups::new(alloc, slots)?;
    let mut here = None;
    let mut at = order.len();
    while at > 0 {
        at -= 1;
        let class = order[at];
        let number = forest.numbers[class as usize];
        let parent = classes[class as usize].parent;
        if !leave_up_to(&mut turns, classes, forest, number, here, parent)? {
            take_up(alloc, &mut turns, forest.numbers.as_slice(), number, parent)?;
        }
        enter(&mut turns, forest.owns.get(class as usize), number)?;
        here = Some(class);
    }
    Ok(turns)
}
