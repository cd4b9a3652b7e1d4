//! From place to place, what default methods classes reach.
ghost use Rattle.std.specs.Prelude.{◌≡◌, ◌<◌, ◌+◌, ◌↔◌, ℕ, IfOk, IsTrue, List, OnOk, length};
ghost use Rattle.std.specs.List.Sorted.{IsNonDecreasingBy};
ghost use Rattle.class_rules.specs.Rows.{Rows};
ghost use Rattle.class_tree.specs.Layouts.{LaysOut};
ghost use Rattle.default_turns.specs.Stays.{AreStays, IsLastThere};
ghost use Rattle.default_turns.specs.Turns.{AddsTurn, TellDefaults, defaults_at};

use super::furthest::Furthest;
use super::holders::PlacedTree;
use super::stays::{Stay, stays_of};
use class_tree::{Defaults, Layout, Tree};
use std::alloc::{AllocError, Global};

/// From this place on, up to that of the next turn, classes reach these default methods of the key.
#[derive(Clone, Copy)]
pub struct DefaultTurn {
    pub at: u32,
    pub defaults: Defaults,
}

fn are_same(one: Defaults, other: Defaults) -> bool
    ensures { IsTrue result ↔ (one ≡ other) }
{
    match (one, other) {
        (Defaults::Nothing, Defaults::Nothing) | (Defaults::Several, Defaults::Several) => true,
        (Defaults::One(row), Defaults::One(other_row)) => row == other_row,
        _ => false,
    }
}

// One turn more, behind the others: none where the last one has the same default methods.
fn add_turn(turns: &mut Vec<DefaultTurn>, turn: DefaultTurn) -> Result<(), AllocError>
    ensures { OnOk result (AddsTurn turn turns.old.items turns.new.items) }
{
    let before = match turns.last() {
        Some(last) => last.defaults,
        None => Defaults::Nothing,
    };
    if !are_same(before, turn.defaults) {
        turns.push(turn)?;
    }
    Ok(())
}

// Whether no stay behind this one begins at the same place.
fn is_last_there(stays: &[Stay], at: usize) -> bool
    requires { at < length stays.now }
    ensures { IsTrue result ↔ IsLastThere stays.now at }
{
    at + 1 == stays.len() || stays[at].start < stays[at + 1].start
}

// The turns of these stays.
fn turns_of(alloc: Global, stays: &[Stay]) -> Result<Vec<DefaultTurn>, AllocError>
    requires { IsNonDecreasingBy (λ s. s.start) stays.now }
    ensures { (rows : Rows) (places : List ℕ) (key : ℕ) → AreStays rows places key stays.now → IfOk result (λ turns. TellDefaults rows places key turns.items) }
{
    let mut turns = Vec::new(alloc);
    let mut furthest = Furthest::none();
    for at in 0..stays.len() {
        let stay = stays[at];
        furthest = furthest.with(stay);
        if is_last_there(stays, at) {
            let turn = DefaultTurn {
                at: stay.start,
                defaults: furthest.defaults(stay.start),
            };
            add_turn(&mut turns, turn)?;
        }
    }
    Ok(turns)
}

/// The default methods that the classes of a tree reach for a key, by their places, which the layout of the tree gives. Before the first turn they reach
/// none.
pub fn default_turns(
    alloc: Global,
    tree: &Tree,
    layout: Layout,
    key: u32,
) -> Result<Vec<DefaultTurn>, AllocError>
    requires { LaysOut tree.now layout }
    ensures { IfOk result (λ turns. TellDefaults tree.now layout.entry.places.now key turns.items) }
{
    let placed = PlacedTree { tree, layout };
    let stays = stays_of(alloc, placed, key)?;
    let turns = turns_of(alloc, stays.as_slice())?;
    Ok(turns)
}

/// The default methods that are reached at a place, by the turns of a key, which stand in order: those of the last turn at the place or before it. It takes
/// the logarithm of how many turns there are.
pub fn defaults_at(turns: &[DefaultTurn], place: u32) -> Defaults
    requires { IsNonDecreasingBy (λ t. t.at) turns.now }
    ensures { result ≡ defaults_at turns.now place }
{
    let after = turns.partition_point(|turn| turn.at <= place);
    if after > 0 {
        turns[after - 1].defaults
    } else {
        Defaults::Nothing
    }
}
