//! Selection of methods, with the default methods of some keys worked out beforehand.
ghost use Rattle.std.specs.Prelude.{◌≡◌, ◌<◌, IfOk, OnOk, length};
ghost use Rattle.class_rules.specs.Lookups.{Resolve};
ghost use Rattle.class_tree.specs.Layouts.{LaysOut};
ghost use Rattle.default_turns.specs.Selections.{AreKeptTurns, AreSelections};

use super::holders::PlacedTree;
use super::turns::{DefaultTurn, default_turns, defaults_at};
use class_tree::{Defaults, Tree};
use number_sets::NumberTable;
use std::alloc::{AllocError, Global};

// So many interfaces with a method of a key are few: at each look-up a tree may go over them.
const FEW: usize = 4;

/// The default methods of some keys, worked out beforehand, by the places of classes: so a look-up takes no memory, and no longer where many interfaces have a
/// method of the key.
#[derive(Drop)]
pub struct Selections {
    places: Vec<u32>,
    turns: NumberTable<Vec<DefaultTurn>>,
}

// Works out the turns of a key, unless few interfaces have a method of it, or they are known.
fn add_key(
    alloc: Global,
    placed: PlacedTree<'_>,
    turns: &mut NumberTable<Vec<DefaultTurn>>,
    key: u32,
) -> Result<(), AllocError>
    requires laid { LaysOut placed.tree.now placed.layout }
    requires kept { AreKeptTurns placed.tree.now placed.layout.places.now turns.old }
    ensures { OnOk result (AreKeptTurns placed.entry.tree.now placed.entry.layout.places.now turns.new) }
{
    if placed.tree.holders(key).len() > FEW && turns.get(key).is_none() {
        let made = default_turns(alloc, placed.tree, placed.layout, key)?;
        turns.put(key, made)?;
    }
    Ok(())
}

impl Selections {
    /// Those of the keys of which more than four interfaces have a method. It takes the time and
    /// memory of [`default_turns`] for each of these.
    pub fn new(alloc: Global, tree: &Tree, keys: &[u32]) -> Result<Self, AllocError>
        ensures { IfOk result (AreSelections tree.now) }
    {
        let layout = tree.layout();
        let mut turns = NumberTable::new(alloc);
        for key in keys {
            add_key(alloc, PlacedTree { tree, layout }, &mut turns, *key)?;
        }
        let places = Vec::from_slice(alloc, layout.places)?;
        Ok(Selections { places, turns })
    }

    /// The row of the method that a call on an object of the class runs, as [`Tree::resolve`] gives
    /// it: the one along the parents, or else the one default method that the interfaces reached from
    /// the class have. For a key that is worked out it takes the logarithm of how many turns there
    /// are. The tree is the one that this was made from.
    pub fn resolve(&self, tree: &Tree, class: u32, key: u32) -> Option<u32>
        requires tree { AreSelections tree.now self.now }
        requires class { class < length tree.now.classes }
        ensures { Resolve tree.now class key result }
    {
        let Some(turns) = self.turns.get(key) else {
            return tree.resolve(class, key);
        };
        if let Some(row) = tree.on_path(class, key) {
            return Some(row);
        }
        match defaults_at(turns.as_slice(), self.places[class as usize]) {
            Defaults::One(row) => Some(row),
            Defaults::Nothing | Defaults::Several => None,
        }
    }
}
