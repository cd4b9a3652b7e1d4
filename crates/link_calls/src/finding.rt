//! What is found for a call.
ghost use Rattle.std.specs.Prelude.{◌≡◌, ◌<◌, ℕ, IfOk, None, length};
ghost use Rattle.std.specs.List.Sorted.{IsNonDecreasingBy};
ghost use Rattle.class_rules.specs.Lookups.{OnPath};
ghost use Rattle.jim_ast.specs.declared.syntax.Mode.{Mode as AMode};
ghost use Rattle.jim_ast.specs.declared.syntax.Mode.TheVariants.{Special, Static, Virtual};
ghost use Rattle.object_ranges.specs.Parts.{AreInOrder};
ghost use Rattle.link_rules.specs.World.{World as AWorld};
ghost use Rattle.link_calls.specs.Known.{HasAtMost, IsFound};
ghost use Rattle.link_calls.specs.Receivers.{AreDefaultsOf, AreKnownDefaults, AreLeastsOf, ArePartsOf, AreReceivers};

use super::receivers::Receivers;
use super::row_set::RowSet;
use default_turns::DefaultTurn;
use link_classes::Classes;
use lists::NoMemory;
use number_sets::NumberTable;
use object_ranges::{Minima, Part, Selection};
use std::alloc::Global;

/// The rows of the methods that a call may run, each once, in the order of the classes that select them first; and whether a class on which the
/// call may look its method up has several default methods.
#[derive(Drop)]
pub struct Found {
    pub rows: Vec<u32>,
    pub several: bool,
}

impl Found {
    // The same again.
    pub(crate) fn copy(&self) -> Result<Self, NoMemory>
        ensures { (w : AWorld) (mode : AMode) (class key : ℕ) → IsFound w mode class key self.now → IfOk result (IsFound w mode class key) }
    {
        let rows = self.rows.clone()?;
        Ok(Found {
            rows,
            several: self.several,
        })
    }
}

// What is found where one class is looked at.
fn at_one(alloc: Global, row: Option<u32>, several: bool) -> Result<Found, NoMemory>
    ensures { IfOk result (λ found. HasAtMost row found.rows.items × (found.several ≡ several)) }
{
    let mut rows = Vec::new(alloc);
    if let Some(row) = row {
        rows.push(row)?;
    }
    Ok(Found { rows, several })
}

// What a static call runs: what is found along the parents.
pub(crate) fn by_path(
    alloc: Global,
    classes: &Classes,
    class: u32,
    key: u32,
) -> Result<Found, NoMemory>
    requires { class < length classes.now.world.classes }
    ensures { IfOk result (IsFound classes.now.world Static class key) }
{
    at_one(alloc, classes.tree().on_path(class, key), false)
}

// What a special call runs where its class has no method along its parents: the default method that it reaches, if there is one.
fn by_defaults(
    alloc: Global,
    receivers: &Receivers,
    turns: &[DefaultTurn],
    class: u32,
) -> Result<Found, NoMemory>
    requires class { class < length receivers.now.layout.places.now }
    requires turns { IsNonDecreasingBy (λ t. t.at) turns.now }
    ensures { (w : AWorld) (key : ℕ) → AreReceivers w receivers.now → AreDefaultsOf w receivers.now key turns.now → OnPath w.rows class key None
        → IfOk result (IsFound w Special class key) }
{
    match receivers.select(turns, class) {
        Selection::Method(row) => at_one(alloc, Some(row), false),
        Selection::Several => at_one(alloc, None, true),
        Selection::Nothing => at_one(alloc, None, false),
    }
}

// What a special call runs: the method along the parents of the class that it names, or else what the turns of default methods tell. These are worked out
// once for a key.
pub(crate) fn by_name(
    alloc: Global,
    classes: &Classes,
    receivers: &Receivers,
    defaults: &mut NumberTable<Vec<DefaultTurn>>,
    class: u32,
    key: u32,
) -> Result<Found, NoMemory>
    requires class { class < length classes.now.world.classes }
    requires receivers { AreReceivers classes.now.world receivers.now }
    requires defaults { AreKnownDefaults classes.now.world receivers.now defaults.old }
    ensures found { IfOk result (IsFound classes.now.world Special class key) }
    ensures kept { AreKnownDefaults classes.now.world receivers.now defaults.new }
{
    if let Some(row) = classes.tree().on_path(class, key) {
        return at_one(alloc, Some(row), false);
    }
    if let Some(turns) = defaults.get(key) {
        return by_defaults(alloc, receivers, turns.as_slice(), class);
    }
    let turns = receivers.defaults(alloc, classes, key)?;
    let found = by_defaults(alloc, receivers, turns.as_slice(), class)?;
    defaults.put(key, turns)?;
    Ok(found)
}

// What a call on an object runs: what the objects below the class select. It takes a search for each part of the key that selects something, or for each
// span of places below the class where these are fewer; and then time with the choices, one for each of these parts in which an object below may stand,
// and with the logarithm of how many there are.
pub(crate) fn by_objects(
    alloc: Global,
    receivers: &Receivers,
    parts: &[Part],
    leasts: &Minima,
    class: u32,
) -> Result<Found, NoMemory>
    requires class { (w : AWorld) × AreReceivers w receivers.now × (class < length w.rows.classes) }
    requires parts { AreInOrder parts.now }
    requires leasts { AreLeastsOf receivers.now class leasts.now }
    ensures { (w : AWorld) (key : ℕ) → AreReceivers w receivers.now → ArePartsOf w receivers.now key parts.now → IfOk result (IsFound w Virtual class key) }
{
    let choices = receivers.chosen(alloc, parts, leasts, class)?;
    let mut rows = RowSet::new(alloc);
    let mut several = false;
    for choice in choices.as_slice() {
        match choice.selection {
            Selection::Method(row) => rows.add(row)?,
            Selection::Several => several = true,
            Selection::Nothing => {}
        }
    }
    Ok(Found {
        rows: rows.into_vec(),
        several,
    })
}
