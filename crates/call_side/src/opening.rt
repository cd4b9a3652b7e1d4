//! With which calls the words at nodes begin.
ghost use Rattle.std.specs.Prelude.{◌≡◌, OnOk, IfOk};
ghost use Rattle.lists.specs.Lists.{Has};
ghost use Rattle.auto_table.specs.declared.entry.Entry.{Entry as AnEntry};
ghost use Rattle.auto_table.specs.declared.row.Linked.{Linked as ALink};
ghost use Rattle.auto_table.specs.declared.row.Reached.{Reached as AReached};
ghost use Rattle.call_side.specs.declared.opening.Opening.{Opening as AnOpening};
ghost use Rattle.call_side.specs.Openings.{AreOpened, begins_common, first_of as first_by, opening_of};
ghost use Rattle.weight_laws.specs.declared.reach.Reach.{Reach as AReach};

use super::numbers::COMMON;
use auto_table::{Entry, Linked, Reached, Table};
use lists::NoMemory;
use std::alloc::Global;
use weight_laws::Reach;

/// Words at the node begin with the mark; where none is told, they may begin with any, or be empty.
#[derive(Clone, Copy, Debug, PartialEq, Eq)]
pub struct Opening {
    pub first: Option<u32>,
    pub node: u32,
}

/// The first mark of the words of an entry.
fn first_of(entry: Entry) -> Option<u32>
    ensures { result ≡ first_by entry }
{
    match entry {
        Entry::Base(_) => None,
        Entry::Pushed { node: _, mark } => Some(mark),
    }
}

/// Puts an opening for each node of a row last.
fn add_row(
    openings: &mut Vec<Opening>,
    first: Option<u32>,
    row: &[Reached<Reach>],
) -> Result<(), NoMemory>
    ensures kept { OnOk result ((o : AnOpening) → Has openings.old.items o → Has openings.new.items o) }
    ensures there { OnOk result ((x : AReached AReach) → Has row.now x → Has openings.new.items (opening_of first x.node)) }
{
    for reached in row {
        openings.push(Opening {
            first,
            node: reached.node,
        })?;
    }
    Ok(())
}

/// Puts an opening for each of the entries that links lead to and each node of a row last.
fn add_through(
    openings: &mut Vec<Opening>,
    links: &[Linked<Reach>],
    row: &[Reached<Reach>],
) -> Result<(), NoMemory>
    ensures kept { OnOk result ((o : AnOpening) → Has openings.old.items o → Has openings.new.items o) }
    ensures there { OnOk result ((link : ALink AReach) → Has links.now link → (x : AReached AReach) → Has row.now x → Has openings.new.items (opening_of (first_by link.parent) x.node)) }
{
    for linked in links {
        add_row(openings, first_of(linked.parent), row)?;
    }
    Ok(())
}

/// Whether the common mark is in front of an entry's words.
fn is_common(entry: Entry) -> bool
    ensures { result ≡ begins_common entry }
{
    match entry {
        Entry::Base(_) => false,
        Entry::Pushed { node: _, mark } => mark == COMMON,
    }
}

/// Puts the openings of an entry last. Where the common mark is in front, they are those of the entries that links lead to.
fn add_entry(
    openings: &mut Vec<Opening>,
    table: &Table<Reach>,
    entry: Entry,
) -> Result<(), NoMemory>
    ensures kept { OnOk result ((o : AnOpening) → Has openings.old.items o → Has openings.new.items o) }
    ensures opened { OnOk result (AreOpened table.now entry openings.new.items) }
{
    let row = table.row(entry);
    let common = is_common(entry);
    if common {
        add_through(openings, table.parents(entry), row)
    } else {
        add_row(openings, first_of(entry), row)
    }
}

/// The openings of a table.
pub fn openings(alloc: Global, table: &Table<Reach>) -> Result<Vec<Opening>, NoMemory>
    ensures { IfOk result (λ openings. (entry : AnEntry) → AreOpened table.now entry openings.items) }
{
    let mut openings = Vec::new(alloc);
    for entry in table.entries() {
        add_entry(&mut openings, table, *entry)?;
    }
    Ok(openings)
}
