//! How words are read from an entry of a table, mark by mark.
ghost use Rattle.std.specs.Prelude.{◌≡◌, ◌≢◌, ◌↔◌, ℕ, IfOk, map};
ghost use Rattle.auto_table.specs.declared.entry.Entry.{Entry as AnEntry};
ghost use Rattle.auto_table.specs.declared.entry.Entry.TheVariants.{Base};
ghost use Rattle.auto_table.specs.Cells.{Cells, link_at};
ghost use Rattle.lists.specs.Lists.{Has};
ghost use Rattle.weight_laws.specs.declared.reach.Reach.{Reach as AReach};
ghost use Rattle.weight_laws.specs.Reach.{reach_domain};
ghost use Rattle.call_side.specs.Words.{Moves};

use super::indexed::IndexedBases;
use auto_table::{Entry, Linked, Table};
use lists::NoMemory;
use post_star::BaseStep;
use std::alloc::Global;
use weight_laws::Reach;

// The bases that the steps lead to, as entries.
fn belows(alloc: Global, steps: &[BaseStep]) -> Result<Vec<Entry>, NoMemory>
    ensures { IfOk result (λ entries. entries.items ≡ map (λ step. Base step.below) steps.now) }
{
    steps
        .iter()
        .map(|step| Entry::Base(step.below))
        .collect(alloc)
}

// The entries that the links lead to.
fn parents_in(alloc: Global, links: &[Linked<Reach>]) -> Result<Vec<Entry>, NoMemory>
    ensures { IfOk result (λ entries. entries.items ≡ map (λ link. link.parent) links.now) }
{
    links.iter().map(|link| link.parent).collect(alloc)
}

// The marks of the steps.
fn marks_in(alloc: Global, steps: &[BaseStep]) -> Result<Vec<u32>, NoMemory>
    ensures { IfOk result (λ marks. marks.items ≡ map (λ step. step.mark) steps.now) }
{
    steps.iter().map(|step| step.mark).collect(alloc)
}

// The entries that the links of an entry lead to.
fn parents(alloc: Global, table: &Table<Reach>, entry: Entry) -> Result<Vec<Entry>, NoMemory>
    ensures { IfOk result (λ entries. (parent : AnEntry) → Has entries.items parent ↔ (link_at reach_domain table.now entry parent ≢ reach_domain.zero)) }
{
    parents_in(alloc, table.parents(entry))
}

/// The entries that a mark leads to.
pub fn nexts(
    alloc: Global,
    bases: &IndexedBases,
    table: &Table<Reach>,
    entry: Entry,
    mark: u32,
) -> Result<Vec<Entry>, NoMemory>
    ensures { IfOk result (λ entries. (next : AnEntry) → Has entries.items next ↔ Moves bases.now.steps table.now entry mark next) }
{
    match entry {
        Entry::Base(base) => belows(alloc, bases.steps_by(base, mark)),
        Entry::Pushed { node: _, mark: own } => {
            if own != mark {
                return Ok(Vec::new(alloc));
            }
            parents(alloc, table, entry)
        }
    }
}

/// The marks that lead on from an entry, maybe with others.
pub fn marks(alloc: Global, bases: &IndexedBases, entry: Entry) -> Result<Vec<u32>, NoMemory>
    ensures { IfOk result (λ marks. (t : Cells AReach) (mark : ℕ) (next : AnEntry) → Moves bases.now.steps t entry mark next → Has marks.items mark) }
{
    match entry {
        Entry::Base(base) => marks_in(alloc, bases.steps_from(base)),
        Entry::Pushed { node: _, mark } => Vec::from_slice(alloc, &[mark]),
    }
}
