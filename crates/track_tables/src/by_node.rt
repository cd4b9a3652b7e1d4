//! The entries of a table by the nodes at which they have a weight.
ghost use Rattle.std.specs.Prelude.{◌↔◌, ◌⊎◌, ℕ, IfOk, OnOk};
ghost use Rattle.auto_table.specs.declared.entry.Entry.{Entry as AnEntry};
ghost use Rattle.auto_table.specs.Cells.{AreMeant};
ghost use Rattle.lists.specs.Lists.{Has};
ghost use Rattle.lists.specs.declared.groups.Keyed.{Keyed as AKeyed};
ghost use Rattle.track_tables.specs.ByNode.{AreByNode, AreCells, IsCellOf};
ghost use Rattle.weight_laws.specs.Rel.{rel_domain};

use auto_table::{Entry, Reached, Table};
use lists::{Groups, Keyed, NoMemory};
use std::alloc::Global;
use weight_laws::Rel;

/// Puts in the entry, whose row this is, with each node at which it has a weight.
fn add_row(
    table: &Table<Rel>,
    entry: Entry,
    cells: &mut Vec<Keyed<u32, Entry>>,
) -> Result<(), NoMemory>
    ensures { OnOk result ((cell : AKeyed ℕ AnEntry) → Has cells.new.items cell ↔ (Has cells.old.items cell ⊎ IsCellOf table.now entry cell)) }
{
    let row = table.row(entry);
    for reached in row {
        cells.push(Keyed {
            key: reached.node,
            item: entry,
        })?;
    }
    Ok(())
}

/// Each entry of the table with each node at which it has a weight.
fn cells_of(alloc: Global, table: &Table<Rel>) -> Result<Vec<Keyed<u32, Entry>>, NoMemory>
    ensures meant { IfOk result (λ _. AreMeant rel_domain table.now) }
    ensures cells { IfOk result (λ cells. AreCells table.now cells.items) }
{
    let entries = table.entries();
    let mut cells = Vec::new(alloc);
    for entry in entries {
        add_row(table, *entry, &mut cells)?;
    }
    Ok(cells)
}

/// The entries of the table by the nodes at which they have a weight. The row of each is gone over once. Want of memory is the only refusal.
pub fn by_node(alloc: Global, table: &Table<Rel>) -> Result<Groups<u32, Entry>, NoMemory>
    ensures { IfOk result (AreByNode table.now) }
{
    let cells = cells_of(alloc, table)?;
    Groups::of(alloc, &cells)
}
