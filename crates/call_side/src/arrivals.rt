//! The nodes of a table that some word is at, all at once.
ghost use Rattle.std.specs.Prelude.{◌≡◌, ◌<◌, ◌^◌, ◌↔◌, ◌⊎◌, ◌++◌, ℕ, List, Ok, false, true, length, IfOk, IsTrue, OnOk};
ghost use Rattle.auto_table.specs.declared.entry.Entry.{Entry as AnEntry};
ghost use Rattle.auto_table.specs.Cells.{IsUsed};
ghost use Rattle.lists.specs.Lists.{Has};
ghost use Rattle.call_side.specs.Arrivals.{AreLive, GoesDown, HasOwn, IsReadAt};
ghost use Rattle.call_side.specs.Coded.{node_count};
ghost use Rattle.weight_laws.specs.Reach.{reach_domain};

use super::numbers::NODES;
use auto_table::{Entry, Table};
use indexmap::IndexSet;
use lists::NoMemory;
use std::alloc::Global;
use weight_laws::Reach;

/// Whether the entry is a base, or has a link to one of those that are known to lead to a base.
fn goes_down(table: &Table<Reach>, live: &IndexSet<Entry>, entry: Entry) -> bool
    ensures { IsTrue result ↔ GoesDown table.now live.now.keys entry }
{
    let parents = table.parents(entry);
    match entry {
        Entry::Base(_) => true,
        Entry::Pushed { node: _, mark: _ } => {
            for linked in parents {
                if live.contains(&linked.parent) {
                    return true;
                }
            }
            false
        }
    }
}

/// Puts the entry in, if it leads to a base by those that are there.
fn try_entry(table: &Table<Reach>, live: &mut IndexSet<Entry>, entry: Entry) -> Result<(), NoMemory>
    ensures sound { OnOk result (AreLive table.now live.old.keys → AreLive table.now live.new.keys) }
    ensures behind { OnOk result ((behind : List AnEntry) × (live.new.keys ≡ live.old.keys ++ behind)) }
    ensures there { OnOk result (GoesDown table.now live.old.keys entry → Has live.new.keys entry) }
{
    if goes_down(table, live, entry) {
        live.insert(entry)?;
    }
    Ok(())
}

/// Looks at each entry once; `false` says that none came in. Where an entry stands behind one that it leads to, one look finds all.
fn sweep(table: &Table<Reach>, live: &mut IndexSet<Entry>) -> Result<bool, NoMemory>
    ensures sound { OnOk result (AreLive table.now live.old.keys → AreLive table.now live.new.keys) }
    ensures few { OnOk result (length live.new.keys < 2 ^ 63) }
    ensures more { result ≡ Ok true → length live.old.keys < length live.new.keys }
    ensures done { result ≡ Ok false → (entry : AnEntry) → IsUsed reach_domain table.now entry → GoesDown table.now live.new.keys entry → Has live.new.keys entry }
{
    let before = live.len();
    let entries = table.entries();
    for entry in entries {
        try_entry(table, live, *entry)?;
    }
    Ok(live.len() > before)
}

/// The entries that lead to a base.
fn live_entries(alloc: Global, table: &Table<Reach>) -> Result<IndexSet<Entry>, NoMemory>
    ensures sound { IfOk result (λ live. AreLive table.now live.keys) }
    ensures done { IfOk result (λ live. (entry : AnEntry) → IsUsed reach_domain table.now entry → GoesDown table.now live.keys entry → Has live.keys entry) }
{
    let mut live = IndexSet::new(alloc);
    while sweep(table, &mut live)? {}
    Ok(live)
}

/// Puts a node in, unless split marks brought it.
fn add_node(nodes: &mut IndexSet<u32>, node: u32) -> Result<(), NoMemory>
    ensures { OnOk result ((n : ℕ) → Has nodes.new.keys n ↔ (Has nodes.old.keys n ⊎ ((n ≡ node) × (n < node_count)))) }
{
    if node < NODES {
        nodes.insert(node)?;
    }
    Ok(())
}

/// Puts the nodes of an entry in, but for those that split marks brought.
fn add_nodes(table: &Table<Reach>, entry: Entry, nodes: &mut IndexSet<u32>) -> Result<(), NoMemory>
    ensures { OnOk result ((n : ℕ) → Has nodes.new.keys n ↔ (Has nodes.old.keys n ⊎ HasOwn node_count table.now entry n)) }
{
    let row = table.row(entry);
    for reached in row {
        add_node(nodes, reached.node)?;
    }
    Ok(())
}

/// The nodes that some word is at, but for those that split marks brought.
pub fn arrivals(alloc: Global, table: &Table<Reach>) -> Result<IndexSet<u32>, NoMemory>
    ensures { IfOk result (λ nodes. (n : ℕ) → Has nodes.keys n ↔ (IsReadAt table.now n × (n < node_count))) }
{
    let live = live_entries(alloc, table)?;
    let entries = live.as_slice();
    let mut nodes = IndexSet::new(alloc);
    for entry in entries {
        add_nodes(table, *entry, &mut nodes)?;
    }
    Ok(nodes)
}
