ghost use Rattle.std.specs.Prelude.{◌≡◌, ℕ, ◌≤◌, ◌++◌, ◌∷◌, [], OnOk, IfOk};
ghost use Rattle.auto_table.specs.declared.entry.Entry.TheVariants.{Base, Pushed};
ghost use Rattle.auto_table.specs.Cells.{weight_at, AreMeant, IsBlank};
ghost use Rattle.post_star.specs.declared.rise.Item.TheVariants.{At};
ghost use Rattle.post_star.specs.Measures.{work_left};
ghost use Rattle.post_star.specs.Readings.{IsTableAny};
ghost use Rattle.post_star.specs.Sweeps.{AreBegun, AreEntriesAt, IsSumAtBases, IsSweeping, used_scope};

use super::rise::{Item, Rising};
use auto_table::{Entry, Table};
use lists::NoMemory;
use std::alloc::Global;
use weight_laws::Weight;

/// The weights with which these entries have the node: each begins a reading of it.
fn begin<W: Weight>(
    table: &Table<W>,
    sums: &mut Rising<W>,
    node: u32,
    entries: &[Entry],
) -> Result<(), NoMemory>
    requires meant { AreMeant W.domain table.now }
    requires from { AreEntriesAt W.domain table.now node entries.now }
    requires blank { IsBlank W.domain sums.old.table }
    requires empty { sums.old.items.items ≡ [] }
    ensures sweeping { OnOk result (IsSweeping W.domain table.now node sums.new.table sums.new.items.items) }
    ensures begun { OnOk result (AreBegun W.domain table.now node sums.new.table) }
{
    for entry in entries {
        sums.rise(*entry, node, table.at(*entry, node))?;
    }
    Ok(())
}

/// Takes the sum of a pushed entry on to its parents.
fn climb<W: Weight>(
    table: &Table<W>,
    sums: &mut Rising<W>,
    node: u32,
    pushed: u32,
    mark: u32,
) -> Result<(), NoMemory>
    requires sweeping { IsSweeping W.domain table.now node sums.old.table (sums.old.items.items ++ At (Pushed pushed mark) node ∷ []) }
    requires begun { AreBegun W.domain table.now node sums.old.table }
    ensures sweeping { OnOk result (IsSweeping W.domain table.now node sums.new.table sums.new.items.items) }
    ensures begun { OnOk result (AreBegun W.domain table.now node sums.new.table) }
    ensures spent { OnOk result (work_left W.domain (used_scope table.now node) sums.new.table sums.new.items.items ≤ work_left W.domain (used_scope table.now node) sums.old.table sums.old.items.items) }
{
    let entry = Entry::Pushed { node: pushed, mark };
    let so_far = sums.table.at(entry, node);
    let parents = table.parents(entry);
    for linked in parents {
        sums.rise(linked.parent, node, linked.weight.extend(so_far))?;
    }
    Ok(())
}

/// Works on one item, which has left the list before. A base ends its readings: no link of it is followed.
fn go_on<W: Weight>(
    table: &Table<W>,
    sums: &mut Rising<W>,
    node: u32,
    item: Item,
) -> Result<(), NoMemory>
    requires sweeping { IsSweeping W.domain table.now node sums.old.table (sums.old.items.items ++ item ∷ []) }
    requires begun { AreBegun W.domain table.now node sums.old.table }
    ensures sweeping { OnOk result (IsSweeping W.domain table.now node sums.new.table sums.new.items.items) }
    ensures begun { OnOk result (AreBegun W.domain table.now node sums.new.table) }
    ensures spent { OnOk result (work_left W.domain (used_scope table.now node) sums.new.table sums.new.items.items ≤ work_left W.domain (used_scope table.now node) sums.old.table sums.old.items.items) }
{
    match item {
        Item::At { entry, node: _ } => match entry {
            Entry::Base(_) => Ok(()),
            Entry::Pushed { node: pushed, mark } => climb(table, sums, node, pushed, mark),
        },
        Item::Between { .. } => Ok(()),
    }
}

/// The sum of a base; that of another entry is none.
fn sum_of_base<W: Weight>(sums: &Table<W>, node: u32, entry: Entry) -> W
    ensures base { (b : ℕ) → entry ≡ Base b → result ≡ weight_at W.domain sums.now (Base b) node }
    ensures other { (pushed mark : ℕ) → entry ≡ Pushed pushed mark → result ≡ W.domain.zero }
{
    match entry {
        Entry::Base(_) => sums.at(entry, node),
        Entry::Pushed { .. } => W::zero(),
    }
}

/// The combination of the sums of all bases.
fn sum_at_bases<W: Weight>(sums: &Table<W>, node: u32) -> W
    ensures { IsSumAtBases W.domain sums.now node result }
{
    let entries = sums.entries();
    let mut sum = W::zero();
    for entry in entries {
        sum = sum.combine(sum_of_base(sums, node, *entry));
    }
    sum
}

/// Takes the weights of the node up to the bases: the sums of all entries, where nothing rose before.
fn sum_up<W: Weight>(
    table: &Table<W>,
    sums: &mut Rising<W>,
    node: u32,
    entries: &[Entry],
) -> Result<(), NoMemory>
    requires meant { AreMeant W.domain table.now }
    requires from { AreEntriesAt W.domain table.now node entries.now }
    requires blank { IsBlank W.domain sums.old.table }
    requires empty { sums.old.items.items ≡ [] }
    ensures sweeping { OnOk result (IsSweeping W.domain table.now node sums.new.table []) }
    ensures begun { OnOk result (AreBegun W.domain table.now node sums.new.table) }
{
    begin(table, sums, node, entries)?;
    while let Some(item) = sums.items.pop_front() {
        go_on(table, sums, node, item)?;
    }
    Ok(())
}

/// The combination of the weights of all readings of the node with any word, of any table. Links may form circles: a
/// list of what still goes on ends by the heights.
pub fn any_value<W: Weight>(alloc: Global, table: &Table<W>, node: u32) -> Result<W, NoMemory>
    ensures { IfOk result (λ v. IsTableAny W.domain table.now node v) }
{
    any_value_from(alloc, table, node, table.entries())
}

/// The same, by entries among which are all that have the node: who looks them up by the node spares a way over all entries.
pub fn any_value_from<W: Weight>(
    alloc: Global,
    table: &Table<W>,
    node: u32,
    entries: &[Entry],
) -> Result<W, NoMemory>
    requires meant { AreMeant W.domain table.now }
    requires from { AreEntriesAt W.domain table.now node entries.now }
    ensures { IfOk result (λ v. IsTableAny W.domain table.now node v) }
{
    let mut sums = Rising::new(alloc);
    sum_up(table, &mut sums, node, entries)?;
    Ok(sum_at_bases(&sums.table, node))
}
