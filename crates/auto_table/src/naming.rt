//! Entries get numbers, and rows with them.
ghost use Rattle.std.specs.Prelude.{◌≡◌, ◌<◌, ◌≤◌, OnOk};
ghost use Rattle.auto_table.specs.Grids.{Cast};
ghost use Rattle.auto_table.specs.Naming.{IsNamed};

use super::entry::Entry;
use super::grid::Grid;
use super::row::{Linked, Reached};
use super::spot::{Joint, Spot};
use lists::{NoMemory, Numbered};

/// Makes room for so many entries more.
pub fn room_for<W: Copy>(
    names: &mut Numbered<Entry>,
    weights: &mut Grid<Spot, Reached<W>>,
    links: &mut Grid<Joint, Linked<W>>,
    more: u32,
) -> Result<(), NoMemory>
    ensures names { OnOk result (more ≤ names.new.room) }
    ensures weights { OnOk result (more ≤ weights.new.room) }
    ensures links { OnOk result (more ≤ links.new.room) }
    ensures same_names { names.new.keys ≡ names.old.keys }
    ensures same_weights { weights.new ≡ record weights.old { room = weights.new.room } }
    ensures same_links { links.new ≡ record links.old { room = links.new.room } }
{
    names.room_for(more)?;
    weights.room_for(more as usize)?;
    links.room_for(more as usize)?;
    Ok(())
}

/// Gives the entry a number and rows, where it has none and there is room. Takes no memory.
pub fn name<W: Copy>(
    names: &mut Numbered<Entry>,
    weights: &mut Grid<Spot, Reached<W>>,
    links: &mut Grid<Joint, Linked<W>>,
    entry: Entry,
)
    requires names { 0 < names.old.room }
    requires weights { 0 < weights.old.room }
    requires links { 0 < links.old.room }
    ensures named { IsNamed entry names.old.keys names.new.keys weights.old weights.new links.old links.new }
{
    if let Some(_) = names.find(entry) {
        return;
    }
    weights.push_row();
    links.push_row();
    let _ = names.put(entry);
}
