//! Rows of cells, in which each cell is found by its key.
ghost use Rattle.std.specs.Prelude.{◌≡◌, ◌<◌, ◌≤◌, ◌-◌, ◌++◌, ◌∷◌, [], None, Some, length, slice_get, slice_set, IfSome, OnErr, OnOk};
ghost use Rattle.auto_table.specs.Grids.{HasPlace, row_at};
ghost use Rattle.lists.specs.Lists.{Has};

use lists::{Key, NoMemory, Numbered};
use std::alloc::Global;
use std::marker::Model;

/// A row gets room for so many cells with its first.
const FIRST: usize = 8;

/// Rows of cells by number, and the place of each cell: its index in its row, by its key.
#[derive(Drop)]
pub struct Grid<S: Key, X: Copy> {
    alloc: Global,
    rows: Vec<Vec<X>>,
    keys: Numbered<S>,
    places: Vec<usize>,
}

impl<S: Key, X: Copy> Model for Grid<S, X> {
    ghost use Rattle.std.specs.Prelude.{◌≡◌, ◌-◌, length, map};
    ghost use Rattle.auto_table.specs.Grids.{Cast};

    ghost Value = { Cast S X };

    ghost view = { λ g. record { rows = map (λ v. v.items) g.rows.items; keys = g.keys.keys; places = g.places.items; room = g.rows.cap - g.rows.len } };

    ghost invariant = { λ g. length g.places.items ≡ length g.keys.keys };
}

impl<S: Key, X: Copy> Grid<S, X> {
    /// No rows. Takes no memory.
    pub fn new(alloc: Global) -> Self
        ensures rows { result.rows ≡ [] }
        ensures keys { result.keys ≡ [] }
        ensures places { result.places ≡ [] }
    {
        Grid {
            alloc,
            rows: Vec::new(alloc),
            keys: Numbered::new(alloc),
            places: Vec::new(alloc),
        }
    }

    /// The cells of a row.
    pub fn row(&self, row: u32) -> &[X]
        requires { row < length self.now.rows }
        ensures { result.now ≡ row_at self.now.rows row }
    {
        self.rows[row as usize].as_slice()
    }

    /// The place of the cell with the key, if there is one.
    pub fn find(&self, key: S) -> Option<usize>
        ensures found { IfSome result (λ place. HasPlace self.now.keys self.now.places key place) }
        ensures missed { result ≡ None → Has self.now.keys key → ⊥ }
    {
        match self.keys.find(key) {
            Some(number) => Some(self.places[number as usize]),
            None => None,
        }
    }

    /// The cell at a place of a row.
    pub fn read(&self, row: u32, place: usize) -> X
        requires row { row < length self.now.rows }
        requires place { place < length (row_at self.now.rows row) }
        ensures { slice_get (row_at self.now.rows row) place ≡ Some result }
    {
        self.rows[row as usize][place]
    }

    /// Puts a cell in the place of another one. Takes no memory.
    pub fn write(&mut self, row: u32, place: usize, cell: X)
        requires row { row < length self.old.rows }
        requires place { place < length (row_at self.old.rows row) }
        ensures { self.new ≡ record self.old { rows = slice_set self.old.rows row (slice_set (row_at self.old.rows row) place cell) } }
    {
        self.rows[row as usize][place] = cell;
    }

    /// Makes room for so many rows more.
    pub fn room_for(&mut self, more: usize) -> Result<(), NoMemory>
        ensures room { OnOk result (more ≤ self.new.room) }
        ensures still { self.new ≡ record self.old { room = self.new.room } }
    {
        self.rows.reserve(more)
    }

    /// Puts an empty row last, for which there is room. Takes no memory.
    pub fn push_row(&mut self)
        requires { 0 < self.old.room }
        ensures { self.new ≡ record self.old { rows = self.old.rows ++ [] ∷ []; room = self.old.room - 1 } }
    {
        let row = Vec::new(self.alloc);
        self.rows.push_reserved(row);
    }

    /// Puts a row last that has one cell, for which there is room. After want of memory all is as before.
    pub fn push_new(&mut self, key: S, cell: X) -> Result<(), NoMemory>
        requires room { 0 < self.old.room }
        requires new { Has self.old.keys key → ⊥ }
        ensures ok { OnOk result (self.new ≡ record self.old { rows = self.old.rows ++ (cell ∷ []) ∷ []; keys = self.old.keys ++ key ∷ []; places = self.old.places ++ 0 ∷ []; room = self.old.room - 1 }) }
        ensures err { OnErr result (self.new ≡ self.old) }
    {
        let mut row = Vec::with_capacity(self.alloc, FIRST)?;
        row.push_reserved(cell);
        self.keys.room()?;
        self.places.reserve(1)?;
        self.places.push_reserved(0);
        let _ = self.keys.put(key);
        self.rows.push_reserved(row);
        Ok(())
    }

    /// Puts a cell last into a row. After want of memory all is as before.
    pub fn push(&mut self, row: u32, key: S, cell: X) -> Result<(), NoMemory>
        requires row { row < length self.old.rows }
        requires new { Has self.old.keys key → ⊥ }
        ensures ok { OnOk result (self.new ≡ record self.old { rows = slice_set self.old.rows row (row_at self.old.rows row ++ cell ∷ []); keys = self.old.keys ++ key ∷ []; places = self.old.places ++ length (row_at self.old.rows row) ∷ [] }) }
        ensures err { OnErr result (self.new ≡ self.old) }
    {
        self.keys.room()?;
        self.places.reserve(1)?;
        let cells = &mut self.rows[row as usize];
        let place = cells.len();
        cells.reserve(if place == 0 { FIRST } else { 1 })?;
        cells.push_reserved(cell);
        self.places.push_reserved(place);
        let _ = self.keys.put(key);
        Ok(())
    }
}
