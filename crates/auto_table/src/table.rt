//! The table of an automaton.
ghost use Rattle.std.specs.Prelude.{◌≡◌, ◌↔◌, ◌<◌, ◌^◌, ℕ, false, length, slice_get, IfOk, OnOk, OnErr, Ok, Some};
ghost use Rattle.auto_table.specs.declared.entry.Entry.{Entry as AnEntry};
ghost use Rattle.auto_table.specs.Cells.{weight_at, link_at, IsListed, AreMeant, IsBlank, IsRaised, IsRaisedLink, IsRow, AreParents};
ghost use Rattle.lists.specs.Lists.{Has};

use super::entry::Entry;
use super::grid::Grid;
use super::naming::{name, room_for};
use super::row::{Linked, Reached};
use super::spot::{Joint, Spot};
use lists::{NoMemory, Numbered};
use std::alloc::Global;
use std::marker::Model;
use weight_laws::Weight;

/// A weight for each pair of an entry and a node, and for each link from an entry to an entry. All are zero at first.
#[derive(Drop)]
pub struct Table<W: Weight> {
    /// The entries that have a weight, at a node or at a link from or to them, by number: that of their rows.
    names: Numbered<Entry>,
    weights: Grid<Spot, Reached<W>>,
    links: Grid<Joint, Linked<W>>,
}

impl<W: Weight> Model for Table<W> {
    ghost use Rattle.auto_table.specs.Cells.{Cells};

    ghost Value = { Cells W };

    ghost use Rattle.auto_table.specs.Inside.{IsTable};

    ghost view = { λ t. record { names = t.names.keys; reached = t.weights.rows; parents = t.links.rows } };

    ghost invariant = { λ t. IsTable W.domain (record { names = t.names.keys; reached = t.weights.rows; parents = t.links.rows }) t.weights.keys t.weights.places t.links.keys t.links.places };
}

impl<W: Weight> Table<W> {
    /// A table in which all weights are zero. It takes no memory.
    pub fn new(alloc: Global) -> Self
        ensures { IsBlank W.domain result }
    {
        Table {
            names: Numbered::new(alloc),
            weights: Grid::new(alloc),
            links: Grid::new(alloc),
        }
    }

    /// The number of the entry, which it has where it has a weight other than zero, at some node or at some link from or to it.
    pub fn number_of(&self, entry: Entry) -> Option<u32>
        ensures { (row : ℕ) → (result ≡ Some row) ↔ (slice_get self.now.names row ≡ Some entry) }
    {
        self.names.find(entry)
    }

    /// The weight of the entry with the number at the node, by one look-up.
    pub fn weight(&self, row: u32, node: u32) -> W
        ensures { (entry : AnEntry) → slice_get self.now.names row ≡ Some entry → result ≡ weight_at W.domain self.now entry node }
    {
        match self.weights.find(Spot { row, node }) {
            Some(place) => self.weights.read(row, place).weight,
            None => W::zero(),
        }
    }

    /// The weight of the link from the child with the number to the parent, by one look-up.
    pub fn link_weight(&self, row: u32, parent: Entry) -> W
        ensures { (child : AnEntry) → slice_get self.now.names row ≡ Some child → result ≡ link_at W.domain self.now child parent }
    {
        match self.links.find(Joint { row, parent }) {
            Some(place) => self.links.read(row, place).weight,
            None => W::zero(),
        }
    }

    /// The weight of the entry at the node.
    pub fn at(&self, entry: Entry, node: u32) -> W
        ensures { result ≡ weight_at W.domain self.now entry node }
    {
        match self.number_of(entry) {
            Some(row) => self.weight(row, node),
            None => W::zero(),
        }
    }

    /// The weight of the link from the child to the parent.
    pub fn link_at(&self, child: Entry, parent: Entry) -> W
        ensures { result ≡ link_at W.domain self.now child parent }
    {
        match self.number_of(child) {
            Some(row) => self.link_weight(row, parent),
            None => W::zero(),
        }
    }

    /// Combines the weight into that of the entry with the number at the node. `false` says that the old weight was already above.
    ///
    /// After want of memory the table is as before.
    pub fn raise_row(&mut self, row: u32, node: u32, weight: W) -> Result<bool, NoMemory>
        requires { row < length self.old.names }
        ensures exact { (entry : AnEntry) → slice_get self.old.names row ≡ Some entry → IfOk result (λ b. (b ≡ false) ↔ (W.domain.combine weight (weight_at W.domain self.old entry node) ≡ weight_at W.domain self.old entry node)) }
        ensures raised { (entry : AnEntry) → slice_get self.old.names row ≡ Some entry → OnOk result (IsRaised W.domain self.old self.new entry node weight) }
        ensures names { self.new.names ≡ self.old.names }
        ensures still { result ≡ Ok false → self.new ≡ self.old }
        ensures err { OnErr result (self.new ≡ self.old) }
    {
        let old = self.weight(row, node);
        weight.told();
        if weight.leq(old) {
            return Ok(false);
        }
        let cell = Reached {
            node,
            weight: old.combine(weight),
        };
        let spot = Spot { row, node };
        if let Some(place) = self.weights.find(spot) {
            self.weights.write(row, place, cell);
            return Ok(true);
        }
        self.weights.push(row, spot, cell)?;
        Ok(true)
    }

    // As `raise`, of an entry that has no number.
    fn begin(&mut self, entry: Entry, node: u32, weight: W) -> Result<bool, NoMemory>
        requires { Has self.old.names entry → ⊥ }
        ensures exact { IfOk result (λ b. (b ≡ false) ↔ (W.domain.combine weight (weight_at W.domain self.old entry node) ≡ weight_at W.domain self.old entry node)) }
        ensures raised { OnOk result (IsRaised W.domain self.old self.new entry node weight) }
        ensures still { result ≡ Ok false → self.new ≡ self.old }
        ensures err { OnErr result (self.new ≡ self.old) }
    {
        let old = W::zero();
        weight.told();
        if weight.leq(old) {
            return Ok(false);
        }
        let row = self.names.len() as u32;
        let cell = Reached {
            node,
            weight: old.combine(weight),
        };
        room_for(&mut self.names, &mut self.weights, &mut self.links, 1)?;
        self.weights.push_new(Spot { row, node }, cell)?;
        self.links.push_row();
        let _ = self.names.put(entry);
        Ok(true)
    }

    /// Combines the weight into that of the entry at the node. `false` says that the old weight was already above.
    ///
    /// After want of memory the table is as before.
    pub fn raise(&mut self, entry: Entry, node: u32, weight: W) -> Result<bool, NoMemory>
        ensures exact { IfOk result (λ b. (b ≡ false) ↔ (W.domain.combine weight (weight_at W.domain self.old entry node) ≡ weight_at W.domain self.old entry node)) }
        ensures raised { OnOk result (IsRaised W.domain self.old self.new entry node weight) }
        ensures still { result ≡ Ok false → self.new ≡ self.old }
        ensures err { OnErr result (self.new ≡ self.old) }
    {
        match self.number_of(entry) {
            Some(row) => self.raise_row(row, node, weight),
            None => self.begin(entry, node, weight),
        }
    }

    /// Combines the weight into that of the link from the child with the number. `false` says that the old weight was already above.
    ///
    /// After want of memory the table is as before.
    pub fn raise_above(&mut self, row: u32, parent: Entry, weight: W) -> Result<bool, NoMemory>
        requires { row < length self.old.names }
        ensures exact { (child : AnEntry) → slice_get self.old.names row ≡ Some child → IfOk result (λ b. (b ≡ false) ↔ (W.domain.combine weight (link_at W.domain self.old child parent) ≡ link_at W.domain self.old child parent)) }
        ensures raised { (child : AnEntry) → slice_get self.old.names row ≡ Some child → OnOk result (IsRaisedLink W.domain self.old self.new child parent weight) }
        ensures still { result ≡ Ok false → self.new ≡ self.old }
        ensures err { OnErr result (self.new ≡ self.old) }
    {
        let old = self.link_weight(row, parent);
        weight.told();
        if weight.leq(old) {
            return Ok(false);
        }
        let cell = Linked {
            parent,
            weight: old.combine(weight),
        };
        let joint = Joint { row, parent };
        if let Some(place) = self.links.find(joint) {
            self.links.write(row, place, cell);
            return Ok(true);
        }
        room_for(&mut self.names, &mut self.weights, &mut self.links, 1)?;
        self.links.push(row, joint, cell)?;
        name(&mut self.names, &mut self.weights, &mut self.links, parent);
        Ok(true)
    }

    // As `raise_link`, of a child that has no number.
    fn begin_link(&mut self, child: Entry, parent: Entry, weight: W) -> Result<bool, NoMemory>
        requires { Has self.old.names child → ⊥ }
        ensures exact { IfOk result (λ b. (b ≡ false) ↔ (W.domain.combine weight (link_at W.domain self.old child parent) ≡ link_at W.domain self.old child parent)) }
        ensures raised { OnOk result (IsRaisedLink W.domain self.old self.new child parent weight) }
        ensures still { result ≡ Ok false → self.new ≡ self.old }
        ensures err { OnErr result (self.new ≡ self.old) }
    {
        let old = W::zero();
        weight.told();
        if weight.leq(old) {
            return Ok(false);
        }
        let row = self.names.len() as u32;
        let cell = Linked {
            parent,
            weight: old.combine(weight),
        };
        room_for(&mut self.names, &mut self.weights, &mut self.links, 2)?;
        self.links.push_new(Joint { row, parent }, cell)?;
        self.weights.push_row();
        let _ = self.names.put(child);
        name(&mut self.names, &mut self.weights, &mut self.links, parent);
        Ok(true)
    }

    /// Combines the weight into that of the link. `false` says that the old weight was already above.
    ///
    /// After want of memory the table is as before.
    pub fn raise_link(&mut self, child: Entry, parent: Entry, weight: W) -> Result<bool, NoMemory>
        ensures exact { IfOk result (λ b. (b ≡ false) ↔ (W.domain.combine weight (link_at W.domain self.old child parent) ≡ link_at W.domain self.old child parent)) }
        ensures raised { OnOk result (IsRaisedLink W.domain self.old self.new child parent weight) }
        ensures still { result ≡ Ok false → self.new ≡ self.old }
        ensures err { OnErr result (self.new ≡ self.old) }
    {
        match self.number_of(child) {
            Some(row) => self.raise_above(row, parent, weight),
            None => self.begin_link(child, parent, weight),
        }
    }

    /// The entries that have a weight other than zero, at some node or at some link from or to them: each once.
    pub fn entries(&self) -> &[Entry]
        ensures listed { IsListed W.domain self.now result.now }
        ensures meant { AreMeant W.domain self.now }
    {
        self.names.keys()
    }

    /// Each node at which the entry has a weight other than zero, once.
    pub fn row(&self, entry: Entry) -> &[Reached<W>]
        ensures each { IsRow W.domain self.now entry result.now }
        ensures meant { AreMeant W.domain self.now }
    {
        match self.names.find(entry) {
            Some(row) => self.weights.row(row),
            None => &[],
        }
    }

    /// Each parent to which the child has a link of a weight other than zero, once.
    pub fn parents(&self, child: Entry) -> &[Linked<W>]
        ensures each { AreParents W.domain self.now child result.now }
        ensures meant { AreMeant W.domain self.now }
    {
        match self.names.find(child) {
            Some(row) => self.links.row(row),
            None => &[],
        }
    }
}
