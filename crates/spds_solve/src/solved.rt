//! What was solved, and what is read of it.
ghost use Rattle.std.specs.Prelude.{◌≡◌, ◌↔◌, ℕ, List, Some, map, slice_get, IfOk, IsTrue, OnOk};
ghost use Rattle.demand_set.specs.Demands.{DemandParts};
ghost use Rattle.link_rules.specs.Linked.{LinkedProgram};
ghost use Rattle.link_sites.specs.declared.place.Place.{Place};
ghost use Rattle.link_sites.specs.declared.site.Site.{Site};
ghost use Rattle.spds_rules.specs.declared.node.Node.{Node};
ghost use Rattle.spds_rules.specs.declared.store.StoreAt.{StoreAt};
ghost use Rattle.spds_rules.specs.Answers.{IsAnswered};
ghost use Rattle.spds_rules.specs.Demand.{Asked};
ghost use Rattle.spds_rules.specs.Systems.{Calls, Meets};
ghost use Rattle.spds_solve.specs.Holders.{AreHolders};
ghost use Rattle.spds_solve.specs.Holding.{AreHolding, IsAskedAt};
ghost use Rattle.spds_solve.specs.Solved.{AreMeets, AreOfBases, IsSolved};

use super::arrivals::{Arrival, Arrivals};
use super::holders::{Holders, by_cell};
use super::met::Met;
use super::mets::Mets;
use lists::{NoMemory, Numbered};
use spds_tables::{Met as Numbers, Parts, SiteTables, Size, share};
use std::alloc::Global;
use std::marker::Model;

/// The meets of a demand and the systems of its sites over all meets. Sites, nodes and stores are named by their numbers in the demand.
#[derive(Drop)]
pub struct Solved {
    parts: Parts,
    tables: Vec<SiteTables>,
    mets: Mets,
    arrivals: Arrivals,
    size: Size,
}

impl Model for Solved {
    ghost use Rattle.spds_solve.specs.Solved.{SolvedParts};

    ghost Value = { SolvedParts };

    ghost use Rattle.std.specs.Prelude.{map};
    ghost use Rattle.spds_solve.specs.Solved.{AreOfBases};

    ghost view = { λ s. record {
      field_cells = s.parts.field_cells.items;
      call_cells = s.parts.call_cells.items;
      places = s.parts.places;
      fields = map (λ t. t.fields) s.tables.items;
      calls = map (λ t. t.calls) s.tables.items;
      mets = s.mets;
      arrivals = s.arrivals;
    } };

    ghost invariant = { λ s. AreOfBases s.parts.bases s.tables.items };
}

impl Solved {
    /// What the search ended with.
    pub fn of(
        parts: Parts,
        tables: Vec<SiteTables>,
        mets: Mets,
        arrivals: Arrivals,
        size: Size,
    ) -> Self
        requires { AreOfBases parts.bases tables.items }
        ensures { result ≡ record { field_cells = parts.field_cells.items; call_cells = parts.call_cells.items; places = parts.places; fields = map (λ t. t.fields) tables.items; calls = map (λ t. t.calls) tables.items; mets = mets; arrivals = arrivals } }
    {
        Solved {
            parts,
            tables,
            mets,
            arrivals,
            size,
        }
    }

    /// Whether the node may hold an object of the site: the empty word leads from it to the site, and some call string is there. Takes no memory.
    pub fn holds(&self, site: u32, node: u32) -> bool
        ensures { (p : LinkedProgram) (q : Asked) (d : DemandParts) (o : Site) (n : Node) → IsSolved p q d self.now
            → slice_get d.sites site ≡ Some o → slice_get d.nodes node ≡ Some n → IsTrue result ↔ IsAnswered p q n o }
    {
        match self.tables.get(site as usize) {
            Some(tables) => {
                let cell = self.parts.call_cell(node);
                let is_there = self.arrivals.contains(Arrival { site, cell });
                is_there && tables.has_fields(self.parts.field_cell(node))
            }
            None => false,
        }
    }

    /// The sites by the cells to which they come, for `holding`. Made once, it costs time and memory for each site and cell to which it comes.
    pub fn holders(&self, alloc: Global) -> Result<Holders, NoMemory>
        ensures { IfOk result (λ h. AreHolders self.now h) }
    {
        by_cell(alloc, self.arrivals.as_slice())
    }

    /// The sites of which the node may hold objects. The time goes by those that come to its cell by call strings.
    pub fn holding(
        &self,
        alloc: Global,
        holders: &Holders,
        node: u32,
    ) -> Result<Numbered<u32>, NoMemory>
        requires { AreHolders self.now holders.now }
        ensures { IfOk result (λ found. AreHolding self.now node found.keys) }
    {
        let mut found = Numbered::new(alloc);
        for site in holders.sites.at(self.parts.call_cell(node)) {
            self.put_holding(*site, node, &mut found)?;
        }
        Ok(found)
    }

    // Puts the site in, if the node may hold an object of it.
    fn put_holding(&self, site: u32, node: u32, found: &mut Numbered<u32>) -> Result<(), NoMemory>
        ensures { OnOk result (IsAskedAt self.now node site found.old.keys found.new.keys) }
    {
        if self.holds(site, node) {
            found.add(site)?;
        }
        Ok(())
    }

    /// Whether an object of the one site may be stored into one of the other by the store. Takes no memory.
    pub fn meet(&self, object: u32, base: u32, store: u32) -> bool
        ensures { (p : LinkedProgram) (q : Asked) (d : DemandParts) (o b : Site) (s : StoreAt) → IsSolved p q d self.now
            → slice_get d.sites object ≡ Some o → slice_get d.sites base ≡ Some b → slice_get d.stores store ≡ Some s → IsTrue result ↔ Meets p q o b s }
    {
        self.mets.contains(Numbers {
            object,
            base,
            store,
        })
    }

    /// The meets, each with a call string, in an order in which each rests on those before it. Takes no memory.
    pub fn meets(&self) -> &[Met]
        ensures { (p : LinkedProgram) (q : Asked) (d : DemandParts) → IsSolved p q d self.now → AreMeets p q d result.now }
    {
        self.mets.as_slice()
    }

    /// How much the tables of all sites hold: a measure of the work that was done. No contract says how much it is.
    pub fn size(&self) -> Size {
        self.size
    }

    /// Whether an object of the one site may be at the first node, and one of the other at the second, under one call string.
    pub fn one_string(
        &self,
        alloc: Global,
        object: u32,
        a: u32,
        base: u32,
        b: u32,
    ) -> Result<bool, NoMemory>
        ensures { IfOk result (λ yes. (p : LinkedProgram) (q : Asked) (d : DemandParts) (o x : Site) (n m : Node) → IsSolved p q d self.now
            → slice_get d.sites object ≡ Some o → slice_get d.sites base ≡ Some x → slice_get d.nodes a ≡ Some n → slice_get d.nodes b ≡ Some m
            → IsTrue yes ↔ ((string : List Place) × Calls p q o n string × Calls p q x m string)) }
    {
        let Some(first) = self.tables.get(object as usize) else {
            return Ok(false);
        };
        let Some(second) = self.tables.get(base as usize) else {
            return Ok(false);
        };
        let (a, b) = (self.parts.call_cell(a), self.parts.call_cell(b));
        let shared = share(alloc, &self.parts.bases, first, a, second, b)?;
        Ok(shared)
    }

    /// Whether an object of the site may be at both nodes under one call string.
    pub fn together(&self, alloc: Global, site: u32, a: u32, b: u32) -> Result<bool, NoMemory>
        ensures { IfOk result (λ yes. (p : LinkedProgram) (q : Asked) (d : DemandParts) (o : Site) (n m : Node) → IsSolved p q d self.now
            → slice_get d.sites site ≡ Some o → slice_get d.nodes a ≡ Some n → slice_get d.nodes b ≡ Some m
            → IsTrue yes ↔ ((string : List Place) × Calls p q o n string × Calls p q o m string)) }
    {
        self.one_string(alloc, site, a, site, b)
    }
}
