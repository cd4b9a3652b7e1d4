//! All indexes of a program's code.
ghost use Rattle.std.specs.Prelude.{◌≡◌, IfOk};
ghost use Rattle.lists.specs.Filings.{row};
ghost use Rattle.link_indexes.specs.Tables.{AreIndexes, codes_of};

use super::before::predecessors_by_method;
use super::facts::{Key, Kind};
use super::listing::{indexes_by_method, places_by};
use super::method::{MethodCode, Place};
use lists::{NoMemory, Rows};
use std::alloc::Global;
use std::marker::Model;

/// The indexes of the code of a list of methods. A number that isn't there has the empty list.
#[derive(Drop)]
pub struct Indexes {
    callers: Rows<Place>,
    stores: Rows<Place>,
    static_stores: Rows<Place>,
    returns: Vec<Vec<u32>>,
    raised: Vec<Vec<u32>>,
    before: Vec<Rows<u32>>,
}

impl Model for Indexes {
    ghost use Rattle.std.specs.Prelude.{map};
    ghost use Rattle.link_indexes.specs.Tables.{Tables};

    ghost Value = { Tables };

    ghost view = { λ t. record { callers = t.callers; stores = t.stores; static_stores = t.static_stores; returns = map (λ v. v.items) t.returns.items; raised = map (λ v. v.items) t.raised.items; before = t.before.items } };
}

impl Indexes {
    /// The indexes of these methods, in time linear in their code. Memory grows with the code and with the greatest number that it names.
    ///
    /// There is room for 4,294,967,295 methods, and for as many statements in each.
    pub fn new(alloc: Global, methods: &[MethodCode]) -> Result<Self, NoMemory>
        ensures { IfOk result (AreIndexes (codes_of methods.now)) }
    {
        Ok(Indexes {
            callers: places_by(alloc, Key::Target, methods)?,
            stores: places_by(alloc, Key::Stored, methods)?,
            static_stores: places_by(alloc, Key::StaticStored, methods)?,
            returns: indexes_by_method(alloc, Kind::Returns, methods)?,
            raised: indexes_by_method(alloc, Kind::Raised, methods)?,
            before: predecessors_by_method(alloc, methods)?,
        })
    }

    /// The places of the calls that have the method among their targets.
    pub fn callers(&self, target: u32) -> &[Place]
        ensures { result.now ≡ row self.now.callers target }
    {
        self.callers.get(target)
    }

    /// The places of the stores into an instance field, by its number from 1, or for 0 into elements of arrays.
    pub fn stores(&self, field: u32) -> &[Place]
        ensures { result.now ≡ row self.now.stores field }
    {
        self.stores.get(field)
    }

    /// The places of the stores into a static field.
    pub fn static_stores(&self, field: u32) -> &[Place]
        ensures { result.now ≡ row self.now.static_stores field }
    {
        self.static_stores.get(field)
    }

    /// The indexes of the method's returns.
    pub fn returns(&self, method: u32) -> &[u32]
        ensures { result.now ≡ row self.now.returns method }
    {
        match self.returns.get(method as usize) {
            Some(indexes) => indexes.as_slice(),
            None => &[],
        }
    }

    /// The indexes of the method's statements that an exception may come out of: its throws, its calls, and those that may raise an implicit
    /// exception.
    pub fn raised(&self, method: u32) -> &[u32]
        ensures { result.now ≡ row self.now.raised method }
    {
        match self.raised.get(method as usize) {
            Some(indexes) => indexes.as_slice(),
            None => &[],
        }
    }

    /// The indexes of the statements of the method from which a run may go on to the one at `index`, other than by an exception.
    pub fn before(&self, method: u32, index: u32) -> &[u32]
        ensures { result.now ≡ row (row self.now.before method) index }
    {
        match self.before.get(method as usize) {
            Some(rows) => rows.get(index),
            None => &[],
        }
    }
}
