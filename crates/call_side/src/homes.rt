//! Bases that lead to the last one, and a way for each.
ghost use Rattle.std.specs.Prelude.{◌≡◌, ◌<◌, ◌^◌, ℕ, List, [], IfNone, IfOk, IfSome, OnOk, Some, length, slice_get};
ghost use Rattle.lists.specs.Lists.{Has};
ghost use Rattle.post_star.specs.declared.bases.BaseStep.{BaseStep as AStep};
ghost use Rattle.call_side.specs.Indexed.{AreHomes, AreSpread, IsFiledBy, IsHome, MayComeHome, below_key};
ghost use Rattle.call_side.specs.Trails.{AreBackward, AreKept, IsBack};

use super::origin::{Origin, marks_back};
use indexmap::IndexSet;
use lists::{ByKey, NoMemory};
use post_star::BaseStep;
use post_star::key::Key;
use std::alloc::Global;

/// The bases that lead to the last one, each once, in the order in which they were found from there. The origin of a base is the first step of its way: its
/// mark, and the number of the base below. The last base has none.
#[derive(Drop)]
pub struct Homes {
    pub bases: IndexSet<u32>,
    pub origins: Vec<Option<Origin>>,
}

impl Homes {
    /// No bases. Takes no memory.
    fn new(alloc: Global) -> Self
        ensures bases { result.bases.keys ≡ [] }
        ensures origins { result.origins.items ≡ [] }
    {
        Homes {
            bases: IndexSet::new(alloc),
            origins: Vec::new(alloc),
        }
    }

    /// The base with the number, from 0. Takes no memory.
    fn base(&self, number: usize) -> Option<u32>
        ensures value { result ≡ slice_get self.now.bases.keys number }
        ensures few { length self.now.bases.keys < 2 ^ 63 }
    {
        self.bases.as_slice().get(number).copied()
    }

    /// Puts a base last, unless it is there already.
    fn add(&mut self, base: u32, origin: Option<Origin>) -> Result<(), NoMemory>
        ensures kept { OnOk result (AreKept self.old.bases.keys self.new.bases.keys) }
        ensures there { OnOk result (Has self.new.bases.keys base) }
        ensures homes { OnOk result ((steps : List AStep) (last : ℕ) → MayComeHome steps last self.old.bases.keys base origin
            → AreHomes steps last self.old.bases.keys self.old.origins.items → AreHomes steps last self.new.bases.keys self.new.origins.items) }
    {
        if self.bases.insert(base)? {
            self.origins.push(origin)?;
        }
        Ok(())
    }

    /// The way from a base to the last one, where the base is there. The last base has the empty one.
    pub fn way(&self, alloc: Global, base: u32) -> Result<Option<Vec<u32>>, NoMemory>
        requires backward { AreBackward self.now.origins.items }
        requires as_many { length self.now.origins.items ≡ length self.now.bases.keys }
        ensures some { IfOk result (λ r. IfSome r (λ way. (number : ℕ) × (slice_get self.now.bases.keys number ≡ Some base) × IsBack self.now.origins.items number way.items)) }
        ensures none { IfOk result (λ r. IfNone r (Has self.now.bases.keys base → ⊥)) }
    {
        match self.bases.get_index_of(&base) {
            Some(number) => Ok(Some(marks_back(alloc, &self.origins, number)?)),
            None => Ok(None),
        }
    }
}

// The steps by the base below.
fn file_below(alloc: Global, steps: &[BaseStep]) -> Result<ByKey<Key, BaseStep>, NoMemory>
    ensures { IfOk result (IsFiledBy below_key steps.now) }
{
    let mut by_below = ByKey::new(alloc);
    for step in steps {
        by_below.add(Key::Node(step.below), *step)?;
    }
    Ok(by_below)
}

// Puts the bases of the steps in, which lead to the base with the number.
fn add_all(homes: &mut Homes, steps: &[BaseStep], number: usize) -> Result<(), NoMemory>
    ensures kept { OnOk result (AreKept homes.old.bases.keys homes.new.bases.keys) }
    ensures there { OnOk result ((step : AStep) → Has steps.now step → Has homes.new.bases.keys step.base) }
    ensures homes { OnOk result ((all : List AStep) (last below : ℕ) → slice_get homes.old.bases.keys number ≡ Some below
        → ((step : AStep) → Has steps.now step → Has all step × (step.below ≡ below))
        → AreHomes all last homes.old.bases.keys homes.old.origins.items → AreHomes all last homes.new.bases.keys homes.new.origins.items) }
{
    for step in steps {
        let origin = Origin {
            mark: step.mark,
            from: number,
        };
        homes.add(step.base, Some(origin))?;
    }
    Ok(())
}

// Goes on from each base to those above it.
fn spread(homes: &mut Homes, by_below: &ByKey<Key, BaseStep>) -> Result<(), NoMemory>
    ensures kept { OnOk result (AreKept homes.old.bases.keys homes.new.bases.keys) }
    ensures spread { OnOk result ((all : List AStep) → IsFiledBy below_key all by_below.now
        → AreSpread all (length homes.new.bases.keys) homes.new.bases.keys) }
    ensures homes { OnOk result ((all : List AStep) (last : ℕ) → IsFiledBy below_key all by_below.now
        → AreHomes all last homes.old.bases.keys homes.old.origins.items → AreHomes all last homes.new.bases.keys homes.new.origins.items) }
{
    let mut number = 0;
    while let Some(base) = homes.base(number) {
        add_all(homes, by_below.at(Key::Node(base)), number)?;
        number += 1;
    }
    Ok(())
}

/// The bases that lead to the last one, the last one among them.
pub fn find_homes(alloc: Global, steps: &[BaseStep], last: u32) -> Result<Homes, NoMemory>
    ensures { IfOk result (IsHome steps.now last) }
{
    let by_below = file_below(alloc, steps)?;
    let mut homes = Homes::new(alloc);
    homes.add(last, None)?;
    spread(&mut homes, &by_below)?;
    Ok(homes)
}
