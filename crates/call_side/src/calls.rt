//! The numbers of calls.
ghost use Rattle.std.specs.Prelude.{◌≡◌, ◌<◌, ◌+◌, ◌≤◌, ◌↔◌, ℕ, AllPairs, IfOk, IsTrue, OnOk, Some, length, slice_get};
ghost use Rattle.link_sites.specs.declared.place.Place.{Place as APlace};
ghost use Rattle.link_sites.specs.Places.{ComesBefore};
ghost use Rattle.call_side.specs.Calls.{AreCallsUpTo, AreTheCalls, IsCall};

use link_program::Linked;
use link_rules::Code;
use link_sites::Place;
use lists::NoMemory;
use std::alloc::{AllocError, Global};
use std::marker::Model;

fn is_call(code: &Code) -> bool
    ensures { IsTrue result ↔ IsCall code.now }
{
    matches!(code, Code::Call { .. })
}

// Whether the statement of a place comes before that of another.
fn comes_before(a: Place, b: Place) -> bool
    ensures { IsTrue result ↔ ComesBefore a b }
{
    a.method < b.method || a.method == b.method && a.index < b.index
}

// The number of a statement or of a call. One past 4,294,967,295 finds no memory.
fn number_of(at: usize) -> Result<u32, NoMemory>
    ensures { IfOk result (λ number. number ≡ at) }
{
    match u32::try_from(at) {
        Ok(number) => Ok(number),
        Err(_) => Err(AllocError),
    }
}

// Puts the calls of a method last.
fn add_calls(places: &mut Vec<Place>, linked: &Linked, method: u32) -> Result<(), NoMemory>
    requires there { method < length linked.now.methods }
    requires before { AreCallsUpTo linked.now method 0 places.old.items }
    ensures { OnOk result (AreCallsUpTo linked.now (method + 1) 0 places.new.items) }
{
    for (index, code) in linked.code(method).iter().enumerate() {
        if is_call(code) {
            places.push(Place {
                method,
                index: number_of(index)?,
                raised: false,
            })?;
        }
    }
    Ok(())
}

// The places of all calls, in order.
fn call_places(alloc: Global, linked: &Linked) -> Result<Vec<Place>, NoMemory>
    ensures { IfOk result (λ places. AreTheCalls linked.now places.items) }
{
    let mut places = Vec::new(alloc);
    for method in 0..linked.methods() {
        add_calls(&mut places, linked, method)?;
    }
    Ok(places)
}

// How many of the places, which are in order, come before this one.
fn rank(places: &[Place], place: Place) -> usize
    requires { AllPairs ComesBefore places.now }
    ensures within { result ≤ length places.now }
    ensures before { (k : ℕ) (x : APlace) → k < result → slice_get places.now k ≡ Some x → ComesBefore x place }
    ensures behind { (k : ℕ) (x : APlace) → result ≤ k → slice_get places.now k ≡ Some x → ComesBefore x place → ⊥ }
{
    let mut low = 0;
    let mut high = places.len();
    while low < high {
        let middle = low + (high - low) / 2;
        if comes_before(places[middle], place) {
            low = middle + 1;
        } else {
            high = middle;
        }
    }
    low
}

/// All calls of a program in the order of method and index. The number of a call is its place in this order, from 0; it is the call's mark in rules,
/// base steps and words.
#[derive(Drop)]
pub struct Calls {
    places: Vec<Place>,
}

impl Model for Calls {
    ghost use Rattle.std.specs.Prelude.{List};
    ghost use Rattle.link_sites.specs.declared.place.Place.{Place};

    ghost Value = { List Place };

    ghost use Rattle.call_side.specs.Calls.{AreNumbered};

    ghost view = { λ c. c.places.items };

    ghost invariant = { λ c. AreNumbered c.places.items };
}

impl Calls {
    /// The calls of the program, in time linear in its code.
    ///
    /// A program with 4,294,967,296 calls, or a method with so many statements, finds no memory.
    pub fn new(alloc: Global, linked: &Linked) -> Result<Self, NoMemory>
        ensures { IfOk result (AreTheCalls linked.now) }
    {
        let places = call_places(alloc, linked)?;
        match u32::try_from(places.len()) {
            Ok(_) => Ok(Calls { places }),
            Err(_) => Err(AllocError),
        }
    }

    /// The number of the call at the place: none where an exception is in flight there, or no call stands there. Takes no memory, and time in the
    /// logarithm of the number of calls.
    pub fn mark_of(&self, place: Place) -> Option<u32>
        ensures marks { (mark : ℕ) → (result ≡ Some mark) ↔ (slice_get self.now mark ≡ Some place) }
        ensures ordered { AllPairs ComesBefore self.now }
    {
        let places = self.places.as_slice();
        let at = rank(places, place);
        if at < places.len() && places[at] == place {
            return Some(at as u32);
        }
        None
    }

    /// The place of the call with the number. Takes no memory.
    pub fn call_of(&self, mark: u32) -> Option<Place>
        ensures { result ≡ slice_get self.now mark }
    {
        self.places.get(mark as usize).copied()
    }
}
