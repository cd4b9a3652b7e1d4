//! The first place of each name of a list.
ghost use Rattle.std.specs.Prelude.{◌≡◌, ◌<◌, ◌*◌, ◌^◌, ◌∷◌, ◌++◌, [], List, IfOk, OnOk, false, length, nat_lt, true};
ghost use Rattle.std.specs.List.Sorted.{IsNonDecreasingBy, IsPartitionPoint};
ghost use Rattle.jim_ast.specs.declared.names.NameId.{NameId as ANameId};
ghost use Rattle.link_bodies.specs.Places.{AreNamed, IsFirstPlace, KnowsPlaces, key_of, label_names};

use jim_ast::{Label, NameId};
use lists::NoMemory;
use std::alloc::{AllocError, Global};

/// A name, and a place at which it stands, from 0.
#[derive(Clone, Copy)]
struct NamedPlace {
    name: NameId,
    place: u32,
}

impl NamedPlace {
    // What orders places by the numbers of their names, and those of one name as they stand.
    fn key(&self) -> u64
        ensures { result ≡ key_of self.now }
    {
        ((self.name.0 as u64) << 32) + self.place as u64
    }
}

/// The places of the names of a list. Whoever writes the input picks the numbers of the names, so places are sorted, and a look-up halves what is left. Those
/// of most lists are in order as they stand.
#[derive(Drop)]
pub(crate) struct FirstPlaces {
    // By their keys.
    places: Vec<NamedPlace>,
}

// Adds a name at the place behind all names so far. There is room for 4,294,967,296 names.
fn add(places: &mut Vec<NamedPlace>, name: NameId, place: usize) -> Result<(), NoMemory>
    ensures { OnOk result ((place < 2 ^ 32) × (places.new.items ≡ places.old.items ++ record { name = name; place = place } ∷ [])) }
{
    let Ok(place) = u32::try_from(place) else {
        return Err(AllocError);
    };
    places.push(NamedPlace { name, place })?;
    Ok(())
}

impl FirstPlaces {
    // The places of names, from them as they stand.
    fn sorted(places: Vec<NamedPlace>) -> Self
        ensures { (names : List ANameId) → AreNamed names (length names) places.items → KnowsPlaces names result }
    {
        let mut places = places;
        places.sort_unstable_by_key(|named| named.key());
        FirstPlaces { places }
    }

    // How many places are of names with lesser numbers.
    fn count_below(&self, name: NameId) -> usize
        ensures { IsNonDecreasingBy key_of self.now.places.items
            → IsPartitionPoint (λ e. nat_lt (key_of e) (name.0 * 2 ^ 32) ≡ true) (λ e. nat_lt (key_of e) (name.0 * 2 ^ 32) ≡ false) self.now.places.items result }
    {
        let least = (name.0 as u64) << 32;
        self.places.partition_point(|named| named.key() < least)
    }

    /// The first place of a name.
    pub(crate) fn find(&self, name: NameId) -> Option<u32>
        ensures { (names : List ANameId) → KnowsPlaces names self.now → IsFirstPlace names name result }
    {
        let named = self.places.get(self.count_below(name))?;
        if named.name != name {
            return None;
        }
        Some(named.place)
    }

    /// The places of locals.
    pub(crate) fn of_locals(alloc: Global, locals: &[NameId]) -> Result<Self, NoMemory>
        ensures { IfOk result (KnowsPlaces locals.now) }
    {
        let mut places = Vec::with_capacity(alloc, locals.len())?;
        for (place, name) in locals.iter().enumerate() {
            add(&mut places, *name, place)?;
        }
        Ok(FirstPlaces::sorted(places))
    }

    /// The places of labels.
    pub(crate) fn of_labels(alloc: Global, labels: &[Label]) -> Result<Self, NoMemory>
        ensures { IfOk result (KnowsPlaces (label_names labels.now)) }
    {
        let mut places = Vec::with_capacity(alloc, labels.len())?;
        for (place, label) in labels.iter().enumerate() {
            add(&mut places, label.name, place)?;
        }
        Ok(FirstPlaces::sorted(places))
    }
}
