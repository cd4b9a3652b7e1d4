//! The first place of each text of a list.
ghost use Rattle.std.specs.Prelude.{◌≡◌, ◌++◌, [], ◌∷◌, ◌<◌, ◌^◌, ℕ, List, IfNone, IfOk, IfSome, OnOk, length};
ghost use Rattle.lists.specs.Lists.{Has};
ghost use Rattle.link_program.specs.Places.{ArePlaces};
ghost use Rattle.link_rules.specs.Accessed.{IsFirstPlace};

use jim_ast::{Name, Names};
use lists::NoMemory;
use std::alloc::{AllocError, Global};

/// For each text of a list its first place there, by one hashed look-up.
#[derive(Drop)]
pub struct FirstPlaces {
    texts: Names,
    places: Vec<u32>,
}

impl FirstPlaces {
    /// Of no text. Takes no memory.
    pub fn new(alloc: Global) -> Self
        ensures { ArePlaces [] result }
    {
        FirstPlaces {
            texts: Names::new(alloc),
            places: Vec::new(alloc),
        }
    }

    /// A text comes behind the `at` texts of the list. There is room for 4,294,967,295.
    pub fn push(&mut self, text: &str, at: usize) -> Result<(), NoMemory>
        ensures { OnOk result ((texts : List (List ℕ)) → at ≡ length texts → ArePlaces texts self.old → ArePlaces (texts ++ text.now ∷ []) self.new) }
    {
        if at >= u32::MAX as usize {
            return Err(AllocError);
        }
        if self.texts.find(text).is_some() {
            return Ok(());
        }
        self.texts.add(text)?;
        self.places.push(at as u32)?;
        Ok(())
    }

    /// The first place of the text. Takes no memory.
    pub fn find(&self, text: &str) -> Option<u32>
        requires { (texts : List (List ℕ)) × ArePlaces texts self.now }
        ensures some { (texts : List (List ℕ)) → ArePlaces texts self.now → IfSome result (IsFirstPlace texts text.now) }
        ensures none { (texts : List (List ℕ)) → ArePlaces texts self.now → IfNone result (Has texts text.now → ⊥) }
    {
        let id = self.texts.find(text)?;
        Some(self.places[id.0 as usize])
    }
}

/// The place of the first of these names that is the text, looked for one by one.
pub(crate) fn first_name(names: &[Name], text: &str) -> Option<u32>
    requires { length names.now < 2 ^ 32 }
    ensures some { IfSome result (IsFirstPlace names.now text.now) }
    ensures none { IfNone result (Has names.now text.now → ⊥) }
{
    for (at, name) in names.iter().enumerate() {
        if name.as_str() == text {
            return Some(at as u32);
        }
    }
    None
}
