//! The classes of a linked program.
ghost use Rattle.std.specs.Prelude.{◌≡◌, ◌<◌, ◌++◌, [], ◌∷◌, ℕ, Some, IfNone, IfSome, OnOk, length, slice_get};
ghost use Rattle.lists.specs.Lists.{Has};
ghost use Rattle.link_program.specs.Classes.{AreClasses, classes_in, linked_class};
ghost use Rattle.link_rules.specs.Accessed.{linked_class_names, IsFirstPlace};

use super::places::FirstPlaces;
use jim_ast::Name;
use lists::NoMemory;
use std::alloc::{AllocError, Global};

/// A class: its name, and whether it may have objects.
#[derive(Drop)]
pub struct ClassEntry {
    pub name: Name,
    pub instantiable: bool,
}

/// The classes of a linked program in order, fewer than 4,294,967,296, and the first of each name.
#[derive(Drop)]
pub struct ClassTable {
    entries: Vec<ClassEntry>,
    places: FirstPlaces,
}

impl ClassTable {
    /// No class. Takes no memory.
    pub fn new(alloc: Global) -> Self
        ensures are { AreClasses result }
        ensures none { classes_in result ≡ [] }
    {
        ClassTable {
            entries: Vec::new(alloc),
            places: FirstPlaces::new(alloc),
        }
    }

    /// Puts a class last. There is room for 4,294,967,295 classes.
    pub fn push(&mut self, entry: ClassEntry) -> Result<(), NoMemory>
        requires are { AreClasses self.old }
        ensures are { OnOk result (AreClasses self.new) }
        ensures put { OnOk result (classes_in self.new ≡ classes_in self.old ++ linked_class entry ∷ []) }
    {
        let at = self.entries.len();
        if at >= u32::MAX as usize {
            return Err(AllocError);
        }
        self.places.push(entry.name.as_str(), at)?;
        self.entries.push(entry)?;
        Ok(())
    }

    /// How many classes there are.
    pub fn len(&self) -> u32
        requires { AreClasses self.now }
        ensures { result ≡ length (classes_in self.now) }
    {
        self.entries.len() as u32
    }

    /// The class with this number.
    pub fn entry(&self, class: u32) -> &ClassEntry
        requires { class < length (classes_in self.now) }
        ensures { slice_get (classes_in self.now) class ≡ Some (linked_class result.now) }
    {
        &self.entries[class as usize]
    }

    /// The first class of this name.
    pub fn find(&self, name: &str) -> Option<u32>
        requires { AreClasses self.now }
        ensures some { IfSome result (IsFirstPlace (linked_class_names (classes_in self.now)) name.now) }
        ensures none { IfNone result (Has (linked_class_names (classes_in self.now)) name.now → ⊥) }
    {
        self.places.find(name)
    }
}
