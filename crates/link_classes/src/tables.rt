//! The numbers of keys: each key has that of the first method, or field, with it.
ghost use Rattle.std.specs.Prelude.{◌≡◌, ℕ, List, [], ◌∷◌, ◌++◌, IfOk, length};
ghost use Rattle.lists.specs.Lists.{IsLeast, IsApart};
ghost use Rattle.link_rules.specs.Classes.{DeclaredField, DeclaredMethod};
ghost use Rattle.link_rules.specs.Keys.{HasFieldKey, HasMethodKey, field_key, method_key};
ghost use Rattle.link_classes.specs.Keyed.{IsFieldKeyIn, IsFieldKeyWithin, IsMethodKeyIn, IsMethodKeyWithin, field_key_of, method_key_of};
ghost use Rattle.link_classes.specs.Tables.{IsFirst, KnowsFields, KnowsMethods, field_at, method_at};

use super::keys::{FieldKeyIn, MethodKeyIn};
use lists::NoMemory;
use std::alloc::Global;
use std::collections::BTreeMap;

/// The numbers of the keys of methods. A look-up compares a key with some logarithm of those that are kept, whatever names an input has: nothing is hashed.
#[derive(Drop)]
pub struct MethodKeys {
    numbers: BTreeMap<MethodKeyIn, u32>,
}

/// The numbers of the keys of fields. A look-up compares a key with some logarithm of those that are kept, whatever names an input has: nothing is hashed.
#[derive(Drop)]
pub struct FieldKeys {
    numbers: BTreeMap<FieldKeyIn, u32>,
}

impl MethodKeys {
    /// No key yet. Takes no memory.
    pub fn new(alloc: Global) -> Self
        ensures { (texts : List (List ℕ)) → KnowsMethods texts [] result }
    {
        MethodKeys {
            numbers: BTreeMap::new(alloc),
        }
    }

    /// The number of the first method with a key.
    pub fn find(&self, key: &MethodKeyIn) -> Option<u32>
        ensures at { result ≡ method_at self.now key.now }
        ensures first { (texts : List (List ℕ)) (methods : List DeclaredMethod) → KnowsMethods texts methods self.now → IsMethodKeyWithin texts key.now
            → IsFirst (HasMethodKey methods (method_key_of texts key.now)) result }
    {
        self.numbers.get(key).copied()
    }

    /// The number of the first method with the key of the next method, which is in row `row`.
    pub fn number(&mut self, key: MethodKeyIn, row: u32) -> Result<u32, NoMemory>
        ensures { IfOk result (λ first. (texts : List (List ℕ)) (methods : List DeclaredMethod) (next : DeclaredMethod) → IsApart texts
            → KnowsMethods texts methods self.old → IsMethodKeyIn texts (method_key next) key → row ≡ length methods
            → KnowsMethods texts (methods ++ next ∷ []) self.new × IsLeast (HasMethodKey (methods ++ next ∷ []) (method_key next)) first) }
    {
        match self.find(&key) {
            Some(first) => Ok(first),
            None => {
                self.numbers.insert(key, row)?;
                Ok(row)
            }
        }
    }
}

impl FieldKeys {
    /// No key yet. Takes no memory.
    pub fn new(alloc: Global) -> Self
        ensures { (texts : List (List ℕ)) → KnowsFields texts [] result }
    {
        FieldKeys {
            numbers: BTreeMap::new(alloc),
        }
    }

    /// The number of the first field with a key.
    pub fn find(&self, key: &FieldKeyIn) -> Option<u32>
        ensures at { result ≡ field_at self.now key.now }
        ensures first { (texts : List (List ℕ)) (fields : List DeclaredField) → KnowsFields texts fields self.now → IsFieldKeyWithin texts key.now
            → IsFirst (HasFieldKey fields (field_key_of texts key.now)) result }
    {
        self.numbers.get(key).copied()
    }

    /// The number of the first field with the key of the next field, which is in row `row`.
    pub fn number(&mut self, key: FieldKeyIn, row: u32) -> Result<u32, NoMemory>
        ensures { IfOk result (λ first. (texts : List (List ℕ)) (fields : List DeclaredField) (next : DeclaredField) → IsApart texts
            → KnowsFields texts fields self.old → IsFieldKeyIn texts (field_key next) key → row ≡ length fields
            → KnowsFields texts (fields ++ next ∷ []) self.new × IsLeast (HasFieldKey (fields ++ next ∷ []) (field_key next)) first) }
    {
        match self.find(&key) {
            Some(first) => Ok(first),
            None => {
                self.numbers.insert(key, row)?;
                Ok(row)
            }
        }
    }
}
