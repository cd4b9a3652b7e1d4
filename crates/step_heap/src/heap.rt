//! The heap of a run.
ghost use Rattle.std.specs.Prelude.{◌≡◌, ◌<◌, ◌^◌, ◌++◌, ◌∷◌, [], OnErr, OnOk, Some, length, slice_get};
ghost use Rattle.step_heap.specs.Heaps.{IsHeld, IsWritten};
ghost use Rattle.step_rules.specs.States.{new_object};

use super::object::Object;
use link_sites::Site;
use std::alloc::{AllocError, Global};
use std::marker::Model;
use step_rules::Value;

/// The objects, each named by its number, fewer than 4,294,967,296.
#[derive(Drop)]
pub struct Heap {
    objects: Vec<Object>,
}

impl Model for Heap {
    ghost use Rattle.std.specs.Prelude.{◌<◌, ◌^◌, List, length};
    ghost use Rattle.step_rules.specs.States.{HeapObject};

    ghost Value = { List HeapObject };

    ghost view = { λ h. h.objects.items };

    ghost invariant = { λ h. length h.objects.items < 2 ^ 32 };
}

impl Heap {
    /// No object. Takes no memory.
    pub fn new(alloc: Global) -> Self
        ensures { result ≡ [] }
    {
        Heap {
            objects: Vec::new(alloc),
        }
    }

    /// How many objects there are.
    pub fn len(&self) -> u32
        ensures { result ≡ length self.now }
    {
        self.objects.len() as u32
    }

    /// The object with this number.
    pub fn object(&self, number: u32) -> &Object
        requires { number < length self.now }
        ensures { slice_get self.now number ≡ Some result.now }
    {
        &self.objects[number as usize]
    }

    /// Puts an object last into which nothing was written. Where there is no memory for it, the heap is as before.
    pub fn push(&mut self, site: Site, class: u32) -> Result<(), AllocError>
        ensures ok { OnOk result (self.new ≡ self.old ++ new_object site class ∷ []) }
        ensures err { OnErr result (self.new ≡ self.old) }
    {
        if self.objects.len() >= u32::MAX as usize {
            return Err(AllocError);
        }
        self.objects.push(Object::new(site, class))?;
        Ok(())
    }

    /// Puts an object last, and writes it into an array as an element. Where there is no memory for both, the heap is as before.
    pub fn push_into(
        &mut self,
        alloc: Global,
        array: u32,
        site: Site,
        class: u32,
    ) -> Result<(), AllocError>
        requires { array < length self.old }
        ensures ok { OnOk result (IsHeld self.old array site class self.new) }
        ensures err { OnErr result (self.new ≡ self.old) }
    {
        let number = self.len();
        self.push(site, class)?;
        if let Err(error) = self.write(alloc, array, 0, Value::Object(number)) {
            self.objects.pop();
            return Err(error);
        }
        Ok(())
    }

    /// Writes a value into a field of an object, or for 0 into an element. Where there is no memory for it, the heap is as before.
    pub fn write(
        &mut self,
        alloc: Global,
        number: u32,
        field: u32,
        value: Value,
    ) -> Result<(), AllocError>
        requires { number < length self.old }
        ensures ok { OnOk result (IsWritten self.old number field value self.new) }
        ensures err { OnErr result (self.new ≡ self.old) }
    {
        let object = &mut self.objects[number as usize];
        object.write(alloc, field, value)
    }
}
