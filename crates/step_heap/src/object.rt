//! An object of the heap.
ghost use Rattle.std.specs.Prelude.{◌≡◌, ◌≢◌, ◌≤◌, OnOk, OnErr, length};
ghost use Rattle.step_rules.specs.Slots.{cells, field_of};
ghost use Rattle.step_rules.specs.States.{new_object, written};

use super::writes::{Writes, Written};
use link_sites::Site;
use std::alloc::{AllocError, Global};
use std::marker::Model;
use step_rules::Value;

/// An object: where it comes from, its class, and all that was written into it, at most 4,294,967,290 values. Its elements and the value of each
/// field are read without a look at each write.
#[derive(Drop)]
pub struct Object {
    site: Site,
    class: u32,
    /// Made with the first write: most objects of a run are made and never written into.
    writes: Option<Box<Writes>>,
}

impl Model for Object {
    ghost use Rattle.step_rules.specs.States.{HeapObject};

    ghost Value = { HeapObject };

    ghost use Rattle.step_heap.specs.Indexes.{all_of, object_of};

    ghost view = { λ o. object_of o.site o.class (all_of o.writes) };
}

impl Object {
    /// An object of the site and the class, into which nothing was written. Takes no memory.
    pub fn new(site: Site, class: u32) -> Self
        ensures { result ≡ new_object site class }
    {
        Object {
            site,
            class,
            writes: None,
        }
    }

    /// Where the object comes from.
    pub fn site(&self) -> Site
        ensures { result ≡ self.now.site }
    {
        self.site
    }

    /// The class of the object.
    pub fn class(&self) -> u32
        ensures { result ≡ self.now.class }
    {
        self.class
    }

    /// The value of a field: what was written last, and else null. The number 0, which stands for the elements of arrays, is no field.
    pub fn field(&self, field: u32) -> Value
        requires { field ≢ 0 }
        ensures { result ≡ field_of self.now field }
    {
        match &self.writes {
            Some(writes) => writes.field(field),
            None => Value::Null,
        }
    }

    /// All that was written into elements, the oldest first.
    pub fn cells(&self) -> &[Value]
        ensures cells { result.now ≡ cells self.now }
        ensures few { length result.now ≤ 4294967290 }
    {
        match &self.writes {
            Some(writes) => writes.cells(),
            None => &[],
        }
    }

    /// Writes a value into a field, or for 0 into an element. Where there is no memory for it, the object is as before.
    pub fn write(&mut self, alloc: Global, field: u32, value: Value) -> Result<(), AllocError>
        ensures ok { OnOk result (self.new ≡ written self.old field value) }
        ensures err { OnErr result (self.new ≡ self.old) }
    {
        let written = Written { field, value };
        if let Some(writes) = &mut self.writes {
            return writes.add(written);
        }
        let mut writes = Writes::new(alloc);
        writes.add(written)?;
        self.writes = Some(Box::new(alloc, writes)?);
        Ok(())
    }
}
