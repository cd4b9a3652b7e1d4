//! What was written into an object.
ghost use Rattle.std.specs.Prelude.{◌≡◌, ◌≢◌, ◌≤◌, ◌++◌, ◌∷◌, [], None, OnErr, OnOk, length};
ghost use Rattle.std.specs.List.{last_or};
ghost use Rattle.step_heap.specs.Indexes.{AreKept, Indexes, values_in};
ghost use Rattle.step_rules.specs.Slots.{or_null};

use indexmap::IndexMap;
use std::alloc::{AllocError, Global};
use std::marker::Model;
use step_rules::Value;

/// A value that was written into a field.
#[derive(Clone, Copy, Debug, PartialEq, Eq)]
pub struct Written {
    pub field: u32,
    pub value: Value,
}

/// An object has at most as many writes, so that a choice among them has a number.
const MOST_WRITES: usize = 4_294_967_290;

/// All writes of an object, the oldest first, with the value of each field and the elements at hand.
#[derive(Drop)]
pub struct Writes {
    all: Vec<Written>,
    latest: IndexMap<u32, Value>,
    cells: Vec<Value>,
}

impl Model for Writes {
    ghost use Rattle.std.specs.Prelude.{List};
    ghost use Rattle.step_heap.specs.Indexes.{IsIndexed};
    ghost use Rattle.step_heap.specs.declared.writes.Written.{Written};

    ghost Value = { List Written };

    ghost view = { λ w. w.all.items };

    ghost invariant = { λ w. IsIndexed w.all.items w.latest w.cells.items };
}

impl Writes {
    /// No write. Takes no memory.
    pub fn new(alloc: Global) -> Self
        ensures { result ≡ [] }
    {
        Writes {
            all: Vec::new(alloc),
            latest: IndexMap::new(alloc),
            cells: Vec::new(alloc),
        }
    }

    /// The value that was written last into a field, or null. The number 0, which stands for the elements of arrays, is no field.
    pub fn field(&self, field: u32) -> Value
        requires { field ≢ 0 }
        ensures { result ≡ or_null (last_or None (values_in self.now field)) }
    {
        match self.latest.get(&field) {
            Some(value) => *value,
            None => Value::Null,
        }
    }

    /// All that was written into elements, the oldest first.
    pub fn cells(&self) -> &[Value]
        ensures cells { result.now ≡ values_in self.now 0 }
        ensures few { length result.now ≤ 4294967290 }
    {
        self.cells.as_slice()
    }

    /// Puts a write last. Where there is no memory for it, or no room, the writes stay.
    pub fn add(&mut self, written: Written) -> Result<(), AllocError>
        ensures ok { OnOk result (self.new ≡ self.old ++ written ∷ []) }
        ensures err { OnErr result (self.new ≡ self.old) }
    {
        if self.all.len() >= MOST_WRITES {
            return Err(AllocError);
        }
        self.all.reserve(1)?;
        index(&mut self.latest, &mut self.cells, written)?;
        self.all.push(written)?;
        Ok(())
    }
}

// Puts a write into the indexes.
fn index(
    latest: &mut IndexMap<u32, Value>,
    cells: &mut Vec<Value>,
    written: Written,
) -> Result<(), AllocError>
    ensures ok { OnOk result (Indexes latest.old cells.old.items written latest.new cells.new.items) }
    ensures err { OnErr result (AreKept latest.old cells.old.items latest.new cells.new.items) }
{
    if written.field == 0 {
        cells.push(written.value)?;
    } else {
        latest.insert(written.field, written.value)?;
    }
    Ok(())
}
