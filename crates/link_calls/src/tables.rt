//! What is worked out once for a key.
ghost use Rattle.link_calls.specs.Receivers.{AreKnownByKey};
ghost use Rattle.link_calls.specs.declared.receivers.Receivers.{Receivers as SomeReceivers};
ghost use Rattle.link_rules.specs.World.{World as AWorld};

use default_turns::DefaultTurn;
use number_sets::NumberTable;
use object_ranges::Part;
use std::alloc::Global;

/// What is worked out for keys: the turns of the default methods of those that special calls name, and the parts of those that calls on objects name.
#[derive(Drop)]
pub(crate) struct KeyTables {
    pub(crate) defaults: NumberTable<Vec<DefaultTurn>>,
    pub(crate) parts: NumberTable<Vec<Part>>,
}

impl KeyTables {
    /// No key has been named.
    pub(crate) fn new(alloc: Global) -> Self
        ensures { (w : AWorld) (r : SomeReceivers) → AreKnownByKey w r result }
    {
        KeyTables {
            defaults: NumberTable::new(alloc),
            parts: NumberTable::new(alloc),
        }
    }
}
