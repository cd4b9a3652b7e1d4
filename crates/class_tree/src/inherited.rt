ghost use Rattle.std.specs.Prelude.{◌≡◌, ℕ, ◌^◌, ◌<◌, length, All, IfOk};
ghost use Rattle.class_tree.specs.FirstRows.{row_at};
ghost use Rattle.class_tree.specs.Inherited.{AreInherited};
ghost use Rattle.class_rules.specs.Lookups.{own_body};
ghost use Rattle.class_tree.specs.Turns.{IsNumbering};

use super::first_rows::{FirstRows, method_members};
use super::numbering::Numbering;
use super::paths::Paths;
use super::runs::Runs;
use class_rules::{ClassRow, MethodRow};
use std::alloc::{AllocError, Global};

/// What classes have from those above them: look-ups of methods along the parents, and the runs by
/// which those of fields go.
#[derive(Drop)]
pub struct Inherited {
    pub methods: Paths,
    pub runs: Runs,
}

impl Inherited {
    /// What the classes inherit, by their numbers. `bodies` has the first rows of the methods.
    pub fn new(
        alloc: Global,
        classes: &[ClassRow],
        methods: &[MethodRow],
        bodies: &FirstRows,
        numbering: &Numbering,
    ) -> Result<Self, AllocError>
        requires few { length methods.now < 2 ^ 32 }
        requires methods { All (λ m. m.class < length classes.now) methods.now }
        requires numbering { IsNumbering classes.now numbering.now }
        requires bodies { (c k : ℕ) → row_at bodies.now c k ≡ own_body methods.now c k }
        ensures { IfOk result (AreInherited classes.now methods.now numbering.now.numbers.items) }
    {
        let members = method_members(alloc, methods)?;
        Ok(Inherited {
            methods: Paths::new(alloc, classes, numbering, members.as_slice(), bodies)?,
            runs: Runs::new(alloc, classes, numbering)?,
        })
    }
}
