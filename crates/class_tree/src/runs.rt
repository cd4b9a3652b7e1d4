ghost use Rattle.std.specs.Prelude.{◌≡◌, ℕ, ◌<◌, ◌⊎◌, IfOk, Some, length};
ghost use Rattle.class_rules.specs.Rows.{HasParent};
ghost use Rattle.class_tree.specs.Runs.{AreRuns};
ghost use Rattle.class_tree.specs.Turns.{IsNumbering};

use super::numbering::Numbering;
use class_rules::ClassRow;
use std::alloc::{AllocError, Global};

/// The class at each place, and for each place the first of its run: from there on each class is the
/// parent of the next.
#[derive(Drop)]
pub struct Runs {
    pub tenants: Vec<u32>,
    pub starts: Vec<u32>,
}

// Where the run of the class at a place begins: where that of the class before it does, if this is its
// parent, and else with the class itself.
fn start_of(classes: &[ClassRow], class: u32, place: u32, last: Option<u32>, start: u32) -> u32
    requires { class < length classes.now }
    ensures { (result ≡ place) ⊎ ((result ≡ start) × ((b : ℕ) → last ≡ Some b → HasParent classes.now class b)) }
{
    if classes[class as usize].parent == last {
        start
    } else {
        place
    }
}

impl Runs {
    /// The runs of these classes, by their numbers.
    pub fn new(
        alloc: Global,
        classes: &[ClassRow],
        numbering: &Numbering,
    ) -> Result<Self, AllocError>
        requires { IsNumbering classes.now numbering.now }
        ensures { IfOk result (AreRuns classes.now numbering.now.numbers.items) }
    {
        let order = numbering.order.as_slice();
        let mut tenants = Vec::with_capacity(alloc, order.len())?;
        let mut starts = Vec::with_capacity(alloc, order.len())?;
        let mut last = None;
        let mut start = 0;
        let mut at = order.len();
        while at > 0 {
            at -= 1;
            let class = order[at];
            let place = numbering.numbers[class as usize];
            start = start_of(classes, class, place, last, start);
            tenants.push(class)?;
            starts.push(start)?;
            last = Some(class);
        }
        Ok(Runs { tenants, starts })
    }
}
