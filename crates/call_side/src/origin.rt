//! Where an element of a list was found from.
ghost use Rattle.std.specs.Prelude.{◌<◌, IfOk, length};
ghost use Rattle.call_side.specs.Trails.{AreBackward, IsBack};

use lists::NoMemory;
use std::alloc::Global;

/// By the mark, from the element with the number.
#[derive(Clone, Copy, Debug, PartialEq, Eq)]
pub struct Origin {
    pub mark: u32,
    pub from: usize,
}

/// The marks from the element with the number back to one that has no origin.
pub fn marks_back(
    alloc: Global,
    origins: &[Option<Origin>],
    number: usize,
) -> Result<Vec<u32>, NoMemory>
    requires backward { AreBackward origins.now }
    requires there { number < length origins.now }
    ensures { IfOk result (λ marks. IsBack origins.now number marks.items) }
{
    let mut marks = Vec::new(alloc);
    let mut at = number;
    while let Some(origin) = origins[at] {
        marks.push(origin.mark)?;
        at = origin.from;
    }
    Ok(marks)
}
