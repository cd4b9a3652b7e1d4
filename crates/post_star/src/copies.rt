ghost use Rattle.std.specs.Prelude.{◌≡◌, IfOk};

use lists::NoMemory;
use std::alloc::Global;

/// A list of its own with the elements of the slice.
pub fn copied<T: Copy>(alloc: Global, elements: &[T]) -> Result<Vec<T>, NoMemory>
    ensures { IfOk result (λ v. v.items ≡ elements.now) }
{
    elements.iter().copied().collect(alloc)
}
