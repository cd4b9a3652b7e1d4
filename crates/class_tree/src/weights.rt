ghost use Rattle.std.specs.Prelude.{◌≡◌, ℕ, ◌<◌, length, All, Contains, IfOk};
ghost use Rattle.class_rules.specs.Rows.{HasParent};

use class_rules::ClassRow;
use std::alloc::{AllocError, Global};

// For each class how many reach it by parents alone, itself included, and the most that any of the
// classes with it as their parent has of these.
#[derive(Drop)]
struct Weights {
    sizes: Vec<u32>,
    most: Vec<u32>,
}

// The weights of the classes, where those below a class stand before it in the order.
fn weights_of(alloc: Global, classes: &[ClassRow], order: &[u32]) -> Result<Weights, AllocError>
    requires known { (a b : ℕ) → HasParent classes.now a b → b < length classes.now }
    requires within { All (λ c. c < length classes.now) order.now }
    ensures sizes { IfOk result (λ weights. length weights.sizes.items ≡ length classes.now) }
    ensures most { IfOk result (λ weights. length weights.most.items ≡ length classes.now) }
{
    let mut sizes = vec![in alloc; 1u32; classes.len()]?;
    let mut most = vec![in alloc; 0u32; classes.len()]?;
    for class in order {
        let size = sizes[*class as usize];
        if let Some(parent) = classes[*class as usize].parent {
            let at = parent as usize;
            sizes[at] = sizes[at].saturating_add(size);
            most[at] = most[at].max(size);
        }
    }
    Ok(Weights { sizes, most })
}

// Whether the class has a parent, and no other class with this parent has more below it.
fn is_heaviest(classes: &[ClassRow], weights: &Weights, class: u32) -> bool
    requires known { (a b : ℕ) → HasParent classes.now a b → b < length classes.now }
    requires sizes { length weights.now.sizes.items ≡ length classes.now }
    requires most { length weights.now.most.items ≡ length classes.now }
    requires class { class < length classes.now }
{
    match classes[class as usize].parent {
        Some(parent) => weights.most[parent as usize] == weights.sizes[class as usize],
        None => false,
    }
}

/// The classes as they stand in the order, but at its end those below which there are as many as below
/// any other with their parent. A search downwards over parents that takes them in this order comes to
/// such a class last of those with its parent; and the others are at most as many, on the way from a
/// class to the top, as the logarithm of the number of classes.
pub fn heaviest_last(
    alloc: Global,
    classes: &[ClassRow],
    order: &[u32],
) -> Result<Vec<u32>, AllocError>
    requires known { (a b : ℕ) → HasParent classes.now a b → b < length classes.now }
    requires within { All (λ c. c < length classes.now) order.now }
    ensures within { IfOk result (λ found. All (λ c. c < length classes.now) found.items) }
    ensures all { IfOk result (λ found. (c : ℕ) → Contains order.now c → Contains found.items c) }
{
    let weights = weights_of(alloc, classes, order)?;
    let mut found = Vec::with_capacity(alloc, order.len())?;
    let mut heavy = Vec::new(alloc);
    for class in order {
        if is_heaviest(classes, &weights, *class) {
            heavy.push(*class)?;
        } else {
            found.push(*class)?;
        }
    }
    found.extend_from_slice(heavy.as_slice())?;
    Ok(found)
}
