ghost use Rattle.std.specs.Prelude.{◌≡◌, ℕ, ◌^◌, ◌<◌, ◌↔◌, length, All, Contains, IfOk, OnOk};
ghost use Rattle.class_order.specs.Groups.{group};
ghost use Rattle.class_rules.specs.Rows.{HasInterface, HasParent, NamesUnknown, Step, interfaces_of};
ghost use Rattle.class_order.specs.Tables.{Under};

use class_order::Groups;
use class_rules::ClassRow;
use std::alloc::{AllocError, Global};

/// For each class those that name it as their parent, as they stand in `order`.
pub fn children(
    alloc: Global,
    classes: &[ClassRow],
    order: &[u32],
) -> Result<Groups<u32>, AllocError>
    requires known { (a b : ℕ) → HasParent classes.now a b → b < length classes.now }
    requires within { All (λ c. c < length classes.now) order.now }
    requires all { (c : ℕ) → c < length classes.now → Contains order.now c }
    ensures len { IfOk result (λ below. length below ≡ length classes.now) }
    ensures steps { IfOk result (λ below. (a b : ℕ) → Under below a b ↔ HasParent classes.now a b) }
{
    let mut below = Groups::new(alloc, classes.len())?;
    for class in order {
        if let Some(parent) = classes[*class as usize].parent {
            below.push(parent as usize, *class)?;
        }
    }
    Ok(below)
}

/// For each class those that are one step below it: those that name it as their parent, as they stand
/// in `order`, and then those that name it as an interface.
pub fn steps_down(
    alloc: Global,
    classes: &[ClassRow],
    implements: &[(u32, u32)],
    order: &[u32],
) -> Result<Groups<u32>, AllocError>
    requires known { (a : ℕ) → NamesUnknown classes.now implements.now a → ⊥ }
    requires within { All (λ c. c < length classes.now) order.now }
    requires all { (c : ℕ) → c < length classes.now → Contains order.now c }
    ensures len { IfOk result (λ below. length below ≡ length classes.now) }
    ensures steps { IfOk result (λ below. (a b : ℕ) → Under below a b ↔ Step classes.now implements.now a b) }
{
    let mut below = children(alloc, classes, order)?;
    for (class, interface) in implements {
        below.push(*interface as usize, *class)?;
    }
    Ok(below)
}

/// For each class those that are one step above it.
pub fn steps_up(
    alloc: Global,
    classes: &[ClassRow],
    implements: &[(u32, u32)],
) -> Result<Groups<u32>, AllocError>
    requires few { length classes.now < 2 ^ 32 }
    requires named { All (λ p. p.0 < length classes.now) implements.now }
    ensures len { IfOk result (λ above. length above ≡ length classes.now) }
    ensures steps { IfOk result (λ above. (a b : ℕ) → Under above b a ↔ Step classes.now implements.now a b) }
{
    let mut above = interface_lists(alloc, classes.len(), implements)?;
    for (class, row) in classes.iter().enumerate() {
        if let Some(parent) = row.parent {
            above.push(class, parent)?;
        }
    }
    Ok(above)
}

/// For each class its interfaces in order.
pub fn interface_lists(
    alloc: Global,
    count: usize,
    implements: &[(u32, u32)],
) -> Result<Groups<u32>, AllocError>
    requires { All (λ p. p.0 < count) implements.now }
    ensures len { IfOk result (λ lists. length lists ≡ count) }
    ensures lists { IfOk result (λ lists. (a : ℕ) → group lists a ≡ interfaces_of implements.now a) }
{
    let mut lists = Groups::new(alloc, count)?;
    for (class, interface) in implements {
        lists.push(*class as usize, *interface)?;
    }
    Ok(lists)
}

/// For each class those that name it as an interface.
pub fn implementers(
    alloc: Global,
    count: usize,
    implements: &[(u32, u32)],
) -> Result<Groups<u32>, AllocError>
    requires { All (λ p. p.1 < count) implements.now }
    ensures len { IfOk result (λ lists. length lists ≡ count) }
    ensures steps { IfOk result (λ lists. (a b : ℕ) → Under lists a b ↔ HasInterface implements.now a b) }
{
    let mut lists = Groups::new(alloc, count)?;
    for (class, interface) in implements {
        lists.push(*interface as usize, *class)?;
    }
    Ok(lists)
}

// All of so many classes, behind those that stand there.
fn add_all(starts: &mut Vec<u32>, count: u32) -> Result<(), AllocError>
    requires { All (λ c. c < count) starts.old.items }
    ensures known { OnOk result (All (λ c. c < count) starts.new.items) }
    ensures all { OnOk result ((c : ℕ) → c < count → Contains starts.new.items c) }
{
    for class in 0..count {
        starts.push(class)?;
    }
    Ok(())
}

/// All classes, those without a parent first.
pub fn tops_first(alloc: Global, classes: &[ClassRow]) -> Result<Vec<u32>, AllocError>
    requires { length classes.now < 2 ^ 32 }
    ensures known { IfOk result (λ starts. All (λ c. c < length classes.now) starts.items) }
    ensures all { IfOk result (λ starts. (c : ℕ) → c < length classes.now → Contains starts.items c) }
{
    let mut starts = Vec::with_capacity(alloc, classes.len())?;
    for (class, row) in classes.iter().enumerate() {
        if row.parent.is_none() {
            starts.push(class as u32)?;
        }
    }
    add_all(&mut starts, classes.len() as u32)?;
    Ok(starts)
}

/// All classes, interfaces first. A search downwards that begins with them comes to the classes below
/// one interface one after the other, so that their places follow each other where they can.
pub fn interfaces_first(alloc: Global, classes: &[ClassRow]) -> Result<Vec<u32>, AllocError>
    requires { length classes.now < 2 ^ 32 }
    ensures known { IfOk result (λ starts. All (λ c. c < length classes.now) starts.items) }
    ensures all { IfOk result (λ starts. (c : ℕ) → c < length classes.now → Contains starts.items c) }
{
    let mut starts = Vec::with_capacity(alloc, classes.len())?;
    for (class, row) in classes.iter().enumerate() {
        if row.interface {
            starts.push(class as u32)?;
        }
    }
    add_all(&mut starts, classes.len() as u32)?;
    Ok(starts)
}
