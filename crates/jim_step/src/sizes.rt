//! Whether what a machine counts has numbers.
ghost use Rattle.std.specs.Prelude.{◌≡◌, ◌<◌, length, true};
ghost use Rattle.jim_step.specs.Sizes.{HasFewJumps, IsSmall, IsSmallMethod};
ghost use Rattle.link_rules.specs.Accessed.{At};
ghost use Rattle.step_rules.specs.Shapes.{EachOf};

use link_program::Linked;
use link_rules::Code;

// Whether the jumps of a statement have numbers.
fn has_few_jumps(code: &Code) -> bool
    ensures { result ≡ true → HasFewJumps code.now }
{
    match code {
        Code::Switch { jumps } => jumps.as_slice().len() <= u32::MAX as usize,
        _ => true,
    }
}

// Whether the jumps of each statement have.
fn have_few_jumps(codes: &[Code]) -> bool
    ensures { result ≡ true → EachOf HasFewJumps codes.now }
{
    for code in codes {
        if !has_few_jumps(code) {
            return false;
        }
    }
    true
}

// Whether the statements of a method have numbers, and the jumps of each.
fn is_small_method(linked: &Linked, method: u32) -> bool
    requires { method < length linked.now.methods }
    ensures { At linked.now.methods method (λ m. result ≡ true → IsSmallMethod m) }
{
    let codes = linked.code(method);
    codes.len() <= u32::MAX as usize && have_few_jumps(codes)
}

// Whether that is so with each method.
fn are_small_methods(linked: &Linked) -> bool
    ensures { result ≡ true → EachOf IsSmallMethod linked.now.methods }
{
    for method in 0..linked.methods() {
        if !is_small_method(linked, method) {
            return false;
        }
    }
    true
}

/// Whether the statements of each method, the jumps of each statement and the constants have numbers.
pub fn is_small(linked: &Linked) -> bool
    ensures { result ≡ true → IsSmall linked.now }
{
    let constants = linked.texts().len().checked_add(linked.class_texts().len());
    match constants {
        Some(count) => count <= u32::MAX as usize && are_small_methods(linked),
        None => false,
    }
}
