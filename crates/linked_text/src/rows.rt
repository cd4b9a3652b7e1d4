//! Rows of tests about linked programs. A program is linked, lent and dropped here, once for all tests: the prover goes over a linked program at each way out of a
//! function that owns one.
ghost use Rattle.link_rules.specs.WellLinked.{IsWellLinked};

use super::reading::linked_of;
use link_program::Linked;
use link_rules::LinkError;
use lists::NoMemory;
use std::alloc::Global;

/// How rows about a linked program are read.
pub trait Rows {
    /// Whether what a row says of the program is right.
    fn is_right(&self, alloc: Global, linked: &Linked, row: &str) -> Result<bool, NoMemory>
        requires { IsWellLinked linked.now };
}

fn first_wrong_of<R: Rows>(
    alloc: Global,
    linked: &Linked,
    how: &R,
    rows: &'static str,
) -> Result<Option<&'static str>, NoMemory>
    requires { IsWellLinked linked.now }
{
    for row in rows.lines() {
        if !row.starts_with("# ") && !how.is_right(alloc, linked, row)? {
            return Ok(Some(row));
        }
    }
    Ok(None)
}

/// The first row that isn't right of the program of a text, linked with the stand-ins for Java's own classes from its class `Main` on; where it isn't linked, its
/// text. Each line is a row, but those that begin with `# `, which say what the next ones show. An error is want of memory.
pub fn first_wrong<R: Rows>(
    alloc: Global,
    text: &'static str,
    how: &R,
    rows: &'static str,
) -> Result<Option<&'static str>, NoMemory> {
    match linked_of(alloc, text) {
        Some(Ok(linked)) => first_wrong_of(alloc, &linked, how, rows),
        _ => Ok(Some(text)),
    }
}

// The texts of the linked methods, a line each.
fn methods_of(alloc: Global, linked: &Linked) -> Result<String, NoMemory> {
    let mut lines = String::new(alloc);
    for method in 0..linked.methods() {
        lines.push_str(linked.method_text(method))?;
        lines.push('\n')?;
    }
    Ok(lines)
}

// A refusal by its number, its place and its index.
fn refusal_of(alloc: Global, error: &LinkError) -> Result<String, NoMemory> {
    match error {
        LinkError::Refused { kind, place, index } => {
            format!(in alloc; "{} {} {}", kind.number(), place.as_str(), index)
        }
        LinkError::NoMemory => String::from_str(alloc, "no memory"),
    }
}

/// What linking tells of a text: the texts of the methods that are linked, a line each, or the number, the place and the index of the refusal. An error is want of
/// memory.
pub fn told_of(alloc: Global, text: &str) -> Result<String, NoMemory> {
    match linked_of(alloc, text) {
        Some(Ok(linked)) => methods_of(alloc, &linked),
        Some(Err(error)) => refusal_of(alloc, &error),
        None => String::from_str(alloc, "no program"),
    }
}
