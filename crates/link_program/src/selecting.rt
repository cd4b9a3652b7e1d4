//! What is worked out beforehand for the calls of a program.
ghost use Rattle.std.specs.Prelude.{IfOk};
ghost use Rattle.default_turns.specs.Selections.{AreSelections};

use class_tree::Tree;
use default_turns::Selections;
use link_indexes::MethodCode;
use link_rules::Code;
use lists::NoMemory;
use std::alloc::Global;

// The keys that calls name. What they are decides only what is worked out beforehand, so nothing is said of them.
fn called_keys(alloc: Global, bodies: &[MethodCode]) -> Result<Vec<u32>, NoMemory> {
    let mut keys = Vec::new(alloc);
    for body in bodies {
        for code in body.code.as_slice() {
            if let Code::Call { key, .. } = code {
                keys.push(*key)?;
            }
        }
    }
    Ok(keys)
}

/// The selections of the methods that calls of this code may run.
pub fn selections_of(
    alloc: Global,
    tree: &Tree,
    bodies: &[MethodCode],
) -> Result<Selections, NoMemory>
    ensures { IfOk result (AreSelections tree.now) }
{
    let keys = called_keys(alloc, bodies)?;
    let selections = Selections::new(alloc, tree, keys.as_slice())?;
    Ok(selections)
}
