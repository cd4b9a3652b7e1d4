//! Call strings of methods.
ghost use Rattle.std.specs.Prelude.{◌≡◌, ◌↔◌, IsTrue, false};
ghost use Rattle.link_rules.specs.WellLinked.{HasTarget};
ghost use Rattle.spds_rules.specs.Systems.{IsString};

use link_program::Linked;
use link_rules::Code;
use link_sites::Place;
use spds_nodes::code_at;

// Whether the call, at which no exception is in flight, may run the method.
fn may_run(linked: &Linked, call: Place, method: u32) -> bool
    ensures { IsTrue result ↔ ((call.raised ≡ false) × HasTarget linked.now call.method call.index method) }
{
    if call.raised {
        return false;
    }
    let Some(code) = code_at(linked, call.method, call.index) else {
        return false;
    };
    match code {
        Code::Call { targets, .. } => targets.as_slice().contains(&method),
        _ => false,
    }
}

/// Whether the list is a call string of the method. Costs a look at the targets of each call.
pub(crate) fn is_string(linked: &Linked, method: u32, string: &[Place]) -> bool
    ensures { IsTrue result ↔ IsString linked.now method string.now }
{
    let mut reached = method;
    let mut rest = string;
    while let Some((call, behind)) = rest.split_first() {
        if !may_run(linked, *call, reached) {
            return false;
        }
        reached = call.method;
        rest = behind;
    }
    reached == linked.root()
}
