//! Statements by their places.
ghost use Rattle.std.specs.Prelude.{◌≡◌, IfNone, IfSome};
ghost use Rattle.link_sites.specs.Places.{CodeAt, before, in_flight};
ghost use Rattle.link_rules.specs.declared.code.Code.{Code as Statement};

use link_program::Linked;
use link_rules::Code;
use link_sites::Place;

/// The place just before a statement.
pub fn before(method: u32, index: u32) -> Place
    ensures { result ≡ before method index }
{
    Place {
        method,
        index,
        raised: false,
    }
}

/// The place at a statement with an exception in flight.
pub fn in_flight(method: u32, index: u32) -> Place
    ensures { result ≡ in_flight method index }
{
    Place {
        method,
        index,
        raised: true,
    }
}

/// The statement at an index of a method, where there is one.
pub fn code_at(linked: &Linked, method: u32, index: u32) -> Option<&Code>
    ensures some { IfSome result (λ code. CodeAt linked.now method index code.now) }
    ensures none { IfNone result ((code : Statement) → CodeAt linked.now method index code → ⊥) }
{
    if method < linked.methods() {
        return linked.code(method).get(index as usize);
    }
    None
}
