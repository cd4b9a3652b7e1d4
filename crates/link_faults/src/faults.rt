//! Which of two refusals comes first.
ghost use Rattle.std.specs.Prelude.{◌↔◌, IsTrue};
ghost use Rattle.link_faults.specs.Order.{ComesBefore, IsEarlier};

use super::examined::Fault;

// Whether a refusal comes before another: by index, and then by the rules' numbers.
fn comes_before(a: Fault, b: Fault) -> bool
    ensures { IsTrue result ↔ ComesBefore a.index a.kind b.index b.kind }
{
    a.index < b.index || (a.index == b.index && a.kind.number() < b.kind.number())
}

// The one that comes first.
pub(crate) fn earlier(a: Option<Fault>, b: Option<Fault>) -> Option<Fault>
    ensures { IsEarlier a b result }
{
    match (a, b) {
        (Some(x), Some(y)) => { if comes_before(y, x) { Some(y) } else { Some(x) } }
        (Some(x), None) => Some(x),
        (None, other) => other,
    }
}
