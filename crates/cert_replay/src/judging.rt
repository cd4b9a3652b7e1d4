//! What a line gives.
ghost use Rattle.std.specs.Prelude.{◌≡◌, ◌↔◌, Option as Maybe, Some};
ghost use Rattle.cert_rules.specs.declared.fact.Fact.{Fact as AnyFact};
ghost use Rattle.cert_replay.specs.Found.{GivesIn};
ghost use Rattle.cert_replay.specs.Views.{IsView};

use super::rows::{
    base_pop, claim, flow, jump, link_call, link_field, meet, pop, push_call, push_field, put,
    shared, start,
};
use super::view::View;
use cert_rules::{Fact, Line};

// The fact that a line gives, but for a claim.
fn fact_of(view: &View<'_>, given: &[Option<Fact>], line: &Line) -> Option<Fact>
    requires { IsView view.now }
    ensures { (f : AnyFact) → (result ≡ Some f) ↔ GivesIn view.now given.now line.now (Some f) }
{
    match line {
        Line::Start { side, node } => start(view, given, *side, *node),
        Line::Jump { from, node } => jump(view, given, *from, *node),
        Line::Put { from, meet, node } => put(view, given, *from, *meet, *node),
        Line::Flow { side, from, node } => flow(view, given, *side, *from, *node),
        Line::PushField { from, meet, node } => push_field(view, given, *from, *meet, *node),
        Line::PushCall { from, node } => push_call(view, given, *from, *node),
        Line::LinkField { from, meet, node } => link_field(view, given, *from, *meet, *node),
        Line::LinkCall { from, node } => link_call(view, given, *from, *node),
        Line::Pop {
            side,
            from,
            link,
            node,
        } => pop(view, given, *side, *from, *link, *node),
        Line::BasePop { from, node } => base_pop(view, given, *from, *node),
        Line::Shared {
            first,
            second,
            string,
        } => shared(
            view,
            given,
            first.as_slice(),
            second.as_slice(),
            string.as_slice(),
        ),
        Line::Meet {
            shared,
            base: is_base,
        } => meet(view, given, *shared, *is_base),
        Line::Claim { .. } => None,
    }
}

/// What a line gives over what the lines before it gave: a fact, or nothing for a claim; none where it isn't justified.
pub(crate) fn judge(view: &View<'_>, given: &[Option<Fact>], line: &Line) -> Option<Option<Fact>>
    requires { IsView view.now }
    ensures { (g : Maybe AnyFact) → (result ≡ Some g) ↔ GivesIn view.now given.now line.now g }
{
    if let Line::Claim { field, call } = line {
        if claim(view, given, *field, *call) {
            return Some(None);
        }
        return None;
    }
    Some(Some(fact_of(view, given, line)?))
}
