//! The reply about what a local may hold.
ghost use Rattle.std.specs.Prelude.{◌≡◌, All, IfOk};
ghost use Rattle.link_rules.specs.WellLinked.{IsWellLinked};
ghost use Rattle.link_sites.specs.Sites.{IsSite};
ghost use Rattle.query_core.specs.Places.{IsPlaceOf};
ghost use Rattle.spds_rules.specs.declared.node.Node.{Node as ANode};
ghost use Rattle.report_text.specs.Answers.{IsAnswerText};
ghost use Rattle.boom_words.specs.Commands.{points_to_of};
ghost use Rattle.boom_top.specs.Parts.{Makes};
ghost use Rattle.boom_top.specs.Places.{IsPlaceReply};

use super::query::{Reply, not_answered};
use super::status::Status;
use boom_words::Asked;
use link_program::Linked;
use lists::NoMemory;
use query_core::{Answer, Hands, place, points_to};
use report_text::answer_text;
use spds_rules::Node;
use spds_solve::Gate;
use std::alloc::Global;
use std::marker::Sync;
use std::thread::Threads;

/// The node of a place that is there.
pub(crate) fn named(linked: &Linked, method: &str, index: u32, local: &str) -> Node
    requires { (n : ANode) × IsPlaceOf linked.now method.now index local.now n }
    ensures { IsPlaceOf linked.now method.now index local.now result }
{
    match place(linked, method, index, local) {
        Ok(node) => node,
        Err(_) => unreachable!(),
    }
}

/// The reply that answers a query of a place that is there.
pub(crate) fn answered(
    alloc: Global,
    asked: &Asked<'_>,
    linked: &Linked,
    answer: &Answer,
) -> Result<Reply, NoMemory>
    requires place { (n : ANode) × IsPlaceOf linked.now asked.now.method.now asked.now.index asked.now.local.now n }
    requires sites { All (IsSite linked.now) answer.now.sites }
    ensures done { IfOk result (λ reply. reply.status ≡ Status.Done) }
    ensures text { IfOk result (λ reply. (n : ANode) × IsPlaceOf linked.now asked.now.method.now asked.now.index asked.now.local.now n
        × IsAnswerText linked.now n answer.now.sites answer.now.demanded reply.text.items) }
{
    let node = named(linked, asked.method, asked.index, asked.local);
    let sites = answer.sites.as_slice();
    let text = answer_text(alloc, linked, node, sites, answer.demanded)?;
    let status = Status::Done;
    Ok(Reply { status, text })
}

/// The reply that tells which sites a local may hold.
pub(crate) fn points_to_reply<R: Threads + Sync, G: Gate>(
    hands: &Hands<'_, R, G>,
    asked: &Asked<'_>,
    linked: &Linked,
) -> Result<Reply, NoMemory>
    requires { IsWellLinked linked.now }
    ensures { IfOk result (Makes (IsPlaceReply linked.now (points_to_of asked.now) (IsAnswerText linked.now))) }
{
    match points_to(
        hands,
        linked,
        asked.method,
        asked.index,
        asked.local,
        asked.budget,
    ) {
        Ok(answer) => answered(hands.alloc, asked, linked, &answer),
        Err(error) => not_answered(hands.alloc, error),
    }
}
