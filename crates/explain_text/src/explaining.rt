//! The answer about a local, explained.
ghost use Rattle.std.specs.Prelude.{◌≡◌, ◌≢◌, ◌↔◌, ◌<◌, ◌^◌, ◌∷◌, [], ℕ, Err, IfOk, IsErr, length};
ghost use Rattle.link_rules.specs.WellLinked.{IsWellLinked};
ghost use Rattle.spds_rules.specs.declared.node.Node.{Node as ANode};
ghost use Rattle.spds_rules.specs.Answers.{AreAnswered};
ghost use Rattle.demand_set.specs.Demands.{IsDemandOf};
ghost use Rattle.spds_rules.specs.Demand.{about};
ghost use Rattle.cert_trace.specs.Evidence.{IsEvidence};
ghost use Rattle.query_core.specs.declared.places.Which.{Which as AWhich};
ghost use Rattle.query_core.specs.Answers.{IsAffordable, IsOver};
ghost use Rattle.query_core.specs.Places.{IsMissing, IsPlaceOf};
ghost use Rattle.report_text.specs.Answers.{IsQueryNode};
ghost use Rattle.explain_text.specs.Explanations.{IsAnswerTold};

use super::showing::explain_text;
use cert_trace::Evidence;
use demand_set::{Demand, DemandError, Reach};
use link_program::Linked;
use link_sites::Site;
use lists::NoMemory;
use program_demand::demand;
use query_core::{Hands, QueryError, answer_sites, place};
use spds_rules::Node;
use spds_solve::Gate;
use std::marker::Sync;
use std::thread::Threads;

// The sites of an answer, in the order in which they are printed, and the evidence for each.
#[derive(Drop)]
struct Answered {
    sites: Vec<Site>,
    evidence: Evidence,
}

// What the demand of a node says.
fn shown<R: Threads + Sync, G: Gate>(
    hands: &Hands<'_, R, G>,
    linked: &Linked,
    demand: &Demand,
    target: Node,
) -> Result<Answered, NoMemory>
    requires well { IsWellLinked linked.now }
    requires demand { IsDemandOf linked.now (about target) demand.now }
    requires few { length demand.now.nodes < 2 ^ 32 }
    ensures answered { IfOk result (λ a. AreAnswered linked.now (about target) target a.sites.items) }
    ensures evidence { IfOk result (λ a. IsEvidence linked.now target a.evidence) }
{
    let solved = hands.solve(linked, demand)?;
    let sites = answer_sites(hands.alloc, demand, &solved, target)?;
    let evidence = Evidence::of(hands.alloc, linked, demand, &solved, target)?;
    Ok(Answered { sites, evidence })
}

// The reply over the demand of a node.
fn told<R: Threads + Sync, G: Gate>(
    hands: &Hands<'_, R, G>,
    linked: &Linked,
    demand: &Demand,
    target: Node,
) -> Result<Vec<u8>, NoMemory>
    requires well { IsWellLinked linked.now }
    requires target { IsQueryNode linked.now target }
    requires demand { IsDemandOf linked.now (about target) demand.now }
    requires few { length demand.now.nodes < 2 ^ 32 }
    ensures { IfOk result (λ text. IsAnswerTold linked.now (length demand.now.nodes) target text.items) }
{
    let answered = shown(hands, linked, demand, target)?;
    let demanded = demand.nodes().len() as u32;
    explain_text(
        hands.alloc,
        linked,
        &answered.evidence,
        target,
        &answered.sites,
        demanded,
    )
}

// The reply about a node.
fn told_within<R: Threads + Sync, G: Gate>(
    hands: &Hands<'_, R, G>,
    linked: &Linked,
    target: Node,
    budget: u32,
) -> Result<Vec<u8>, DemandError>
    requires well { IsWellLinked linked.now }
    requires target { IsQueryNode linked.now target }
    ensures told { IfOk result (λ text. IsAnswerTold linked.now budget target text.items) }
    ensures over { (spent : ℕ) → result ≡ Err (DemandError.OverBudget spent) → (spent ≡ budget) × IsOver linked.now (target ∷ []) budget }
    ensures beyond { IsOver linked.now (target ∷ []) budget → IsErr result }
    ensures enough { (spent : ℕ) → IsAffordable linked.now (target ∷ []) budget → result ≢ Err (DemandError.OverBudget spent) }
{
    match demand(hands.alloc, linked, &[target], Reach::Plain, budget) {
        Ok(demand) => Ok(told(hands, linked, &demand, target)?),
        Err(error) => Err(error),
    }
}

/// The reply that answers which sites a local, named as for `query_core::place`, may hold just before a statement, and shows each of them by a
/// certificate: `explain PLACE LOCAL`; for each site in order `site S`, `length` with the number of rules of its field derivation, than which none is
/// shorter, `certificate` with the number of lines behind the first of the certificate, and the certificate; `sites` with the number of sites, and
/// `demanded` with the size of the demand. Each line ends with a line feed. One certificate is held at a time.
///
/// The error is `NoSuchPlace` exactly where a part of the place isn't there, `OverBudget` exactly where more nodes are demanded than `budget`, and else
/// `NoMemory`.
pub fn explained<R: Threads + Sync, G: Gate>(
    hands: &Hands<'_, R, G>,
    linked: &Linked,
    method: &str,
    index: u32,
    local: &str,
    budget: u32,
) -> Result<Vec<u8>, QueryError>
    requires well { IsWellLinked linked.now }
    ensures answer { IfOk result (λ text. (n : ANode) × IsPlaceOf linked.now method.now index local.now n × IsAnswerTold linked.now budget n text.items) }
    ensures missing { (which : AWhich) → (result ≡ Err (QueryError.NoSuchPlace which)) ↔ IsMissing linked.now method.now index local.now which }
    ensures over { (spent : ℕ) → result ≡ Err (QueryError.OverBudget spent)
        → (spent ≡ budget) × ((n : ANode) × IsPlaceOf linked.now method.now index local.now n × IsOver linked.now (n ∷ []) budget) }
    ensures beyond { (n : ANode) → IsPlaceOf linked.now method.now index local.now n → IsOver linked.now (n ∷ []) budget → IsErr result }
    ensures enough { (n : ANode) (spent : ℕ) → IsPlaceOf linked.now method.now index local.now n → IsAffordable linked.now (n ∷ []) budget
        → result ≢ Err (QueryError.OverBudget spent) }
{
    let node = place(linked, method, index, local)?;
    Ok(told_within(hands, linked, node, budget)?)
}
