//! A text as a certificate, replayed.
ghost use Rattle.std.specs.Prelude.{◌≡◌, ◌↔◌, ◌+◌, ◌<◌, ◌^◌, ◌≤◌, ℕ, Err, IfOk, IsTrue, length};
ghost use Rattle.cert_rules.specs.declared.certificate.Certificate.{Certificate as AnyCertificate};
ghost use Rattle.cert_rules.specs.Certified.{IsCertified, IsRejected};
ghost use Rattle.spds_rules.specs.Demand.{about};
ghost use Rattle.cert_rules.specs.Spelled.{IsFirstBadLine, SpellsCertificate};
ghost use Rattle.demand_set.specs.Demands.{IsDemandOf};
ghost use Rattle.report_text.specs.Answers.{IsQueryNode};
ghost use Rattle.cert_query.specs.Replays.{IsAccepted, IsOverBudget, IsRejectedAt};

use super::error::ReplayedError;
use cert_replay::{ReplayError, replay};
use cert_rules::Certificate;
use cert_text::{CertError, read_cert};
use demand_set::{Demand, DemandError, Reach};
use link_program::Linked;
use link_sites::Site;
use program_demand::demand;
use spds_nodes::is_node;
use spds_rules::{Node, Var};
use std::alloc::Global;

/// What an accepted certificate claims, that the node may hold an object of the site, and how many nodes its query demands.
#[derive(Clone, Copy, Debug, PartialEq, Eq)]
pub struct Accepted {
    pub target: Node,
    pub site: Site,
    pub demanded: u32,
}

// Whether a query may name the node: a local just before a statement of the program.
fn may_be_asked(linked: &Linked, node: Node) -> bool
    ensures { IsTrue result ↔ IsQueryNode linked.now node }
{
    if node.place.raised || !matches!(node.var, Var::Local(_)) {
        return false;
    }
    is_node(linked, node)
}

// What the lines of a certificate show over the demand of its target.
fn judged(
    alloc: Global,
    linked: &Linked,
    demand: &Demand,
    certificate: &Certificate,
) -> Result<Accepted, ReplayedError>
    requires demand { IsDemandOf linked.now (about certificate.now.target) demand.now }
    requires few_nodes { length demand.now.nodes < 2 ^ 32 }
    requires few_lines { length certificate.now.lines + 1 < 2 ^ 32 }
    ensures target { IfOk result (λ a. a.target ≡ certificate.now.target) }
    ensures size { IfOk result (λ a. a.demanded ≡ length demand.now.nodes) }
    ensures certified { IfOk result (λ a. IsCertified linked.now certificate.now.target certificate.now.lines a.site) }
    ensures rejected { (line : ℕ) → result ≡ Err (ReplayedError.Rejected line) → IsRejected linked.now certificate.now.target certificate.now.lines line }
    ensures read { (at : ℕ) → result ≡ Err (ReplayedError.NotCertificate at) → ⊥ }
    ensures within { (spent : ℕ) → result ≡ Err (ReplayedError.OverBudget spent) → ⊥ }
{
    match replay(alloc, linked, demand, certificate) {
        Ok(claim) => Ok(Accepted {
            target: claim.node,
            site: claim.site,
            demanded: demand.nodes().len() as u32,
        }),
        Err(ReplayError::Rejected { line }) => Err(ReplayedError::Rejected { line }),
        Err(ReplayError::NoMemory) => Err(ReplayedError::NoMemory),
    }
}

// What a certificate shows.
fn checked(
    alloc: Global,
    linked: &Linked,
    certificate: &Certificate,
    budget: u32,
) -> Result<Accepted, ReplayedError>
    requires { length certificate.now.lines + 1 < 2 ^ 32 }
    ensures accepted { IfOk result (λ a. IsAccepted linked.now budget certificate.now a.target a.site a.demanded) }
    ensures rejected { (line : ℕ) → result ≡ Err (ReplayedError.Rejected line) → IsRejectedAt linked.now budget certificate.now line }
    ensures over { (spent : ℕ) → result ≡ Err (ReplayedError.OverBudget spent) → (spent ≡ budget) × IsOverBudget linked.now budget certificate.now }
    ensures read { (at : ℕ) → result ≡ Err (ReplayedError.NotCertificate at) → ⊥ }
{
    if !may_be_asked(linked, certificate.target) {
        return Err(ReplayedError::Rejected { line: 0 });
    }
    match demand(alloc, linked, &[certificate.target], Reach::Plain, budget) {
        Ok(demand) => judged(alloc, linked, &demand, certificate),
        Err(DemandError::OverBudget { budget }) => Err(ReplayedError::OverBudget { budget }),
        Err(DemandError::NoMemory) => Err(ReplayedError::NoMemory),
    }
}

/// Replays the certificate that a text spells, where the target demands no more nodes than `budget`. The error is the first of `ReplayedError` that is so,
/// in the order of the checks: `NotCertificate` exactly where the text spells no certificate, `Rejected` with line 0 exactly where no query may name the
/// target, `OverBudget` exactly where more nodes are demanded, `Rejected` with another line exactly where the lines don't show what the last one claims,
/// and else `NoMemory`. A text spells one certificate, and it has one of these outcomes; lemmas in `proofs` say so.
pub fn replayed(
    alloc: Global,
    linked: &Linked,
    text: &[u8],
    budget: u32,
) -> Result<Accepted, ReplayedError>
    ensures accepted { IfOk result (λ a. (c : AnyCertificate) × SpellsCertificate text.now c × IsAccepted linked.now budget c a.target a.site a.demanded) }
    ensures unread { (at : ℕ) → result ≡ Err (ReplayedError.NotCertificate at) → IsFirstBadLine text.now at }
    ensures rejected { (line : ℕ) → result ≡ Err (ReplayedError.Rejected line)
        → (c : AnyCertificate) × SpellsCertificate text.now c × IsRejectedAt linked.now budget c line }
    ensures over { (spent : ℕ) → result ≡ Err (ReplayedError.OverBudget spent)
        → (spent ≡ budget) × ((c : AnyCertificate) × SpellsCertificate text.now c × IsOverBudget linked.now budget c) }
{
    match read_cert(alloc, text) {
        Ok(certificate) => checked(alloc, linked, &certificate, budget),
        Err(CertError::NotCertificate { at }) => Err(ReplayedError::NotCertificate { at }),
        Err(CertError::NoMemory) => Err(ReplayedError::NoMemory),
    }
}
