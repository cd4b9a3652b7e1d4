//! The evidence for an answer.
ghost use Rattle.std.specs.Prelude.{All, IfOk};
ghost use Rattle.lists.specs.Lists.{IsApart};
ghost use Rattle.link_rules.specs.Linked.{LinkedProgram};
ghost use Rattle.spds_rules.specs.declared.node.Node.{Node as AnyNode};
ghost use Rattle.spds_rules.specs.Answers.{IsAnswered};
ghost use Rattle.demand_set.specs.Demands.{IsDemandOf};
ghost use Rattle.spds_solve.specs.Solved.{IsSolved};
ghost use Rattle.spds_rules.specs.Demand.{about};
ghost use Rattle.cert_rules.specs.Spelled.{FitsLine};
ghost use Rattle.cert_trace.specs.Traces.{IsTraceOf};
ghost use Rattle.cert_trace.specs.Explained.{IsExplained};
ghost use Rattle.cert_trace.specs.Evidence.{IsEvidence};

use super::claiming::claim;
use super::tracing::trace_of;
use super::wanting::wants_of;
use cert_make::certificate_of;
use cert_rules::Certificate;
use cert_work::{Roads, View, Work};
use demand_set::Demand;
use jim_ast::List;
use link_program::Linked;
use link_sites::Site;
use lists::NoMemory;
use spds_rules::Node;
use spds_solve::Solved;
use std::alloc::Global;

/// The evidence for the answer of a node: the trace of the node's demand, from which each site of the answer gets its certificate.
#[derive(Drop)]
pub struct Evidence {
    target: Node,
    work: Work,
}

// The trace of a node's solved demand.
fn traced(
    alloc: Global,
    linked: &Linked,
    target: Node,
    demand: &Demand,
    solved: &Solved,
) -> Result<Work, NoMemory>
    requires demand { IsDemandOf linked.now (about target) demand.now }
    requires solved { IsSolved linked.now (about target) demand.now solved.now }
    ensures trace { IfOk result (IsTraceOf linked.now target) }
    ensures apart { IfOk result (λ k. IsApart k.written.lines) }
    ensures fits { IfOk result (λ k. All FitsLine k.written.lines) }
{
    let roads = Roads::of(alloc, linked, target, demand)?;
    let wants = wants_of(alloc, linked, demand, solved, target)?;
    let view = View {
        linked,
        target,
        roads: &roads,
        wants: &wants,
    };
    trace_of(alloc, &view, demand, solved)
}

impl Evidence {
    /// What shows, of each site that the target may hold, that it may: one trace for all of them. Costs time and memory for each fact of these sites, and of
    /// others as far as theirs rest on it. Want of memory is the only refusal.
    pub fn of(
        alloc: Global,
        linked: &Linked,
        demand: &Demand,
        solved: &Solved,
        target: Node,
    ) -> Result<Self, NoMemory>
        requires demand { IsDemandOf linked.now (about target) demand.now }
        requires solved { IsSolved linked.now (about target) demand.now solved.now }
        ensures { IfOk result (IsEvidence linked.now target) }
    {
        let work = traced(alloc, linked, target, demand, solved)?;
        Ok(Self { target, work })
    }

    /// The certificate of a site of the answer. Costs time and memory for each line of the certificate, and time for the lines that put the site at the target. Want of memory is the only refusal.
    pub fn certificate(&self, alloc: Global, site: Site) -> Result<Certificate, NoMemory>
        requires answered { (p : LinkedProgram) × (t : AnyNode) × IsEvidence p t self.now × IsAnswered p (about t) t site }
        ensures { (p : LinkedProgram) (t : AnyNode) → IsEvidence p t self.now → IsAnswered p (about t) t site → IfOk result (IsExplained p t site) }
    {
        let claims = claim(&self.work, self.target, site);
        let lines = certificate_of(alloc, self.work.written.lines(), claims)?;
        Ok(Certificate {
            target: self.target,
            lines: List::from_vec(lines),
        })
    }
}
