//! What a claim cites.
ghost use Rattle.std.specs.Prelude.{◌≡◌, ◌↔◌, ℕ, IsTrue};
ghost use Rattle.link_rules.specs.Linked.{LinkedProgram};
ghost use Rattle.spds_rules.specs.Answers.{IsAnswered};
ghost use Rattle.cert_rules.specs.declared.fact.Entry.{Entry as AnEntry};
ghost use Rattle.cert_rules.specs.declared.fact.Fact.TheVariants.{At};
ghost use Rattle.cert_rules.specs.declared.line.Side.TheVariants.{Call as OfCalls};
ghost use Rattle.spds_rules.specs.Demand.{about};
ghost use Rattle.cert_rules.specs.Given.{Cites};
ghost use Rattle.cert_rules.specs.Lengths.{CanClaim};
ghost use Rattle.cert_work.specs.Work.{TellsAt};
ghost use Rattle.cert_trace.specs.Readings.{AreAllFiled};
ghost use Rattle.cert_trace.specs.Traces.{IsTraceOf};

use cert_lines::Spot;
use cert_make::ClaimLines;
use cert_rules::{Entry, Fact, Side};
use cert_work::{Work, number_of};
use link_sites::Site;
use spds_rules::Node;

// Whether it is the side of calls.
fn is_of_calls(side: Side) -> bool
    ensures { IsTrue result ↔ (side ≡ OfCalls) }
{
    match side {
        Side::Field => false,
        Side::Call => true,
    }
}

// The number, from 1, of a line of the system of calls that put an object there.
fn call_line(work: &Work, spot: Spot) -> u32
    requires filed { AreAllFiled work.now }
    requires tells { TellsAt work.now spot.node }
    requires there { (i : ℕ) × (e : AnEntry) × Cites work.now.written.given i (At OfCalls spot.site e spot.node) }
    ensures { (e : AnEntry) × Cites work.now.written.given result (At OfCalls spot.site e spot.node) }
{
    let numbers = work.objects(spot);
    for number in numbers {
        if is_of_calls(work.word_at(*number, spot).side) {
            return *number;
        }
    }
    unreachable!()
}

/// The lines of a trace that a claim of an answered site cites: no derivation of its field fact is shorter than the line of that.
pub(crate) fn claim(work: &Work, target: Node, site: Site) -> ClaimLines
    requires answered { (p : LinkedProgram) × IsTraceOf p target work.now × IsAnswered p (about target) target site }
    ensures { (p : LinkedProgram) → IsTraceOf p target work.now → IsAnswered p (about target) target site
        → CanClaim p target work.now.written.lines site result.field result.call }
{
    let itself = Fact::At {
        side: Side::Field,
        site,
        entry: Entry::Base,
        node: target,
    };
    let spot = Spot { site, node: target };
    ClaimLines {
        field: number_of(&work.written, itself),
        call: call_line(work, spot),
    }
}
