//! The replay of a certificate.
ghost use Rattle.std.specs.Prelude.{◌≡◌, ◌↔◌, ◌+◌, ◌^◌, ◌<◌, ℕ, Err, Some, IfOk, MatchResult, length};
ghost use Rattle.link_sites.specs.declared.site.Site.{Site as AnySite};
ghost use Rattle.cert_rules.specs.Certified.{AreGiven, IsCertified, IsRejected};
ghost use Rattle.spds_rules.specs.Demand.{about};
ghost use Rattle.cert_rules.specs.Given.{Facts};
ghost use Rattle.demand_set.specs.Demands.{IsDemandOf};
ghost use Rattle.cert_replay.specs.Replays.{ClaimsSite, IsFirstUngiven, IsRefusal};
ghost use Rattle.cert_replay.specs.Views.{IsView};

use super::cited::held_by;
use super::error::ReplayError;
use super::judging::judge;
use super::view::{View, tables_of};
use cert_rules::{Certificate, Fact, Line, Side};
use demand_set::Demand;
use link_program::Linked;
use link_sites::Site;
use spds_rules::Node;
use std::alloc::Global;

/// What a certificate claims: that the node may hold an object of the site.
#[derive(Clone, Copy, Debug, PartialEq, Eq)]
pub struct Claim {
    pub site: Site,
    pub node: Node,
}

// What the lines give, one after another. The error names the first that gives nothing.
fn judge_lines(
    alloc: Global,
    view: &View<'_>,
    lines: &[Line],
) -> Result<Vec<Option<Fact>>, ReplayError>
    requires view { IsView view.now }
    requires few { length lines.now + 1 < 2 ^ 32 }
    ensures ok { IfOk result (λ given. AreGiven view.now.linked.now view.now.target lines.now given.items) }
    ensures only { (given : Facts) → AreGiven view.now.linked.now view.now.target lines.now given
        → MatchResult result (λ found. found.items ≡ given) (λ e. e ≡ ReplayError.NoMemory) }
    ensures rejected { (k : ℕ) → result ≡ Err (ReplayError.Rejected k) → IsFirstUngiven view.now lines.now k }
    ensures first { (k : ℕ) → IsFirstUngiven view.now lines.now k → IsRefusal k result }
{
    let mut given = Vec::new(alloc);
    for (index, line) in lines.iter().enumerate() {
        let Some(gives) = judge(view, given.as_slice(), line) else {
            return Err(ReplayError::Rejected {
                line: index as u32 + 1,
            });
        };
        given.push(gives)?;
    }
    Ok(given)
}

// The site that the last line claims.
fn claimed(given: &[Option<Fact>], lines: &[Line]) -> Option<Site>
    ensures { (o : AnySite) → (result ≡ Some o) ↔ ClaimsSite given.now lines.now o }
{
    match lines.last()? {
        Line::Claim { field, .. } => Some(held_by(given, Side::Field, *field)?.site),
        _ => None,
    }
}

/// Replays a certificate over the demand of its target: each line has to be justified by what lines before it gave, and the last has to claim a site of the
/// target. The error is `Rejected` exactly where this isn't so, and names the first line, from 1, that isn't justified, or where all are the number behind
/// the last. Costs time and memory for each edge and store of the demand and for each line; a line costs some look-ups, and `shared` some for each call of
/// its string, and a look at the targets of each call that no link has.
pub fn replay(
    alloc: Global,
    linked: &Linked,
    demand: &Demand,
    certificate: &Certificate,
) -> Result<Claim, ReplayError>
    requires demand { IsDemandOf linked.now (about certificate.now.target) demand.now }
    requires few { length certificate.now.lines + 1 < 2 ^ 32 }
    ensures accepted { IfOk result (λ claim. IsCertified linked.now certificate.now.target certificate.now.lines claim.site) }
    ensures of_target { IfOk result (λ claim. claim.node ≡ certificate.now.target) }
    ensures rejected { (k : ℕ) → result ≡ Err (ReplayError.Rejected k) → IsRejected linked.now certificate.now.target certificate.now.lines k }
    ensures first { (k : ℕ) → IsRejected linked.now certificate.now.target certificate.now.lines k → IsRefusal k result }
    ensures certified { (o : AnySite) → IsCertified linked.now certificate.now.target certificate.now.lines o
        → MatchResult result (λ claim. claim.site ≡ o) (λ e. e ≡ ReplayError.NoMemory) }
{
    let tables = tables_of(alloc, demand)?;
    let view = View {
        linked,
        target: certificate.target,
        demand,
        tables: &tables,
    };
    let lines = certificate.lines.as_slice();
    let given = judge_lines(alloc, &view, lines)?;
    match claimed(given.as_slice(), lines) {
        Some(site) => Ok(Claim {
            site,
            node: certificate.target,
        }),
        None => Err(ReplayError::Rejected {
            line: lines.len() as u32 + 1,
        }),
    }
}
