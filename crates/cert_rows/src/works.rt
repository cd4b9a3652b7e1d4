//! What is worked off over a whole program, as far as objects are followed.
ghost use Rattle.std.specs.Prelude.{IfOk};
ghost use Rattle.demand_set.specs.Demands.{IsDemandOf};
ghost use Rattle.spds_rules.specs.Demand.{about};
ghost use Rattle.cert_work.specs.Roads.{IsView, StartOf};
ghost use Rattle.cert_work.specs.Work.{AreFiled, IsWorkOf, TellsAt};

use super::programs::TWO_CALLS;
use cert_lines::{Origin, Spot, Word, Written};
use cert_rules::{Entry, Fact, Line, Side};
use cert_work::{Ahead, Roads, View, Wants, Work, add, nothing, number_of, start_all, work_off};
use demand_set::{Demand, Reach};
use link_program::Linked;
use link_sites::Site;
use linked_text::spelled::{call, node, site};
use linked_text::{Rows, first_wrong};
use lists::NoMemory;
use program_demand::demand;
use spds_nodes::is_node;
use spds_rules::Node;
use std::alloc::Global;
use std::test::Fail;

// The local `x` behind the first call. It holds what `a` does, and not what `b` does.
const TARGET: &str = "1.4.l2";

// The lines of all that starts.
fn traced(alloc: Global, view: &View<'_>, demand: &Demand) -> Result<Work, NoMemory>
    requires view { IsView view.now }
    requires demand { IsDemandOf view.now.linked.now (about view.now.target) demand.now }
    ensures work { IfOk result (IsWorkOf view.now) }
{
    let mut work = nothing(alloc, view);
    start_all(view, &mut work.written, demand.nodes())?;
    work_off(view, &mut work)?;
    Ok(work)
}

// The number of the first line that put an object there, and the words under which it is there.
fn first_object(work: &Work, spot: Spot) -> Option<(u32, Word)>
    requires { TellsAt work.now spot.node }
{
    let number = *work.objects(spot).first()?;
    Some((number, work.word_at(number, spot)))
}

// The number of the first line that gave what stands below the word's letter, and what that is.
fn first_link(work: &Work, word: Word) -> Option<(u32, Entry)>
    requires { AreFiled work.now.written work.now }
{
    let number = *work.links(word).first()?;
    Some((number, work.entry_below(number, word)))
}

// Whether the first line at the target has the one number, and puts the object there as itself, and the first line that gave what stands below the call by
// which `id` is entered has the other, and gives each call string.
fn has_lines(view: &View<'_>, work: &Work, site: Site, numbers: &str) -> Option<bool>
    requires { IsWorkOf view.now work.now }
{
    let (at, rest) = numbers.split_once(' ')?;
    let (by, below) = rest.split_once(' ')?;
    let itself = Word {
        side: Side::Field,
        site,
        entry: Entry::Base,
    };
    let passed = Word {
        side: Side::Call,
        site,
        entry: Entry::Call {
            node: node("0.0.p0")?,
            call: call(by)?,
        },
    };
    let spot = Spot {
        site,
        node: view.target,
    };
    let is_at = first_object(work, spot) == Some((at.parse::<u32>().ok()?, itself));
    Some(is_at && first_link(work, passed) == Some((below.parse::<u32>().ok()?, Entry::Base)))
}

// Puts in that an object of the site is at the start node, unless a line says so, and gives the number of one that does.
fn add_start(
    view: &View<'_>,
    written: &mut Written,
    site: Site,
    node: Node,
) -> Result<u32, NoMemory>
    requires { StartOf view.now site node }
{
    let line = Line::Start {
        side: Side::Field,
        node,
    };
    let fact = Fact::At {
        side: Side::Field,
        site,
        entry: Entry::Base,
        node,
    };
    add(view, written, line, &fact, 0)?;
    Ok(number_of(written, fact))
}

// How many lines are there when the start of a site was put in twice.
fn starts_put(alloc: Global, view: &View<'_>, site: Site) -> Result<u32, NoMemory>
    requires { IsView view.now }
{
    let mut written = Written::new(alloc);
    for node in view.starts(site) {
        if add_start(view, &mut written, site, *node)? != 1
            || add_start(view, &mut written, site, *node)? != 1
        {
            return Ok(0);
        }
    }
    Ok(written.len())
}

// A site that is followed everywhere: how many lines come of its start, and which of them are found.
fn is_followed(
    alloc: Global,
    view: &View<'_>,
    demand: &Demand,
    site: Site,
    told: &str,
) -> Result<bool, NoMemory>
    requires view { IsView view.now }
    requires demand { IsDemandOf view.now.linked.now (about view.now.target) demand.now }
{
    let starts = starts_put(alloc, view, site)?;
    let is_wanted = view.is_wanted_in(site, site);
    let work = traced(alloc, view, demand)?;
    let lines = work.written.len();
    if told == "-" {
        return Ok(starts == 0 && lines == 0 && !is_wanted);
    }
    let Some((count, numbers)) = told.split_once(' ') else {
        return Ok(false);
    };
    let are_told = has_lines(view, &work, site, numbers) == Some(true);
    Ok(starts == 1 && count.parse::<u32>().ok() == Some(lines) && is_wanted && are_told)
}

// Whether the one edge from a node leads there; `-` where there is none.
fn is_led(view: &View<'_>, from: &str, told: &str) -> bool
    requires { IsView view.now }
{
    let Some(from) = node(from) else {
        return false;
    };
    let edges = view.edges(from);
    match edges.first() {
        Some(edge) => edges.len() == 1 && node(told) == Some(edge.to),
        None => told == "-",
    }
}

// A row about a site or about the edge from a node.
fn is_row(
    alloc: Global,
    linked: &Linked,
    target: Node,
    demand: &Demand,
    row: &str,
) -> Result<bool, NoMemory>
    requires { IsDemandOf linked.now (about target) demand.now }
{
    let roads = Roads::of(alloc, linked, target, demand)?;
    let mut wants = Wants::new(alloc, Ahead::everywhere(alloc));
    let Some((first, told)) = row.split_once(' ') else {
        return Ok(false);
    };
    let followed = site(first);
    if let Some(site) = followed {
        wants.sites.add(Origin { site })?;
    }
    let view = View {
        linked,
        target,
        roads: &roads,
        wants: &wants,
    };
    match told.strip_prefix("leads ") {
        Some(told) => Ok(is_led(&view, first, told)),
        None => match followed {
            Some(site) => is_followed(alloc, &view, demand, site, told),
            None => Ok(false),
        },
    }
}

struct Worked;

impl Rows for Worked {
    fn is_right(&self, alloc: Global, linked: &Linked, row: &str) -> Result<bool, NoMemory> {
        let Some(target) = node(TARGET) else {
            return Ok(false);
        };
        if !is_node(linked, target) {
            return Ok(false);
        }
        match demand(alloc, linked, &[target], Reach::Plain, u32::MAX) {
            Ok(demanded) => is_row(alloc, linked, target, &demanded, row),
            Err(_) => Ok(false),
        }
    }
}

// Lines, then the number of the first at the target, the call, and the number of the first that gave what stands below it.
const ROWS: &str = "# What the target holds comes there in both systems.
1.0.new 15 14 1.2 9
# What the other call passes comes there in that of fields alone.
1.1.new 13 13 1.3 9
# No object of a text that the program hasn't starts.
t0 -
# Edges into demanded nodes alone: one of the two returns, and none from the target.
0.1.l0 leads 1.3.l2
1.2.l0 leads 0.0.p0
1.4.l2 leads -";

#[test]
fn all_that_comes_of_starts(rt: HostRuntime) -> Result<(), Fail> {
    assert_eq!(rt; first_wrong(rt.alloc(), TWO_CALLS, &Worked, ROWS)?, None);
    Ok(())
}

// Whether objects are followed as it is put in: those of the one site everywhere, of the other at the one node.
fn are_followed(
    alloc: Global,
    all: Site,
    some: Site,
    at: Node,
    other: Node,
) -> Result<bool, NoMemory> {
    let mut wants = Wants::new(alloc, Ahead::everywhere(alloc));
    let none = !wants.has(all, at) && !wants.has(some, at);
    wants.sites.add(Origin { site: all })?;
    wants.add(all, at)?;
    wants.add(some, at)?;
    wants.add(some, at)?;
    let both = wants.has(all, other) && wants.has(some, at);
    Ok(none && both && !wants.has(some, other) && wants.spots.len() == 1)
}

// The same of two sites and two nodes that texts spell.
fn are_followed_at(alloc: Global) -> Result<bool, NoMemory> {
    match (
        site("1.0.new"),
        site("1.1.new"),
        node("0.0.p0"),
        node("0.1.l0"),
    ) {
        (Some(all), Some(some), Some(at), Some(other)) => {
            are_followed(alloc, all, some, at, other)
        }
        _ => Ok(false),
    }
}

#[test]
fn followed_at_nodes(rt: HostRuntime) -> Result<(), Fail> {
    assert!(rt; are_followed_at(rt.alloc())?);
    Ok(())
}
