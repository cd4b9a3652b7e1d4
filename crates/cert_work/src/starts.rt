//! Where objects come from.
ghost use Rattle.std.specs.Prelude.{◌≡◌, OnOk};
ghost use Rattle.lists.specs.Lists.{Has};
ghost use Rattle.link_sites.specs.declared.site.Site.{Site as AnySite};
ghost use Rattle.spds_rules.specs.declared.node.Node.{Node as AnyNode};
ghost use Rattle.spds_rules.specs.Demand.{Demand as Demanded, about};
ghost use Rattle.cert_rules.specs.declared.fact.Entry.TheVariants.{Base};
ghost use Rattle.cert_rules.specs.declared.fact.Fact.TheVariants.{At};
ghost use Rattle.cert_rules.specs.declared.line.Side.{Side as AnySide};
ghost use Rattle.cert_lines.specs.Noted.{IsThere};
ghost use Rattle.cert_work.specs.Roads.{AreAddedIn, StartOf};
ghost use Rattle.cert_work.specs.Wants.{IsWanted};

use super::adding::add;
use super::roads::View;
use cert_lines::Written;
use cert_rules::{Entry, Fact, Line, Side};
use link_sites::Site;
use lists::NoMemory;
use spds_nodes::is_node;
use spds_rules::{Node, site_of};

// An object is at a start node of its site.
fn start_line(
    view: &View<'_>,
    written: &mut Written,
    side: Side,
    site: Site,
    node: Node,
) -> Result<(), NoMemory>
    requires { StartOf view.now site node }
    ensures added { OnOk result (AreAddedIn view.now written.old written.new) }
    ensures there { OnOk result (IsThere written.new (At side site Base node) 0) }
{
    let line = Line::Start { side, node };
    let fact = Fact::At {
        side,
        site,
        entry: Entry::Base,
        node,
    };
    add(view, written, line, &fact, 0)
}

// In both systems.
fn start_both(
    view: &View<'_>,
    written: &mut Written,
    site: Site,
    node: Node,
) -> Result<(), NoMemory>
    requires { StartOf view.now site node }
    ensures added { OnOk result (AreAddedIn view.now written.old written.new) }
    ensures there { OnOk result ((side : AnySide) → IsThere written.new (At side site Base node) 0) }
{
    start_line(view, written, Side::Field, site, node)?;
    start_line(view, written, Side::Call, site, node)?;
    Ok(())
}

// If the demanded node is a start node, and they are followed there.
fn start(view: &View<'_>, written: &mut Written, node: Node) -> Result<(), NoMemory>
    requires { Demanded view.now.linked.now (about view.now.target) node }
    ensures added { OnOk result (AreAddedIn view.now written.old written.new) }
    ensures there { OnOk result ((side : AnySide) (o : AnySite) → StartOf view.now o node → IsWanted view.now.wants.now o node → IsThere written.new (At side o Base node) 0) }
{
    if !is_node(view.linked, node) {
        return Ok(());
    }
    let Some(site) = site_of(node) else {
        return Ok(());
    };
    if !view.wants.has(site, node) {
        return Ok(());
    }
    start_both(view, written, site, node)?;
    Ok(())
}

/// Objects are at the start nodes among the demanded nodes, as far as they are followed there.
pub fn start_all(view: &View<'_>, written: &mut Written, nodes: &[Node]) -> Result<(), NoMemory>
    requires { (n : AnyNode) → Has nodes.now n → Demanded view.now.linked.now (about view.now.target) n }
    ensures added { OnOk result (AreAddedIn view.now written.old written.new) }
    ensures there { OnOk result ((side : AnySide) (o : AnySite) (n : AnyNode) → Has nodes.now n → StartOf view.now o n → IsWanted view.now.wants.now o n
        → IsThere written.new (At side o Base n) 0) }
{
    for node in nodes {
        start(view, written, *node)?;
    }
    Ok(())
}
