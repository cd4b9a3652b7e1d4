//! Traps and bodies.
ghost use Rattle.std.specs.Prelude.{◌≡◌, ◌≢◌, ◌<◌, ◌≤◌, List as Items, map, length, IfOk, OnOk};
ghost use Rattle.jim_text.specs.declared.lead.Lead.TheVariants as lead;
ghost use Rattle.jim_signs.specs.declared.seen.Sign.{Sign};
ghost use Rattle.jim_grammar.specs.Expressions.{Star, Tree, spell};
ghost use Rattle.jim_grammar.specs.Grammar.{trap, body};
ghost use Rattle.jim_stmts.specs.Leads.{lead_at};
ghost use Rattle.jim_build.specs.Bodies.{trap_of, body_of};

use super::decls::decls;
use super::lines::lines;
use jim_ast::{Body, List, Trap};
use jim_signs::Lead;
use jim_stmts::Reader;
use lists::NoMemory;
use std::alloc::Global;

fn trap(reader: &mut Reader) -> Trap
    ensures trap { (x : Tree trap) (r : Items Sign) → reader.old ≡ spell trap x r → result ≡ trap_of x }
    ensures rest { (x : Tree trap) (r : Items Sign) → reader.old ≡ spell trap x r → reader.new ≡ r }
    ensures shorter { 0 < length reader.old → length reader.new < length reader.old }
{
    reader.skip();
    let class = reader.name();
    reader.skip();
    let from = reader.name();
    reader.skip();
    let to = reader.name();
    reader.skip();
    let with = reader.name();
    reader.skip();
    Trap {
        class,
        from,
        to,
        with,
    }
}

// All traps that are next, in order.
fn traps(alloc: Global, reader: &mut Reader) -> Result<List<Trap>, NoMemory>
    ensures traps { (x : Tree (Star trap)) (r : Items Sign) → reader.old ≡ spell (Star trap) x r → lead_at r ≢ lead.Catch →
        IfOk result (λ found. found ≡ map trap_of x) }
    ensures rest { (x : Tree (Star trap)) (r : Items Sign) → reader.old ≡ spell (Star trap) x r → lead_at r ≢ lead.Catch →
        OnOk result (reader.new ≡ r) }
    ensures no_longer { OnOk result (length reader.new ≤ length reader.old) }
{
    let mut traps = Vec::new(alloc);
    while reader.is_at(Lead::Catch) {
        traps.push(trap(reader))?;
    }
    Ok(List::from_vec(traps))
}

/// A method's body.
pub(crate) fn body(alloc: Global, reader: &mut Reader) -> Result<Body, NoMemory>
    ensures body { (x : Tree body) (r : Items Sign) → reader.old ≡ spell body x r → IfOk result (λ found. found ≡ body_of x) }
    ensures rest { (x : Tree body) (r : Items Sign) → reader.old ≡ spell body x r → OnOk result (reader.new ≡ r) }
    ensures no_longer { OnOk result (length reader.new ≤ length reader.old) }
{
    reader.skip();
    let locals = decls(alloc, reader)?;
    let (stmts, labels) = lines(alloc, reader)?;
    let traps = traps(alloc, reader)?;
    reader.skip();
    Ok(Body {
        locals,
        stmts,
        labels,
        traps,
    })
}
