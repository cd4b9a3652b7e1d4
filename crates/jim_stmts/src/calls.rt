//! Calls.
ghost use Rattle.std.specs.Prelude.{◌≡◌, ◌≤◌, List, length, IfOk, OnOk, IsTrue, ◌↔◌};
ghost use Rattle.jim_text.specs.declared.lead.Lead.TheVariants as lead;
ghost use Rattle.jim_signs.specs.declared.seen.Sign.{Sign};
ghost use Rattle.jim_grammar.specs.Expressions.{Tree, spell};
ghost use Rattle.jim_grammar.specs.Forms.{OnReceiver, OnClass, Dynamic};
ghost use Rattle.jim_grammar.specs.Grammar as grammar;
ghost use Rattle.jim_ast.specs.declared.syntax.Invoke.TheVariants as invokes;
ghost use Rattle.jim_stmts.specs.Leads.{lead_at, GoesOn};
ghost use Rattle.jim_stmts.specs.Meanings.{mode_by, invoke_of};

use super::operands::args;
use super::reader::Reader;
use super::signatures::method_sig;
use jim_ast::{Invoke, Mode};
use jim_grammar::LeadSet;
use jim_signs::Lead;
use lists::NoMemory;
use std::alloc::Global;

fn mode_of(lead: Lead) -> Mode
    ensures { result ≡ mode_by lead }
{
    match lead {
        Lead::SpecialInvoke => Mode::Special,
        Lead::VirtualInvoke => Mode::Virtual,
        _ => Mode::Interface,
    }
}

// A call on a local.
fn on_receiver(alloc: Global, reader: &mut Reader) -> Result<Invoke, NoMemory>
    ensures call { (x : Tree (grammar.by_invoke OnReceiver)) (r : List Sign) → reader.old ≡ spell (grammar.by_invoke OnReceiver) x r →
        IfOk result (λ call. call ≡ invoke_of (OnReceiver, x)) }
    ensures rest { (x : Tree (grammar.by_invoke OnReceiver)) (r : List Sign) → reader.old ≡ spell (grammar.by_invoke OnReceiver) x r →
        OnOk result (reader.new ≡ r) }
    ensures no_longer { OnOk result (length reader.new ≤ length reader.old) }
{
    let mode = mode_of(reader.lead());
    reader.skip();
    let receiver = reader.name();
    reader.skip();
    let sig = method_sig(alloc, reader)?;
    reader.skip();
    let args = args(alloc, reader)?;
    reader.skip();
    Ok(Invoke::Plain {
        mode,
        receiver: Some(receiver),
        sig,
        args,
    })
}

// A call without a receiver.
fn on_class(alloc: Global, reader: &mut Reader) -> Result<Invoke, NoMemory>
    ensures call { (x : Tree (grammar.by_invoke OnClass)) (r : List Sign) → reader.old ≡ spell (grammar.by_invoke OnClass) x r →
        IfOk result (λ call. call ≡ invoke_of (OnClass, x)) }
    ensures rest { (x : Tree (grammar.by_invoke OnClass)) (r : List Sign) → reader.old ≡ spell (grammar.by_invoke OnClass) x r →
        OnOk result (reader.new ≡ r) }
    ensures no_longer { OnOk result (length reader.new ≤ length reader.old) }
{
    reader.skip();
    let sig = method_sig(alloc, reader)?;
    reader.skip();
    let args = args(alloc, reader)?;
    reader.skip();
    Ok(Invoke::Plain {
        mode: Mode::Static,
        receiver: None,
        sig,
        args,
    })
}

// Whether a token is left that is none of `;`, `{` and `}`.
fn goes_on(reader: &Reader) -> bool
    ensures { IsTrue result ↔ GoesOn reader.now }
{
    LeadSet::NotEnds.contains(reader.lead())
}

// A call that is linked when it runs, up to the `;`.
fn dynamic(reader: &mut Reader) -> Invoke
    ensures call { result ≡ invokes.Dynamic }
    ensures rest { (x : Tree (grammar.by_invoke Dynamic)) (r : List Sign) → reader.old ≡ spell (grammar.by_invoke Dynamic) x r →
        lead_at r ≡ lead.Semicolon → reader.new ≡ r }
    ensures no_longer { length reader.new ≤ length reader.old }
{
    reader.skip();
    while goes_on(reader) {
        reader.skip();
    }
    Invoke::Dynamic
}

/// A call, in front of a `;`.
pub fn invoke(alloc: Global, reader: &mut Reader) -> Result<Invoke, NoMemory>
    ensures call { (x : Tree grammar.invoke) (r : List Sign) → reader.old ≡ spell grammar.invoke x r →
        lead_at r ≡ lead.Semicolon → IfOk result (λ call. call ≡ invoke_of x) }
    ensures rest { (x : Tree grammar.invoke) (r : List Sign) → reader.old ≡ spell grammar.invoke x r →
        lead_at r ≡ lead.Semicolon → OnOk result (reader.new ≡ r) }
    ensures no_longer { OnOk result (length reader.new ≤ length reader.old) }
{
    match reader.lead() {
        Lead::StaticInvoke => on_class(alloc, reader),
        Lead::DynamicInvoke => Ok(dynamic(reader)),
        _ => on_receiver(alloc, reader),
    }
}
