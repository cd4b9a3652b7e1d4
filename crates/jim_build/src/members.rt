//! Fields and methods.
ghost use Rattle.std.specs.Prelude.{◌≡◌, ◌≢◌, ◌<◌, ◌≤◌, ◌++◌, List as Items, [], ◌∷◌, length, IfOk, OnOk};
ghost use Rattle.jim_text.specs.declared.lead.Lead.TheVariants as lead;
ghost use Rattle.jim_signs.specs.declared.seen.Sign.{Sign};
ghost use Rattle.jim_grammar.specs.Expressions.{Star, Opt, Tree, spell};
ghost use Rattle.jim_grammar.specs.Grammar.{throws, ending, member};
ghost use Rattle.jim_stmts.specs.Leads.{lead_at};
ghost use Rattle.jim_build.specs.Splits as split;
ghost use Rattle.jim_build.specs.Members.{ending_of, fields_of, methods_of};
ghost use Rattle.jim_build.specs.Splits.{head, head_of, method_tail, method_by};

use super::bodies::body;
use super::modifiers::{Flags, modifiers};
use jim_ast::{Body, FieldDecl, List, MethodDecl, NameId, Ty};
use jim_signs::Lead;
use jim_stmts::{Reader, maybe_types, names, outcome};
use lists::NoMemory;
use std::alloc::Global;

/// What a field and a method begin with. Which of the two it is, the token behind the name decides.
#[derive(Clone, Copy)]
pub(crate) struct Head {
    pub(crate) flags: Flags,
    pub(crate) result: Ty,
    pub(crate) name: NameId,
}

fn member_head(reader: &mut Reader) -> Head
    ensures head { (x : Tree head) (r : Items Sign) → reader.old ≡ spell head x r → result ≡ head_of x }
    ensures rest { (x : Tree head) (r : Items Sign) → reader.old ≡ spell head x r → reader.new ≡ r }
    ensures shorter { 0 < length reader.old → length reader.new < length reader.old }
{
    let flags = modifiers(reader);
    let result = outcome(reader);
    let name = reader.name();
    Head {
        flags,
        result,
        name,
    }
}

// Goes over the exceptions that a method throws. Nothing is kept of them.
fn skip_throws(alloc: Global, reader: &mut Reader) -> Result<(), NoMemory>
    ensures rest { (x : Tree (Opt throws)) (r : Items Sign) → reader.old ≡ spell (Opt throws) x r → lead_at r ≢ lead.Throws →
        lead_at r ≢ lead.Comma → OnOk result (reader.new ≡ r) }
    ensures no_longer { OnOk result (length reader.new ≤ length reader.old) }
{
    if reader.is_at(Lead::Throws) {
        reader.skip();
        names(alloc, reader)?;
    }
    Ok(())
}

// The body, or none where there is a semicolon.
fn ending(alloc: Global, reader: &mut Reader) -> Result<Option<Body>, NoMemory>
    ensures body { (x : Tree ending) (r : Items Sign) → reader.old ≡ spell ending x r → IfOk result (λ found. found ≡ ending_of x) }
    ensures rest { (x : Tree ending) (r : Items Sign) → reader.old ≡ spell ending x r → OnOk result (reader.new ≡ r) }
    ensures no_longer { OnOk result (length reader.new ≤ length reader.old) }
{
    if reader.is_at(Lead::Semicolon) {
        reader.skip();
        return Ok(None);
    }
    Ok(Some(body(alloc, reader)?))
}

// The method with this head. Only one without a body is native.
fn method(alloc: Global, reader: &mut Reader, head: Head) -> Result<MethodDecl, NoMemory>
    ensures method { (x : Tree method_tail) (r : Items Sign) → reader.old ≡ spell method_tail x r → IfOk result (λ found. found ≡ method_by head x) }
    ensures rest { (x : Tree method_tail) (r : Items Sign) → reader.old ≡ spell method_tail x r → OnOk result (reader.new ≡ r) }
    ensures no_longer { OnOk result (length reader.new ≤ length reader.old) }
{
    reader.skip();
    let params = maybe_types(alloc, reader)?;
    reader.skip();
    skip_throws(alloc, reader)?;
    let body = ending(alloc, reader)?;
    Ok(MethodDecl {
        name: head.name,
        result: head.result,
        params,
        is_static: head.flags.is_static,
        is_native: head.flags.is_native && body.is_none(),
        body,
    })
}

// Puts a field or a method behind those before it.
fn member(
    alloc: Global,
    reader: &mut Reader,
    fields: &mut Vec<FieldDecl>,
    methods: &mut Vec<MethodDecl>,
) -> Result<(), NoMemory>
    ensures fields { (x : Tree member) (r : Items Sign) → reader.old ≡ spell member x r →
        OnOk result (fields.new.items ≡ fields.old.items ++ fields_of (x ∷ [])) }
    ensures methods { (x : Tree member) (r : Items Sign) → reader.old ≡ spell member x r →
        OnOk result (methods.new.items ≡ methods.old.items ++ methods_of (x ∷ [])) }
    ensures rest { (x : Tree member) (r : Items Sign) → reader.old ≡ spell member x r → OnOk result (reader.new ≡ r) }
    ensures shorter { 0 < length reader.old → OnOk result (length reader.new < length reader.old) }
{
    let head = member_head(reader);
    if reader.is_at(Lead::Semicolon) {
        reader.skip();
        fields.push(FieldDecl {
            name: head.name,
            ty: head.result,
            is_static: head.flags.is_static,
        })?;
        return Ok(());
    }
    methods.push(method(alloc, reader, head)?)?;
    Ok(())
}

fn begins_member(lead: Lead) -> bool
    ensures { result ≡ split.begins_member lead }
{
    !matches!(lead, Lead::CloseBrace | Lead::Other)
}

/// The fields and the methods of a class, each in order.
pub(crate) fn members(
    alloc: Global,
    reader: &mut Reader,
) -> Result<(List<FieldDecl>, List<MethodDecl>), NoMemory>
    ensures fields { (x : Tree (Star member)) (r : Items Sign) → reader.old ≡ spell (Star member) x r → lead_at r ≡ lead.CloseBrace →
        IfOk result (λ found. found.0 ≡ fields_of x) }
    ensures methods { (x : Tree (Star member)) (r : Items Sign) → reader.old ≡ spell (Star member) x r → lead_at r ≡ lead.CloseBrace →
        IfOk result (λ found. found.1 ≡ methods_of x) }
    ensures rest { (x : Tree (Star member)) (r : Items Sign) → reader.old ≡ spell (Star member) x r → lead_at r ≡ lead.CloseBrace →
        OnOk result (reader.new ≡ r) }
    ensures no_longer { OnOk result (length reader.new ≤ length reader.old) }
{
    let mut fields = Vec::new(alloc);
    let mut methods = Vec::new(alloc);
    while begins_member(reader.lead()) {
        member(alloc, reader, &mut fields, &mut methods)?;
    }
    Ok((List::from_vec(fields), List::from_vec(methods)))
}
