//! Classes, and the program.
ghost use Rattle.std.specs.Prelude.{◌≡◌, ◌≢◌, ◌<◌, ◌≤◌, List as Items, [], length, IfOk, OnOk};
ghost use Rattle.jim_text.specs.declared.lead.Lead.TheVariants as lead;
ghost use Rattle.jim_signs.specs.declared.seen.Sign.{Sign};
ghost use Rattle.jim_grammar.specs.Expressions.{Opt, Tree, spell};
ghost use Rattle.jim_grammar.specs.Grammar.{extends, implements, class, program};
ghost use Rattle.jim_stmts.specs.Leads.{lead_at};
ghost use Rattle.jim_build.specs.Classes.{parent_of, interfaces_of, class_of, classes_of, IsUnambiguous, MeansOne};

use super::members::members;
use super::modifiers::modifiers;
use jim_ast::{Class, List, NameId, Names, Program};
use jim_signs::{Lead, Sign};
use jim_stmts::{Reader, names};
use lists::NoMemory;
use std::alloc::Global;

// What `extends` names, if it is next.
fn parent(reader: &mut Reader) -> Option<NameId>
    ensures parent { (x : Tree (Opt extends)) (r : Items Sign) → reader.old ≡ spell (Opt extends) x r → lead_at r ≢ lead.Extends →
        result ≡ parent_of x }
    ensures rest { (x : Tree (Opt extends)) (r : Items Sign) → reader.old ≡ spell (Opt extends) x r → lead_at r ≢ lead.Extends → reader.new ≡ r }
    ensures no_longer { length reader.new ≤ length reader.old }
{
    if !reader.is_at(Lead::Extends) {
        return None;
    }
    reader.skip();
    Some(reader.name())
}

// What `implements` names, if it is next.
fn interfaces(alloc: Global, reader: &mut Reader) -> Result<List<NameId>, NoMemory>
    ensures interfaces { (x : Tree (Opt implements)) (r : Items Sign) → reader.old ≡ spell (Opt implements) x r →
        lead_at r ≢ lead.Implements → lead_at r ≢ lead.Comma → IfOk result (λ found. found ≡ interfaces_of x) }
    ensures rest { (x : Tree (Opt implements)) (r : Items Sign) → reader.old ≡ spell (Opt implements) x r → lead_at r ≢ lead.Implements →
        lead_at r ≢ lead.Comma → OnOk result (reader.new ≡ r) }
    ensures no_longer { OnOk result (length reader.new ≤ length reader.old) }
{
    if !reader.is_at(Lead::Implements) {
        return Ok(List::from_vec(Vec::new(alloc)));
    }
    reader.skip();
    names(alloc, reader)
}

fn class(alloc: Global, reader: &mut Reader) -> Result<Class, NoMemory>
    ensures class { (x : Tree class) (r : Items Sign) → reader.old ≡ spell class x r → IfOk result (λ found. found ≡ class_of x) }
    ensures rest { (x : Tree class) (r : Items Sign) → reader.old ≡ spell class x r → OnOk result (reader.new ≡ r) }
    ensures shorter { 0 < length reader.old → OnOk result (length reader.new < length reader.old) }
{
    let flags = modifiers(reader);
    let interface = reader.lead() == Lead::Interface;
    reader.skip();
    let name = reader.name();
    let parent = parent(reader);
    let interfaces = interfaces(alloc, reader)?;
    reader.skip();
    let (fields, methods) = members(alloc, reader)?;
    reader.skip();
    Ok(Class {
        name,
        interface,
        is_abstract: flags.is_abstract,
        parent,
        interfaces,
        fields,
        methods,
    })
}

/// The program of these names whose classes the tokens derive. Takes time in proportion to the number of tokens.
///
/// It refuses no tokens: of tokens that derive no program it gives some program. Nothing but memory can be wanting.
pub fn build(alloc: Global, names: Names, signs: &[Sign]) -> Result<Program, NoMemory>
    ensures classes { (x : Tree program) → spell program x [] ≡ signs.now → IfOk result (λ built. built.classes ≡ classes_of x) }
    ensures names { IfOk result (λ built. built.names ≡ names) }
{
    let mut reader = Reader::new(signs);
    let mut classes = Vec::new(alloc);
    while !reader.is_at(Lead::Other) {
        classes.push(class(alloc, &mut reader)?)?;
    }
    Ok(Program {
        names,
        classes: List::from_vec(classes),
    })
}

/// The laws that no tokens have two trees, and that none derive two programs.
pub fn derives_one()
    ensures tree { IsUnambiguous }
    ensures classes { MeansOne }
{}
