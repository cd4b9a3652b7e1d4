//! Declarations of locals.
ghost use Rattle.std.specs.Prelude.{◌≡◌, ◌≢◌, ◌<◌, ◌≤◌, ◌||◌, ◌++◌, List as Items, length, false, IsTrue, IfOk, OnOk};
ghost use Rattle.jim_text.specs.declared.lead.Lead.TheVariants as lead;
ghost use Rattle.jim_signs.specs.declared.seen.Sign.{Sign};
ghost use Rattle.jim_grammar.specs.Sets.{is_base, is_odd_type};
ghost use Rattle.jim_grammar.specs.Expressions.{Star, Tree, spell};
ghost use Rattle.jim_grammar.specs.Grammar.{decl};
ghost use Rattle.jim_stmts.specs.Leads.{lead_at};
ghost use Rattle.jim_build.specs.Splits as split;
ghost use Rattle.jim_build.specs.Decls.{locals_in, locals_of};
ghost use Rattle.jim_build.specs.Splits.{declared, declared_by};

use jim_ast::{List, NameId};
use jim_grammar::LeadSet;
use jim_signs::Lead;
use jim_stmts::{Reader, names, ty};
use lists::NoMemory;
use std::alloc::Global;

fn is_odd_type(lead: Lead) -> bool
    ensures { result ≡ is_odd_type lead }
{
    LeadSet::OddTypes.contains(lead)
}

fn is_type_word(word: Lead) -> bool
    ensures { word ≢ lead.Name → result ≡ is_base word || is_odd_type word }
{
    LeadSet::Bases.contains(word) || LeadSet::OddTypes.contains(word)
}

// Whether a name with these two tokens behind it is a type.
fn is_type_before(first: Lead, second: Lead) -> bool
    ensures { result ≡ split.is_type_before first second }
{
    first == Lead::Name || first == Lead::OpenBracket && second == Lead::CloseBracket
}

// Whether a declaration is next, and no line, trap or end. A line begins with a name as well, but none has a second name behind it, or a pair of
// brackets.
fn begins_decl(reader: &Reader) -> bool
    ensures { result ≡ split.begins_decl reader.now }
{
    let lead = reader.lead();
    if lead == Lead::Name {
        return is_type_before(reader.second(), reader.third());
    }
    is_type_word(lead)
}

// Goes over the type of a declaration.
fn skip_type(reader: &mut Reader)
    ensures rest { (x : Tree decl) (r : Items Sign) → reader.old ≡ spell decl x r → reader.new ≡ spell declared (declared_by x) r }
    ensures no_longer { length reader.new ≤ length reader.old }
{
    if is_odd_type(reader.lead()) {
        reader.skip();
    } else {
        ty(reader);
    }
}

// Puts the locals of a declaration behind those before it.
fn decl(alloc: Global, reader: &mut Reader, locals: &mut Vec<NameId>) -> Result<(), NoMemory>
    ensures locals { (x : Tree decl) (r : Items Sign) → reader.old ≡ spell decl x r →
        OnOk result (locals.new.items ≡ locals.old.items ++ locals_in x) }
    ensures rest { (x : Tree decl) (r : Items Sign) → reader.old ≡ spell decl x r → OnOk result (reader.new ≡ r) }
    ensures shorter { 0 < length reader.old → OnOk result (length reader.new < length reader.old) }
{
    skip_type(reader);
    let names = names(alloc, reader)?;
    reader.skip();
    locals.extend_from_slice(names.as_slice())?;
    Ok(())
}

/// The locals of all declarations that are next, in order.
pub(crate) fn decls(alloc: Global, reader: &mut Reader) -> Result<List<NameId>, NoMemory>
    ensures locals { (x : Tree (Star decl)) (r : Items Sign) → reader.old ≡ spell (Star decl) x r → split.begins_decl r ≡ false →
        IfOk result (λ found. found ≡ locals_of x) }
    ensures rest { (x : Tree (Star decl)) (r : Items Sign) → reader.old ≡ spell (Star decl) x r → split.begins_decl r ≡ false →
        OnOk result (reader.new ≡ r) }
    ensures no_longer { OnOk result (length reader.new ≤ length reader.old) }
{
    let mut locals = Vec::new(alloc);
    while begins_decl(reader) {
        decl(alloc, reader, &mut locals)?;
    }
    Ok(List::from_vec(locals))
}
