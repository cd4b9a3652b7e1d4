//! Types and signatures.
ghost use Rattle.std.specs.Prelude.{◌≡◌, ◌≢◌, ◌<◌, ◌≤◌, List, length, IfOk, OnOk};
ghost use Rattle.jim_text.specs.declared.lead.Lead.TheVariants as lead;
ghost use Rattle.jim_signs.specs.declared.seen.Sign.{Sign};
ghost use Rattle.jim_grammar.specs.declared.set.LeadSet.TheVariants as sets;
ghost use Rattle.jim_grammar.specs.Expressions.{Tree, One, Opt, spell, spell_each};
ghost use Rattle.jim_grammar.specs.Grammar as grammar;
ghost use Rattle.jim_stmts.specs.Leads.{lead_at};
ghost use Rattle.jim_stmts.specs.Meanings.{base_by, ty_of, types_of, maybe_types_of, outcome_of, fsig_of, msig_of};

use super::reader::Reader;
use jim_ast::{Base, FieldSig, List, MethodSig, NameId, Ty};
use jim_signs::Lead;
use lists::NoMemory;
use std::alloc::Global;

fn base_of(lead: Lead, number: u32) -> Base
    ensures { result ≡ base_by lead number }
{
    match lead {
        Lead::Boolean => Base::Boolean,
        Lead::Byte => Base::Byte,
        Lead::Short => Base::Short,
        Lead::Char => Base::Char,
        Lead::Int => Base::Int,
        Lead::Long => Base::Long,
        Lead::Float => Base::Float,
        Lead::Double => Base::Double,
        _ => Base::Class(NameId(number)),
    }
}

/// A type without its brackets.
pub(crate) fn base(reader: &mut Reader) -> Base
    ensures base { (x : Tree (One sets.Bases)) (r : List Sign) → reader.old ≡ spell (One sets.Bases) x r →
        result ≡ base_by x.lead x.text }
    ensures rest { (x : Tree (One sets.Bases)) (r : List Sign) → reader.old ≡ spell (One sets.Bases) x r → reader.new ≡ r }
    ensures no_longer { length reader.new ≤ length reader.old }
{
    let lead = reader.lead();
    let number = reader.number();
    base_of(lead, number)
}

/// Pairs of brackets, at most so many, as far as they stand.
pub(crate) fn pairs(reader: &mut Reader, most: u8) -> u8
    ensures within { result ≤ most }
    ensures pairs { (xs : List (Tree grammar.pair)) (r : List Sign) → reader.old ≡ spell_each (spell grammar.pair) xs r →
        lead_at r ≢ lead.OpenBracket → length xs ≤ most → result ≡ length xs }
    ensures rest { (xs : List (Tree grammar.pair)) (r : List Sign) → reader.old ≡ spell_each (spell grammar.pair) xs r →
        lead_at r ≢ lead.OpenBracket → length xs ≤ most → reader.new ≡ r }
    ensures no_longer { length reader.new ≤ length reader.old }
{
    let mut dims = 0;
    while dims < most && reader.is_at(Lead::OpenBracket) {
        reader.skip();
        reader.skip();
        dims += 1;
    }
    dims
}

/// A type that no `[` follows.
pub fn ty(reader: &mut Reader) -> Ty
    ensures ty { (x : Tree grammar.ty) (r : List Sign) → reader.old ≡ spell grammar.ty x r →
        lead_at r ≢ lead.OpenBracket → result ≡ ty_of x }
    ensures rest { (x : Tree grammar.ty) (r : List Sign) → reader.old ≡ spell grammar.ty x r →
        lead_at r ≢ lead.OpenBracket → reader.new ≡ r }
    ensures no_longer { length reader.new ≤ length reader.old }
{
    let base = base(reader);
    let dims = pairs(reader, 255);
    Ty { base, dims }
}

/// Types with commas between them, one at least, that neither `,` nor `[` follows.
pub fn types(alloc: Global, reader: &mut Reader) -> Result<List<Ty>, NoMemory>
    ensures types { (x : Tree grammar.types) (r : List Sign) → reader.old ≡ spell grammar.types x r →
        lead_at r ≢ lead.Comma → lead_at r ≢ lead.OpenBracket → IfOk result (λ found. found ≡ types_of x) }
    ensures rest { (x : Tree grammar.types) (r : List Sign) → reader.old ≡ spell grammar.types x r →
        lead_at r ≢ lead.Comma → lead_at r ≢ lead.OpenBracket → OnOk result (reader.new ≡ r) }
    ensures no_longer { OnOk result (length reader.new ≤ length reader.old) }
{
    let mut found = Vec::new(alloc);
    found.push(ty(reader))?;
    while reader.is_at(Lead::Comma) {
        reader.skip();
        found.push(ty(reader))?;
    }
    Ok(List::from_vec(found))
}

/// The types between round brackets, up to the closing one.
pub fn maybe_types(alloc: Global, reader: &mut Reader) -> Result<List<Ty>, NoMemory>
    ensures types { (x : Tree (Opt grammar.types)) (r : List Sign) → reader.old ≡ spell (Opt grammar.types) x r →
        lead_at r ≡ lead.CloseParen → IfOk result (λ found. found ≡ maybe_types_of x) }
    ensures rest { (x : Tree (Opt grammar.types)) (r : List Sign) → reader.old ≡ spell (Opt grammar.types) x r →
        lead_at r ≡ lead.CloseParen → OnOk result (reader.new ≡ r) }
    ensures no_longer { OnOk result (length reader.new ≤ length reader.old) }
{
    if reader.is_at(Lead::CloseParen) {
        return Ok(List::from_vec(Vec::new(alloc)));
    }
    types(alloc, reader)
}

/// The type of a result, `void` among them, that no `[` follows.
pub fn outcome(reader: &mut Reader) -> Ty
    ensures ty { (x : Tree grammar.outcome) (r : List Sign) → reader.old ≡ spell grammar.outcome x r →
        lead_at r ≢ lead.OpenBracket → result ≡ outcome_of x }
    ensures rest { (x : Tree grammar.outcome) (r : List Sign) → reader.old ≡ spell grammar.outcome x r →
        lead_at r ≢ lead.OpenBracket → reader.new ≡ r }
    ensures no_longer { length reader.new ≤ length reader.old }
{
    if reader.is_at(Lead::Void) {
        reader.skip();
        return Ty {
            base: Base::Void,
            dims: 0,
        };
    }
    ty(reader)
}

/// The signature of a field.
pub fn field_sig(reader: &mut Reader) -> FieldSig
    ensures sig { (x : Tree grammar.fsig) (r : List Sign) → reader.old ≡ spell grammar.fsig x r → result ≡ fsig_of x }
    ensures rest { (x : Tree grammar.fsig) (r : List Sign) → reader.old ≡ spell grammar.fsig x r → reader.new ≡ r }
    ensures no_longer { length reader.new ≤ length reader.old }
{
    reader.skip();
    let class = reader.name();
    reader.skip();
    let ty = ty(reader);
    let name = reader.name();
    reader.skip();
    FieldSig { class, ty, name }
}

/// The signature of a method.
pub fn method_sig(alloc: Global, reader: &mut Reader) -> Result<MethodSig, NoMemory>
    ensures sig { (x : Tree grammar.msig) (r : List Sign) → reader.old ≡ spell grammar.msig x r →
        IfOk result (λ sig. sig ≡ msig_of x) }
    ensures rest { (x : Tree grammar.msig) (r : List Sign) → reader.old ≡ spell grammar.msig x r → OnOk result (reader.new ≡ r) }
    ensures no_longer { OnOk result (length reader.new ≤ length reader.old) }
{
    reader.skip();
    let class = reader.name();
    reader.skip();
    let result = outcome(reader);
    let name = reader.name();
    reader.skip();
    let params = maybe_types(alloc, reader)?;
    reader.skip();
    reader.skip();
    Ok(MethodSig {
        class,
        result,
        name,
        params,
    })
}
