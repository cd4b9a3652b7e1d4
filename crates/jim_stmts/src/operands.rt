//! Operands.
ghost use Rattle.std.specs.Prelude.{◌≡◌, ◌≢◌, ◌≤◌, List, length, IfOk, OnOk};
ghost use Rattle.jim_text.specs.declared.lead.Lead.TheVariants as lead;
ghost use Rattle.jim_signs.specs.declared.seen.Sign.{Sign};
ghost use Rattle.jim_grammar.specs.Expressions.{Tree, Opt, spell};
ghost use Rattle.jim_grammar.specs.Grammar as grammar;
ghost use Rattle.jim_stmts.specs.Leads.{lead_at};
ghost use Rattle.jim_stmts.specs.Meanings.{imm_of, maybe_imm_of, imms_of, args_of};

use super::reader::Reader;
use jim_ast::{Imm, List};
use jim_signs::Lead;
use lists::NoMemory;
use std::alloc::Global;

/// An operand.
pub fn imm(reader: &mut Reader) -> Imm
    ensures imm { (x : Tree grammar.imm) (r : List Sign) → reader.old ≡ spell grammar.imm x r → result ≡ imm_of x }
    ensures rest { (x : Tree grammar.imm) (r : List Sign) → reader.old ≡ spell grammar.imm x r → reader.new ≡ r }
    ensures no_longer { length reader.new ≤ length reader.old }
{
    match reader.lead() {
        Lead::Name => Imm::Local(reader.name()),
        Lead::Number => {
            reader.skip();
            Imm::Number
        }
        Lead::Minus => {
            reader.skip();
            reader.skip();
            Imm::Number
        }
        Lead::Text => Imm::Text(reader.name()),
        Lead::Class => {
            reader.skip();
            Imm::ClassConst(reader.name())
        }
        _ => {
            reader.skip();
            Imm::Null
        }
    }
}

/// An operand, or none, in front of a `;`.
pub(crate) fn maybe_imm(reader: &mut Reader) -> Option<Imm>
    ensures imm { (x : Tree (Opt grammar.imm)) (r : List Sign) → reader.old ≡ spell (Opt grammar.imm) x r →
        lead_at r ≡ lead.Semicolon → result ≡ maybe_imm_of x }
    ensures rest { (x : Tree (Opt grammar.imm)) (r : List Sign) → reader.old ≡ spell (Opt grammar.imm) x r →
        lead_at r ≡ lead.Semicolon → reader.new ≡ r }
    ensures no_longer { length reader.new ≤ length reader.old }
{
    if reader.is_at(Lead::Semicolon) {
        return None;
    }
    Some(imm(reader))
}

/// Operands with commas between them, one at least, that no `,` follows.
fn imms(alloc: Global, reader: &mut Reader) -> Result<List<Imm>, NoMemory>
    ensures imms { (x : Tree grammar.imms) (r : List Sign) → reader.old ≡ spell grammar.imms x r →
        lead_at r ≢ lead.Comma → IfOk result (λ found. found ≡ imms_of x) }
    ensures rest { (x : Tree grammar.imms) (r : List Sign) → reader.old ≡ spell grammar.imms x r →
        lead_at r ≢ lead.Comma → OnOk result (reader.new ≡ r) }
    ensures no_longer { OnOk result (length reader.new ≤ length reader.old) }
{
    let mut found = Vec::new(alloc);
    found.push(imm(reader))?;
    while reader.is_at(Lead::Comma) {
        reader.skip();
        found.push(imm(reader))?;
    }
    Ok(List::from_vec(found))
}

/// The arguments between round brackets, up to the closing one.
pub(crate) fn args(alloc: Global, reader: &mut Reader) -> Result<List<Imm>, NoMemory>
    ensures args { (x : Tree (Opt grammar.imms)) (r : List Sign) → reader.old ≡ spell (Opt grammar.imms) x r →
        lead_at r ≡ lead.CloseParen → IfOk result (λ found. found ≡ args_of x) }
    ensures rest { (x : Tree (Opt grammar.imms)) (r : List Sign) → reader.old ≡ spell (Opt grammar.imms) x r →
        lead_at r ≡ lead.CloseParen → OnOk result (reader.new ≡ r) }
    ensures no_longer { OnOk result (length reader.new ≤ length reader.old) }
{
    if reader.is_at(Lead::CloseParen) {
        return Ok(List::from_vec(Vec::new(alloc)));
    }
    imms(alloc, reader)
}
