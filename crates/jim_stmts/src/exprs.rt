//! Expressions.
ghost use Rattle.std.specs.Prelude.{◌≡◌, ◌≢◌, ◌+◌, ◌-◌, ◌<◌, ◌≤◌, List, length, IfOk, OnOk, IsTrue, false, is_some};
ghost use Rattle.jim_text.specs.declared.lead.Lead.TheVariants as lead;
ghost use Rattle.jim_signs.specs.declared.seen.Sign.{Sign};
ghost use Rattle.jim_grammar.specs.Expressions.{Tree, spell, spell_each};
ghost use Rattle.jim_grammar.specs.Forms.{NewExpr, ArrayExpr, MultiExpr, CastExpr, LengthExpr, NegExpr, FieldExpr, StaticExpr, CellExpr, InvokeExpr};
ghost use Rattle.jim_grammar.specs.Grammar as grammar;
ghost use Rattle.jim_stmts.specs.Leads.{lead_at};
ghost use Rattle.jim_stmts.specs.Meanings.{sized_of, is_division, expr_of};
ghost use Rattle.jim_stmts.specs.Productions.{IsOperandFirst};

use super::calls::invoke;
use super::operands::imm;
use super::reader::Reader;
use super::signatures::{base, field_sig, pairs, ty};
use jim_ast::{Expr, Ty};
use jim_signs::Lead;
use lists::NoMemory;
use std::alloc::Global;

fn new_object(reader: &mut Reader) -> Expr
    ensures expr { (x : Tree (grammar.by_expr NewExpr)) (r : List Sign) → reader.old ≡ spell (grammar.by_expr NewExpr) x r →
        result ≡ expr_of (NewExpr, x) }
    ensures rest { (x : Tree (grammar.by_expr NewExpr)) (r : List Sign) → reader.old ≡ spell (grammar.by_expr NewExpr) x r →
        reader.new ≡ r }
    ensures no_longer { length reader.new ≤ length reader.old }
{
    reader.skip();
    Expr::New(reader.name())
}

fn new_array(reader: &mut Reader) -> Expr
    ensures expr { (x : Tree (grammar.by_expr ArrayExpr)) (r : List Sign) → reader.old ≡ spell (grammar.by_expr ArrayExpr) x r →
        result ≡ expr_of (ArrayExpr, x) }
    ensures rest { (x : Tree (grammar.by_expr ArrayExpr)) (r : List Sign) → reader.old ≡ spell (grammar.by_expr ArrayExpr) x r →
        reader.new ≡ r }
    ensures no_longer { length reader.new ≤ length reader.old }
{
    reader.skip();
    reader.skip();
    let ty = ty(reader);
    reader.skip();
    reader.skip();
    imm(reader);
    reader.skip();
    Expr::NewArray(ty)
}

// How many of the lengths stand before the first that is left out, and how many pairs of brackets there are from that one on.
#[derive(Clone, Copy)]
struct Sizes {
    sized: u8,
    others: u8,
}

// A length in brackets, or none: whether there is one.
fn own(reader: &mut Reader) -> bool
    ensures given { (x : Tree grammar.own) (r : List Sign) → reader.old ≡ spell grammar.own x r → result ≡ is_some x.1.0 }
    ensures rest { (x : Tree grammar.own) (r : List Sign) → reader.old ≡ spell grammar.own x r → reader.new ≡ r }
    ensures no_longer { length reader.new ≤ length reader.old }
{
    reader.skip();
    if reader.is_at(Lead::CloseBracket) {
        reader.skip();
        return false;
    }
    imm(reader);
    reader.skip();
    true
}

// The sizes with one more length, or with one that is left out.
fn counted(sizes: Sizes, given: bool) -> Sizes
    requires { sizes.sized + sizes.others < 255 }
    ensures total { result.sized + result.others ≡ sizes.sized + sizes.others + 1 }
    ensures first { IsTrue given → sizes.others ≡ 0 → (result.sized ≡ sizes.sized + 1) × (result.others ≡ 0) }
    ensures left_out { given ≡ false → (result.sized ≡ sizes.sized) × (result.others ≡ sizes.others + 1) }
    ensures behind { 0 < sizes.others → (result.sized ≡ sizes.sized) × (result.others ≡ sizes.others + 1) }
{
    let Sizes { sized, others } = sizes;
    if given && others == 0 {
        Sizes {
            sized: sized + 1,
            others,
        }
    } else {
        Sizes {
            sized,
            others: others + 1,
        }
    }
}

// Lengths in brackets, at most so many, as far as they stand.
fn owns(reader: &mut Reader, most: u8) -> Sizes
    ensures within { result.sized + result.others ≤ most }
    ensures owns { (xs : List (Tree grammar.own)) (r : List Sign) → reader.old ≡ spell_each (spell grammar.own) xs r →
        lead_at r ≢ lead.OpenBracket → length xs ≤ most → (result.sized ≡ sized_of xs) × (result.sized + result.others ≡ length xs) }
    ensures rest { (xs : List (Tree grammar.own)) (r : List Sign) → reader.old ≡ spell_each (spell grammar.own) xs r →
        lead_at r ≢ lead.OpenBracket → length xs ≤ most → reader.new ≡ r }
    ensures no_longer { length reader.new ≤ length reader.old }
{
    let mut sizes = Sizes {
        sized: 0,
        others: 0,
    };
    while sizes.sized + sizes.others < most && reader.is_at(Lead::OpenBracket) {
        sizes = counted(sizes, own(reader));
    }
    sizes
}

fn new_multi(reader: &mut Reader) -> Expr
    ensures expr { (x : Tree (grammar.by_expr MultiExpr)) (r : List Sign) → reader.old ≡ spell (grammar.by_expr MultiExpr) x r →
        lead_at r ≢ lead.OpenBracket → result ≡ expr_of (MultiExpr, x) }
    ensures rest { (x : Tree (grammar.by_expr MultiExpr)) (r : List Sign) → reader.old ≡ spell (grammar.by_expr MultiExpr) x r →
        lead_at r ≢ lead.OpenBracket → reader.new ≡ r }
    ensures no_longer { length reader.new ≤ length reader.old }
{
    reader.skip();
    reader.skip();
    let base = base(reader);
    let dims = pairs(reader, 254);
    reader.skip();
    let sizes = owns(reader, 255 - dims);
    Expr::NewMulti(
        Ty {
            base,
            dims: dims + sizes.others,
        },
        sizes.sized,
    )
}

fn cast(reader: &mut Reader) -> Expr
    ensures expr { (x : Tree (grammar.by_expr CastExpr)) (r : List Sign) → reader.old ≡ spell (grammar.by_expr CastExpr) x r →
        result ≡ expr_of (CastExpr, x) }
    ensures rest { (x : Tree (grammar.by_expr CastExpr)) (r : List Sign) → reader.old ≡ spell (grammar.by_expr CastExpr) x r →
        reader.new ≡ r }
    ensures no_longer { length reader.new ≤ length reader.old }
{
    reader.skip();
    let ty = ty(reader);
    reader.skip();
    Expr::Cast(ty, imm(reader))
}

fn array_length(reader: &mut Reader) -> Expr
    ensures expr { (x : Tree (grammar.by_expr LengthExpr)) (r : List Sign) → reader.old ≡ spell (grammar.by_expr LengthExpr) x r →
        result ≡ expr_of (LengthExpr, x) }
    ensures rest { (x : Tree (grammar.by_expr LengthExpr)) (r : List Sign) → reader.old ≡ spell (grammar.by_expr LengthExpr) x r →
        reader.new ≡ r }
    ensures no_longer { length reader.new ≤ length reader.old }
{
    reader.skip();
    Expr::Length(imm(reader))
}

fn negation(reader: &mut Reader) -> Expr
    ensures expr { (x : Tree (grammar.by_expr NegExpr)) (r : List Sign) → reader.old ≡ spell (grammar.by_expr NegExpr) x r →
        result ≡ expr_of (NegExpr, x) }
    ensures rest { (x : Tree (grammar.by_expr NegExpr)) (r : List Sign) → reader.old ≡ spell (grammar.by_expr NegExpr) x r →
        reader.new ≡ r }
    ensures no_longer { length reader.new ≤ length reader.old }
{
    reader.skip();
    imm(reader);
    Expr::Numeric { divides: false }
}

fn field(reader: &mut Reader) -> Expr
    ensures expr { (x : Tree (grammar.by_expr FieldExpr)) (r : List Sign) → reader.old ≡ spell (grammar.by_expr FieldExpr) x r →
        result ≡ expr_of (FieldExpr, x) }
    ensures rest { (x : Tree (grammar.by_expr FieldExpr)) (r : List Sign) → reader.old ≡ spell (grammar.by_expr FieldExpr) x r →
        reader.new ≡ r }
    ensures no_longer { length reader.new ≤ length reader.old }
{
    let local = reader.name();
    reader.skip();
    Expr::Field(local, field_sig(reader))
}

fn static_field(reader: &mut Reader) -> Expr
    ensures expr { (x : Tree (grammar.by_expr StaticExpr)) (r : List Sign) → reader.old ≡ spell (grammar.by_expr StaticExpr) x r →
        result ≡ expr_of (StaticExpr, x) }
    ensures rest { (x : Tree (grammar.by_expr StaticExpr)) (r : List Sign) → reader.old ≡ spell (grammar.by_expr StaticExpr) x r →
        reader.new ≡ r }
    ensures no_longer { length reader.new ≤ length reader.old }
{
    Expr::Static(field_sig(reader))
}

fn cell(reader: &mut Reader) -> Expr
    ensures expr { (x : Tree (grammar.by_expr CellExpr)) (r : List Sign) → reader.old ≡ spell (grammar.by_expr CellExpr) x r →
        result ≡ expr_of (CellExpr, x) }
    ensures rest { (x : Tree (grammar.by_expr CellExpr)) (r : List Sign) → reader.old ≡ spell (grammar.by_expr CellExpr) x r →
        reader.new ≡ r }
    ensures no_longer { length reader.new ≤ length reader.old }
{
    let local = reader.name();
    reader.skip();
    imm(reader);
    reader.skip();
    Expr::Cell(local)
}

fn call_result(alloc: Global, reader: &mut Reader) -> Result<Expr, NoMemory>
    ensures expr { (x : Tree (grammar.by_expr InvokeExpr)) (r : List Sign) → reader.old ≡ spell (grammar.by_expr InvokeExpr) x r →
        lead_at r ≡ lead.Semicolon → IfOk result (λ found. found ≡ expr_of (InvokeExpr, x)) }
    ensures rest { (x : Tree (grammar.by_expr InvokeExpr)) (r : List Sign) → reader.old ≡ spell (grammar.by_expr InvokeExpr) x r →
        lead_at r ≡ lead.Semicolon → OnOk result (reader.new ≡ r) }
    ensures no_longer { OnOk result (length reader.new ≤ length reader.old) }
{
    Ok(Expr::Invoke(invoke(alloc, reader)?))
}

fn divides(lead: Lead) -> bool
    ensures { result ≡ is_division lead }
{
    matches!(lead, Lead::Slash | Lead::Percent)
}

// An operand, and what stands behind it up to the `;`: nothing, `instanceof` and a type, or an operator and an operand.
fn operand_first(reader: &mut Reader) -> Expr
    ensures expr { (x : Tree grammar.expr) (r : List Sign) → reader.old ≡ spell grammar.expr x r →
        IsOperandFirst x.0 → lead_at r ≡ lead.Semicolon → result ≡ expr_of x }
    ensures rest { (x : Tree grammar.expr) (r : List Sign) → reader.old ≡ spell grammar.expr x r →
        IsOperandFirst x.0 → lead_at r ≡ lead.Semicolon → reader.new ≡ r }
    ensures no_longer { length reader.new ≤ length reader.old }
{
    let operand = imm(reader);
    match reader.lead() {
        Lead::Semicolon => Expr::Use(operand),
        Lead::InstanceOf => {
            reader.skip();
            ty(reader);
            Expr::Numeric { divides: false }
        }
        operator => {
            reader.skip();
            imm(reader);
            Expr::Numeric {
                divides: divides(operator),
            }
        }
    }
}

// An expression that a name begins.
fn name_first(reader: &mut Reader) -> Expr
    ensures expr { (x : Tree grammar.expr) (r : List Sign) → reader.old ≡ spell grammar.expr x r →
        lead_at reader.old ≡ lead.Name → lead_at r ≡ lead.Semicolon → result ≡ expr_of x }
    ensures rest { (x : Tree grammar.expr) (r : List Sign) → reader.old ≡ spell grammar.expr x r →
        lead_at reader.old ≡ lead.Name → lead_at r ≡ lead.Semicolon → reader.new ≡ r }
    ensures no_longer { length reader.new ≤ length reader.old }
{
    match reader.second() {
        Lead::Dot => field(reader),
        Lead::OpenBracket => cell(reader),
        _ => operand_first(reader),
    }
}

/// An expression, in front of a `;`.
pub fn expr(alloc: Global, reader: &mut Reader) -> Result<Expr, NoMemory>
    ensures expr { (x : Tree grammar.expr) (r : List Sign) → reader.old ≡ spell grammar.expr x r →
        lead_at r ≡ lead.Semicolon → IfOk result (λ found. found ≡ expr_of x) }
    ensures rest { (x : Tree grammar.expr) (r : List Sign) → reader.old ≡ spell grammar.expr x r →
        lead_at r ≡ lead.Semicolon → OnOk result (reader.new ≡ r) }
    ensures no_longer { OnOk result (length reader.new ≤ length reader.old) }
{
    match reader.lead() {
        Lead::New => Ok(new_object(reader)),
        Lead::NewArray => Ok(new_array(reader)),
        Lead::NewMultiArray => Ok(new_multi(reader)),
        Lead::OpenParen => Ok(cast(reader)),
        Lead::LengthOf => Ok(array_length(reader)),
        Lead::Neg => Ok(negation(reader)),
        Lead::Less => Ok(static_field(reader)),
        Lead::Name => Ok(name_first(reader)),
        Lead::Number | Lead::Minus | Lead::Text | Lead::Class | Lead::Null => {
            Ok(operand_first(reader))
        }
        _ => call_result(alloc, reader),
    }
}
