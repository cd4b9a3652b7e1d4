//! The rule on locals.
ghost use Rattle.std.specs.Prelude.{◌≡◌, ◌↔◌, IsSomeAnd, IsTrue, option_to_list};
ghost use Rattle.link_rules.specs.Statements.{call_args, expr_operands, operands};
ghost use Rattle.link_faults.specs.Parts.{assigned_of, base_of, call_base_of, expr_base_of};
ghost use Rattle.link_faults.specs.Sites.{HasMissingIn, HasMissingLocal, HasMissingOperand, IsMissing};

use jim_ast::{Expr, Imm, Invoke, NameId, Stmt};
use link_bodies::BodyIndex;
use std::slice::from_ref;

// The local that a statement assigns.
fn assigned(stmt: &Stmt) -> Option<NameId>
    ensures { result ≡ assigned_of stmt.now }
{
    match stmt {
        Stmt::This(local) => Some(*local),
        Stmt::Param(local, _) => Some(*local),
        Stmt::Caught(local) => Some(*local),
        Stmt::Assign(local, _) => Some(*local),
        _ => None,
    }
}

// The local that a call is made on.
fn call_base(call: &Invoke) -> Option<NameId>
    ensures { result ≡ call_base_of call.now }
{
    match call {
        Invoke::Plain { receiver, .. } => *receiver,
        Invoke::Dynamic => None,
    }
}

// The local with the object or the array that an expression reads.
fn expr_base(expr: &Expr) -> Option<NameId>
    ensures { result ≡ expr_base_of expr.now }
{
    match expr {
        Expr::Field(base, _) => Some(*base),
        Expr::Cell(base) => Some(*base),
        Expr::Invoke(call) => call_base(call),
        _ => None,
    }
}

// The local with the object or the array that a statement reads, writes or calls.
fn base(stmt: &Stmt) -> Option<NameId>
    ensures { result ≡ base_of stmt.now }
{
    match stmt {
        Stmt::Assign(_, expr) => expr_base(expr),
        Stmt::PutField(base, _, _) => Some(*base),
        Stmt::PutCell(base, _) => Some(*base),
        Stmt::Call(call) => call_base(call),
        _ => None,
    }
}

// The arguments of a call.
fn args(call: &Invoke) -> &[Imm]
    ensures { result.now ≡ call_args call.now }
{
    match call {
        Invoke::Plain { args, .. } => args.as_slice(),
        Invoke::Dynamic => &[],
    }
}

// The operands of an expression that are kept.
fn expr_operands(expr: &Expr) -> &[Imm]
    ensures { result.now ≡ expr_operands expr.now }
{
    match expr {
        Expr::Use(operand) => from_ref(operand),
        Expr::Cast(_, operand) => from_ref(operand),
        Expr::Length(operand) => from_ref(operand),
        Expr::Invoke(call) => args(call),
        _ => &[],
    }
}

// The operand of a `return`.
fn returned(operand: &Option<Imm>) -> &[Imm]
    ensures { result.now ≡ option_to_list operand.now }
{
    match operand {
        Some(operand) => from_ref(operand),
        None => &[],
    }
}

// The operands of a statement that are kept.
fn operands(stmt: &Stmt) -> &[Imm]
    ensures { result.now ≡ operands stmt.now }
{
    match stmt {
        Stmt::Assign(_, expr) => expr_operands(expr),
        Stmt::PutField(_, _, operand) => from_ref(operand),
        Stmt::PutStatic(_, operand) => from_ref(operand),
        Stmt::PutCell(_, operand) => from_ref(operand),
        Stmt::Call(call) => args(call),
        Stmt::Return(operand) => returned(operand),
        Stmt::Throw(operand) => from_ref(operand),
        Stmt::Monitor(operand) => from_ref(operand),
        _ => &[],
    }
}

// Whether the local isn't declared.
fn is_missing(body: &BodyIndex, local: NameId) -> bool
    ensures { IsTrue result ↔ IsMissing body.now.locals local }
{
    body.local(local).is_none()
}

// Whether the operand is a local that isn't declared.
fn is_missing_operand(body: &BodyIndex, operand: Imm) -> bool
    ensures { IsTrue result ↔ HasMissingOperand body.now.locals operand }
{
    match operand {
        Imm::Local(local) => is_missing(body, local),
        _ => false,
    }
}

// Whether there is a local and it isn't declared.
fn some_is_missing(body: &BodyIndex, local: Option<NameId>) -> bool
    ensures { IsTrue result ↔ IsSomeAnd local (IsMissing body.now.locals) }
{
    match local {
        Some(local) => is_missing(body, local),
        None => false,
    }
}

// Whether one of the operands is a local that isn't declared.
fn has_missing_operand(body: &BodyIndex, operands: &[Imm]) -> bool
    ensures { IsTrue result ↔ HasMissingIn body.now.locals operands.now }
{
    for operand in operands {
        if is_missing_operand(body, *operand) {
            return true;
        }
    }
    false
}

// Whether a local of the statement that the code keeps isn't declared.
pub(crate) fn has_missing_local(body: &BodyIndex, stmt: &Stmt) -> bool
    ensures { IsTrue result ↔ HasMissingLocal body.now.locals stmt.now }
{
    some_is_missing(body, assigned(stmt))
        || some_is_missing(body, base(stmt))
        || has_missing_operand(body, operands(stmt))
}
