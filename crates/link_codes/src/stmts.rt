//! The code of statements.
ghost use Rattle.std.specs.Prelude.{◌≡◌, All, IfOk, OnOk, Some};
ghost use Rattle.link_rules.specs.Bodies.{IsLabel};
ghost use Rattle.lists.specs.Lists.{Each};
ghost use Rattle.link_rules.specs.Statements.{operands};
ghost use Rattle.link_codes.specs.Contexts.{context_of};
ghost use Rattle.link_codes.specs.Constants.{Uses};
ghost use Rattle.link_codes.specs.Made.{MakesCode};
ghost use Rattle.link_codes.specs.Needs.{HasJump, HasParts};

use super::args::{any_arg, arg};
use super::calls::call;
use super::constants::Constants;
use super::exprs::assignment;
use super::scope::MethodScope;
use super::stores::{put_cell, put_field, put_static};
use jim_ast::{List, NameId, Stmt};
use link_calls::Targets;
use link_rules::Code;
use lists::NoMemory;
use std::alloc::Global;

// The indexes that labels stand before, in order.
fn jumps(alloc: Global, scope: &MethodScope, labels: &[NameId]) -> Result<List<u32>, NoMemory>
    requires { All (HasJump (context_of scope.now)) labels.now }
    ensures { IfOk result (Each (IsLabel (context_of scope.now).body.labels) labels.now) }
{
    let mut jumps = Vec::with_capacity(alloc, labels.len())?;
    for label in labels {
        jumps.push(scope.jump(*label))?;
    }
    Ok(List::from_vec(jumps))
}

// The code of a statement.
pub(crate) fn statement(
    alloc: Global,
    scope: &MethodScope,
    targets: &mut Targets,
    constants: &mut Constants,
    stmt: &Stmt,
) -> Result<Code, NoMemory>
    requires classes { targets.old ≡ scope.now.classes.now }
    requires parts { HasParts (context_of scope.now) stmt.now }
    ensures code { IfOk result (MakesCode (context_of scope.now) constants.new stmt.now) }
    ensures uses { OnOk result (Uses (context_of scope.now).names (operands stmt.now) constants.old constants.new) }
    ensures same { targets.new ≡ targets.old }
{
    match stmt {
        Stmt::This(name) => Ok(Code::This {
            to: scope.local(*name),
        }),
        Stmt::Param(name, number) => Ok(Code::Param {
            to: scope.local(*name),
            number: *number,
        }),
        Stmt::Caught(name) => Ok(Code::Caught {
            to: scope.local(*name),
        }),
        Stmt::Assign(name, expr) => assignment(alloc, scope, targets, constants, *name, expr),
        Stmt::PutField(base, sig, operand) => put_field(scope, constants, *base, sig, *operand),
        Stmt::PutStatic(sig, operand) => put_static(scope, constants, sig, *operand),
        Stmt::PutCell(base, operand) => put_cell(scope, constants, *base, *operand),
        Stmt::Call(invoke) => call(alloc, scope, targets, constants, invoke, None),
        Stmt::If(label) => Ok(Code::If {
            jump: scope.jump(*label),
        }),
        Stmt::Goto(label) => Ok(Code::Goto {
            jump: scope.jump(*label),
        }),
        Stmt::Switch(labels) => Ok(Code::Switch {
            jumps: jumps(alloc, scope, labels.as_slice())?,
        }),
        Stmt::Return(operand) => Ok(Code::Return {
            arg: any_arg(scope, constants, *operand)?,
        }),
        Stmt::Throw(operand) => Ok(Code::Throw {
            arg: arg(scope, constants, *operand)?,
        }),
        Stmt::Monitor(operand) => Ok(Code::Monitor {
            arg: arg(scope, constants, *operand)?,
        }),
        Stmt::Skip => Ok(Code::Skip),
        Stmt::Ret => unreachable!(),
    }
}
