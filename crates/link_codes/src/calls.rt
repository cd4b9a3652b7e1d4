//! The code of calls.
ghost use Rattle.std.specs.Prelude.{◌≡◌, ℕ, All, IfOk, None, OnOk, Some, slice_get};
ghost use Rattle.std.specs.Option.{ForSome};
ghost use Rattle.lists.specs.Lists.{Has, BothOrNone, Each};
ghost use Rattle.jim_ast.specs.declared.names.NameId.{NameId as ANameId};
ghost use Rattle.jim_ast.specs.declared.syntax.Expr.TheVariants as expr;
ghost use Rattle.jim_ast.specs.declared.syntax.Stmt.TheVariants as stmt;
ghost use Rattle.link_rules.specs.Statements.{call_args};
ghost use Rattle.link_codes.specs.Contexts.{context_of};
ghost use Rattle.link_codes.specs.Constants.{Uses};
ghost use Rattle.link_codes.specs.Made.{MakesAssignment, MakesCall, MakesCode};
ghost use Rattle.link_codes.specs.Needs.{HasCall, HasLocal, HasOperand, HasTargets};

use super::args::args;
use super::constants::Constants;
use super::scope::MethodScope;
use jim_ast::{Imm, Invoke, List, MethodSig, Mode, NameId};
use link_calls::Targets;
use link_program::Numbering;
use link_rules::{Arg, Code};
use lists::NoMemory;
use std::alloc::Global;

// What a call names, its operands, and the numbers of the methods that it may run.
#[derive(Drop)]
pub(crate) struct CallParts {
    class: u32,
    key: u32,
    args: List<Arg>,
    targets: List<u32>,
}

// The numbers of the methods in these rows.
fn numbers(alloc: Global, numbering: &Numbering, rows: &[u32]) -> Result<List<u32>, NoMemory>
    requires { All (Has numbering.now) rows.now }
    ensures { IfOk result (Each (λ row n. slice_get numbering.now n ≡ Some row) rows.now) }
{
    let mut numbers = Vec::with_capacity(alloc, rows.len())?;
    for row in rows {
        numbers.push(numbering.number(*row).unwrap())?;
    }
    Ok(List::from_vec(numbers))
}

// The parts of a call.
fn parts(
    alloc: Global,
    scope: &MethodScope,
    targets: &mut Targets,
    constants: &mut Constants,
    mode: Mode,
    sig: &MethodSig,
    operands: &[Imm],
) -> Result<CallParts, NoMemory>
    requires classes { targets.old ≡ scope.now.classes.now }
    requires targets { HasTargets (context_of scope.now) mode sig.now }
    requires operands { All (HasOperand (context_of scope.now)) operands.now }
    ensures call { IfOk result (MakesCall (context_of scope.now) constants.new mode sig.now operands.now) }
    ensures uses { OnOk result (Uses (context_of scope.now).names operands.now constants.old constants.new) }
    ensures same { targets.new ≡ targets.old }
{
    let class = scope.class(sig.class);
    let key = scope.classes.called(alloc, scope.ids, mode, sig)?;
    let rows = targets.rows(mode, class, key)?;
    let runs = numbers(alloc, scope.numbering, rows.as_slice())?;
    let args = args(alloc, scope, constants, operands)?;
    Ok(CallParts {
        class,
        key,
        args,
        targets: runs,
    })
}

// The number of the local that a call is made on, if there is one.
fn receiver(scope: &MethodScope, name: Option<NameId>) -> Option<u32>
    requires { ForSome name (HasLocal (context_of scope.now)) }
    ensures { BothOrNone (λ x n. slice_get (context_of scope.now).body.locals n ≡ Some x) name result }
{
    match name {
        Some(name) => Some(scope.local(name)),
        None => None,
    }
}

// The code of a call whose result is assigned to the local `to`, or dropped where there is none.
pub(crate) fn call(
    alloc: Global,
    scope: &MethodScope,
    targets: &mut Targets,
    constants: &mut Constants,
    invoke: &Invoke,
    to: Option<u32>,
) -> Result<Code, NoMemory>
    requires classes { targets.old ≡ scope.now.classes.now }
    requires call { HasCall (context_of scope.now) invoke.now }
    ensures assigned { IfOk result (λ code. (x : ANameId) (n : ℕ) → to ≡ Some n → slice_get (context_of scope.now).body.locals n ≡ Some x
        → MakesAssignment (context_of scope.now) constants.new x (expr.Invoke invoke.now) code) }
    ensures dropped { IfOk result (λ code. to ≡ None → MakesCode (context_of scope.now) constants.new (stmt.Call invoke.now) code) }
    ensures uses { OnOk result (Uses (context_of scope.now).names (call_args invoke.now) constants.old constants.new) }
    ensures same { targets.new ≡ targets.old }
{
    let Invoke::Plain {
        mode,
        receiver: name,
        sig,
        args,
    } = invoke
    else {
        unreachable!();
    };
    let call = parts(
        alloc,
        scope,
        targets,
        constants,
        *mode,
        sig,
        args.as_slice(),
    )?;
    Ok(Code::Call {
        to,
        mode: *mode,
        class: call.class,
        key: call.key,
        receiver: receiver(scope, *name),
        args: call.args,
        targets: call.targets,
    })
}
