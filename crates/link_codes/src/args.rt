//! The code of operands. Constants are numbered as they come.
ghost use Rattle.std.specs.Prelude.{[], ◌∷◌, All, IfOk, OnOk};
ghost use Rattle.std.specs.Option.{ForSome, option_to_list};
ghost use Rattle.link_codes.specs.Contexts.{context_of};
ghost use Rattle.link_codes.specs.Constants.{Uses};
ghost use Rattle.link_codes.specs.Made.{MakesAnyArg, MakesArg, MakesArgs};
ghost use Rattle.link_codes.specs.Needs.{HasOperand};

use super::constants::Constants;
use super::scope::MethodScope;
use jim_ast::{Imm, List};
use link_rules::Arg;
use lists::NoMemory;
use std::alloc::Global;

// The code of an operand.
pub(crate) fn arg(
    scope: &MethodScope,
    constants: &mut Constants,
    operand: Imm,
) -> Result<Arg, NoMemory>
    requires { HasOperand (context_of scope.now) operand }
    ensures arg { IfOk result (MakesArg (context_of scope.now) constants.new operand) }
    ensures uses { OnOk result (Uses (context_of scope.now).names (operand ∷ []) constants.old constants.new) }
{
    Ok(match operand {
        Imm::Local(name) => Arg::Local(scope.local(name)),
        Imm::Number => Arg::Number,
        Imm::Null => Arg::Null,
        Imm::Text(name) => Arg::Text(constants.text(scope.text(name))?),
        Imm::ClassConst(name) => Arg::Class(constants.class_text(scope.text(name))?),
    })
}

// The code of an operand, if there is one.
pub(crate) fn any_arg(
    scope: &MethodScope,
    constants: &mut Constants,
    operand: Option<Imm>,
) -> Result<Option<Arg>, NoMemory>
    requires { ForSome operand (HasOperand (context_of scope.now)) }
    ensures arg { IfOk result (MakesAnyArg (context_of scope.now) constants.new operand) }
    ensures uses { OnOk result (Uses (context_of scope.now).names (option_to_list operand) constants.old constants.new) }
{
    match operand {
        Some(operand) => Ok(Some(arg(scope, constants, operand)?)),
        None => Ok(None),
    }
}

// The code of operands, in order.
pub(crate) fn args(
    alloc: Global,
    scope: &MethodScope,
    constants: &mut Constants,
    operands: &[Imm],
) -> Result<List<Arg>, NoMemory>
    requires { All (HasOperand (context_of scope.now)) operands.now }
    ensures args { IfOk result (MakesArgs (context_of scope.now) constants.new operands.now) }
    ensures uses { OnOk result (Uses (context_of scope.now).names operands.now constants.old constants.new) }
{
    let mut args = Vec::with_capacity(alloc, operands.len())?;
    for operand in operands {
        args.push(arg(scope, constants, *operand)?)?;
    }
    Ok(List::from_vec(args))
}
