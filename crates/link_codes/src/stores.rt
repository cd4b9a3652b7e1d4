//! The code of what is stored in fields and in arrays.
ghost use Rattle.std.specs.Prelude.{[], ◌∷◌, false, true, IfOk, OnOk};
ghost use Rattle.jim_ast.specs.declared.syntax.Stmt.TheVariants.{PutCell, PutField, PutStatic};
ghost use Rattle.link_codes.specs.Contexts.{context_of};
ghost use Rattle.link_codes.specs.Constants.{Uses};
ghost use Rattle.link_codes.specs.Made.{MakesCode};
ghost use Rattle.link_codes.specs.Needs.{HasField, HasLocal, HasOperand};

use super::args::arg;
use super::constants::Constants;
use super::scope::MethodScope;
use jim_ast::{FieldSig, Imm, NameId};
use link_rules::Code;
use lists::NoMemory;

// The code of a store in a field of the object in a local.
pub(crate) fn put_field(
    scope: &MethodScope,
    constants: &mut Constants,
    base: NameId,
    sig: &FieldSig,
    operand: Imm,
) -> Result<Code, NoMemory>
    requires base { HasLocal (context_of scope.now) base }
    requires field { HasField (context_of scope.now) false sig.now }
    requires operand { HasOperand (context_of scope.now) operand }
    ensures code { IfOk result (MakesCode (context_of scope.now) constants.new (PutField base sig.now operand)) }
    ensures uses { OnOk result (Uses (context_of scope.now).names (operand ∷ []) constants.old constants.new) }
{
    Ok(Code::Store {
        base: scope.local(base),
        field: scope.instance_field(sig),
        arg: arg(scope, constants, operand)?,
    })
}

// The code of a store in a static field.
pub(crate) fn put_static(
    scope: &MethodScope,
    constants: &mut Constants,
    sig: &FieldSig,
    operand: Imm,
) -> Result<Code, NoMemory>
    requires field { HasField (context_of scope.now) true sig.now }
    requires operand { HasOperand (context_of scope.now) operand }
    ensures code { IfOk result (MakesCode (context_of scope.now) constants.new (PutStatic sig.now operand)) }
    ensures uses { OnOk result (Uses (context_of scope.now).names (operand ∷ []) constants.old constants.new) }
{
    Ok(Code::StoreStatic {
        field: scope.static_field(sig),
        arg: arg(scope, constants, operand)?,
    })
}

// The code of a store in the array in a local.
pub(crate) fn put_cell(
    scope: &MethodScope,
    constants: &mut Constants,
    base: NameId,
    operand: Imm,
) -> Result<Code, NoMemory>
    requires base { HasLocal (context_of scope.now) base }
    requires operand { HasOperand (context_of scope.now) operand }
    ensures code { IfOk result (MakesCode (context_of scope.now) constants.new (PutCell base operand)) }
    ensures uses { OnOk result (Uses (context_of scope.now).names (operand ∷ []) constants.old constants.new) }
{
    Ok(Code::StoreCell {
        base: scope.local(base),
        arg: arg(scope, constants, operand)?,
    })
}
