//! The code of assignments.
ghost use Rattle.std.specs.Prelude.{◌≡◌, ◌↔◌, [], ◌∷◌, IfOk, IsTrue, OnOk, Some, slice_get};
ghost use Rattle.jim_ast.specs.declared.names.NameId.{NameId as ANameId};
ghost use Rattle.jim_ast.specs.declared.syntax.Expr.TheVariants as expr;
ghost use Rattle.link_rules.specs.Codes.{IsPrimitive};
ghost use Rattle.link_rules.specs.Statements.{expr_operands};
ghost use Rattle.link_codes.specs.Contexts.{context_of};
ghost use Rattle.link_codes.specs.Constants.{Uses};
ghost use Rattle.link_codes.specs.Made.{MakesAssignment};
ghost use Rattle.link_codes.specs.Needs.{HasExpr, HasLocal, HasOperand};

use super::args::arg;
use super::calls::call;
use super::constants::Constants;
use super::scope::MethodScope;
use jim_ast::{Base, Expr, Imm, NameId, Ty};
use link_calls::Targets;
use link_rules::Code;
use lists::NoMemory;
use std::alloc::Global;

// Whether a type is primitive: a cast to it is a copy.
fn is_primitive(ty: Ty) -> bool
    ensures { IsTrue result ↔ IsPrimitive ty }
{
    ty.dims == 0
        && match ty.base {
            Base::Boolean
            | Base::Byte
            | Base::Short
            | Base::Char
            | Base::Int
            | Base::Long
            | Base::Float
            | Base::Double => true,
            Base::Void | Base::Unknown | Base::NullType | Base::Class(_) => false,
        }
}

// The code of an assignment of a cast operand to the local with the number `to`.
fn cast(
    scope: &MethodScope,
    constants: &mut Constants,
    to: u32,
    ty: Ty,
    operand: Imm,
) -> Result<Code, NoMemory>
    requires { HasOperand (context_of scope.now) operand }
    ensures code { IfOk result (λ code. (x : ANameId) → slice_get (context_of scope.now).body.locals to ≡ Some x
        → MakesAssignment (context_of scope.now) constants.new x (expr.Cast ty operand) code) }
    ensures uses { OnOk result (Uses (context_of scope.now).names (operand ∷ []) constants.old constants.new) }
{
    let arg = arg(scope, constants, operand)?;
    if is_primitive(ty) {
        return Ok(Code::Copy { to, arg });
    }
    Ok(Code::Cast { to, arg })
}

// The code of an assignment of an expression to a local.
pub(crate) fn assignment(
    alloc: Global,
    scope: &MethodScope,
    targets: &mut Targets,
    constants: &mut Constants,
    name: NameId,
    expr: &Expr,
) -> Result<Code, NoMemory>
    requires classes { targets.old ≡ scope.now.classes.now }
    requires local { HasLocal (context_of scope.now) name }
    requires expr { HasExpr (context_of scope.now) expr.now }
    ensures code { IfOk result (MakesAssignment (context_of scope.now) constants.new name expr.now) }
    ensures uses { OnOk result (Uses (context_of scope.now).names (expr_operands expr.now) constants.old constants.new) }
    ensures same { targets.new ≡ targets.old }
{
    let to = scope.local(name);
    match expr {
        Expr::Use(operand) => Ok(Code::Copy {
            to,
            arg: arg(scope, constants, *operand)?,
        }),
        Expr::New(class) => Ok(Code::New {
            to,
            class: scope.class(*class),
        }),
        Expr::NewArray(_) => Ok(Code::NewArray { to }),
        Expr::NewMulti(_, sized) => Ok(Code::NewMulti { to, levels: *sized }),
        Expr::Cast(ty, operand) => cast(scope, constants, to, *ty, *operand),
        Expr::Length(operand) => Ok(Code::Length {
            to,
            arg: arg(scope, constants, *operand)?,
        }),
        Expr::Numeric { divides } => Ok(Code::Numeric {
            to,
            divides: *divides,
        }),
        Expr::Field(base, sig) => Ok(Code::Load {
            to,
            base: scope.local(*base),
            field: scope.instance_field(sig),
        }),
        Expr::Static(sig) => Ok(Code::LoadStatic {
            to,
            field: scope.static_field(sig),
        }),
        Expr::Cell(base) => Ok(Code::LoadCell {
            to,
            base: scope.local(*base),
        }),
        Expr::Invoke(invoke) => call(alloc, scope, targets, constants, invoke, Some(to)),
    }
}
