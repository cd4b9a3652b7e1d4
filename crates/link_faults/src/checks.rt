//! The rules that look at a statement alone.
ghost use Rattle.std.specs.Prelude.{◌≡◌, ◌↔◌, Some, IsTrue};
ghost use Rattle.jim_ast.specs.declared.syntax.Invoke.TheVariants as invoke;
ghost use Rattle.link_rules.specs.Statements.{call_of};
ghost use Rattle.link_faults.specs.Parts.{seen_call};
ghost use Rattle.link_faults.specs.Sites.{AssignsVoid, HasWrongCount, IsBadIdentity, IsUnsized, IsRet, IsVoidCall};

use super::parts::{Called, call_of};
use jim_ast::{Base, Expr, Invoke, MethodDecl, Stmt};

// Whether a receiver or a parameter is named that the method doesn't have.
pub(crate) fn is_bad_identity(decl: &MethodDecl, stmt: &Stmt) -> bool
    ensures { IsTrue result ↔ IsBadIdentity decl.now stmt.now }
{
    match stmt {
        Stmt::This(_) => decl.is_static,
        Stmt::Param(_, number) => decl.params.as_slice().len() <= *number as usize,
        _ => false,
    }
}

// Whether the statement is a `dynamicinvoke`.
pub(crate) fn is_dynamic(stmt: &Stmt) -> bool
    ensures { IsTrue result ↔ (call_of stmt.now ≡ Some invoke.Dynamic) }
{
    match call_of(stmt) {
        Some(Invoke::Dynamic) => true,
        _ => false,
    }
}

// Whether the statement is a `ret`.
pub(crate) fn is_ret(stmt: &Stmt) -> bool
    ensures { IsTrue result ↔ IsRet stmt.now }
{
    match stmt {
        Stmt::Ret => true,
        _ => false,
    }
}

// Whether the statement is a `newmultiarray` without a size in its first pair of brackets.
pub(crate) fn is_unsized(stmt: &Stmt) -> bool
    ensures { IsTrue result ↔ IsUnsized stmt.now }
{
    match stmt {
        Stmt::Assign(_, Expr::NewMulti(_, sized)) => *sized == 0,
        _ => false,
    }
}

// Whether a call has more or fewer arguments than parameters.
pub(crate) fn has_wrong_count(call: &Called) -> bool
    ensures { IsTrue result ↔ HasWrongCount (seen_call call.now) }
{
    call.args.len() != call.sig.params.as_slice().len()
}

// Whether the method that is called has no result.
fn is_void_call(call: &Invoke) -> bool
    ensures { IsTrue result ↔ IsVoidCall call.now }
{
    match call {
        Invoke::Plain { sig, .. } => sig.result.base == Base::Void,
        Invoke::Dynamic => false,
    }
}

// Whether a local is assigned the result of a method that has none.
pub(crate) fn assigns_void(stmt: &Stmt) -> bool
    ensures { IsTrue result ↔ AssignsVoid stmt.now }
{
    match stmt {
        Stmt::Assign(_, Expr::Invoke(call)) => is_void_call(call),
        _ => false,
    }
}
