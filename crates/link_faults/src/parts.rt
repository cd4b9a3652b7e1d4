//! The parts of a statement that the rules look at.
ghost use Rattle.std.specs.Prelude.{◌≡◌, option_copied, option_map};
ghost use Rattle.link_rules.specs.Statements.{access_of, call_of, expr_access, new_of};
ghost use Rattle.link_faults.specs.Parts.{plain_call, plain_of, seen_access, seen_call};

use jim_ast::{Expr, FieldSig, Imm, Invoke, MethodSig, Mode, NameId, Stmt};

/// A field that is read or written, and whether as a static one.
#[derive(Clone, Copy)]
pub(crate) struct Accessed {
    pub(crate) sig: FieldSig,
    pub(crate) is_static: bool,
}

/// A call in its parts: any but `dynamicinvoke`.
#[derive(Clone, Copy)]
pub(crate) struct Called<'a> {
    pub(crate) mode: Mode,
    pub(crate) receiver: Option<NameId>,
    pub(crate) sig: &'a MethodSig,
    pub(crate) args: &'a [Imm],
}

// The class of which a statement makes an object.
pub(crate) fn new_of(stmt: &Stmt) -> Option<NameId>
    ensures { result ≡ new_of stmt.now }
{
    match stmt {
        Stmt::Assign(_, Expr::New(class)) => Some(*class),
        _ => None,
    }
}

// The field that an expression reads.
fn expr_access(expr: &Expr) -> Option<Accessed>
    ensures { option_map seen_access result ≡ expr_access expr.now }
{
    match expr {
        Expr::Field(_, sig) => Some(Accessed {
            sig: *sig,
            is_static: false,
        }),
        Expr::Static(sig) => Some(Accessed {
            sig: *sig,
            is_static: true,
        }),
        _ => None,
    }
}

// The field that a statement reads or writes.
pub(crate) fn access_of(stmt: &Stmt) -> Option<Accessed>
    ensures { option_map seen_access result ≡ access_of stmt.now }
{
    match stmt {
        Stmt::Assign(_, expr) => expr_access(expr),
        Stmt::PutField(_, sig, _) => Some(Accessed {
            sig: *sig,
            is_static: false,
        }),
        Stmt::PutStatic(sig, _) => Some(Accessed {
            sig: *sig,
            is_static: true,
        }),
        _ => None,
    }
}

// The call that a statement makes.
pub(crate) fn call_of(stmt: &Stmt) -> Option<&Invoke>
    ensures { option_copied result ≡ call_of stmt.now }
{
    match stmt {
        Stmt::Assign(_, Expr::Invoke(call)) => Some(call),
        Stmt::Call(call) => Some(call),
        _ => None,
    }
}

// A call in its parts, if it isn't a `dynamicinvoke`.
fn plain_of(call: &Invoke) -> Option<Called<'_>>
    ensures { option_map seen_call result ≡ plain_of call.now }
{
    match call {
        Invoke::Plain {
            mode,
            receiver,
            sig,
            args,
        } => Some(Called {
            mode: *mode,
            receiver: *receiver,
            sig,
            args: args.as_slice(),
        }),
        Invoke::Dynamic => None,
    }
}

// The call that a statement makes, if it isn't a `dynamicinvoke`.
pub(crate) fn plain_call(stmt: &Stmt) -> Option<Called<'_>>
    ensures { option_map seen_call result ≡ plain_call stmt.now }
{
    let call = call_of(stmt)?;
    plain_of(call)
}
