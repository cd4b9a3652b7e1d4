//! The root, a method that makes the arguments, initializes classes and calls `main`.
ghost use Rattle.std.specs.Prelude.{◌≡◌, ◌++◌, ◌∷◌, [], ℕ, List as AList, IfOk, OnOk, map};
ghost use Rattle.link_rules.specs.Classes.{class_name};
ghost use Rattle.link_rules.specs.Root.{initializer_call, main_call, make_args, root_of, root_stmts};
ghost use Rattle.link_rules.specs.World.{World};
ghost use Rattle.link_classes.specs.Numbered.{AreNumbers, fixed_names};
ghost use Rattle.link_classes.specs.RootParts.{plain_return, static_call_of, strings_type_of};
ghost use Rattle.link_classes.specs.Seen.{IsOrder, seen_classes};

use super::order::{ClassOrder, name_id};
use jim_ast::{Base, Body, Expr, Imm, Invoke, List, MethodDecl, MethodSig, Mode, NameId, Stmt, Ty};
use lists::NoMemory;
use std::alloc::{AllocError, Global};

const TEXT: NameId = NameId(0);

const ARGS: NameId = NameId(1);

const STRING: NameId = NameId(2);

const CLINIT: NameId = NameId(3);

const MAIN: NameId = NameId(4);

const ENTRY: NameId = NameId(5);

/// How many names the root has before those of the classes.
const FIXED: u32 = 6;

const VOID: Ty = Ty {
    base: Base::Void,
    dims: 0,
};

// A type of `java.lang.String` and brackets.
fn strings(dims: u8) -> Ty
    ensures { result ≡ strings_type_of dims }
{
    Ty {
        base: Base::Class(STRING),
        dims,
    }
}

// A static call without a result.
fn static_call(class: NameId, name: NameId, params: Vec<Ty>, args: Vec<Imm>) -> Stmt
    ensures { result ≡ static_call_of class name params.items args.items }
{
    Stmt::Call(Invoke::Plain {
        mode: Mode::Static,
        receiver: None,
        sig: MethodSig {
            class,
            result: VOID,
            name,
            params: List::from_vec(params),
        },
        args: List::from_vec(args),
    })
}

// The statements that make the arguments.
fn push_args(stmts: &mut Vec<Stmt>) -> Result<(), NoMemory>
    ensures { OnOk result (stmts.new.items ≡ stmts.old.items ++ make_args) }
{
    stmts.push(Stmt::Assign(TEXT, Expr::New(STRING)))?;
    stmts.push(Stmt::Assign(ARGS, Expr::NewArray(strings(0))))?;
    stmts.push(Stmt::PutCell(ARGS, Imm::Local(TEXT)))?;
    Ok(())
}

// The calls of initializers. There is room for 4,294,967,290 classes.
fn push_initializers(
    alloc: Global,
    stmts: &mut Vec<Stmt>,
    initialized: &[u32],
) -> Result<(), NoMemory>
    ensures { OnOk result (stmts.new.items ≡ stmts.old.items ++ map initializer_call initialized.now) }
{
    for class in initialized {
        let Some(name) = FIXED.checked_add(*class) else {
            return Err(AllocError);
        };
        let call = static_call(NameId(name), CLINIT, Vec::new(alloc), Vec::new(alloc));
        stmts.push(call)?;
    }
    Ok(())
}

// The call of `main`, and the return.
fn push_main(alloc: Global, stmts: &mut Vec<Stmt>) -> Result<(), NoMemory>
    ensures { OnOk result (stmts.new.items ≡ stmts.old.items ++ main_call ∷ plain_return ∷ []) }
{
    let mut params = Vec::new(alloc);
    params.push(strings(1))?;
    let mut args = Vec::new(alloc);
    args.push(Imm::Local(ARGS))?;
    stmts.push(static_call(ENTRY, MAIN, params, args))?;
    stmts.push(Stmt::Return(None))?;
    Ok(())
}

// The statements of the root.
fn stmts(alloc: Global, initialized: &[u32]) -> Result<Vec<Stmt>, NoMemory>
    ensures { IfOk result (λ stmts. stmts.items ≡ root_stmts initialized.now) }
{
    let mut stmts = Vec::new(alloc);
    push_args(&mut stmts)?;
    push_initializers(alloc, &mut stmts, initialized)?;
    push_main(alloc, &mut stmts)?;
    Ok(stmts)
}

/// What the root declares, with its names by their places among its own.
pub fn root_decl(alloc: Global, initialized: &[u32]) -> Result<MethodDecl, NoMemory>
    ensures { IfOk result (λ decl. (w : World) → decl ≡ (root_of w initialized.now).decl) }
{
    let stmts = stmts(alloc, initialized)?;
    let mut locals = Vec::new(alloc);
    locals.push(TEXT)?;
    locals.push(ARGS)?;
    Ok(MethodDecl {
        name: TEXT,
        result: VOID,
        params: List::from_vec(Vec::new(alloc)),
        is_static: true,
        is_native: false,
        body: Some(Body {
            locals: List::from_vec(locals),
            stmts: List::from_vec(stmts),
            labels: List::from_vec(Vec::new(alloc)),
            traps: List::from_vec(Vec::new(alloc)),
        }),
    })
}

/// The names of the root by their numbers among all names: those that it always has, and then the names of all classes.
pub fn root_ids(alloc: Global, order: &ClassOrder) -> Result<Vec<NameId>, NoMemory>
    requires { IsOrder order.now }
    ensures { IfOk result (λ ids. (entry : AList ℕ) → AreNumbers order.now.all.now.texts (fixed_names entry) order.now.all.now.root.items
        → AreNumbers order.now.all.now.texts (fixed_names entry ++ map class_name (seen_classes order.now.classes.items)) ids.items) }
{
    let mut ids = order.all.root.as_slice().to_vec(alloc)?;
    let classes = order.classes.as_slice();
    for class in classes {
        ids.push(name_id(class))?;
    }
    Ok(ids)
}
