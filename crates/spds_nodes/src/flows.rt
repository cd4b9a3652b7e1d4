//! Where a statement takes the variables from that it assigns, throws, returns, stores and passes.
ghost use Rattle.std.specs.Prelude.{◌≡◌, ◌↔◌, ℕ, IsTrue, None, Some};
ghost use Rattle.lists.specs.Lists.{Has};
ghost use Rattle.link_indexes.specs.Facts.{Calls};
ghost use Rattle.spds_rules.specs.Formals.{IsPosition, assigned, assigns};
ghost use Rattle.spds_rules.specs.Edges.{AssignsTo, IsCaughtAs, IsOfFrame, Leaves, LoadsStatic, Passes, Returns, StoresStatic};
ghost use Rattle.spds_rules.specs.declared.edge.EdgeKind.TheVariants.{Flow, Load};
ghost use Rattle.spds_rules.specs.declared.node.Var.{Var as Variable};
ghost use Rattle.spds_rules.specs.declared.node.Var.TheVariants.{Local, Param};
ghost use Rattle.spds_nodes.specs.Codes.{Brings, PassesAs, TakesFrom, Throws};
ghost use Rattle.spds_nodes.specs.declared.flows.Source.{Source as Brought};

use super::codes::arg_var;
use link_rules::{Arg, Code};
use spds_rules::{EdgeKind, Var};

// The local that a statement assigns.
fn assigned(code: &Code) -> Option<u32>
    ensures { result ≡ assigned code.now }
{
    match code {
        Code::This { to } | Code::Param { to, .. } | Code::Caught { to } => Some(*to),
        Code::Copy { to, .. } | Code::Cast { to, .. } => Some(*to),
        Code::New { to, .. } | Code::NewArray { to } | Code::NewMulti { to, .. } => Some(*to),
        Code::Numeric { to, .. } | Code::Length { to, .. } => Some(*to),
        Code::Load { to, .. } | Code::LoadCell { to, .. } | Code::LoadStatic { to, .. } => {
            Some(*to)
        }
        Code::Call { to, .. } => *to,
        _ => None,
    }
}

/// Whether a statement assigns the local.
pub fn assigns(code: &Code, x: u32) -> bool
    ensures is { result ≡ assigns x code.now }
    ensures to { IsTrue result ↔ AssignsTo code.now x }
{
    match assigned(code) {
        Some(to) => to == x,
        None => false,
    }
}

/// Whether the variable is one of a frame that a statement doesn't assign.
pub fn leaves(code: &Code, var: Var) -> bool
    ensures { IsTrue result ↔ Leaves code.now var }
{
    match var {
        Var::Local(x) => !assigns(code, x),
        Var::This | Var::Param(_) | Var::Caught => true,
        _ => false,
    }
}

/// A variable, and the kind of the edges from it.
#[derive(Clone, Copy)]
pub struct Source {
    pub var: Var,
    pub kind: EdgeKind,
}

fn flow_from(var: Var) -> Source
    ensures var { result.var ≡ var }
    ensures kind { result.kind ≡ Flow }
{
    Source {
        var,
        kind: EdgeKind::Flow,
    }
}

fn load_from(base: u32, field: u32) -> Source
    ensures var { result.var ≡ Local base }
    ensures kind { result.kind ≡ Load field }
{
    Source {
        var: Var::Local(base),
        kind: EdgeKind::Load(field),
    }
}

// What a statement brings into the local that it assigns.
fn source_of(code: &Code) -> Option<Source>
    ensures { (x : ℕ) → AssignsTo code.now x → (s : Brought) → (result ≡ Some s) ↔ Brings code.now x s.var s.kind }
{
    match code {
        Code::This { .. } => Some(flow_from(Var::This)),
        Code::Param { number, .. } => Some(flow_from(Var::Param(*number))),
        Code::Caught { .. } => Some(flow_from(Var::Caught)),
        Code::Copy { arg, .. } | Code::Cast { arg, .. } => Some(flow_from(arg_var(*arg)?)),
        Code::New { .. } | Code::NewArray { .. } | Code::NewMulti { .. } => {
            Some(flow_from(Var::Made))
        }
        Code::Load { base, field, .. } => Some(load_from(*base, *field)),
        Code::LoadCell { base, .. } => Some(load_from(*base, 0)),
        _ => None,
    }
}

/// What a statement brings into a local within the frame.
pub fn brought(code: &Code, x: u32) -> Option<Source>
    ensures { (s : Brought) → (result ≡ Some s) ↔ Brings code.now x s.var s.kind }
{
    if assigns(code, x) {
        return source_of(code);
    }
    None
}

/// The variable with an exception in flight that a handler finds as this one.
pub fn caught_from(var: Var) -> Option<Var>
    ensures { (v : Variable) → (result ≡ Some v) ↔ IsCaughtAs v var }
{
    match var {
        Var::Local(_) | Var::This | Var::Param(_) => Some(var),
        Var::Caught => Some(Var::Thrown),
        _ => None,
    }
}

/// The operand that a statement throws.
pub fn thrown(code: &Code) -> Option<Var>
    ensures { (v : Variable) → (result ≡ Some v) ↔ Throws code.now v }
{
    match code {
        Code::Throw { arg } => arg_var(*arg),
        _ => None,
    }
}

/// The variable that a statement returns.
pub fn returned(code: &Code) -> Option<Var>
    ensures { (v : Variable) → (result ≡ Some v) ↔ Returns code.now v }
{
    match code {
        Code::Return { arg: Some(arg) } => arg_var(*arg),
        _ => None,
    }
}

/// The variable that a statement stores into a static field.
pub fn stored_static(code: &Code, field: u32) -> Option<Var>
    ensures { (v : Variable) → (result ≡ Some v) ↔ StoresStatic code.now v field }
{
    match code {
        Code::StoreStatic { field: into, arg } if *into == field => arg_var(*arg),
        _ => None,
    }
}

fn passed_arg(args: &[Arg], number: u32) -> Option<Var>
    ensures { (v : Variable) → (result ≡ Some v) ↔ Passes None args.now v (Param number) }
{
    match args.get(number as usize) {
        Some(arg) => arg_var(*arg),
        None => None,
    }
}

/// The variable that a call passes as a receiver or a parameter.
pub fn passed(code: &Code, var: Var) -> Option<Var>
    ensures { (v : Variable) → (result ≡ Some v) ↔ PassesAs code.now v var }
{
    match code {
        Code::Call { receiver, args, .. } => match var {
            Var::This => Some(Var::Local((*receiver)?)),
            Var::Param(number) => passed_arg(args.as_slice(), number),
            _ => None,
        },
        _ => None,
    }
}

/// The static field that a statement loads into the local.
pub fn loaded_static(code: &Code, x: u32) -> Option<u32>
    ensures { (field : ℕ) → (result ≡ Some field) ↔ LoadsStatic code.now field (Local x) }
{
    match code {
        Code::LoadStatic { to, field } if *to == x => Some(*field),
        _ => None,
    }
}

/// Whether the variable is one as which calls pass something: the receiver or a parameter.
pub fn is_position(var: Var) -> bool
    ensures { IsTrue result ↔ IsPosition var }
{
    matches!(var, Var::This | Var::Param(_))
}

/// The methods that a call may run, where it takes the result into the local.
pub fn taken_from(code: &Code, x: u32) -> &[u32]
    ensures { (target : ℕ) → Has result.now target ↔ TakesFrom code.now x target }
{
    match code {
        Code::Call {
            to: Some(to),
            targets,
            ..
        } if *to == x => targets.as_slice(),
        _ => &[],
    }
}

/// The methods that a statement may run.
pub fn targets_of(code: &Code) -> &[u32]
    ensures { (target : ℕ) → Has result.now target ↔ Calls target code.now }
{
    match code {
        Code::Call { targets, .. } => targets.as_slice(),
        _ => &[],
    }
}

/// The variable, where it is one of a frame.
pub fn of_frame(var: Var) -> Option<Var>
    ensures { (v : Variable) → (result ≡ Some v) ↔ (IsOfFrame var × (v ≡ var)) }
{
    match var {
        Var::Local(_) | Var::This | Var::Param(_) | Var::Caught => Some(var),
        _ => None,
    }
}
