//! What a statement hands on, makes and raises.
ghost use Rattle.std.specs.Prelude.{◌≡◌, ◌<◌, ◌≤◌, ◌↔◌, ℕ, IsTrue};
ghost use Rattle.lists.specs.Lists.{Has};
ghost use Rattle.link_rules.specs.Flow.{MayRaise, IsRaised};
ghost use Rattle.link_rules.specs.WellLinked.{MakesArrays};
ghost use Rattle.link_sites.specs.Sites.{HasLevel, Makes};
ghost use Rattle.spds_rules.specs.Nodes.{arg_var, handed};

use link_rules::{Arg, Code};
use spds_rules::Var;
use std::slice::from_ref;

/// The variable of an operand. A number and null have none.
pub fn arg_var(arg: Arg) -> Option<Var>
    ensures { result ≡ arg_var arg }
{
    match arg {
        Arg::Local(x) => Some(Var::Local(x)),
        Arg::Text(number) => Some(Var::Text(number)),
        Arg::Class(number) => Some(Var::Class(number)),
        Arg::Number | Arg::Null => None,
    }
}

/// The operands that a statement hands on.
pub fn handed(code: &Code) -> &[Arg]
    ensures { result.now ≡ handed code.now }
{
    match code {
        Code::Copy { arg, .. } | Code::Cast { arg, .. } => from_ref(arg),
        Code::Store { arg, .. } | Code::StoreCell { arg, .. } => from_ref(arg),
        Code::StoreStatic { arg, .. } | Code::Throw { arg } => from_ref(arg),
        Code::Call { args, .. } => args.as_slice(),
        Code::Return { arg: Some(arg) } => from_ref(arg),
        _ => &[],
    }
}

/// Whether a statement hands the operand on.
pub fn hands(code: &Code, arg: Arg) -> bool
    ensures { IsTrue result ↔ Has (handed code.now) arg }
{
    handed(code).iter().any(|a| *a == arg)
}

/// Whether a statement makes objects or arrays.
pub fn makes(code: &Code) -> bool
    ensures { IsTrue result ↔ Makes code.now }
{
    matches!(
        code,
        Code::New { .. } | Code::NewArray { .. } | Code::NewMulti { .. }
    )
}

/// Whether a statement makes arrays.
pub fn makes_arrays(code: &Code) -> bool
    ensures { IsTrue result ↔ MakesArrays code.now }
{
    matches!(code, Code::NewArray { .. } | Code::NewMulti { .. })
}

/// Whether a statement makes arrays of arrays, of which this is an inner level.
pub fn has_level(code: &Code, level: u8) -> bool
    ensures { IsTrue result ↔ HasLevel level code.now }
{
    match code {
        Code::NewMulti { levels, .. } => level > 0 && level < *levels,
        _ => false,
    }
}

/// The kinds of implicit exceptions of a statement: those from one up to, not including, another.
#[derive(Clone, Copy)]
pub struct Kinds {
    pub from: u8,
    pub to: u8,
}

/// The kinds of implicit exceptions that a statement may raise.
pub fn kinds_of(code: &Code) -> Kinds
    ensures order { result.from ≤ result.to }
    ensures kinds { (kind : ℕ) → ((result.from ≤ kind) × (kind < result.to)) ↔ MayRaise code.now kind }
{
    match code {
        Code::Load { .. } | Code::Store { .. } => Kinds { from: 0, to: 1 },
        Code::Length { .. } | Code::Monitor { .. } | Code::Throw { .. } => Kinds { from: 0, to: 1 },
        Code::Call {
            receiver: Some(_),
            ..
        } => Kinds { from: 0, to: 1 },
        Code::LoadCell { .. } => Kinds { from: 0, to: 2 },
        Code::StoreCell { .. } => Kinds { from: 0, to: 3 },
        Code::NewArray { .. } | Code::NewMulti { .. } => Kinds { from: 3, to: 4 },
        Code::Cast { .. } => Kinds { from: 4, to: 5 },
        Code::Numeric { divides: true, .. } => Kinds { from: 5, to: 6 },
        _ => Kinds { from: 0, to: 0 },
    }
}

/// Whether a statement may raise an implicit exception of a kind.
pub fn may_raise(code: &Code, kind: u8) -> bool
    ensures { IsTrue result ↔ MayRaise code.now kind }
{
    let kinds = kinds_of(code);
    kinds.from <= kind && kind < kinds.to
}

/// Whether an exception may come out of a statement. A call counts also where its receiver can't be null, since what it runs may raise.
pub fn is_raised(code: &Code) -> bool
    ensures { IsTrue result ↔ IsRaised code.now }
{
    match code {
        Code::Throw { .. } | Code::Call { .. } => true,
        Code::Load { .. } | Code::Store { .. } | Code::Length { .. } | Code::Monitor { .. } => true,
        Code::LoadCell { .. } | Code::StoreCell { .. } => true,
        Code::NewArray { .. } | Code::NewMulti { .. } | Code::Cast { .. } => true,
        Code::Numeric { divides, .. } => *divides,
        _ => false,
    }
}
