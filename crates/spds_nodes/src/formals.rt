//! The formals of a method: the local, receiver or parameter as which it has what is passed at a position.
ghost use Rattle.std.specs.Prelude.{◌≡◌, ◌↔◌, ℕ, Some, filter_map};
ghost use Rattle.spds_rules.specs.declared.node.Var.{Var as Variable};
ghost use Rattle.spds_rules.specs.declared.node.Var.TheVariants.{Local};
ghost use Rattle.spds_rules.specs.Formals.{HasFormal, IsPosition, formal, identity_of, is_assigned_once, only};
ghost use Rattle.spds_nodes.specs.Positions.{var_of};

use super::flows::assigns;
use link_program::Linked;
use link_rules::Code;
use spds_rules::Var;

/// A position at which calls pass something: the receiver, or a parameter by its number, however large that is.
#[derive(Clone, Copy)]
pub enum Position {
    This,
    Param(usize),
}

/// The local to which the statement assigns what is at the position, where it is its identity.
pub fn identity_of(code: &Code, position: Position) -> Option<u32>
    ensures { result ≡ identity_of code.now (var_of position) }
{
    match code {
        Code::This { to } => match position {
            Position::This => Some(*to),
            Position::Param(_) => None,
        },
        Code::Param { to, number } => match position {
            Position::Param(at) if *number as usize == at => Some(*to),
            _ => None,
        },
        _ => None,
    }
}

// The local of the only identity of the position.
fn only_identity(code: &[Code], position: Position) -> Option<u32>
    ensures { result ≡ only (filter_map (λ c. identity_of c (var_of position)) code.now) }
{
    let mut found = None;
    for statement in code {
        if let Some(to) = identity_of(statement, position) {
            if found.is_some() {
                return None;
            }
            found = Some(to);
        }
    }
    found
}

// Whether one statement of the code assigns the local, and no other.
fn is_assigned_once(code: &[Code], x: u32) -> bool
    ensures { result ≡ is_assigned_once code.now x }
{
    code.iter().filter(|c| assigns(c, x)).count() == 1
}

/// The formal of the position, where it is a local. Goes over the code.
pub fn local_formal(code: &[Code], position: Position) -> Option<u32>
    ensures { (x : ℕ) → (result ≡ Some x) ↔ (formal code.now (var_of position) ≡ Local x) }
{
    match only_identity(code, position) {
        Some(x) if is_assigned_once(code, x) => Some(x),
        _ => None,
    }
}

// The same of a variable that is a position.
fn local_formal_of(code: &[Code], position: Var) -> Option<u32>
    requires { IsPosition position }
    ensures { (x : ℕ) → (result ≡ Some x) ↔ (formal code.now position ≡ Local x) }
{
    match position {
        Var::This => local_formal(code, Position::This),
        Var::Param(number) => local_formal(code, Position::Param(number as usize)),
        _ => None,
    }
}

// The formal of the position.
fn formal(code: &[Code], position: Var) -> Var
    requires { IsPosition position }
    ensures { result ≡ formal code.now position }
{
    match local_formal_of(code, position) {
        Some(x) => Var::Local(x),
        None => position,
    }
}

/// The formal of the position in the method, where there is such a method. Goes over its statements.
pub fn formal_of(linked: &Linked, method: u32, position: Var) -> Option<Var>
    requires { IsPosition position }
    ensures { (w : Variable) → (result ≡ Some w) ↔ HasFormal linked.now method position w }
{
    if method < linked.methods() {
        return Some(formal(linked.code(method), position));
    }
    None
}
