//! The positions at which a call passes a local.
ghost use Rattle.std.specs.Prelude.{◌≡◌, ◌<◌, ◌↔◌, IfOk, IsTrue, OnOk, length};
ghost use Rattle.link_rules.specs.declared.code.Arg.TheVariants.{Local as LocalArg};
ghost use Rattle.spds_rules.specs.declared.node.Var.TheVariants.{Local, Param};
ghost use Rattle.lists.specs.Lists.{AreAll};
ghost use Rattle.spds_rules.specs.Edges.{Passes};
ghost use Rattle.spds_nodes.specs.Added.{IsAdded};
ghost use Rattle.spds_nodes.specs.Backs.{IsParam, IsParamAt, IsReceiver, PassesBack};

use link_rules::{Arg, Code};
use lists::NoMemory;
use spds_rules::Var;
use std::alloc::{AllocError, Global};

// The parameter with a number. One past 4,294,967,295 finds no memory.
fn param(number: usize) -> Result<Var, NoMemory>
    ensures { IfOk result (λ v. v ≡ Param number) }
{
    match u32::try_from(number) {
        Ok(number) => Ok(Var::Param(number)),
        Err(_) => Err(AllocError),
    }
}

// Adds the receiver, where it is the local.
fn push_receiver(positions: &mut Vec<Var>, receiver: Option<u32>, x: u32) -> Result<(), NoMemory>
    ensures { OnOk result (IsAdded (IsReceiver receiver x) positions.old.items positions.new.items) }
{
    if receiver == Some(x) {
        positions.push(Var::This)?;
    }
    Ok(())
}

/// Whether the argument is the local.
pub fn is_local(arg: Arg, x: u32) -> bool
    ensures { IsTrue result ↔ (arg ≡ LocalArg x) }
{
    match arg {
        Arg::Local(y) => y == x,
        _ => false,
    }
}

// Adds the parameter with the number, where its argument is the local.
fn push_param(positions: &mut Vec<Var>, args: &[Arg], x: u32, number: usize) -> Result<(), NoMemory>
    requires { number < length args.now }
    ensures { OnOk result (IsAdded (IsParamAt args.now x number) positions.old.items positions.new.items) }
{
    if is_local(args[number], x) {
        positions.push(param(number)?)?;
    }
    Ok(())
}

// Adds the parameters of which the argument is the local.
fn push_params(positions: &mut Vec<Var>, args: &[Arg], x: u32) -> Result<(), NoMemory>
    ensures { OnOk result (IsAdded (IsParam args.now x) positions.old.items positions.new.items) }
{
    for number in 0..args.len() {
        push_param(positions, args, x, number)?;
    }
    Ok(())
}

// The positions at which a call passes the local.
fn positions_of(
    alloc: Global,
    receiver: Option<u32>,
    args: &[Arg],
    x: u32,
) -> Result<Vec<Var>, NoMemory>
    ensures { IfOk result (λ positions. AreAll (Passes receiver args.now (Local x)) positions.items) }
{
    let mut positions = Vec::new(alloc);
    push_receiver(&mut positions, receiver, x)?;
    push_params(&mut positions, args, x)?;
    Ok(positions)
}

/// The positions from which the local comes back: those at which the statement passes it, where it is a call that doesn't assign it, or, where `raised`,
/// one out of which an exception comes.
pub fn passed_back(alloc: Global, code: &Code, raised: bool, x: u32) -> Result<Vec<Var>, NoMemory>
    ensures { IfOk result (λ positions. AreAll (PassesBack code.now raised x) positions.items) }
{
    match code {
        Code::Call {
            to,
            receiver,
            args,
            ..
        } => {
            if !raised && *to == Some(x) {
                return Ok(Vec::new(alloc));
            }
            positions_of(alloc, *receiver, args.as_slice(), x)
        }
        _ => Ok(Vec::new(alloc)),
    }
}
