//! The code that is left.
ghost use Rattle.std.specs.Prelude.{◌≡◌, [], IfOk};
ghost use Rattle.narrow_rules.specs.Narrowed.{AreThose, IsKept, IsNarrowedBody, IsNarrowedCode, StaysIn};

use super::names::{Named, Spot};
use jim_ast::{List, Mode};
use link_indexes::{MethodCode, Place};
use link_rules::{Arg, Catch, Code};
use std::alloc::{AllocError, Global};

// The targets of the call at a place that stay.
fn kept_targets(
    alloc: Global,
    named: &Named<'_>,
    place: Place,
    mode: Mode,
    targets: &[u32],
) -> Result<Vec<u32>, AllocError>
    ensures { IfOk result (λ some. AreThose (λ target. StaysIn mode (IsKept named.now place.method place.index target)) targets.now some.items) }
{
    let mut some = Vec::new(alloc);
    for target in targets {
        let spot = Spot {
            method: place.method,
            index: place.index,
            target: *target,
        };
        if named.stays(mode, spot) {
            some.push(*target)?;
        }
    }
    Ok(some)
}

// A copy of the operands.
fn copied_args(alloc: Global, args: &[Arg]) -> Result<List<Arg>, AllocError>
    ensures { IfOk result (λ copy. copy ≡ args.now) }
{
    Ok(List::from_vec(args.to_vec(alloc)?))
}

// What is left of the statement at a place.
fn narrowed_code(
    alloc: Global,
    named: &Named<'_>,
    place: Place,
    code: &Code,
) -> Result<Code, AllocError>
    ensures { IfOk result (IsNarrowedCode named.now place.method place.index code.now) }
{
    match *code {
        Code::Call {
            to,
            mode,
            class,
            key,
            receiver,
            ref args,
            ref targets,
        } => {
            let args = copied_args(alloc, args.as_slice())?;
            let some = kept_targets(alloc, named, place, mode, targets.as_slice())?;
            Ok(Code::Call {
                to,
                mode,
                class,
                key,
                receiver,
                args,
                targets: List::from_vec(some),
            })
        }
        Code::Switch { ref jumps } => Ok(Code::Switch {
            jumps: List::from_vec(jumps.as_slice().to_vec(alloc)?),
        }),
        Code::This { to } => Ok(Code::This { to }),
        Code::Param { to, number } => Ok(Code::Param { to, number }),
        Code::Caught { to } => Ok(Code::Caught { to }),
        Code::Copy { to, arg } => Ok(Code::Copy { to, arg }),
        Code::Cast { to, arg } => Ok(Code::Cast { to, arg }),
        Code::New { to, class } => Ok(Code::New { to, class }),
        Code::NewArray { to } => Ok(Code::NewArray { to }),
        Code::NewMulti { to, levels } => Ok(Code::NewMulti { to, levels }),
        Code::Numeric { to, divides } => Ok(Code::Numeric { to, divides }),
        Code::Length { to, arg } => Ok(Code::Length { to, arg }),
        Code::Load { to, base, field } => Ok(Code::Load { to, base, field }),
        Code::Store { base, field, arg } => Ok(Code::Store { base, field, arg }),
        Code::LoadCell { to, base } => Ok(Code::LoadCell { to, base }),
        Code::StoreCell { base, arg } => Ok(Code::StoreCell { base, arg }),
        Code::LoadStatic { to, field } => Ok(Code::LoadStatic { to, field }),
        Code::StoreStatic { field, arg } => Ok(Code::StoreStatic { field, arg }),
        Code::If { jump } => Ok(Code::If { jump }),
        Code::Goto { jump } => Ok(Code::Goto { jump }),
        Code::Return { arg } => Ok(Code::Return { arg }),
        Code::Throw { arg } => Ok(Code::Throw { arg }),
        Code::Monitor { arg } => Ok(Code::Monitor { arg }),
        Code::Skip => Ok(Code::Skip),
    }
}

// What is left of the statements of a method.
fn narrowed_codes(
    alloc: Global,
    named: &Named<'_>,
    method: u32,
    codes: &[Code],
) -> Result<Vec<Code>, AllocError>
    ensures { IfOk result (λ new. IsNarrowedBody named.now method codes.now new.items) }
{
    let mut new = Vec::new(alloc);
    for (at, code) in codes.iter().enumerate() {
        let Ok(index) = u32::try_from(at) else {
            return Err(AllocError);
        };
        new.push(narrowed_code(alloc, named, Place { method, index }, code)?)?;
    }
    Ok(new)
}

/// What a method that is still reached goes on by: its statements with the targets that stay, and its handlers.
pub fn narrowed_method(
    alloc: Global,
    named: &Named<'_>,
    method: u32,
    codes: &[Code],
    catches: &[Catch],
) -> Result<MethodCode, AllocError>
    ensures code { IfOk result (λ new. IsNarrowedBody named.now method codes.now new.code) }
    ensures catches { IfOk result (λ new. new.catches ≡ catches.now) }
{
    Ok(MethodCode {
        code: List::from_vec(narrowed_codes(alloc, named, method, codes)?),
        catches: List::from_vec(catches.to_vec(alloc)?),
    })
}

/// A method without statements. Takes no memory.
pub fn lost_method(alloc: Global) -> MethodCode
    ensures code { result.code ≡ [] }
    ensures catches { result.catches ≡ [] }
{
    MethodCode {
        code: List::from_vec(Vec::new(alloc)),
        catches: List::from_vec(Vec::new(alloc)),
    }
}
