//! What operands are.
ghost use Rattle.std.specs.Prelude.{◌≡◌, IfOk};
ghost use Rattle.std.specs.Option.{is_some};
ghost use Rattle.jim_step.specs.Frames.{frame_of};
ghost use Rattle.jim_step.specs.Plans.{or_empty};
ghost use Rattle.jim_step.specs.Sizes.{HasNumber};
ghost use Rattle.step_rules.specs.Shapes.{EachOf};
ghost use Rattle.step_rules.specs.Slots.{operand_of, operands_of};

use super::frame::Frame;
use link_program::Linked;
use link_rules::Arg;
use std::alloc::{AllocError, Global};
use step_rules::Value;

/// What an operand is, where it is set.
pub fn operand(linked: &Linked, frame: &Frame, arg: Arg) -> Option<Value>
    requires { HasNumber linked.now arg }
    ensures { result ≡ operand_of linked.now (frame_of frame.now) arg }
{
    match arg {
        Arg::Local(x) => frame.local(x),
        Arg::Number => Some(Value::Number),
        Arg::Null => Some(Value::Null),
        Arg::Text(number) => Some(Value::Object(number)),
        Arg::Class(number) => Some(Value::Object(linked.texts().len() as u32 + number)),
    }
}

/// Whether all operands are set.
pub fn are_set(linked: &Linked, frame: &Frame, args: &[Arg]) -> bool
    requires { EachOf (HasNumber linked.now) args.now }
    ensures { result ≡ is_some (operands_of linked.now (frame_of frame.now) args.now) }
{
    for arg in args {
        if operand(linked, frame, *arg).is_none() {
            return false;
        }
    }
    true
}

/// What the operands are; none where one of them is unset.
pub fn operands(
    alloc: Global,
    linked: &Linked,
    frame: &Frame,
    args: &[Arg],
) -> Result<Vec<Value>, AllocError>
    requires { EachOf (HasNumber linked.now) args.now }
    ensures { IfOk result (λ values. values.items ≡ or_empty (operands_of linked.now (frame_of frame.now) args.now)) }
{
    let mut values = Vec::new(alloc);
    for arg in args {
        match operand(linked, frame, *arg) {
            Some(value) => values.push(value)?,
            None => return Ok(Vec::new(alloc)),
        }
    }
    Ok(values)
}
