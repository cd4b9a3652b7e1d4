//! What statements may do that read neither objects nor methods.
ghost use Rattle.jim_step.specs.Plans.{IsCountable, Lists};
ghost use Rattle.step_rules.specs.Offers.{Assigns, Casts, Computes, GivesBack, Measures, StoresStatic, Throws, Watches};

use super::plan::{Effect, Plan};
use step_rules::Value;

/// An identity statement or a copy.
pub fn assign<'a>(to: u32, source: Option<Value>) -> Plan<'a>
    ensures countable { IsCountable result }
    ensures row { Lists result (Assigns to source) }
{
    match source {
        Some(value) => Plan::One(Effect::Gets(to, value)),
        None => Plan::One(Effect::IllTyped),
    }
}

/// A cast, which may fail.
pub fn cast<'a>(to: u32, source: Option<Value>) -> Plan<'a>
    ensures countable { IsCountable result }
    ensures row { Lists result (Casts to source) }
{
    match source {
        Some(value) => Plan::Two(Effect::Gets(to, value), Effect::Raises(4)),
        None => Plan::One(Effect::IllTyped),
    }
}

/// A computation of a number, which may fail where it divides.
pub fn compute<'a>(to: u32, divides: bool) -> Plan<'a>
    ensures countable { IsCountable result }
    ensures row { Lists result (Computes to divides) }
{
    let number = Effect::Gets(to, Value::Number);
    if divides {
        Plan::Two(number, Effect::Raises(5))
    } else {
        Plan::One(number)
    }
}

/// The length of an array.
pub fn measure<'a>(to: u32, source: Option<Value>) -> Plan<'a>
    ensures countable { IsCountable result }
    ensures row { Lists result (Measures to source) }
{
    match source {
        Some(Value::Object(_)) => Plan::One(Effect::Gets(to, Value::Number)),
        Some(Value::Null) => Plan::One(Effect::Raises(0)),
        _ => Plan::One(Effect::IllTyped),
    }
}

/// A monitor is entered or left.
pub fn watch<'a>(next: u32, source: Option<Value>) -> Plan<'a>
    ensures countable { IsCountable result }
    ensures row { Lists result (Watches next source) }
{
    match source {
        Some(Value::Object(_)) => Plan::One(Effect::Goes(next)),
        Some(Value::Null) => Plan::One(Effect::Raises(0)),
        _ => Plan::One(Effect::IllTyped),
    }
}

/// An object is thrown.
pub fn throw<'a>(source: Option<Value>) -> Plan<'a>
    ensures countable { IsCountable result }
    ensures row { Lists result (Throws source) }
{
    match source {
        Some(Value::Object(object)) => Plan::One(Effect::Throws(object)),
        Some(Value::Null) => Plan::One(Effect::Raises(0)),
        _ => Plan::One(Effect::IllTyped),
    }
}

/// A return, with the operand that it gives, if it gives one.
pub fn give_back<'a>(source: Option<Option<Value>>) -> Plan<'a>
    ensures countable { IsCountable result }
    ensures row { Lists result (GivesBack source) }
{
    match source {
        Some(Some(value)) => Plan::One(Effect::Returns(Some(value))),
        Some(None) => Plan::One(Effect::IllTyped),
        None => Plan::One(Effect::Returns(None)),
    }
}

/// A static field is set.
pub fn store_static<'a>(field: u32, source: Option<Value>) -> Plan<'a>
    ensures countable { IsCountable result }
    ensures row { Lists result (StoresStatic field source) }
{
    match source {
        Some(value) => Plan::One(Effect::Sets(field, value)),
        None => Plan::One(Effect::IllTyped),
    }
}
