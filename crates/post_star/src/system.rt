use super::bases::{BaseStep, Start};
use super::common::Common;
use super::index::Index;
use auto_table::Rule;
use weight_laws::Weight;

/// What is to be saturated: what it has in common with others, and rules and starts of its own.
#[derive(Clone, Copy)]
pub struct Asked<'a, W: Weight> {
    pub common: &'a Common<W>,
    pub own: &'a [Rule<W>],
    pub starts: &'a [Start<W>],
}

/// Rules, and where they are looked for.
#[derive(Clone, Copy)]
pub struct Part<'a, W: Copy> {
    pub rules: &'a [Rule<W>],
    pub index: &'a Index<W>,
}

/// What is saturated: the common rules, whose index has the steps between bases too, rules of its own, and starts.
#[derive(Clone, Copy)]
pub struct System<'a, W: Copy> {
    pub common: Part<'a, W>,
    pub own: Part<'a, W>,
    pub steps: &'a [BaseStep],
    pub starts: &'a [Start<W>],
}
