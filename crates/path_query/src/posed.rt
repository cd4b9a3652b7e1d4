//! A demand that is solved.
use demand_set::Demand;
use link_program::Linked;
use spds_solve::Solved;

/// A program, a demand of it, and what is solved of it.
#[derive(Clone, Copy)]
pub(crate) struct Posed<'a> {
    pub linked: &'a Linked,
    pub demand: &'a Demand,
    pub solved: &'a Solved,
}
