//! Which statements a run may come from.
ghost use Rattle.std.specs.Prelude.{◌≡◌, ◌+◌, IfOk, OnOk};
ghost use Rattle.link_rules.specs.Flow.{Next};
ghost use Rattle.lists.specs.Filings.{items_under, row};
ghost use Rattle.link_indexes.specs.Rows.{IsFiled};
ghost use Rattle.link_indexes.specs.Tables.{ArePredecessors, ArePredecessorsBy, codes_of};

use super::filing::Filing;
use super::listing::number_of;
use super::method::MethodCode;
use link_rules::Code;
use lists::Rows;
use std::alloc::{AllocError, Global};

// The index behind a statement.
fn behind(at: u32) -> Result<u32, AllocError>
    ensures { IfOk result (λ index. index ≡ at + 1) }
{
    at.checked_add(1).ok_or(AllocError)
}

/// Puts the statement that stands at `at` before each that a run may go on to.
fn put_before(filing: &mut Filing<u32>, code: &Code, at: u32) -> Result<(), AllocError>
    ensures { OnOk result (IsFiled (Next code.now at) at (items_under filing.old) (items_under filing.new)) }
{
    match code {
        Code::If { jump } => {
            filing.put(behind(at)?, at)?;
            filing.put(*jump, at)
        }
        Code::Goto { jump } => filing.put(*jump, at),
        Code::Switch { jumps } => filing.put_all(jumps.as_slice(), at),
        Code::Return { .. } | Code::Throw { .. } => Ok(()),
        _ => filing.put(behind(at)?, at),
    }
}

/// For each statement the indexes of those that a run may come from.
fn predecessors(alloc: Global, code: &[Code]) -> Result<Rows<u32>, AllocError>
    ensures { IfOk result (λ rows. ArePredecessors code.now (row rows)) }
{
    let mut filing = Filing::new(alloc);
    for (at, statement) in code.iter().enumerate() {
        put_before(&mut filing, statement, number_of(at)?)?;
    }
    filing.lists(alloc)
}

/// The same for each method.
pub fn predecessors_by_method(
    alloc: Global,
    methods: &[MethodCode],
) -> Result<Vec<Rows<u32>>, AllocError>
    ensures { IfOk result (λ tables. ArePredecessorsBy (codes_of methods.now) tables.items) }
{
    let mut tables = Vec::new(alloc);
    for method in methods {
        tables.push(predecessors(alloc, method.code.as_slice())?)?;
    }
    Ok(tables)
}
