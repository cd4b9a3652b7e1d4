//! The sites that come to cells.
ghost use Rattle.std.specs.Prelude.{◌≡◌, ◌↔◌, ℕ, IfOk, eqb, map};
ghost use Rattle.lists.specs.Lists.{Has};
ghost use Rattle.lists.specs.Groups.{found_at};
ghost use Rattle.spds_solve.specs.Holders.{keyed_by_cell};

use super::arrivals::Arrival;
use lists::{Groups, Keyed, NoMemory};
use std::alloc::Global;

/// The sites that come to each cell of call systems, made once. Contracts of `holding` see what it was made of.
#[derive(Drop)]
pub struct Holders {
    pub(crate) sites: Groups<u32, u32>,
}

// The sites under their cells.
fn keyed(alloc: Global, arrivals: &[Arrival]) -> Result<Vec<Keyed<u32, u32>>, NoMemory>
    ensures { IfOk result (λ keyed. keyed.items ≡ map keyed_by_cell arrivals.now) }
{
    let mut keyed = Vec::with_capacity(alloc, arrivals.len())?;
    for arrival in arrivals {
        keyed.push(Keyed {
            key: arrival.cell,
            item: arrival.site,
        })?;
    }
    Ok(keyed)
}

/// The sites by the cells to which they come.
pub fn by_cell(alloc: Global, arrivals: &[Arrival]) -> Result<Holders, NoMemory>
    ensures { IfOk result (λ h. (cell site : ℕ) → Has (found_at eqb h.sites cell) site ↔ Has arrivals.now (record { site = site; cell = cell })) }
{
    let keyed = keyed(alloc, arrivals)?;
    let sites = Groups::of(alloc, &keyed)?;
    Ok(Holders { sites })
}
