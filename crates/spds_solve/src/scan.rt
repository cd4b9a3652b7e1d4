//! What the search for meets looks at, and what it asks of the tables of two sites.
ghost use Rattle.std.specs.Prelude.{◌↔◌, ◌<◌, length, IfNone, IfOk, IfSome, IsTrue, OnOk};
ghost use Rattle.lists.specs.Lists.{Has};
ghost use Rattle.spds_solve.specs.Mets.{numbers_of};
ghost use Rattle.spds_solve.specs.Searches.{HaveShared, IsShared};
ghost use Rattle.spds_solve.specs.Looks.{IsBaseAt, IsCandidateAt, IsGrownAt, IsView};
ghost use Rattle.spds_tables.specs.declared.numbered.Met.{Met as AMet};
ghost use Rattle.spds_tables.specs.Parts.{IsInParts};

use super::ends::Ends;
use super::met::{Met, call_string};
use super::mets::Mets;
use super::refresh::Tables;
use jim_ast::List;
use link_program::Linked;
use link_sites::{Place, Site};
use lists::NoMemory;
use spds_nodes::has_field;
use spds_tables::{Met as Numbers, Parts, shared_word};
use std::alloc::Global;

/// What the search looks at.
#[derive(Clone, Copy)]
pub struct View<'a> {
    pub linked: &'a Linked,
    pub sites: &'a [Site],
    pub parts: &'a Parts,
    pub ends: &'a Ends,
    pub tables: &'a Tables,
}

/// Whether the site's own object is at the base of the store, and has the field.
pub fn is_base(view: &View<'_>, base: u32, store: u32) -> bool
    requires view { IsView view.now }
    requires base { base < length view.now.parts.now.starts.items }
    requires store { store < length view.now.parts.now.stores.items }
    ensures { IsTrue result ↔ IsBaseAt view.now base store }
{
    let stored = view.parts.stored(store);
    view.tables.each[base as usize].has_fields(stored.base.fields)
        && has_field(view.linked, view.sites[base as usize], stored.field)
}

/// A call string that is at the argument and at the base of the store; `None` where there is none.
fn shared_string(
    alloc: Global,
    view: &View<'_>,
    met: Numbers,
) -> Result<Option<List<Place>>, NoMemory>
    requires view { IsView view.now }
    requires met { IsInParts view.now.parts.now met }
    ensures some { IfOk result (λ r. IfSome r (IsShared view.now.parts.now view.now.tables.now.each.items met)) }
    ensures none { IfOk result (λ r. IfNone r (HaveShared view.now.parts.now view.now.tables.now.each.items met → ⊥)) }
{
    let stored = view.parts.stored(met.store);
    let object = &view.tables.each[met.object as usize];
    let base = &view.tables.each[met.base as usize];
    let shared = shared_word(
        alloc,
        &view.parts.bases,
        object,
        stored.arg.calls,
        base,
        stored.base.calls,
    )?;
    match shared {
        Some(word) => Ok(Some(call_string(alloc, &view.parts.places, &word)?)),
        None => Ok(None),
    }
}

/// Puts the meet in, if the base may be one and there is a common call string.
pub fn try_met(
    alloc: Global,
    view: &View<'_>,
    met: Numbers,
    mets: &mut Mets,
) -> Result<(), NoMemory>
    requires view { IsView view.now }
    requires met { IsInParts view.now.parts.now met }
    ensures all { OnOk result (IsCandidateAt view.now met → Has (numbers_of mets.new) met) }
    ensures grown { OnOk result (IsGrownAt view.now mets.old mets.new) }
{
    if mets.contains(met) {
        return Ok(());
    }
    if !is_base(view, met.base, met.store) {
        return Ok(());
    }
    if let Some(string) = shared_string(alloc, view, met)? {
        mets.add(Met {
            object: met.object,
            base: met.base,
            store: met.store,
            string,
        })?;
    }
    Ok(())
}

/// Puts in those of the meets that the tables say may be.
pub fn try_mets(
    alloc: Global,
    view: &View<'_>,
    found: &[Numbers],
    mets: &mut Mets,
) -> Result<(), NoMemory>
    requires view { IsView view.now }
    requires inside { (m : AMet) → Has found.now m → IsInParts view.now.parts.now m }
    ensures all { OnOk result ((m : AMet) → Has found.now m → IsCandidateAt view.now m → Has (numbers_of mets.new) m) }
    ensures grown { OnOk result (IsGrownAt view.now mets.old mets.new) }
{
    for met in found {
        try_met(alloc, view, *met, mets)?;
    }
    Ok(())
}
