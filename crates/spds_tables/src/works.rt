//! Rules and starts of works.
ghost use Rattle.std.specs.Prelude.{◌≡◌, ℕ, List, [], ◌↔◌, ◌⊎◌, ◌++◌, map, OnOk};
ghost use Rattle.lists.specs.Lists.{Has, IsApart};
ghost use Rattle.post_star.specs.Derivations.{Leads};
ghost use Rattle.spds_tables.specs.declared.numbered.StartAt.{StartAt as AStart};
ghost use Rattle.spds_tables.specs.Parts.{call_start, field_start, push_to};
ghost use Rattle.spds_tables.specs.Tables.{AreAdded};

use super::begun::Begun;
use super::numbered::{StartAt, StoreNodes};
use auto_table::Rule;
use call_side::CallWork;
use lists::NoMemory;
use post_star::{Start, Work};
use rule_cells::number_of;
use weight_laws::{Reach, Weight};

/// Puts the rules of a store to start nodes last, by the cells of nodes.
pub fn add_pushes(
    work: &mut Work<Reach>,
    cells: &[u32],
    store: StoreNodes,
    starts: &[StartAt],
) -> Result<(), NoMemory>
    ensures { OnOk result (AreAdded (map (push_to cells.now store) starts.now) [] work.old work.new) }
{
    for start in starts {
        work.add_rule(Rule::Push {
            from: number_of(cells, store.arg),
            to: number_of(cells, start.node),
            mark: store.field,
            weight: Reach::one(),
        })?;
    }
    Ok(())
}

/// Puts the starts of a field system last, by the cells of nodes.
pub fn add_field_starts(
    work: &mut Work<Reach>,
    cells: &[u32],
    starts: &[StartAt],
) -> Result<(), NoMemory>
    requires last { work.old.last ≡ 0 }
    ensures { OnOk result (AreAdded [] (map (field_start cells.now) starts.now) work.old work.new) }
{
    for start in starts {
        work.add_start(Start {
            base: 0,
            node: number_of(cells, start.node),
            weight: Reach::one(),
        })?;
    }
    Ok(())
}

/// Puts a start of a call system last, by the cell of its node, unless it is there already.
fn begin(
    work: &mut CallWork,
    begun: &mut Begun,
    cells: &[u32],
    start: StartAt,
) -> Result<(), NoMemory>
    requires led { (word : List ℕ) × Leads work.old.steps start.method word work.old.last }
    requires tied { work.old.starts ≡ map (call_start cells.now) begun.old }
    ensures steps { OnOk result (work.new.steps ≡ work.old.steps) }
    ensures last { OnOk result (work.new.last ≡ work.old.last) }
    ensures rules { OnOk result (work.new.rules ≡ work.old.rules) }
    ensures tied { OnOk result (work.new.starts ≡ map (call_start cells.now) begun.new) }
    ensures begun { OnOk result ((s : AStart) → Has begun.new s ↔ (Has begun.old s ⊎ (s ≡ start))) }
    ensures behind { OnOk result ((behind : List AStart) × (begun.new ≡ begun.old ++ behind)) }
    ensures apart { OnOk result (IsApart begun.old → IsApart begun.new) }
{
    if begun.add(start)? {
        work.add_start(Start {
            base: start.method,
            node: number_of(cells, start.node),
            weight: Reach::one(),
        })?;
    }
    Ok(())
}

/// Puts starts of a call system last, by the cells of nodes, each unless it is there already.
pub fn begin_all(
    work: &mut CallWork,
    begun: &mut Begun,
    cells: &[u32],
    starts: &[StartAt],
) -> Result<(), NoMemory>
    requires led { (s : AStart) → Has starts.now s → (word : List ℕ) × Leads work.old.steps s.method word work.old.last }
    requires tied { work.old.starts ≡ map (call_start cells.now) begun.old }
    ensures steps { OnOk result (work.new.steps ≡ work.old.steps) }
    ensures last { OnOk result (work.new.last ≡ work.old.last) }
    ensures rules { OnOk result (work.new.rules ≡ work.old.rules) }
    ensures tied { OnOk result (work.new.starts ≡ map (call_start cells.now) begun.new) }
    ensures begun { OnOk result ((s : AStart) → Has begun.new s ↔ (Has begun.old s ⊎ Has starts.now s)) }
    ensures behind { OnOk result ((behind : List AStart) × (begun.new ≡ begun.old ++ behind)) }
    ensures apart { OnOk result (IsApart begun.old → IsApart begun.new) }
{
    for start in starts {
        begin(work, begun, cells, *start)?;
    }
    Ok(())
}
