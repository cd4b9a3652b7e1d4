//! Which methods a run may reach, and the first refusal in any of them.
ghost use Rattle.std.specs.Prelude.{◌≡◌, ◌<◌, ℕ, All, Err, IfOk, MatchOption, length};
ghost use Rattle.lists.specs.Lists.{Has};
ghost use Rattle.link_rules.specs.declared.refusal.LinkKind.{LinkKind as AKind};
ghost use Rattle.link_rules.specs.Reach.{AreInitialized};
ghost use Rattle.link_rules.specs.Refusals.{IsAccepted, IsFirst, RefusesWhole, within};
ghost use Rattle.link_rules.specs.Root.{root_of};
ghost use Rattle.link_faults.specs.Examined.{HasNoFault, IsFirstFault};
ghost use Rattle.link_reach.specs.Search.{IsBounded, IsSearched};
ghost use Rattle.link_reach.specs.Reaches.{AreReached, AreThose, IsStarted};

use super::search::{Search, search_all};
use link_calls::Targets;
use link_classes::{Classes, root_method};
use link_faults::{Fault, examine};
use link_rules::LinkKind;
use lists::NoMemory;
use number_sets::MarkedSet;
use std::alloc::{AllocError, Global};

/// What a run may reach.
#[derive(Drop)]
pub struct Reachable {
    /// The rows of the methods that a run may reach, in order.
    pub rows: Vec<u32>,
    /// The classes that the root initializes, in order.
    pub initialized: Vec<u32>,
}

/// Why a program isn't accepted.
#[derive(Clone, Copy, Debug, PartialEq, Eq)]
pub enum NotReached {
    /// A rule refuses the method with this number, the root's being the one behind all others, at this index.
    Refused {
        number: u32,
        index: u32,
        kind: LinkKind,
    },
    NoMemory,
}

impl From<AllocError> for NotReached {
    ghost use Rattle.std.specs.Prelude.{◌≡◌};
    ghost use Rattle.link_reach.specs.declared.answer.NotReached.TheVariants.{NoMemory};

    ghost from_gives = { λ _ e. e ≡ NoMemory };

    fn from(_: AllocError) -> Self {
        NotReached::NoMemory
    }
}

// The numbers below a count that are in the set, in order.
fn in_order(alloc: Global, found: &MarkedSet, count: u32) -> Result<Vec<u32>, NoMemory>
    ensures { IfOk result (λ rows. AreThose (Has found.now) count rows.items) }
{
    let mut rows = Vec::new(alloc);
    for number in 0..count {
        if found.contains(number) {
            rows.push(number)?;
        }
    }
    Ok(rows)
}

// The classes that are asked for and have an initializer, in order.
fn started(alloc: Global, classes: &Classes, asked: &MarkedSet) -> Result<Vec<u32>, NoMemory>
    ensures { IfOk result (λ started. AreThose (IsStarted classes.now.world asked.now) (length classes.now.world.classes) started.items) }
{
    let mut started = Vec::new(alloc);
    for number in 0..classes.class_count() {
        if asked.contains(number) && classes.initializer(number).is_some() {
            started.push(number)?;
        }
    }
    Ok(started)
}

// The first refusal of the root that initializes these classes.
fn root_fault(
    alloc: Global,
    targets: &mut Targets,
    initialized: &[u32],
) -> Result<Option<Fault>, NoMemory>
    requires { All (λ c. c < length targets.old.world.classes) initialized.now }
    ensures same { targets.new ≡ targets.old }
    ensures fault { IfOk result (λ fault. MatchOption fault (HasNoFault targets.old.world (root_of targets.old.world initialized.now)) (IsFirstFault targets.old.world (root_of targets.old.world initialized.now))) }
{
    let classes = targets.classes();
    let root = classes.root(alloc, initialized)?;
    let examined = examine(alloc, targets, &root_method(classes, &root))?;
    Ok(examined.fault)
}

// What the end of the search tells.
fn answer(alloc: Global, targets: &mut Targets, search: &Search) -> Result<Reachable, NotReached>
    requires passed { (kind : AKind) (number : ℕ) → RefusesWhole targets.old.world kind number → ⊥ }
    requires bounded { IsBounded targets.old.world }
    requires searched { IsSearched targets.old.world search.now }
    requires methods { search.now.methods_done ≡ length search.now.found.methods }
    requires classes { search.now.classes_done ≡ length search.now.found.classes }
    ensures same { targets.new ≡ targets.old }
    ensures reached { IfOk result (λ r. AreReached targets.old.world r.rows.items) }
    ensures initialized { IfOk result (λ r. AreInitialized targets.old.world r.initialized.items) }
    ensures accepted { IfOk result (λ _. IsAccepted targets.old.world) }
    ensures refused { (number index : ℕ) (kind : AKind) → result ≡ Err (NotReached.Refused number index kind)
        → IsFirst targets.old.world (within number index kind) }
{
    if let Some(first) = search.first {
        return Err(NotReached::Refused {
            number: first.number,
            index: first.fault.index,
            kind: first.fault.kind,
        });
    }
    let classes = targets.classes();
    let initialized = started(alloc, classes, &search.found.classes)?;
    if let Some(fault) = root_fault(alloc, targets, initialized.as_slice())? {
        return Err(NotReached::Refused {
            number: classes.method_count(),
            index: fault.index,
            kind: fault.kind,
        });
    }
    let rows = in_order(alloc, &search.found.methods, classes.method_count())?;
    Ok(Reachable { rows, initialized })
}

/// The methods that a run may reach and the classes that the root initializes, where no rule refuses any of the methods or the root; or the first
/// refusal, by method, the root being the last, by index and by rule. `NoMemory` can come in place of any answer.
///
/// The rules of the program have passed.
pub fn reach(alloc: Global, targets: &mut Targets) -> Result<Reachable, NotReached>
    requires passed { (kind : AKind) (number : ℕ) → RefusesWhole targets.old.world kind number → ⊥ }
    ensures same { targets.new ≡ targets.old }
    ensures reached { IfOk result (λ r. AreReached targets.old.world r.rows.items) }
    ensures initialized { IfOk result (λ r. AreInitialized targets.old.world r.initialized.items) }
    ensures accepted { IfOk result (λ _. IsAccepted targets.old.world) }
    ensures refused { (number index : ℕ) (kind : AKind) → result ≡ Err (NotReached.Refused number index kind)
        → IsFirst targets.old.world (within number index kind) }
{
    let search = search_all(alloc, targets)?;
    answer(alloc, targets, &search)
}
