ghost use Rattle.std.specs.Prelude.{◌≡◌, ◌+◌, ◌≤◌, ℕ, List, ◌++◌, ◌∷◌, [], true, false, length, take, IfOk, OnOk, OnErr};
ghost use Rattle.post_star.specs.Derivations.{IsLed, Leads};
ghost use Rattle.post_star.specs.Index.{IsIndex};
ghost use Rattle.post_star.specs.Readings.{IsSaturated};
ghost use Rattle.post_star.specs.Systems.{IsIndexed, rules_of};
ghost use Rattle.post_star.specs.Works.{IsTold, IsSound, IsClosed, IsClosedTo};

use super::bases::{BaseStep, Bases, Start};
use super::common::{Common, tell_rule};
use super::progress::Progress;
use super::rise::Rising;
use super::system::{Asked, Part, System};
use super::take::take_rules;
use auto_table::{Rule, Table};
use lists::NoMemory;
use std::alloc::Global;
use std::marker::Model;
use std::sync::Arc;
use weight_laws::Weight;

/// Brings a table to the end, in which the first rules are done and the first starts are in. Tells how many items that took.
fn finish<W: Weight>(
    system: &System<'_, W>,
    rising: &mut Rising<W>,
    taken: usize,
    begun: usize,
) -> Result<u64, NoMemory>
    requires told { IsTold W.domain (rules_of system.now) system.now.starts.now }
    requires index { IsIndexed system.now }
    requires sound { IsSound W.domain (rules_of system.now) system.now.starts.now system.now.steps.now rising.old.table }
    requires closed { IsClosedTo W.domain (rules_of system.now) (length system.now.common.rules.now + taken) system.now.starts.now begun system.now.steps.now rising.old.table }
    ensures sound { OnOk result (IsSound W.domain (rules_of system.now) system.now.starts.now system.now.steps.now rising.new.table) }
    ensures closed { OnOk result (IsClosed W.domain (rules_of system.now) system.now.starts.now system.now.steps.now rising.new.table) }
{
    let items = take_rules(rising.alloc, system.own.rules, &rising.table, taken)?;
    rising.items = items;
    rising.take_starts(system, begun)?;
    rising.run(system)
}

/// Goes on to the end for all rules and starts.
fn advance<W: Weight>(asked: &Asked<'_, W>, progress: &mut Progress<W>) -> Result<(), NoMemory>
    requires told { IsTold W.domain (asked.now.common.now.rules ++ asked.now.own.now) asked.now.starts.now }
    requires index { IsIndex (take progress.old.taken asked.now.own.now) [] progress.old.index }
    requires sound { IsSound W.domain (asked.now.common.now.rules ++ asked.now.own.now) asked.now.starts.now asked.now.common.now.steps progress.old.rising.table }
    requires closed { IsClosedTo W.domain (asked.now.common.now.rules ++ asked.now.own.now) (length asked.now.common.now.rules + progress.old.taken) asked.now.starts.now progress.old.begun asked.now.common.now.steps progress.old.rising.table }
    ensures index { OnOk result (IsIndex asked.now.own.now [] progress.new.index) }
    ensures sound { OnOk result (IsSound W.domain (asked.now.common.now.rules ++ asked.now.own.now) asked.now.starts.now asked.now.common.now.steps progress.new.rising.table) }
    ensures closed { OnOk result (IsClosed W.domain (asked.now.common.now.rules ++ asked.now.own.now) asked.now.starts.now asked.now.common.now.steps progress.new.rising.table) }
    ensures taken { OnOk result (progress.new.taken ≡ length asked.now.own.now) }
    ensures begun { OnOk result (progress.new.begun ≡ length asked.now.starts.now) }
{
    progress.index.add_rules(asked.own, progress.taken)?;
    let system = System {
        common: Part {
            rules: asked.common.rules(),
            index: asked.common.index(),
        },
        own: Part {
            rules: asked.own,
            index: &progress.index,
        },
        steps: asked.common.bases().steps,
        starts: asked.starts,
    };
    let (taken, begun) = (progress.taken, progress.begun);
    let items = finish(&system, &mut progress.rising, taken, begun)?;
    progress.taken = asked.own.len();
    progress.begun = asked.starts.len();
    progress.worked = progress.worked.saturating_add(items);
    Ok(())
}

/// A saturation that goes on: rules and starts come in, and `settle` brings the table to the end for all of them. What
/// an earlier `settle` did isn't done again.
#[derive(Drop)]
pub struct Work<W: Weight> {
    alloc: Global,
    common: Arc<Common<W>>,
    /// The rules that it has of its own.
    own: Vec<Rule<W>>,
    starts: Vec<Start<W>>,
    progress: Progress<W>,
}

impl<W: Weight> Model for Work<W> {
    ghost use Rattle.std.specs.Prelude.{◌++◌};
    ghost use Rattle.post_star.specs.Jobs.{Job};

    ghost Value = { Job W };

    ghost use Rattle.post_star.specs.Jobs.{all_taken, IsWork};

    ghost view = { λ w. record { steps = w.common.value.steps; last = w.common.value.last; rules = w.common.value.rules ++ w.own.items; starts = w.starts.items; settled = all_taken w.own.items w.starts.items w.progress.taken w.progress.begun } };

    ghost invariant = { λ w. IsWork W.domain w.common.value w.own.items w.progress.index w.starts.items w.progress.rising.table w.progress.taken w.progress.begun };
}

impl<W: Weight> Work<W> {
    /// A work over what it has in common with others, without rules of its own and starts. It takes no memory, and is settled.
    pub fn new(alloc: Global, common: Arc<Common<W>>) -> Self
        ensures { result ≡ record { steps = common.value.steps; last = common.value.last; rules = common.value.rules; starts = []; settled = true } }
    {
        let _rules = common.rules();
        let _bases = common.bases();
        Work {
            alloc,
            common,
            own: Vec::new(alloc),
            starts: Vec::new(alloc),
            progress: Progress::new(alloc),
        }
    }

    /// A work with these base steps and this last base, no rules and no starts. It is settled. Want of memory is the only refusal.
    ///
    /// Each base that a step names leads to the last one by some word.
    pub fn with_bases(alloc: Global, bases: Vec<BaseStep>, last: u32) -> Result<Self, NoMemory>
        requires led { IsLed {W = W} [] bases.items last }
        ensures { IfOk result (λ w. w ≡ record { steps = bases.items; last = last; rules = []; starts = []; settled = true }) }
    {
        let common = Common::new(alloc, Vec::new(alloc), bases, last)?;
        Ok(Work::new(alloc, Arc::new(alloc, common)?))
    }

    /// Puts the rule last. The work is then unsettled; after want of memory it is as before.
    pub fn add_rule(&mut self, rule: Rule<W>) -> Result<(), NoMemory>
        ensures ok { OnOk result (self.new ≡ record self.old { rules = self.old.rules ++ rule ∷ []; settled = false }) }
        ensures err { OnErr result (self.new ≡ self.old) }
    {
        tell_rule(&rule);
        self.own.push(rule)?;
        Ok(())
    }

    /// Puts the start last. The work is then unsettled; after want of memory it is as before.
    ///
    /// The base of the start leads to the last one by some word.
    pub fn add_start(&mut self, start: Start<W>) -> Result<(), NoMemory>
        requires led { (word : List ℕ) × Leads self.old.steps start.base word self.old.last }
        ensures ok { OnOk result (self.new ≡ record self.old { starts = self.old.starts ++ start ∷ []; settled = false }) }
        ensures err { OnErr result (self.new ≡ self.old) }
    {
        start.weight.told();
        self.starts.push(start)?;
        Ok(())
    }

    /// Brings the table to the end for all rules and starts.
    ///
    /// After want of memory the work is unsettled, with the same rules and starts. Its table is then given up, with the
    /// memory that it had, and the next `settle` takes all rules and starts in anew.
    pub fn settle(&mut self) -> Result<(), NoMemory>
        ensures ok { OnOk result (self.new ≡ record self.old { settled = true }) }
        ensures err { OnErr result (self.new ≡ record self.old { settled = false }) }
    {
        if self.settled() {
            return Ok(());
        }
        let asked = Asked {
            common: &self.common,
            own: &self.own,
            starts: &self.starts,
        };
        match advance(&asked, &mut self.progress) {
            Ok(()) => Ok(()),
            Err(no_memory) => {
                self.progress.give_up(self.alloc);
                Err(no_memory)
            }
        }
    }

    /// Whether the table has come to the end for all rules and starts.
    pub fn settled(&self) -> bool
        ensures { result ≡ self.now.settled }
    {
        self.progress.taken == self.own.len() && self.progress.begun == self.starts.len()
    }

    /// How many rises of weights were worked on since there is a table. No contract says how many: it is for tests and benchmarks.
    pub fn worked(&self) -> u64 {
        self.progress.worked
    }

    /// The base steps and the last base.
    pub fn bases(&self) -> Bases<'_>
        ensures steps { result.steps.now ≡ self.now.steps }
        ensures last { result.last ≡ self.now.last }
    {
        self.common.bases()
    }

    /// The table of a settled work, whose values are those of all its rules and starts.
    pub fn table(&self) -> &Table<W>
        requires { self.now.settled ≡ true }
        ensures { IsSaturated W.domain self.now.rules self.now.starts self.now.steps self.now.last result.now }
    {
        &self.progress.rising.table
    }

    /// The table of a settled work, taken out of it.
    pub fn into_table(self) -> Table<W>
        requires { self.settled ≡ true }
        ensures { IsSaturated W.domain self.rules self.starts self.steps self.last result }
    {
        self.progress.into_table()
    }
}
