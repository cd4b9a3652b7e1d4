//! Lines by which a call string is read.
ghost use Rattle.std.specs.Prelude.{◌≡◌, ◌↔◌, ◌⊎◌, ◌+◌, ◌%◌, ◌^◌, ℕ, IfNone, IfOk, IfSome, IsTrue, OnOk, Some, slice_get};
ghost use Rattle.lists.specs.Lists.{Has};
ghost use Rattle.link_rules.specs.Linked.{LinkedProgram};
ghost use Rattle.spds_rules.specs.Systems.{IsString};
ghost use Rattle.cert_rules.specs.Given.{Reads};
ghost use Rattle.cert_work.specs.Work.{IsAt, IsBelow, TellsAt};
ghost use Rattle.cert_trace.specs.declared.reading.Reading.{Reading as AReading};
ghost use Rattle.cert_trace.specs.Closed.{IsRead};
ghost use Rattle.cert_trace.specs.Readings.{AreAllFiled, Begins, IsLinkTo, entry_spread};

use cert_lines::{Spot, Word};
use cert_rules::{Entry, Side};
use cert_work::Work;
use link_sites::{Place, Site};
use lists::{Key, NoMemory};
use std::alloc::Global;
use way_find::{Step, Ways, way};

/// How many calls of a string were read, and the entry that then stands there.
#[derive(Clone, Copy, Debug, PartialEq, Eq)]
pub struct Reading {
    level: usize,
    entry: Entry,
}

// A number for an entry.
fn entry_spread(entry: Entry) -> u64
    ensures { result ≡ entry_spread entry }
{
    match entry {
        Entry::Base => 0,
        Entry::Field { node, .. } | Entry::Call { node, .. } => node.spread(),
    }
}

impl Key for Reading {
    ghost use Rattle.cert_trace.specs.SameReading.{same_reading};

    ghost spread = { λ r. (entry_spread r.entry + r.level) % 2 ^ 64 };

    fn spread(self) -> u64 {
        entry_spread(self.entry).wrapping_add(self.level as u64)
    }

    ghost same = { same_reading };
}

/// The lines that were gone through, an object, and the string that is read for it.
#[derive(Drop)]
pub struct Strings<'a> {
    work: &'a Work,
    site: Site,
    string: &'a [Place],
}

// Whether the call stands there in the string.
fn has_call(string: &[Place], level: usize, call: Place) -> bool
    ensures { IsTrue result ↔ (slice_get string.now level ≡ Some call) }
{
    match string.get(level) {
        Some(next) => *next == call,
        None => false,
    }
}

// A step with a line that gave what stands below the first letter of the word.
fn push_link(
    work: &Work,
    word: Word,
    level: usize,
    steps: &mut Vec<Step<Reading>>,
    link: u32,
) -> Result<(), NoMemory>
    requires { IsBelow work.now.written word link }
    ensures { OnOk result ((label : ℕ) (to : AReading) → Has steps.new.items (record { label = label; to = to })
        ↔ (Has steps.old.items (record { label = label; to = to }) ⊎ ((label ≡ link) × IsLinkTo work.now.written word level label to))) }
{
    let entry = work.entry_below(link, word);
    steps.push(Step {
        label: link,
        to: Reading { level, entry },
    })?;
    Ok(())
}

// A step with each line that gave what stands below the first letter of the word.
fn steps_from(
    alloc: Global,
    work: &Work,
    word: Word,
    level: usize,
) -> Result<Vec<Step<Reading>>, NoMemory>
    requires { AreAllFiled work.now }
    ensures { IfOk result (λ steps. (label : ℕ) (to : AReading) → Has steps.items (record { label = label; to = to })
        ↔ IsLinkTo work.now.written word level label to) }
{
    let mut steps = Vec::new(alloc);
    let links = work.links(word);
    for link in links {
        push_link(work, word, level, &mut steps, *link)?;
    }
    Ok(steps)
}

impl<'a> Ways<Reading> for Strings<'a> {
    ghost use Rattle.cert_trace.specs.Readings.{AreAllFiled, GoesOn, IsEnd};

    ghost goes = { λ s. GoesOn s.work.now.written s.site s.string.now };

    ghost is_goal = { λ s. IsEnd };

    ghost is_ready = { λ s. AreAllFiled s.work.now };

    fn steps(&self, alloc: Global, from: Reading) -> Result<Vec<Step<Reading>>, NoMemory> {
        let Entry::Call { call, .. } = from.entry else {
            return Ok(Vec::new(alloc));
        };
        if !has_call(self.string, from.level, call) {
            return Ok(Vec::new(alloc));
        }
        let word = Word {
            side: Side::Call,
            site: self.site,
            entry: from.entry,
        };
        let steps = steps_from(alloc, self.work, word, from.level + 1)?;
        Ok(steps)
    }

    fn is_goal(&self, at: Reading) -> bool {
        at.entry == Entry::Base
    }
}

// A beginning with a line that put an object there, if it is one of the system of calls.
fn push_start(
    work: &Work,
    spot: Spot,
    starts: &mut Vec<Step<Reading>>,
    number: u32,
) -> Result<(), NoMemory>
    requires { IsAt work.now.written spot number }
    ensures { OnOk result ((label : ℕ) (to : AReading) → Has starts.new.items (record { label = label; to = to })
        ↔ (Has starts.old.items (record { label = label; to = to }) ⊎ ((label ≡ number) × Begins work.now.written spot.site spot.node label to))) }
{
    let word = work.word_at(number, spot);
    if word.side == Side::Call {
        starts.push(Step {
            label: number,
            to: Reading {
                level: 0,
                entry: word.entry,
            },
        })?;
    }
    Ok(())
}

// A beginning with each line that put the object there.
fn starts_at(alloc: Global, work: &Work, spot: Spot) -> Result<Vec<Step<Reading>>, NoMemory>
    requires filed { AreAllFiled work.now }
    requires tells { TellsAt work.now spot.node }
    ensures { IfOk result (λ starts. (label : ℕ) (to : AReading) → Has starts.items (record { label = label; to = to })
        ↔ Begins work.now.written spot.site spot.node label to) }
{
    let mut starts = Vec::new(alloc);
    let numbers = work.objects(spot);
    for number in numbers {
        push_start(work, spot, &mut starts, *number)?;
    }
    Ok(starts)
}

/// The numbers, from 1, of lines by which the call string is read for an object at an end, or that there are none.
pub(crate) fn read_string(
    alloc: Global,
    work: &Work,
    spot: Spot,
    string: &[Place],
) -> Result<Option<Vec<u32>>, NoMemory>
    requires filed { AreAllFiled work.now }
    requires tells { TellsAt work.now spot.node }
    ensures some { (p : LinkedProgram) → IsString p spot.node.place.method string.now
        → IfOk result (λ found. IfSome found (λ numbers. Reads p work.now.written.given spot.site numbers.items spot.node string.now)) }
    ensures none { (p : LinkedProgram) → IfOk result (λ found. IfNone found (IsRead p work.now.written spot.site spot.node string.now → ⊥)) }
{
    let starts = starts_at(alloc, work, spot)?;
    let strings = Strings {
        work,
        site: spot.site,
        string,
    };
    match way(alloc, &strings, starts.as_slice())? {
        Some(numbers) => Ok(Some(numbers)),
        None => Ok(None),
    }
}
