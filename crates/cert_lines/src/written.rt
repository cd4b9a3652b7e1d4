//! Lines as they are made, with what each gives.
ghost use Rattle.std.specs.Prelude.{◌≡◌, ◌↔◌, ◌+◌, ◌<◌, ◌^◌, ◌++◌, ◌∷◌, ℕ, [], Some, length, slice_get, IfNone, IfOk, IfSome, IsTrue, OnErr, OnOk};
ghost use Rattle.cert_rules.specs.declared.fact.Fact.{Fact as AnyFact};
ghost use Rattle.cert_lines.specs.Noted.{GivesAt, IsBettered, IsNotedIn, IsShortestOf};
ghost use Rattle.cert_lines.specs.Spread.{known_of};

use super::keys::Known;
use cert_rules::{Fact, Line};
use lists::{NoMemory, Numbered};
use std::alloc::{AllocError, Global};
use std::marker::Model;

/// So many lines have numbers, from 1, of 32 bits, with one to spare.
const ROOM: usize = 4_294_967_293;

/// What is known of a line: the fact that it gives, by its number, and how long it is.
#[derive(Clone, Copy)]
struct Note {
    fact: u32,
    length: u32,
}

/// Lines, each with the fact that it gives and its length. Facts are found by a look-up.
#[derive(Drop)]
pub struct Written {
    lines: Vec<Line>,
    notes: Vec<Note>,
    facts: Numbered<Known>,
    // For each fact the last line that gives it, which is the shortest.
    best: Vec<u32>,
}

impl Model for Written {
    ghost use Rattle.cert_lines.specs.Noted.{AreNotes, Noted, noted_by};

    ghost Value = { Noted };

    ghost view = { λ w. noted_by w.lines.items w.facts.keys w.notes.items };

    ghost invariant = { λ w. AreNotes w.lines.items w.facts.keys w.notes.items w.best.items };
}

// Puts a line and its note last, and gives its number, from 0. A line is large: inlined, it isn't copied on the way.
#[inline(always)]
fn push(
    lines: &mut Vec<Line>,
    notes: &mut Vec<Note>,
    line: Line,
    note: Note,
) -> Result<u32, NoMemory>
    ensures number { IfOk result (λ number. number ≡ length lines.old.items) }
    ensures few { OnOk result (length lines.old.items + 3 < 2 ^ 32) }
    ensures lines { OnOk result (lines.new.items ≡ lines.old.items ++ line ∷ []) }
    ensures notes { OnOk result (notes.new.items ≡ notes.old.items ++ note ∷ []) }
    ensures err_lines { OnErr result (lines.new.items ≡ lines.old.items) }
    ensures err_notes { OnErr result (notes.new.items ≡ notes.old.items) }
{
    let number = lines.len();
    if number >= ROOM - 1 {
        return Err(AllocError);
    }
    lines.reserve(1)?;
    notes.push(note)?;
    // There is room for it.
    let _ = lines.push(line);
    Ok(number as u32)
}

// The same of a line that is the first to give its fact, which is so the best one.
#[inline(always)]
fn push_first(
    lines: &mut Vec<Line>,
    notes: &mut Vec<Note>,
    best: &mut Vec<u32>,
    line: Line,
    note: Note,
) -> Result<u32, NoMemory>
    ensures number { IfOk result (λ number. number ≡ length lines.old.items) }
    ensures few { OnOk result (length lines.old.items + 3 < 2 ^ 32) }
    ensures lines { OnOk result (lines.new.items ≡ lines.old.items ++ line ∷ []) }
    ensures notes { OnOk result (notes.new.items ≡ notes.old.items ++ note ∷ []) }
    ensures best { OnOk result (best.new.items ≡ best.old.items ++ length lines.old.items ∷ []) }
    ensures err_lines { OnErr result (lines.new.items ≡ lines.old.items) }
    ensures err_notes { OnErr result (notes.new.items ≡ notes.old.items) }
    ensures err_best { OnErr result (best.new.items ≡ best.old.items) }
{
    best.reserve(1)?;
    let number = push(lines, notes, line, note)?;
    // There is room for it.
    let _ = best.push(number);
    Ok(number)
}

impl Written {
    /// No lines. Takes no memory.
    pub fn new(alloc: Global) -> Self
        ensures lines { result.lines ≡ [] }
        ensures given { result.given ≡ [] }
        ensures lengths { result.lengths ≡ [] }
    {
        Written {
            lines: Vec::new(alloc),
            notes: Vec::new(alloc),
            facts: Numbered::new(alloc),
            best: Vec::new(alloc),
        }
    }

    /// How many lines there are.
    pub fn len(&self) -> u32
        ensures lines { result ≡ length self.now.lines }
        ensures given { result ≡ length self.now.given }
        ensures lengths { result ≡ length self.now.lengths }
        ensures few { result + 2 < 2 ^ 32 }
    {
        self.lines.len() as u32
    }

    /// The lines.
    pub fn lines(&self) -> &[Line]
        ensures { result.now ≡ self.now.lines }
    {
        self.lines.as_slice()
    }

    /// The fact that the line with the number, from 0, gives.
    pub fn fact(&self, number: u32) -> &Fact
        requires { number < length self.now.lines }
        ensures { GivesAt self.now number result.now }
    {
        let note = self.notes[number as usize];
        &self.facts.keys()[note.fact as usize].fact
    }

    /// The same fact, with the number by which it is spread.
    pub fn known(&self, number: u32) -> &Known
        requires { number < length self.now.lines }
        ensures { (fact : AnyFact) → GivesAt self.now number fact → result.now ≡ known_of fact }
    {
        let note = self.notes[number as usize];
        &self.facts.keys()[note.fact as usize]
    }

    /// How long it is.
    pub fn length(&self, number: u32) -> u32
        requires { number < length self.now.lines }
        ensures { slice_get self.now.lengths number ≡ Some result }
    {
        self.notes[number as usize].length
    }

    /// Whether a line further on gives the same fact and is no longer.
    pub fn is_bettered(&self, number: u32) -> bool
        requires { number < length self.now.lines }
        ensures { IsTrue result ↔ IsBettered self.now number }
    {
        let note = self.notes[number as usize];
        self.best[note.fact as usize] != number
    }

    /// The number, from 0, of a shortest line that gives the fact, by one look-up. Takes no memory.
    pub fn find(&self, fact: Fact) -> Option<u32>
        ensures some { IfSome result (λ number. IsShortestOf self.now fact number) }
        ensures none { IfNone result ((number : ℕ) → GivesAt self.now number fact → ⊥) }
    {
        let number = self.facts.find(Known::of(&fact))?;
        Some(self.best[number as usize])
    }

    /// Puts a line last, with what it gives and its length, unless a line that gives this is no longer. The number is that of a line, from 0, that now gives
    /// it. Want of memory leaves all as it was.
    pub fn add(&mut self, line: Line, known: Known, length: u32) -> Result<u32, NoMemory>
        requires { known ≡ known_of known.fact }
        ensures number { IfOk result (λ number. GivesAt self.new number known.fact) }
        ensures ok { OnOk result (IsNotedIn self.old self.new line known.fact length) }
        ensures err { OnErr result (self.new ≡ self.old) }
    {
        if let Some(number) = self.facts.find(known) {
            let last = self.best[number as usize];
            if self.notes[last as usize].length <= length {
                return Ok(last);
            }
            let note = Note {
                fact: number,
                length,
            };
            let at = push(&mut self.lines, &mut self.notes, line, note)?;
            self.best[number as usize] = at;
            return Ok(at);
        }
        self.facts.room()?;
        let note = Note {
            fact: self.facts.len() as u32,
            length,
        };
        let at = push_first(&mut self.lines, &mut self.notes, &mut self.best, line, note)?;
        // There is room for it.
        let _ = self.facts.put(known);
        Ok(at)
    }
}
