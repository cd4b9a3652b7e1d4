//! The sets of stacks that were met, by number, and where the tokens lead from each: the plain steps, each made once.

ghost use Rattle.std.specs.Prelude.{◌≡◌, ◌≢◌, ℕ, ◌+◌, ◌-◌, ◌*◌, ◌^◌, ◌<◌, ◌≤◌, ◌++◌, length, replicate, slice_get, Some, None, IfOk, OnOk, IfSome};
ghost use Rattle.jim_grammar.specs.Stacks.{stacks};
ghost use Rattle.jim_grammar.specs.Automata.{code, classes, start_set, sets_of, IsAutomaton, IsMove, IsTo, Grows};

use crate::machine::{Stack, advance, start};
use indexmap::IndexSet;
use jim_signs::Lead;
use lists::NoMemory;
use std::alloc::Global;

/// How many classes of tokens there are.
const CLASSES: usize = 97;

/// How many sets of stacks are kept at most. Ordinary text meets a few hundred. Only counted parts, as brackets behind types, bring more: up to 255 each.
const MOST_SETS: usize = 8192;

/// Where a token leads from a set of stacks.
#[derive(Clone, Copy, Debug)]
pub enum Move {
    /// To the set with this number.
    To(u32),
    /// Nowhere: no text goes on so.
    Nowhere,
}

/// The sets of stacks that were met, and for each of them a row of moves, one for each class, of which those that were not asked for yet are `None`.
#[derive(Drop)]
pub struct Automaton {
    sets: IndexSet<Vec<Stack>>,
    moves: Vec<Option<Move>>,
}

fn class_of(lead: Lead) -> usize
    ensures value { result ≡ code lead }
    ensures below { result < classes }
{
    lead as usize
}

// Makes the rows up to so many, with no moves in the new ones.
fn make_rows(moves: &mut Vec<Option<Move>>, rows: usize) -> Result<(), NoMemory>
    requires more { length moves.old.items ≤ rows * classes }
    requires few { rows < 2 ^ 40 }
    ensures { OnOk result (moves.new.items ≡ moves.old.items ++ replicate (rows * classes - length moves.old.items) None) }
{
    moves.resize(rows * CLASSES, None)?;
    Ok(())
}

impl Automaton {
    /// The automaton that has met the start alone, as its set 0.
    pub fn new(alloc: Global) -> Result<Self, NoMemory>
        ensures made { IfOk result IsAutomaton }
        ensures start { IfOk result (λ made. slice_get (sets_of made) 0 ≡ Some start_set) }
    {
        let mut made = Automaton {
            sets: IndexSet::new(alloc),
            moves: Vec::new(alloc),
        };
        made.number(start(alloc)?)?;
        Ok(made)
    }

    /// The stacks of a set that was met.
    pub fn stacks(&self, set: u32) -> &[Stack]
        requires { set < length self.now.sets.keys }
        ensures { slice_get (sets_of self.now) set ≡ Some (stacks result.now) }
    {
        &self.sets.as_slice()[set as usize]
    }

    /// Where a token of the class leads from a set, or `None` where there is no room for one more set.
    #[inline]
    pub fn go(&mut self, alloc: Global, set: u32, lead: Lead) -> Result<Option<Move>, NoMemory>
        requires made { IsAutomaton self.old }
        requires set { set < length self.old.sets.keys }
        ensures made { OnOk result (IsAutomaton self.new) }
        ensures grown { OnOk result (Grows (sets_of self.old) (sets_of self.new)) }
        ensures moved { IfOk result (λ found. IfSome found (IsMove (sets_of self.new) set lead)) }
    {
        match self.moves[set as usize * CLASSES + class_of(lead)] {
            Some(found) => Ok(Some(found)),
            None => self.find(alloc, set, lead),
        }
    }

    // The same for a move that was not asked for yet.
    #[cold]
    #[inline(never)]
    fn find(&mut self, alloc: Global, set: u32, lead: Lead) -> Result<Option<Move>, NoMemory>
        requires made { IsAutomaton self.old }
        requires set { set < length self.old.sets.keys }
        ensures made { OnOk result (IsAutomaton self.new) }
        ensures grown { OnOk result (Grows (sets_of self.old) (sets_of self.new)) }
        ensures moved { IfOk result (λ found. IfSome found (IsMove (sets_of self.new) set lead)) }
    {
        let next = advance(alloc, self.stacks(set), lead)?;
        let Some(found) = self.move_to(next)? else {
            return Ok(None);
        };
        self.moves[set as usize * CLASSES + class_of(lead)] = Some(found);
        Ok(Some(found))
    }

    // The move to a set of stacks, or `None` where there is no room for one more.
    fn move_to(&mut self, next: Vec<Stack>) -> Result<Option<Move>, NoMemory>
        requires made { IsAutomaton self.old }
        ensures made { OnOk result (IsAutomaton self.new) }
        ensures grown { OnOk result (Grows (sets_of self.old) (sets_of self.new)) }
        ensures found { IfOk result (λ found. IfSome found (λ m. IsTo (sets_of self.new) m (stacks next.items))) }
    {
        if next.len() == 0 {
            return Ok(Some(Move::Nowhere));
        }
        if self.sets.len() >= MOST_SETS {
            return Ok(None);
        }
        let number = self.number(next)?;
        Ok(Some(Move::To(number)))
    }

    // The number of a set of stacks, which is met before or put last.
    fn number(&mut self, set: Vec<Stack>) -> Result<u32, NoMemory>
        requires made { IsAutomaton self.old }
        requires some { length set.items ≢ 0 }
        requires few { length self.old.sets.keys < 2 ^ 20 }
        ensures made { OnOk result (IsAutomaton self.new) }
        ensures grown { OnOk result (Grows (sets_of self.old) (sets_of self.new)) }
        ensures more { OnOk result (length self.new.sets.keys ≤ length self.old.sets.keys + 1) }
        ensures found { IfOk result (λ number. slice_get (sets_of self.new) number ≡ Some (stacks set.items)) }
    {
        let (number, _) = self.sets.insert_full(set)?;
        make_rows(&mut self.moves, self.sets.len())?;
        Ok(number as u32)
    }
}
