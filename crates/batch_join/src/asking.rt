//! Cutting questions into pieces, and asking those of each.
ghost use Rattle.std.specs.Prelude.{◌≡◌, ◌<◌, ◌≤◌, ◌+◌, ◌^◌, ℕ, List, IfOk};
ghost use Rattle.std.specs.Thread.{IsSync};
ghost use Rattle.batch_join.specs.Told.{AreTold, HaveOneAnswer};

use super::NoMemory;
use super::texts::{Text, Texts};
use std::alloc::Global;
use std::marker::Sync;
use std::thread::{Threads, join};

// More questions than these are cut.
const MOST: u32 = 4;

/// Answers questions, each by its number. No call changes it.
pub trait Ask: Sync {
    /// What may be told of a number.
    ghost tells: { Self → ℕ → List ℕ → Type 0 };

    /// What is told of the number. Want of memory is the only refusal.
    fn ask(&self, alloc: Global, number: u32) -> Result<Text, NoMemory>
        ensures { IfOk result (λ text. tells self.now number text) };

    // Of a number one text may be told, at most.
    ghost one: { (asked : Self) (number : ℕ) (text other : List ℕ) → tells asked number text → tells asked number other → text ≡ other };
}

/// Is told of each piece as it begins, in the thread that runs the piece. Whatever it does, the texts are the same: no contract speaks of it.
pub trait Pass: Sync {
    /// The piece with this number begins. Nothing of it is asked before the call returns.
    fn pass(&self, piece: u32);
}

// A part of the questions: the numbers of its first piece and of its first question, and how many there are.
#[derive(Clone, Copy)]
struct Part {
    piece: u32,
    first: u32,
    count: u32,
}

// How many pieces so many questions are cut into: one, or those of the first half, rounded up, and those of the rest.
fn pieces(count: u32) -> u32
    ensures few { 0 < count → result ≤ count }
    ensures one { 0 < result }
{
    if count <= MOST {
        return 1;
    }
    let half = count.div_ceil(2);
    pieces(half) + pieces(count - half)
}

// Asks so many numbers from the first on, one after the other.
fn ask_piece<A: Ask>(
    alloc: Global,
    asked: &A,
    first: u32,
    count: u32,
) -> Result<Vec<Text>, NoMemory>
    requires { first + count < 2 ^ 32 }
    ensures { IfOk result (λ texts. AreTold (A.tells asked.now) first count texts.items) }
{
    let mut texts = Vec::new(alloc);
    for k in 0..count {
        texts.push(asked.ask(alloc, first + k)?)?;
    }
    Ok(texts)
}

// Asks the questions of a part, in pieces.
#[cycle(parts)]
fn ask_part<R: Threads + Sync, A: Ask, P: Pass>(
    threads: &R,
    alloc: Global,
    asked: &A,
    pass: &P,
    part: Part,
) -> Result<Vec<Text>, NoMemory>
    requires numbers { part.first + part.count < 2 ^ 32 }
    requires pieces { part.piece + part.count < 2 ^ 32 }
    ensures { IfOk result (λ texts. AreTold (A.tells asked.now) part.first part.count texts.items) }
{
    if part.count <= MOST {
        pass.pass(part.piece);
        return ask_piece(alloc, asked, part.first, part.count);
    }
    let half = part.count.div_ceil(2);
    let front = Part {
        count: half,
        ..part
    };
    let back = Part {
        piece: part.piece + pieces(half),
        first: part.first + half,
        count: part.count - half,
    };
    let front_texts = move || -> Result<Vec<Text>, NoMemory>
        requires { IsSync R.row × IsSync A.row × IsSync P.row × (front.first + front.count < 2 ^ 32) × (front.piece + front.count < 2 ^ 32) }
        ensures { IfOk result (λ texts. AreTold (A.tells asked.entry.now) front.first front.count texts.items) }
    { ask_part(threads, alloc, asked, pass, front) };
    let back_texts = move || -> Result<Vec<Text>, NoMemory>
        requires { IsSync R.row × IsSync A.row × IsSync P.row × (back.first + back.count < 2 ^ 32) × (back.piece + back.count < 2 ^ 32) }
        ensures { IfOk result (λ texts. AreTold (A.tells asked.entry.now) back.first back.count texts.items) }
    { ask_part(threads, alloc, asked, pass, back) };
    let (ahead, behind) = join(threads, front_texts, back_texts);
    let mut texts = ahead?;
    texts.append(&mut behind?)?;
    Ok(texts)
}

/// What is told of the numbers below the count, in their order. More than 4 numbers are cut, into the first half, rounded up, and the rest, and each of
/// these again: what isn't cut is a piece, and pieces run side by side. They are numbered from 0, front to back, and `pass` is told of each once, as it
/// begins.
///
/// Want of memory in any piece is the only refusal, and the other pieces run to their end all the same.
pub fn ask_all<R: Threads + Sync, A: Ask, P: Pass>(
    threads: &R,
    alloc: Global,
    asked: &A,
    count: u32,
    pass: &P,
) -> Result<Texts, NoMemory>
    ensures { IfOk result (AreTold (A.tells asked.now) 0 count) }
{
    let all = Part {
        piece: 0,
        first: 0,
        count,
    };
    Ok(Texts::of(ask_part(threads, alloc, asked, pass, all)?))
}

/// A law: so many questions have one list of texts at most, so what [`ask_all`] tells is the same for every gate and in however many threads.
pub fn have_one_answer<A: Ask>()
    ensures { (asked : A) → HaveOneAnswer (A.tells asked) }
{}
