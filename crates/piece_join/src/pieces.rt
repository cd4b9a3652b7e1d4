//! Cutting a list into pieces, and bringing the items of each to their ends.
ghost use Rattle.std.specs.Prelude.{◌≡◌, ◌<◌, ◌≤◌, ◌+◌, ◌^◌, ℕ, length, OnOk};
ghost use Rattle.std.specs.Thread.{IsSend, IsSync};
ghost use Rattle.piece_join.specs.Brought.{AllAt, AllBecome};

use super::NoMemory;
use super::gate::Gate;
use std::marker::{Send, Sync};
use std::thread::{Threads, join_mut};

// A list of more items than these is cut.
const MOST: usize = 16;

/// How an item of a list is brought to its end, by itself.
pub trait Bring<T>: Sync {
    /// What an item with this number has to be before.
    ghost may: { Self → ℕ → T → Type 0 };

    /// What it may become: what it was before, and then what it is.
    ghost ends: { Self → ℕ → T → T → Type 0 };

    /// Brings the item with this number to its end. Want of memory is the only refusal, and nothing is said of the item then.
    fn bring(&self, number: u32, item: &mut T) -> Result<(), NoMemory>
        requires { may self.now number item.old }
        ensures { OnOk result (ends self.now number item.old item.new) };
}

// How many pieces so many items are cut into: one, or those of the first half, rounded up, and those of the rest.
fn pieces(count: usize) -> u32
    requires { count < 2 ^ 32 }
    ensures few { 0 < count → result ≤ count }
    ensures one { 0 < result }
{
    if count <= MOST {
        return 1;
    }
    let half = count.div_ceil(2);
    pieces(half) + pieces(count - half)
}

// Brings the items of a piece to their ends, one after the other. Their numbers go on from the first one's.
fn bring_piece<T, B: Bring<T>>(how: &B, first: u32, items: &mut [T]) -> Result<(), NoMemory>
    requires room { first + length items.old < 2 ^ 32 }
    requires may { AllAt (B.may how.now) first items.old }
    ensures count { length items.new ≡ length items.old }
    ensures ends { OnOk result (AllBecome (B.ends how.now) first items.old items.new) }
{
    let count = items.len() as u32;
    for k in 0..count {
        how.bring(first + k, &mut items[k as usize])?;
    }
    Ok(())
}

// Brings the items of a part of the list to their ends, in pieces. The numbers of its pieces and of its items go on from those that are given.
#[cycle(halves)]
fn bring_from<R: Threads + Sync, G: Gate, T: Send, B: Bring<T>>(
    threads: &R,
    gate: &G,
    how: &B,
    piece: u32,
    first: u32,
    items: &mut [T],
) -> Result<(), NoMemory>
    requires numbers { piece + length items.old < 2 ^ 32 }
    requires room { first + length items.old < 2 ^ 32 }
    requires may { AllAt (B.may how.now) first items.old }
    ensures count { length items.new ≡ length items.old }
    ensures ends { OnOk result (AllBecome (B.ends how.now) first items.old items.new) }
{
    if items.len() <= MOST {
        gate.pass(piece);
        return bring_piece(how, first, items);
    }
    let half = items.len().div_ceil(2);
    let next = piece + pieces(half);
    let middle = first + half as u32;
    let (front, back) = items.split_at_mut(half);
    let mut left = || -> Result<(), NoMemory>
        requires { IsSync R.row × IsSync G.row × IsSync B.row × IsSend T.row × (piece + length front.now < 2 ^ 32) × (first + length front.now < 2 ^ 32) × AllAt (B.may how.now) first front.now }
        ensures { (length front.exit.now ≡ length front.entry.now) × OnOk result (AllBecome (B.ends how.entry.now) first front.entry.now front.exit.now) }
    { bring_from(threads, gate, how, piece, first, front) };
    let mut right = || -> Result<(), NoMemory>
        requires { IsSync R.row × IsSync G.row × IsSync B.row × IsSend T.row × (next + length back.now < 2 ^ 32) × (middle + length back.now < 2 ^ 32) × AllAt (B.may how.now) middle back.now }
        ensures { (length back.exit.now ≡ length back.entry.now) × OnOk result (AllBecome (B.ends how.entry.now) middle back.entry.now back.exit.now) }
    { bring_from(threads, gate, how, next, middle, back) };
    let (ahead, behind) = join_mut(threads, &mut left, &mut right);
    ahead?;
    behind
}

/// Brings all items to their ends, each by its place in the list. More than 16 of them are cut, into the first half, rounded up, and the rest, and each
/// of these again: what isn't cut is a piece, and pieces run side by side. They are numbered from 0, front to back, and the gate is told of each once, as
/// it begins.
///
/// Want of memory in any piece is the only refusal, and the other pieces run to their end all the same.
pub fn bring_all<R: Threads + Sync, G: Gate, T: Send, B: Bring<T>>(
    threads: &R,
    gate: &G,
    how: &B,
    items: &mut [T],
) -> Result<(), NoMemory>
    requires room { length items.old < 2 ^ 32 }
    requires may { AllAt (B.may how.now) 0 items.old }
    ensures count { length items.new ≡ length items.old }
    ensures ends { OnOk result (AllBecome (B.ends how.now) 0 items.old items.new) }
{
    bring_from(threads, gate, how, 0, 0, items)
}

/// Brings all items to their ends, each by its place in the list, one after the other in the caller's thread. Want of memory is the only refusal. The
/// contract is that of [`bring_all`].
pub fn bring_here<T, B: Bring<T>>(how: &B, items: &mut [T]) -> Result<(), NoMemory>
    requires room { length items.old < 2 ^ 32 }
    requires may { AllAt (B.may how.now) 0 items.old }
    ensures count { length items.new ≡ length items.old }
    ensures ends { OnOk result (AllBecome (B.ends how.now) 0 items.old items.new) }
{
    bring_piece(how, 0, items)
}
