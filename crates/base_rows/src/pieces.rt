//! That pieces run side by side, of which numbers a gate is told, how lists are cut, and what an error in one piece does to the others.
ghost use Rattle.std.specs.Prelude.{◌≡◌, ◌<◌, ◌^◌, [], length, IfOk};
ghost use Rattle.piece_join.specs.Brought.{AllAt};

use lists::NoMemory;
use piece_join::{Bring, Gate, Open, bring_all, bring_here};
use std::alloc::{AllocError, Global};
use std::sync::atomic::{AtomicU64, Ordering};
use std::thread::Threads;

// The most readings of what another thread writes, so that a test ends by itself.
const READINGS: u32 = 200_000_000;

// Whether what another thread writes comes to the value within so many readings.
fn becomes(shared: &AtomicU64, value: u64) -> bool {
    for _ in 0..READINGS {
        if shared.load(Ordering::SeqCst) == value {
            return true;
        }
    }
    false
}

// Writes the number of a row into it, and counts the rows. One number is refused.
#[derive(Drop)]
struct Numbers {
    refused: u32,
    brought: AtomicU64,
}

impl Numbers {
    // No list here has so many rows.
    const NONE: u32 = 1000;

    fn but(refused: u32) -> Self {
        Numbers {
            refused,
            brought: AtomicU64::new(0),
        }
    }

    fn brought(&self) -> u64 {
        self.brought.load(Ordering::SeqCst)
    }
}

impl Bring<Vec<u32>> for Numbers {
    ghost use Rattle.std.specs.Prelude.{◌≡◌, [], ◌∷◌, ◌++◌};

    ghost may = { λ numbers number row. row.items ≡ [] };

    ghost ends = { λ numbers number old row. row.items ≡ old.items ++ number ∷ [] };

    fn bring(&self, number: u32, row: &mut Vec<u32>) -> Result<(), NoMemory> {
        if number == self.refused {
            return Err(AllocError);
        }
        row.push(number)?;
        self.brought.fetch_add(1, Ordering::SeqCst);
        Ok(())
    }
}

// So many rows without a number.
fn rows(alloc: Global, count: usize) -> Result<Vec<Vec<u32>>, NoMemory>
    ensures { IfOk result (λ rows. (length rows.items ≡ count) × AllAt (λ number row. row.items ≡ []) 0 rows.items) }
{
    let mut rows = Vec::new(alloc);
    for _ in 0..count {
        rows.push(Vec::new(alloc))?;
    }
    Ok(rows)
}

// Whether each row has its own number, and nothing else.
fn are_numbered(rows: &[Vec<u32>]) -> bool {
    rows.iter()
        .enumerate()
        .all(|(k, row)| row.len() == 1 && row[0] as usize == k)
}

// Counts how often it is told of each of the first eight pieces, and of all others.
#[derive(Drop)]
struct Told {
    times: [AtomicU64; 8],
    others: AtomicU64,
}

impl Told {
    fn new() -> Self {
        Told {
            times: std::array::from_fn(|_| AtomicU64::new(0)),
            others: AtomicU64::new(0),
        }
    }

    // Whether it was told of so many pieces from the first on, of each once, and of no other.
    fn is_first(&self, pieces: usize) -> bool {
        let once = |(k, times): (usize, &AtomicU64)| {
            times.load(Ordering::SeqCst) == (k < pieces) as u64
        };
        self.times.iter().enumerate().all(once) && self.others.load(Ordering::SeqCst) == 0
    }
}

impl Gate for Told {
    fn pass(&self, piece: u32) {
        let times = self.times.get(piece as usize).unwrap_or(&self.others);
        times.fetch_add(1, Ordering::SeqCst);
    }
}

// Holds each of the first two pieces until the other has entered.
#[derive(Drop)]
struct Meeting {
    entered: [AtomicU64; 2],
    missed: AtomicU64,
}

impl Meeting {
    fn new() -> Self {
        Meeting {
            entered: [AtomicU64::new(0), AtomicU64::new(0)],
            missed: AtomicU64::new(0),
        }
    }

    fn meet(&self, mine: &AtomicU64, other: &AtomicU64) {
        mine.store(1, Ordering::SeqCst);
        if !becomes(other, 1) {
            self.missed.fetch_add(1, Ordering::SeqCst);
        }
    }
}

impl Gate for Meeting {
    fn pass(&self, piece: u32) {
        match piece {
            0 => self.meet(&self.entered[0], &self.entered[1]),
            1 => self.meet(&self.entered[1], &self.entered[0]),
            _ => {}
        }
    }
}

// Holds one piece until so many rows were brought to their ends by others.
#[derive(Drop)]
struct Behind<'a> {
    held: u32,
    numbers: &'a Numbers,
    others: u64,
    missed: AtomicU64,
}

impl Gate for Behind<'_> {
    fn pass(&self, piece: u32) {
        if piece == self.held && !becomes(&self.numbers.brought, self.others) {
            self.missed.fetch_add(1, Ordering::SeqCst);
        }
    }
}

// What a test owns is asked about in a function that answers whether it is right: the prover goes over it at each way out, and a test has many.
fn tells_of_each<R: Threads + Sync>(
    threads: &R,
    alloc: Global,
    count: usize,
    pieces: usize,
) -> Result<bool, NoMemory>
    requires { count < 2 ^ 32 }
{
    let mut rows = rows(alloc, count)?;
    let told = Told::new();
    bring_all(threads, &told, &Numbers::but(Numbers::NONE), &mut rows)?;
    Ok(are_numbered(&rows) && told.is_first(pieces))
}

#[test]
fn tells_of_each_piece_once(rt: HostRuntime) -> Result<(), NoMemory> {
    for (count, pieces) in [(0, 1), (1, 1), (16, 1), (17, 2), (33, 3), (40, 4), (80, 8)] {
        assert!(rt;
            tells_of_each(&rt, rt.alloc(), count, pieces)?,
            "{count} rows"
        );
    }
    Ok(())
}

#[test]
fn open_gates_change_nothing(rt: HostRuntime) -> Result<(), NoMemory> {
    let mut rows = rows(rt.alloc(), 40)?;
    bring_all(&rt, &Open, &Numbers::but(Numbers::NONE), &mut rows)?;
    assert!(rt; are_numbered(&rows));
    Ok(())
}

#[test]
fn one_thread_brings_the_same(rt: HostRuntime) -> Result<(), NoMemory> {
    for count in [0, 1, 16, 17, 40] {
        let mut rows = rows(rt.alloc(), count)?;
        bring_here(&Numbers::but(Numbers::NONE), &mut rows)?;
        assert!(rt; are_numbered(&rows), "{count} rows");
    }
    Ok(())
}

// Whether two pieces of eighty rows meet.
fn meets<R: Threads + Sync>(threads: &R, alloc: Global) -> Result<bool, NoMemory> {
    let mut rows = rows(alloc, 80)?;
    let meeting = Meeting::new();
    bring_all(threads, &meeting, &Numbers::but(Numbers::NONE), &mut rows)?;
    Ok(meeting.missed.load(Ordering::SeqCst) == 0 && are_numbered(&rows))
}

// One thread that goes over the pieces misses a meeting, from the first to the last as well as from the last to the first.
#[test]
fn two_pieces_wait_for_each_other(rt: HostRuntime) -> Result<(), NoMemory> {
    assert!(rt; meets(&rt, rt.alloc())?);
    Ok(())
}

// Whether the held one of two pieces sees so many rows of the other, and all of 17 are brought.
fn sees_others<R: Threads + Sync>(
    threads: &R,
    alloc: Global,
    held: u32,
    others: u64,
) -> Result<bool, NoMemory> {
    let mut rows = rows(alloc, 17)?;
    let numbers = Numbers::but(Numbers::NONE);
    let behind = Behind {
        held,
        numbers: &numbers,
        others,
        missed: AtomicU64::new(0),
    };
    bring_all(threads, &behind, &numbers, &mut rows)?;
    Ok(behind.missed.load(Ordering::SeqCst) == 0 && numbers.brought() == 17)
}

// A piece that is held sees all rows of the other: 17 rows are 9 and 8.
#[test]
fn the_first_half_is_rounded_up(rt: HostRuntime) -> Result<(), NoMemory> {
    for (held, others) in [(1, 9), (0, 8)] {
        assert!(rt; sees_others(&rt, rt.alloc(), held, others)?, "piece {held}");
    }
    Ok(())
}

// Whether of 40 rows so many are brought where one is refused, with an error, and the gate is told of four pieces.
fn stops_alone<R: Threads + Sync>(
    threads: &R,
    alloc: Global,
    refused: u32,
    brought: u64,
) -> Result<bool, NoMemory> {
    let mut rows = rows(alloc, 40)?;
    let told = Told::new();
    let numbers = Numbers::but(refused);
    let fails = bring_all(threads, &told, &numbers, &mut rows).is_err();
    Ok(fails && numbers.brought() == brought && told.is_first(4))
}

// Of 40 rows each piece has ten. The piece with the number that is refused stops there, and the others bring all of theirs.
#[test]
fn an_error_stops_its_piece_alone(rt: HostRuntime) -> Result<(), NoMemory> {
    for (refused, brought) in [(0, 30), (13, 33), (39, 39)] {
        assert!(rt;
            stops_alone(&rt, rt.alloc(), refused, brought)?,
            "{refused} is refused"
        );
    }
    Ok(())
}

// Whether one thread stops at the refused row.
fn stops_here(alloc: Global) -> Result<bool, NoMemory> {
    let mut rows = rows(alloc, 40)?;
    let numbers = Numbers::but(13);
    let fails = bring_here(&numbers, &mut rows).is_err();
    Ok(fails && numbers.brought() == 13)
}

#[test]
fn one_thread_stops_at_an_error(rt: HostRuntime) -> Result<(), NoMemory> {
    assert!(rt; stops_here(rt.alloc())?);
    Ok(())
}
