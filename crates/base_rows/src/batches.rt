//! That texts come in order, that pieces run side by side, of which numbers a gate is told, how questions are cut, and what an error in one piece does to
//! the others.
use batch_join::{Ask, Pass, Text, Texts, ask_all};
use lists::NoMemory;
use std::alloc::{AllocError, Global};
use std::sync::atomic::{AtomicU64, Ordering};
use std::thread::Threads;

// The most readings of what another thread writes, so that a test ends by itself.
const READINGS: u32 = 200_000_000;

// Whether what another thread writes comes to the value within so many readings.
fn becomes(shared: &AtomicU64, value: u64) -> bool {
    for _ in 0..READINGS {
        if shared.load(Ordering::SeqCst) == value {
            return true;
        }
    }
    false
}

// Tells of a number the byte of its lowest digits, and counts how often. One number is refused.
#[derive(Drop)]
struct Bytes {
    refused: u32,
    told: AtomicU64,
}

impl Bytes {
    // Nothing here asks so many numbers.
    const NONE: u32 = 1_000_000;

    fn but(refused: u32) -> Self {
        Bytes {
            refused,
            told: AtomicU64::new(0),
        }
    }

    fn told(&self) -> u64 {
        self.told.load(Ordering::SeqCst)
    }
}

impl Ask for Bytes {
    ghost use Rattle.std.specs.Prelude.{◌≡◌, ◌∷◌, [], ◌%◌};

    ghost tells = { λ bytes number text. text ≡ number % 256 ∷ [] };

    fn ask(&self, alloc: Global, number: u32) -> Result<Text, NoMemory> {
        if number == self.refused {
            return Err(AllocError);
        }
        let text = Text::from_vec(vec![in alloc; (number % 256) as u8]?);
        self.told.fetch_add(1, Ordering::SeqCst);
        Ok(text)
    }

    ghost use Rattle.std.proofs.Common.{◌∙◌, sym};

    ghost one = { λ bytes number text other is also. is ∙ sym also };
}

// Counts how often it is told of each of the first eight pieces, and of all others.
#[derive(Drop)]
struct Told {
    times: [AtomicU64; 8],
    others: AtomicU64,
}

impl Told {
    fn new() -> Self {
        Told {
            times: std::array::from_fn(|_| AtomicU64::new(0)),
            others: AtomicU64::new(0),
        }
    }

    // Whether it was told of so many pieces from the first on, of each once, and of no other.
    fn is_first(&self, pieces: usize) -> bool {
        let once = |(k, times): (usize, &AtomicU64)| {
            times.load(Ordering::SeqCst) == (k < pieces) as u64
        };
        self.times.iter().enumerate().all(once) && self.others.load(Ordering::SeqCst) == 0
    }
}

impl Pass for Told {
    fn pass(&self, piece: u32) {
        let times = self.times.get(piece as usize).unwrap_or(&self.others);
        times.fetch_add(1, Ordering::SeqCst);
    }
}

// Holds each of the first two pieces until the other has entered.
#[derive(Drop)]
struct Meeting {
    entered: [AtomicU64; 2],
    missed: AtomicU64,
}

impl Meeting {
    fn new() -> Self {
        Meeting {
            entered: [AtomicU64::new(0), AtomicU64::new(0)],
            missed: AtomicU64::new(0),
        }
    }

    fn meet(&self, mine: &AtomicU64, other: &AtomicU64) {
        mine.store(1, Ordering::SeqCst);
        if !becomes(other, 1) {
            self.missed.fetch_add(1, Ordering::SeqCst);
        }
    }
}

impl Pass for Meeting {
    fn pass(&self, piece: u32) {
        match piece {
            0 => self.meet(&self.entered[0], &self.entered[1]),
            1 => self.meet(&self.entered[1], &self.entered[0]),
            _ => {}
        }
    }
}

// Holds one piece until so many questions were answered by others.
#[derive(Drop)]
struct Behind<'a> {
    held: u32,
    bytes: &'a Bytes,
    others: u64,
    missed: AtomicU64,
}

impl Pass for Behind<'_> {
    fn pass(&self, piece: u32) {
        if piece == self.held && !becomes(&self.bytes.told, self.others) {
            self.missed.fetch_add(1, Ordering::SeqCst);
        }
    }
}

// Whether each text has the byte of its number, and nothing else.
fn are_in_order(texts: &Texts) -> bool {
    for k in 0..texts.len() {
        if texts.text(k) != [(k % 256) as u8].as_slice() {
            return false;
        }
    }
    true
}

// What a test owns is asked about in a function that answers whether it is right: the prover goes over it at each way out, and a test has many.
fn comes_in_order<R: Threads + Sync>(
    threads: &R,
    alloc: Global,
    count: u32,
    pieces: usize,
) -> Result<bool, NoMemory> {
    let told = Told::new();
    let texts = ask_all(threads, alloc, &Bytes::but(Bytes::NONE), count, &told)?;
    Ok(texts.len() == count && are_in_order(&texts) && told.is_first(pieces))
}

#[test]
fn texts_come_in_order(rt: HostRuntime) -> Result<(), NoMemory> {
    for (count, pieces) in [
        (0, 1),
        (1, 1),
        (4, 1),
        (5, 2),
        (9, 3),
        (16, 4),
        (17, 5),
        (29, 8),
    ] {
        assert!(rt;
            comes_in_order(&rt, rt.alloc(), count, pieces)?,
            "of {count}"
        );
    }
    Ok(())
}

// Whether a thousand texts come in order.
fn many_come_in_order<R: Threads + Sync>(threads: &R, alloc: Global) -> Result<bool, NoMemory> {
    let texts = ask_all(threads, alloc, &Bytes::but(Bytes::NONE), 1000, &Told::new())?;
    Ok(texts.len() == 1000 && are_in_order(&texts))
}

#[test]
fn a_thousand_come_in_order(rt: HostRuntime) -> Result<(), NoMemory> {
    assert!(rt; many_come_in_order(&rt, rt.alloc())?);
    Ok(())
}

// Whether two pieces of forty questions meet.
fn meets<R: Threads + Sync>(threads: &R, alloc: Global) -> Result<bool, NoMemory> {
    let meeting = Meeting::new();
    let texts = ask_all(threads, alloc, &Bytes::but(Bytes::NONE), 40, &meeting)?;
    Ok(meeting.missed.load(Ordering::SeqCst) == 0 && texts.len() == 40)
}

// One thread that goes over the pieces misses a meeting, from the first to the last as well as from the last to the first.
#[test]
fn two_pieces_wait_for_each_other(rt: HostRuntime) -> Result<(), NoMemory> {
    assert!(rt; meets(&rt, rt.alloc())?);
    Ok(())
}

// Whether the held one of two pieces sees so many texts of the other, and all five questions are answered.
fn sees_others<R: Threads + Sync>(
    threads: &R,
    alloc: Global,
    held: u32,
    others: u64,
) -> Result<bool, NoMemory> {
    let bytes = Bytes::but(Bytes::NONE);
    let behind = Behind {
        held,
        bytes: &bytes,
        others,
        missed: AtomicU64::new(0),
    };
    let texts = ask_all(threads, alloc, &bytes, 5, &behind)?;
    Ok(behind.missed.load(Ordering::SeqCst) == 0 && texts.len() == 5)
}

// A piece that is held sees all texts of the other: 5 questions are 3 and 2.
#[test]
fn the_first_half_is_rounded_up(rt: HostRuntime) -> Result<(), NoMemory> {
    for (held, others) in [(1, 3), (0, 2)] {
        assert!(rt; sees_others(&rt, rt.alloc(), held, others)?, "piece {held}");
    }
    Ok(())
}

// Whether of 16 questions so many are answered where one is refused, with an error, and it is told of four pieces.
fn stops_alone<R: Threads + Sync>(threads: &R, alloc: Global, refused: u32, answered: u64) -> bool {
    let told = Told::new();
    let bytes = Bytes::but(refused);
    let fails = ask_all(threads, alloc, &bytes, 16, &told).is_err();
    fails && bytes.told() == answered && told.is_first(4)
}

// Of 16 questions each piece has four. The piece with the number that is refused stops there, and the others ask all of theirs.
#[test]
fn an_error_stops_its_piece_alone(rt: HostRuntime) -> Result<(), NoMemory> {
    for (refused, answered) in [(0, 12), (6, 14), (15, 15)] {
        assert!(rt;
            stops_alone(&rt, rt.alloc(), refused, answered),
            "{refused} is refused"
        );
    }
    Ok(())
}
