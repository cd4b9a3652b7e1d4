//! That the tables of sites are settled in pieces side by side, of which pieces a gate is told, and that the reply is the same.
use asked_text::METHOD;
use boom_io::{MemSink, MemSource};
use boom_top::{Gate, boomer};
use std::alloc::AllocError;
use std::marker::Sync;
use std::sync::atomic::{AtomicU64, Ordering};
use std::thread::Threads;

// The most readings of what another thread writes, so that a test ends by itself.
const READINGS: u32 = 200_000_000;

// Whether the flag is set within so many readings.
fn is_set(flag: &AtomicU64) -> bool {
    for _ in 0..READINGS {
        if flag.load(Ordering::SeqCst) == 1 {
            return true;
        }
    }
    false
}

// A command with `|` between two words, what it is about, and the reply.
#[derive(Clone, Copy)]
struct Asked<'a> {
    words: &'a str,
    text: &'a str,
    reply: &'a str,
}

// Its demand has 80 sites, which are 8 pieces.
const FORTY: Asked<'static> = Asked {
    words: "demo|40",
    text: "",
    reply: "demo 40\nstatements 168\nsites 1\ndemanded 250\n",
};

// Its demand has 16 sites, which are one piece.
const EIGHT: Asked<'static> = Asked {
    words: "demo|8",
    text: "",
    reply: "demo 8\nstatements 40\nsites 1\ndemanded 58\n",
};

// Whether a command gets its reply, where the gate is told of pieces.
fn is_answered<R: Threads + AllocGlobal + Sync, G: Gate>(
    rt: &R,
    gate: &G,
    asked: Asked<'_>,
) -> Result<bool, AllocError> {
    let mut words = Vec::new(rt.alloc());
    for word in asked.words.split('|') {
        words.push(String::from_str(rt.alloc(), word)?)?;
    }
    let text = Vec::from_slice(rt.alloc(), asked.text.as_bytes())?;
    let mut source = MemSource::new(text, Vec::new(rt.alloc()), 1000);
    let mut sink = MemSink::new(rt.alloc(), 10_000, Vec::new(rt.alloc()), 64)?;
    let status = boomer(rt, rt.alloc(), &words, &mut source, &mut sink, gate);
    Ok(status.number() == 0 && sink.bytes() == asked.reply.as_bytes())
}

// Holds the first piece, the first time, until the second has entered.
#[derive(Drop)]
pub struct Holding {
    begun: AtomicU64,
    entered: AtomicU64,
    // How often the hold ended since the second piece had entered.
    ended: AtomicU64,
}

impl Holding {
    pub fn new() -> Self {
        Holding {
            begun: AtomicU64::new(0),
            entered: AtomicU64::new(0),
            ended: AtomicU64::new(0),
        }
    }

    /// Whether the hold was ended by the second piece.
    pub fn is_ended(&self) -> bool {
        self.ended.load(Ordering::SeqCst) == 1
    }
}

impl Gate for Holding {
    fn pass(&self, piece: u32) {
        match piece {
            0 => {
                if self.begun.fetch_add(1, Ordering::SeqCst) == 0 && is_set(&self.entered) {
                    self.ended.fetch_add(1, Ordering::SeqCst);
                }
            }
            1 => self.entered.store(1, Ordering::SeqCst),
            _ => {}
        }
    }
}

// Whether the hold was ended by the second piece, and the reply is the demo's.
fn is_let_go<R: Threads + AllocGlobal + Sync>(rt: &R) -> Result<bool, AllocError> {
    let holding = Holding::new();
    let right = is_answered(rt, &holding, FORTY)?;
    Ok(right && holding.is_ended())
}

#[test]
fn the_second_piece_enters_while_the_first_is_held(rt: HostRuntime) -> Result<(), AllocError> {
    assert!(rt; is_let_go(&rt)?);
    Ok(())
}

// Holds each of the first two pieces until the other has entered.
#[derive(Drop)]
pub struct Meeting {
    entered: [AtomicU64; 2],
    missed: AtomicU64,
}

impl Meeting {
    pub fn new() -> Self {
        Meeting {
            entered: [AtomicU64::new(0), AtomicU64::new(0)],
            missed: AtomicU64::new(0),
        }
    }

    /// Whether each piece saw the other.
    pub fn is_met(&self) -> bool {
        self.missed.load(Ordering::SeqCst) == 0
    }

    fn meet(&self, mine: &AtomicU64, other: &AtomicU64) {
        mine.store(1, Ordering::SeqCst);
        if !is_set(other) {
            self.missed.fetch_add(1, Ordering::SeqCst);
        }
    }
}

impl Gate for Meeting {
    fn pass(&self, piece: u32) {
        match piece {
            0 => self.meet(&self.entered[0], &self.entered[1]),
            1 => self.meet(&self.entered[1], &self.entered[0]),
            _ => {}
        }
    }
}

// Whether both pieces saw each other, and the reply is the demo's.
fn meets<R: Threads + AllocGlobal + Sync>(rt: &R) -> Result<bool, AllocError> {
    let meeting = Meeting::new();
    let right = is_answered(rt, &meeting, FORTY)?;
    Ok(right && meeting.is_met())
}

// One thread that goes over the pieces misses a meeting, from the last to the first too.
#[test]
fn two_pieces_wait_for_each_other(rt: HostRuntime) -> Result<(), AllocError> {
    assert!(rt; meets(&rt)?);
    Ok(())
}

// Counts how often it is told of each of the first eight pieces, and of all others.
#[derive(Drop)]
pub struct Told {
    times: [AtomicU64; 8],
    others: AtomicU64,
}

impl Told {
    pub fn new() -> Self {
        Told {
            times: std::array::from_fn(|_| AtomicU64::new(0)),
            others: AtomicU64::new(0),
        }
    }

    /// Whether it was told of each of so many pieces once, and of no other.
    pub fn is_once(&self, pieces: usize) -> bool {
        self.is_first(pieces) && self.times[0].load(Ordering::SeqCst) == 1
    }

    // Whether it was told of so many pieces from the first on, of each as often as of the first, and of no other.
    fn is_first(&self, pieces: usize) -> bool {
        let turns = self.times[0].load(Ordering::SeqCst);
        let each = |(k, times): (usize, &AtomicU64)| {
            times.load(Ordering::SeqCst) == if k < pieces { turns } else { 0 }
        };
        turns > 0
            && self.times.iter().enumerate().all(each)
            && self.others.load(Ordering::SeqCst) == 0
    }
}

impl Gate for Told {
    fn pass(&self, piece: u32) {
        let times = self.times.get(piece as usize).unwrap_or(&self.others);
        times.fetch_add(1, Ordering::SeqCst);
    }
}

// Whether a command gets its reply, and has so many pieces whenever it has any.
fn is_cut<R: Threads + AllocGlobal + Sync>(
    rt: &R,
    asked: Asked<'_>,
    pieces: usize,
) -> Result<bool, AllocError> {
    let told = Told::new();
    let right = is_answered(rt, &told, asked)?;
    Ok(right && told.is_first(pieces))
}

#[test]
fn each_piece_is_told_once_a_turn(rt: HostRuntime) -> Result<(), AllocError> {
    assert!(rt; is_cut(&rt, FORTY, 8)?);
    assert!(rt; is_cut(&rt, EIGHT, 1)?);
    Ok(())
}

// Seventeen files that are read before they are opened, one after the other. Their sites are two pieces.
fn reads_files<R: Threads + AllocGlobal + Sync>(rt: &R) -> Result<bool, AllocError> {
    let mut text = String::from_str(
        rt.alloc(),
        "class F { void read() { return; } } class Main { static void main(java.lang.String[]) { F f; ",
    )?;
    let mut reply = String::from_str(rt.alloc(), "typestate Main F\n")?;
    for file in 0..17u32 {
        write!(text, "f = new F; virtualinvoke f.<F: void read()>(); ")?;
        let made = file * 2;
        write!(
            reply,
            "unsafe {METHOD} {made} new F at {METHOD} {} state closed event read\n",
            made + 1
        )?;
    }
    write!(text, "return; }} }}")?;
    write!(reply, "verdict unsafe 17\ndemanded 34\n")?;
    let asked = Asked {
        words: "typestate|Main|F closed;closed open opened;opened read opened|100",
        text: text.as_str(),
        reply: reply.as_str(),
    };
    is_cut(rt, asked, 2)
}

#[test]
fn files_are_tracked_in_pieces(rt: HostRuntime) -> Result<(), AllocError> {
    assert!(rt; reads_files(&rt)?);
    Ok(())
}
