//! Spelled over a small program, with what is told of each, by hand.
use link_program::Linked;
use linked_text::{Rows, first_wrong};
use lists::NoMemory;
use protocol_words::{Protocol, ProtocolError, read_protocol};
use std::alloc::Global;
use std::test::Fail;

// The classes of the input are numbered first, in the order in which they are written, and then the stand-ins, from `java.lang.Object` on.
const PROGRAM: &str = "class F { } class Main { static void main(java.lang.String[]) { return; } }";

// Spelled, and behind ` => ` the class, the states, the events and the rows of the protocol, or why there is none.
const ROWS: &str = "F closed => 0: closed / / 
Main closed;closed open opened;opened close closed => 1: closed opened / open close / 0 0 1, 1 1 0, 
# States are numbered by the first state, and then row by row; an event has one number.
F raw;b open c;a close b;raw open a => 0: raw b c a / open close / 1 0 2, 3 1 1, 0 0 3, 
F a;a a a => 0: a / a / 0 0 0, 
# One event may come in two states, and two events in one.
F a;a x b;b x a;a y b => 0: a b / x y / 0 0 1, 1 0 0, 0 1 1, 
# Only the blank and the semicolon are no characters of names.
java.lang.Object \t;\t <init> ' => 2: \t ' / <init> / 0 0 1, 
F \u{3000};\u{3000} \u{a0} a => 0: \u{3000} a / \u{a0} / 0 0 1, 
# The class and the first state have one blank between them.
 => grammar 0
F => grammar 0
  => grammar 0
F  => grammar 0
 closed => grammar 0
F  closed => grammar 0
 F closed => grammar 0
F closed  => grammar 0
F\tclosed => grammar 0
F closed opened => grammar 0
; => grammar 0
;F closed => grammar 0
# So have the names of a row, and there are three.
F closed; => grammar 1
F closed;closed => grammar 1
F closed;closed open => grammar 1
F closed;closed open  => grammar 1
F closed;closed  opened => grammar 1
F closed;closed open  opened => grammar 1
F closed;closed open opened twice => grammar 1
F closed; closed open opened => grammar 1
F closed;closed open opened; => grammar 2
F closed;;closed open opened => grammar 1
# The first part that breaks the grammar, whatever breaks it. Of two parts with one first state and one event it is the later one.
F a;a open b;b open a;a open a;x => grammar 3
F a;a open b;x;a open b => grammar 2
F a;a open b;a open b => grammar 2
F a;a o b;a  b => grammar 2
# 16 states, and a 17th: of one part that brings it, and of one that brings it with the 16th.
F 0;0 e 1;1 e 2;2 e 3;3 e 4;4 e 5;5 e 6;6 e 7;7 e 8;8 e 9;9 e A;A e B;B e C;C e D;D e E;E e F => 0: 0 1 2 3 4 5 6 7 8 9 A B C D E F / e / 0 0 1, 1 0 2, 2 0 3, 3 0 4, 4 0 5, 5 0 6, 6 0 7, 7 0 8, 8 0 9, 9 0 10, 10 0 11, 11 0 12, 12 0 13, 13 0 14, 14 0 15, 
F 0;0 e 1;1 e 2;2 e 3;3 e 4;4 e 5;5 e 6;6 e 7;7 e 8;8 e 9;9 e A;A e B;B e C;C e D;D e E;E e F;F e G;G e 0;H e I => states 16
F 0;0 e 1;1 e 2;2 e 3;3 e 4;4 e 5;5 e 6;6 e 7;7 e 8;8 e 9;9 e A;A e B;B e C;C e D;D e E;E e F;F e 0;G e 0 => states 17
F 0;1 e 2;3 e 4;5 e 6;7 e 8;9 e A;B e C;D e E;0 f 0;F e G;H e I => states 9
# No such class. What breaks the grammar comes before a 17th state, wherever it stands, and both before the class.
G closed => class
f closed;closed open opened => class
F\t closed => class
G closed;closed open => grammar 1
G 0;0 e 1;1 e 2;2 e 3;3 e 4;4 e 5;5 e 6;6 e 7;7 e 8;8 e 9;9 e A;A e B;B e C;C e D;D e E;E e F;F e G => states 16
G 0;0 e 1;1 e 2;2 e 3;3 e 4;4 e 5;5 e 6;6 e 7;7 e 8;8 e 9;9 e A;A e B;B e C;C e D;D e E;E e F;F e G;G e 0;0 e 0 => grammar 18";

// Only the blank and the semicolon are no characters of names: a line feed is one.
const WITH_LINE_FEEDS: OneWord = OneWord {
    word: "F a\nb;a\nb c\td é",
    wanted: "0: a\nb é / c\td / 0 0 1, ",
};

// The class, the states, the events and the rows of a protocol.
fn text_of(alloc: Global, protocol: &Protocol) -> Result<String, NoMemory> {
    let mut text = format!(in alloc; "{}: ", protocol.class())?;
    for state in 0..protocol.states() {
        write!(text, "{} ", protocol.state_name(state))?;
    }
    text.push('/')?;
    for event in 0..protocol.events() {
        write!(text, " {}", protocol.event_name(event))?;
    }
    text.push_str(" / ")?;
    for row in protocol.rows() {
        write!(text, "{} {} {}, ", row.from, row.event, row.to)?;
    }
    Ok(text)
}

// What is told of a word.
fn told(alloc: Global, linked: &Linked, word: &str) -> Result<String, NoMemory> {
    match read_protocol(alloc, linked, word) {
        Ok(protocol) => text_of(alloc, &protocol),
        Err(ProtocolError::NotProtocol { at }) => format!(in alloc; "grammar {at}"),
        Err(ProtocolError::TooManyStates { at }) => format!(in alloc; "states {at}"),
        Err(ProtocolError::UnknownClass) => String::from_str(alloc, "class"),
        Err(ProtocolError::NoMemory) => String::from_str(alloc, "memory"),
    }
}

fn is_told(alloc: Global, linked: &Linked, word: &str, wanted: &str) -> Result<bool, NoMemory> {
    let text = told(alloc, linked, word)?;
    Ok(text.as_str() == wanted)
}

struct Spelled;

impl Rows for Spelled {
    fn is_right(&self, alloc: Global, linked: &Linked, row: &str) -> Result<bool, NoMemory> {
        match row.split_once(" => ") {
            Some((word, wanted)) => is_told(alloc, linked, word, wanted),
            None => Ok(false),
        }
    }
}

// A word that isn't a line.
struct OneWord {
    word: &'static str,
    wanted: &'static str,
}

impl Rows for OneWord {
    fn is_right(&self, alloc: Global, linked: &Linked, _: &str) -> Result<bool, NoMemory> {
        is_told(alloc, linked, self.word, self.wanted)
    }
}

#[test]
fn words(rt: HostRuntime) -> Result<(), Fail> {
    assert_eq!(rt; first_wrong(rt.alloc(), PROGRAM, &Spelled, ROWS)?, None);
    assert_eq!(rt;
        first_wrong(
            rt.alloc(),
            PROGRAM,
            &WITH_LINE_FEEDS,
            "a word with line feeds"
        )?,
        None
    );
    Ok(())
}

// From three states by two events: a state, an event, and the state behind it. There is no fourth state, and no third event.
const STEPS: &str = "0 0 1
0 1 -
1 0 2
1 1 0
2 0 -
3 0 -
0 2 -";

fn goes_on(protocol: &Protocol, step: &str) -> bool {
    protocol.tell_form();
    let Some((from, rest)) = step.split_once(' ') else {
        return false;
    };
    let Some((event, to)) = rest.split_once(' ') else {
        return false;
    };
    match (from.parse::<u8>(), event.parse::<u32>()) {
        (Ok(from), Ok(event)) => protocol.next(from, event) == to.parse::<u8>().ok(),
        _ => false,
    }
}

struct Steps;

impl Rows for Steps {
    fn is_right(&self, alloc: Global, linked: &Linked, row: &str) -> Result<bool, NoMemory> {
        match read_protocol(alloc, linked, "F a;a open b;b close a;b open c") {
            Ok(protocol) => Ok(goes_on(&protocol, row)),
            Err(_) => Ok(false),
        }
    }
}

#[test]
fn next_states(rt: HostRuntime) -> Result<(), Fail> {
    assert_eq!(rt; first_wrong(rt.alloc(), PROGRAM, &Steps, STEPS)?, None);
    Ok(())
}
