//! The commands, by their words: first by how many stand behind the entry, then by the first of all.
ghost use Rattle.std.specs.Prelude.{◌≡◌, ◌<◌, ◌∷◌, ℕ, List, [], length, map, string_bytes, IfOk, IfSome, IsSomeAnd};
ghost use Rattle.std.specs.Fmt.{decimal};
ghost use Rattle.boom_words.specs.Requests.{IsQuestion, IsRequest, NoRequest, Request};
ghost use Rattle.boom_words.specs.Commands.{IfRefused, place_words, question_of, request_of};

use super::word::{NotRead, asked, choices, number_to, path};
use lists::NoMemory;
use std::alloc::{AllocError, Global};

/// A local just before the statement of a method with an index, and the most nodes that may be demanded.
#[derive(Clone, Copy)]
pub struct Asked<'a> {
    pub method: &'a str,
    pub index: u32,
    pub local: &'a str,
    pub budget: u32,
}

/// What a `run` command asks for: the choices are decimal digits.
#[derive(Clone, Copy)]
pub struct Running<'a> {
    pub steps: u32,
    pub choices: &'a [u8],
}

/// What a `typestate` command asks for: the protocol as a word spells it.
#[derive(Clone, Copy)]
pub struct Tracking<'a> {
    pub protocol: &'a str,
    pub budget: u32,
}

/// What is asked of a linked program.
#[derive(Clone, Copy)]
pub enum Query<'a> {
    /// Which sites may a local hold?
    PointsTo(Asked<'a>),
    /// Which sites may a local hold, and what shows of each that it may?
    Explain(Asked<'a>),
    /// Which sites may a local and a second one of its method both hold?
    Alias { asked: Asked<'a>, second: &'a str },
    /// Which sites may be at the end of a path from a local? The fields are as the word spells them.
    Paths { asked: Asked<'a>, fields: &'a str },
    /// Which sites may a local hold, where calls have the targets alone that their receivers leave them? They are narrowed in 0 to 8 rounds.
    Refined { asked: Asked<'a>, rounds: u32 },
    /// How does a run stand after some steps?
    Run(Running<'a>),
    /// Is the certificate behind the program one, where no more nodes may be demanded?
    Replay { budget: u32 },
    /// May an event come on an object in a state in which a protocol doesn't allow it?
    Typestate(Tracking<'a>),
    /// What is answered to each query behind the program, where each may demand no more nodes?
    Batch { budget: u32 },
    /// Which sites may the last local of the demo's program hold, which has this many boxes?
    Demo { boxes: u32 },
}

/// A command: what is asked, and the class whose `main` the program begins in.
#[derive(Clone, Copy)]
pub struct Command<'a> {
    pub entry: &'a str,
    pub query: Query<'a>,
}

/// The most rounds in which calls are narrowed.
const MOST_ROUNDS: u32 = 8;

/// The most steps of a run.
const MOST_STEPS: u32 = 1_000_000;

/// The most boxes of the demo.
const MOST_BOXES: u32 = 400;

/// The class that the demo's program begins in.
const DEMO: &str = "Demo";

// BUDGET, behind an entry: `replay` or `batch`.
fn budget_query(first: &str, budget: u32) -> Result<Query<'static>, NotRead>
    ensures some { IfOk result (λ q. (entry : List ℕ) → IsQuestion (first.now ∷ entry ∷ decimal budget ∷ []) entry (question_of q)) }
    ensures none { IfRefused result ((entry : List ℕ) → NoRequest (first.now ∷ entry ∷ decimal budget ∷ [])) }
{
    match first {
        "replay" => Ok(Query::Replay { budget }),
        "batch" => Ok(Query::Batch { budget }),
        _ => Err(NotRead::Refused),
    }
}

// Two words behind an entry: `run` with STEPS CHOICES, or `typestate` with PROTOCOL BUDGET.
fn pair_query<'a>(
    alloc: Global,
    first: &str,
    word: &'a str,
    last: &'a str,
) -> Result<Query<'a>, NotRead>
    ensures some { IfOk result (λ q. (entry : List ℕ) → IsQuestion (first.now ∷ entry ∷ word.now ∷ last.now ∷ []) entry (question_of q)) }
    ensures none { IfRefused result ((entry : List ℕ) → NoRequest (first.now ∷ entry ∷ word.now ∷ last.now ∷ [])) }
{
    match first {
        "run" => Ok(Query::Run(Running {
            steps: number_to(alloc, word, MOST_STEPS)?,
            choices: choices(last)?,
        })),
        "typestate" => Ok(Query::Typestate(Tracking {
            protocol: word,
            budget: number_to(alloc, last, u32::MAX)?,
        })),
        _ => Err(NotRead::Refused),
    }
}

// METHOD INDEX LOCAL BUDGET, behind an entry: `points-to` or `explain`.
fn place_query<'a>(first: &str, asked: Asked<'a>) -> Result<Query<'a>, NotRead>
    ensures some { IfOk result (λ q. (entry : List ℕ) → IsQuestion (first.now ∷ entry ∷ place_words asked.entry []) entry (question_of q)) }
    ensures none { IfRefused result ((entry : List ℕ) → NoRequest (first.now ∷ entry ∷ place_words asked.entry [])) }
{
    match first {
        "points-to" => Ok(Query::PointsTo(asked)),
        "explain" => Ok(Query::Explain(asked)),
        _ => Err(NotRead::Refused),
    }
}

// METHOD INDEX LOCAL WORD BUDGET, behind an entry: `alias` with LOCAL for the word, `paths` with FIELDS, or `refined` with ROUNDS.
fn wider_query<'a>(
    alloc: Global,
    first: &str,
    asked: Asked<'a>,
    word: &'a str,
) -> Result<Query<'a>, NotRead>
    ensures some { IfOk result (λ q. (entry : List ℕ) → IsQuestion (first.now ∷ entry ∷ place_words asked.entry (word.now ∷ [])) entry (question_of q)) }
    ensures none { IfRefused result ((entry : List ℕ) → NoRequest (first.now ∷ entry ∷ place_words asked.entry (word.now ∷ []))) }
{
    match first {
        "alias" => Ok(Query::Alias {
            asked,
            second: word,
        }),
        "paths" => Ok(Query::Paths {
            asked,
            fields: path(alloc, word)?,
        }),
        "refined" => Ok(Query::Refined {
            asked,
            rounds: number_to(alloc, word, MOST_ROUNDS)?,
        }),
        _ => Err(NotRead::Refused),
    }
}

// BOXES without an entry: `demo`.
fn demo(alloc: Global, first: &str, word: &str) -> Result<Command<'static>, NotRead>
    ensures some { IfOk result (λ c. IsRequest (first.now ∷ word.now ∷ []) (request_of c)) }
    ensures none { IfRefused result (NoRequest (first.now ∷ word.now ∷ [])) }
{
    if first != "demo" {
        return Err(NotRead::Refused);
    }
    match number_to(alloc, word, MOST_BOXES)? {
        0 => Err(NotRead::Refused),
        boxes => Ok(Command {
            entry: DEMO,
            query: Query::Demo { boxes },
        }),
    }
}

// What a first word and those behind an entry ask, by how many these are.
fn query_of<'a>(alloc: Global, first: &str, words: &'a [String]) -> Result<Query<'a>, NotRead>
    requires { 0 < length words.now }
    ensures some { IfOk result (λ q. (entry : List ℕ) → IsQuestion (first.now ∷ entry ∷ map string_bytes words.now) entry (question_of q)) }
    ensures none { IfRefused result ((entry : List ℕ) → NoRequest (first.now ∷ entry ∷ map string_bytes words.now)) }
{
    match words {
        [budget] => budget_query(first, number_to(alloc, budget, u32::MAX)?),
        [word, last] => pair_query(alloc, first, word, last),
        [method, index, local, budget] => {
            place_query(first, asked(alloc, method, index, local, budget)?)
        }
        [method, index, local, word, budget] => {
            let asked = asked(alloc, method, index, local, budget)?;
            wider_query(alloc, first, asked, word)
        }
        _ => Err(NotRead::Refused),
    }
}

// The command with this first word, this second one, and these behind them.
fn read_command<'a>(
    alloc: Global,
    first: &str,
    entry: &'a str,
    words: &'a [String],
) -> Result<Command<'a>, NotRead>
    ensures some { IfOk result (λ c. IsRequest (first.now ∷ entry.now ∷ map string_bytes words.now) (request_of c)) }
    ensures none { IfRefused result (NoRequest (first.now ∷ entry.now ∷ map string_bytes words.now)) }
{
    if words.is_empty() {
        return demo(alloc, first, entry);
    }
    let query = query_of(alloc, first, words)?;
    Ok(Command { entry, query })
}

/// The command that the words are, if they are one:
/// - `points-to ENTRY METHOD INDEX LOCAL BUDGET` and `explain ENTRY METHOD INDEX LOCAL BUDGET`;
/// - `alias ENTRY METHOD INDEX LOCAL LOCAL BUDGET`, `paths ENTRY METHOD INDEX LOCAL FIELDS BUDGET` and `refined ENTRY METHOD INDEX LOCAL ROUNDS BUDGET`;
/// - `run ENTRY STEPS CHOICES` and `typestate ENTRY PROTOCOL BUDGET`;
/// - `replay ENTRY BUDGET` and `batch ENTRY BUDGET`;
/// - `demo BOXES`, whose entry is its program's class `Demo`.
///
/// INDEX (from 0), BUDGET (of nodes), STEPS, ROUNDS and BOXES are decimal digits without a sign or a leading zero: INDEX and BUDGET at most 4,294,967,295,
/// STEPS at most 1,000,000, ROUNDS at most 8 and BOXES from 1 to 400. FIELDS is as for [`read_fields`](crate::read_fields). CHOICES is a dash for none, or 1 to 1,000 decimal
/// digits. The other words are any texts. An error is want of memory alone.
pub fn read_words(alloc: Global, words: &[String]) -> Result<Option<Command<'_>>, NoMemory>
    ensures some { IfOk result (λ found. IfSome found (λ c. IsRequest (map string_bytes words.now) (request_of c))) }
    ensures only { IfOk result (λ found. (r : Request) → IsRequest (map string_bytes words.now) r → IsSomeAnd found (λ c. request_of c ≡ r)) }
{
    let [first, second, rest @ ..] = words else {
        return Ok(None);
    };
    match read_command(alloc, first, second, rest) {
        Ok(command) => Ok(Some(command)),
        Err(NotRead::Refused) => Ok(None),
        Err(NotRead::NoMemory) => Err(AllocError),
    }
}
