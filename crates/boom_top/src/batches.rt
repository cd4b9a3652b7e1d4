//! The reply to a batch of queries.
ghost use Rattle.std.specs.Prelude.{◌≡◌, ◌≤◌, ◌++◌, ◌∷◌, IfOk, codes, length};
ghost use Rattle.std.specs.Fmt.{decimal};
ghost use Rattle.std.specs.List.{concat};
ghost use Rattle.link_rules.specs.WellLinked.{IsWellLinked};
ghost use Rattle.batch_lines.specs.Queries.{parts_of};
ghost use Rattle.report_text.specs.Answers.{IsAnswerText};
ghost use Rattle.report_text.specs.Lines.{text_of};
ghost use Rattle.boom_top.specs.Parts.{Makes};
ghost use Rattle.boom_top.specs.Batches.{AreAnsweredAll, IsBatchReply, asked_of};
ghost use Rattle.boom_top.specs.Places.{IsPlaceReply};

use super::places::answered;
use super::query::{Reply, not_answered, refused};
use super::status::Status;
use batch_join::{Ask, Pass, Text, Texts, ask_all};
use batch_lines::{BatchError, BatchQuery, read_queries};
use boom_words::Asked;
use link_program::Linked;
use lists::NoMemory;
use query_core::{Hands, points_to_here};
use spds_solve::Gate;
use std::alloc::{AllocError, Global};
use std::marker::{Model, Sync};
use std::thread::Threads;

/// The queries of a batch over a linked program, and how many nodes each may demand.
#[derive(Drop)]
struct Queries<'a> {
    linked: &'a Linked,
    queries: &'a [BatchQuery<'a>],
    budget: u32,
}

impl<'a> Model for Queries<'a> {
    ghost use Rattle.std.specs.Prelude.{map};
    ghost use Rattle.link_rules.specs.WellLinked.{IsWellLinked};
    ghost use Rattle.batch_lines.specs.Queries.{parts_of};
    ghost use Rattle.boom_top.specs.Batches.{Batch};

    ghost Value = { Batch };

    ghost view = { λ b. record { program = b.linked.now; queries = map parts_of b.queries.now; budget = b.budget } };

    ghost invariant = { λ b. IsWellLinked b.linked.now };
}

impl<'a> Ask for Queries<'a> {
    ghost use Rattle.std.specs.Prelude.{slice_get};
    ghost use Rattle.boom_top.specs.Batches.{TellsNumber, told_one};

    ghost tells = { λ b number text. TellsNumber b number text };

    fn ask(&self, alloc: Global, number: u32) -> Result<Text, NoMemory> {
        let Some(query) = self.queries.get(number as usize) else {
            return Ok(Text::from_vec(Vec::new(alloc)));
        };
        let reply = query_reply(alloc, self.linked, query, self.budget)?;
        Ok(Text::from_vec(reply.text))
    }

    ghost one = { λ b number text other. told_one b (slice_get b.queries number) text other };
}

/// Tells a gate of the pieces of a batch.
#[derive(Clone, Copy)]
struct ByGate<'a, G> {
    gate: &'a G,
}

impl<G: Gate> Pass for ByGate<'_, G> {
    fn pass(&self, piece: u32) {
        self.gate.pass(piece);
    }
}

// The reply to a query of a batch, as to a `points-to` command.
fn query_reply(
    alloc: Global,
    linked: &Linked,
    query: &BatchQuery<'_>,
    budget: u32,
) -> Result<Reply, NoMemory>
    requires { IsWellLinked linked.now }
    ensures { IfOk result (Makes (IsPlaceReply linked.now (asked_of budget (parts_of query.now)) (IsAnswerText linked.now))) }
{
    let asked = Asked {
        method: query.method,
        index: query.index,
        local: query.local,
        budget,
    };
    match points_to_here(
        alloc,
        linked,
        asked.method,
        asked.index,
        asked.local,
        asked.budget,
    ) {
        Ok(answer) => answered(alloc, &asked, linked, &answer),
        Err(error) => not_answered(alloc, error),
    }
}

// How many texts there are, and the texts, one behind the other.
fn joined(alloc: Global, texts: &Texts) -> Result<Vec<u8>, NoMemory>
    ensures { IfOk result (λ text. text.items ≡ (codes "batch " ++ decimal (length texts.now)) ++ 10 ∷ concat texts.now) }
{
    let count = texts.len();
    let head = format!(in alloc; "batch {count}\n")?;
    let mut text = head.into_bytes();
    for number in 0..count {
        text.extend_from_slice(texts.text(number))?;
    }
    Ok(text)
}

// The reply that answers each query of a batch.
fn answered_all<R: Threads + Sync, G: Gate>(
    hands: &Hands<'_, R, G>,
    batch: &Queries<'_>,
) -> Result<Reply, NoMemory>
    requires { length batch.now.queries ≤ 1000 }
    ensures done { IfOk result (λ reply. reply.status ≡ Status.Done) }
    ensures text { IfOk result (Makes (λ status. AreAnsweredAll batch.now.program batch.now.budget batch.now.queries)) }
{
    let pass = ByGate { gate: hands.gate };
    let count = batch.queries.len() as u32;
    let texts = ask_all(hands.threads, hands.alloc, batch, count, &pass)?;
    let text = joined(hands.alloc, &texts)?;
    let status = Status::Done;
    Ok(Reply { status, text })
}

/// The reply to the queries that a text spells, each a line: it has the answer to each, or the refusal, as a `points-to` command has it.
pub(crate) fn batch_reply<R: Threads + Sync, G: Gate>(
    hands: &Hands<'_, R, G>,
    budget: u32,
    text: &[u8],
    linked: &Linked,
) -> Result<Reply, NoMemory>
    requires { IsWellLinked linked.now }
    ensures { IfOk result (Makes (IsBatchReply linked.now budget text.now)) }
{
    let queries = match read_queries(hands.alloc, text) {
        Ok(queries) => queries,
        Err(BatchError::NotBatch { at }) => return refused(hands.alloc, Status::NotBatch { at }),
        Err(BatchError::NoMemory) => return Err(AllocError),
    };
    let batch = Queries {
        linked,
        queries: queries.as_slice(),
        budget,
    };
    answered_all(hands, &batch)
}
