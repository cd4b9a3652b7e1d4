//! The top call.
ghost use Rattle.std.specs.Prelude.{◌≡◌, ◌≢◌, ◌⊎◌, ◌+◌, ℕ, Err, List, Some, length, map, IfErr, IfOk, IfSome, string_bytes};
ghost use Rattle.std.specs.Io.KnownBytes.{Appends, IsAtEnd};
ghost use Rattle.boom_io.specs.Causes.{Rose};
ghost use Rattle.boom_io.specs.Whole.{AppendsProperPrefix};
ghost use Rattle.boom_words.specs.Commands.{question_of, request_of};
ghost use Rattle.boom_words.specs.Requests.{Request, Typestate, IsQuestion, IsRequest, IsWithinBounds, NoRequest, typestate};
ghost use Rattle.demo_text.specs.Demo.{demo_source};
ghost use Rattle.report_text.specs.Lines.{text_of};
ghost use Rattle.boom_top.specs.Demands.{IsAnswerable};
ghost use Rattle.boom_top.specs.Evidence.{HasEvidence};
ghost use Rattle.boom_top.specs.Parts.{IsGiven, Makes, Sends, status_of};
ghost use Rattle.boom_top.specs.Queries.{Accepted, AreAbout, IsDemo, ReadsNothing, TakesAtMost, limit, rest_in, source_of};
ghost use Rattle.boom_top.specs.Replies.{GivesUp, IsReply, IsReplyTo, IsSourceReply};
ghost use Rattle.boom_top.specs.Runs.{CoversAllRuns};
ghost use Rattle.boom_top.specs.Safety.{SaysSafe};
ghost use Rattle.track_rules.specs.Protocols.{IsProtocolOf, ProtocolParts};
ghost use Rattle.track_runs.specs.Monitor.{IsSafe};

use super::linked::text_reply;
use super::query::{NoReply, Reply, refused};
use super::reading::LIMIT;
use super::status::Status;
use boom_io::{ReadAll, Sink, Source, read_all, write_all};
use boom_words::{Command, Query, read_words};
use demo_text::demo_text;
use lists::NoMemory;
use query_core::Hands;
use spds_solve::Gate;
use std::alloc::Global;
use std::marker::Sync;
use std::thread::Threads;

// Writes a reply whole, and answers its status.
fn send<K: Sink>(sink: &mut K, made: Result<Reply, NoReply>) -> Status
    ensures sent { IfOk made (λ reply. Sends reply.status reply.text.items (K.written sink.old) (K.written sink.new)
        (K.faults sink.old) (K.faults sink.new) result) }
    ensures unsent { IfErr made (λ none. (result ≡ status_of none) × (sink.new ≡ sink.old)) }
    ensures kept { result ≢ Status.WriteFault → K.faults sink.new ≡ K.faults sink.old }
{
    let reply = match made {
        Ok(reply) => reply,
        Err(NoReply::ReadFault) => return Status::ReadFault,
        Err(NoReply::NoMemory) => return Status::NoMemory,
    };
    match write_all(sink, &reply.text) {
        Ok(()) => reply.status,
        Err(_) => Status::WriteFault,
    }
}

// The reply to the demo, which is about its own text.
fn own_reply<R: Threads + Sync, G: Gate>(
    hands: &Hands<'_, R, G>,
    command: &Command<'_>,
    boxes: u32,
) -> Result<Reply, NoMemory>
    requires { IsWithinBounds command.now.entry.now (question_of command.now.query) }
    ensures { IfOk result (Makes (IsSourceReply (request_of command.now) (demo_source boxes))) }
{
    let text = demo_text(hands.alloc, boxes)?;
    text_reply(hands, command, text.as_bytes())
}

// The reply to a command about what the source has left.
fn read_reply<R: Threads + Sync, S: Source, G: Gate>(
    hands: &Hands<'_, R, G>,
    command: &Command<'_>,
    source: &mut S,
) -> Result<Reply, NoReply>
    requires { IsWithinBounds command.now.entry.now (question_of command.now.query) }
    ensures reply { IfSome (S.left source.old) (λ bytes. IfOk result (Makes (IsSourceReply (request_of command.now) bytes))) }
    ensures given { IfOk result (λ reply. IsGiven reply.status) }
    ensures whole { IfOk result (λ reply. reply.status ≡ Status.Done → IsAtEnd (S.left source.new)) }
    ensures taken { TakesAtMost (limit + 1) (S.left source.old) (S.left source.new) }
    ensures fault { result ≡ Err NoReply.ReadFault → Rose (S.faults source.old) (S.faults source.new) }
    ensures told { result ≢ Err NoReply.ReadFault → S.faults source.new ≡ S.faults source.old }
{
    match read_all(hands.alloc, source, LIMIT) {
        Ok(bytes) => Ok(text_reply(hands, command, &bytes)?),
        Err(ReadAll::ReadFault) => Err(NoReply::ReadFault),
        Err(ReadAll::TooLong) => Ok(refused(hands.alloc, Status::TooLong)?),
        Err(ReadAll::NoMemory) => Err(NoReply::NoMemory),
    }
}

// The reply to a command. The demo reads nothing.
fn command_reply<R: Threads + Sync, S: Source, G: Gate>(
    hands: &Hands<'_, R, G>,
    command: &Command<'_>,
    source: &mut S,
) -> Result<Reply, NoReply>
    requires { IsWithinBounds command.now.entry.now (question_of command.now.query) }
    ensures reply { (bytes : List ℕ) → (S.left source.old ≡ Some bytes) ⊎ IsDemo (question_of command.now.query)
        → IfOk result (Makes (IsReplyTo (request_of command.now) bytes)) }
    ensures given { IfOk result (λ reply. IsGiven reply.status) }
    ensures unread { IsDemo (question_of command.now.query) → source.new ≡ source.old }
    ensures whole { IfOk result (λ reply. reply.status ≡ Status.Done → IsDemo (question_of command.now.query) ⊎ IsAtEnd (S.left source.new)) }
    ensures taken { TakesAtMost (limit + 1) (S.left source.old) (S.left source.new) }
    ensures fault { result ≡ Err NoReply.ReadFault → Rose (S.faults source.old) (S.faults source.new) }
    ensures told { result ≢ Err NoReply.ReadFault → S.faults source.new ≡ S.faults source.old }
{
    match command.query {
        Query::Demo { boxes } => Ok(own_reply(hands, command, boxes)?),
        _ => read_reply(hands, command, source),
    }
}

// The reply to words.
fn words_reply<R: Threads + Sync, S: Source, G: Gate>(
    hands: &Hands<'_, R, G>,
    words: &[String],
    source: &mut S,
) -> Result<Reply, NoReply>
    ensures reply { (bytes : List ℕ) → AreAbout (map string_bytes words.now) (S.left source.old) bytes
        → IfOk result (Makes (IsReply (map string_bytes words.now) bytes)) }
    ensures usage { IfOk result (λ reply. reply.status ≡ Status.Usage → NoRequest (map string_bytes words.now)) }
    ensures no_words { NoRequest (map string_bytes words.now) → IfOk result (λ reply. reply.status ≡ Status.Usage) × (result ≢ Err NoReply.ReadFault) }
    ensures stands { IfOk result (λ reply. GivesUp reply.status → ⊥) }
    ensures unread { ReadsNothing (map string_bytes words.now) → source.new ≡ source.old }
    ensures whole { IfOk result (λ reply. reply.status ≡ Status.Done → ReadsNothing (map string_bytes words.now) ⊎ IsAtEnd (S.left source.new)) }
    ensures taken { TakesAtMost (limit + 1) (S.left source.old) (S.left source.new) }
    ensures fault { result ≡ Err NoReply.ReadFault → Rose (S.faults source.old) (S.faults source.new) }
    ensures told { result ≢ Err NoReply.ReadFault → S.faults source.new ≡ S.faults source.old }
{
    match read_words(hands.alloc, words)? {
        Some(command) => command_reply(hands, &command, source),
        None => Ok(refused(hands.alloc, Status::Usage)?),
    }
}

/// Answers a command, over the program that the source has left where it is about one, and writes the reply to the sink.
///
/// `words` are the words of the command line behind the program's name. INDEX counts the statements of METHOD from 0.
///
/// - `points-to ENTRY METHOD INDEX LOCAL BUDGET`: which sites may be those of the object that LOCAL holds just before the statement?
/// - `explain ENTRY METHOD INDEX LOCAL BUDGET`: the same, and for each site a certificate that shows it, by a derivation in the system of fields than which
///   none is shorter.
/// - `alias ENTRY METHOD INDEX LOCAL LOCAL BUDGET`: which sites may be those of one object that both locals hold there?
/// - `paths ENTRY METHOD INDEX LOCAL FIELDS BUDGET`: which sites may be those of the object to which the fields lead, one after the other, from what LOCAL
///   holds there? FIELDS is 1 to 4 parts with a comma between each two, `[]` for the elements of an array or `CLASS:NAME` for the first instance field
///   that the class itself declares under the name.
/// - `run ENTRY STEPS CHOICES`: how does the machine stand after so many steps of the run that the digits name?
/// - `replay ENTRY BUDGET`: does the certificate behind the program show that a local may hold an object of a site? The program is what stands before the
///   first line that is `%certificate`, and the certificate is what stands behind it; the length is that of the whole.
/// - `typestate ENTRY PROTOCOL BUDGET`: at which statements may an event come on an object in a state in which the protocol doesn't allow it?
/// - `batch ENTRY BUDGET`: what is answered to each query behind the program, as to a `points-to` command with this budget? The program is what stands
///   before the first line that is `%queries`, and each line behind it is a query, `INDEX LOCAL METHOD`, at most 1,000. The length is that of the whole.
/// - `refined ENTRY METHOD INDEX LOCAL ROUNDS BUDGET`: which sites may be those of the object that LOCAL holds there, where each call on an object keeps
///   only the targets to which the answer of its receiver leads? This is done ROUNDS times, each over the program that the one before it left, and each
///   query may demand BUDGET nodes; a call whose receiver's query demands more keeps its targets. The place is one of the program that was read.
/// - `demo BOXES`: how large is a program of so many boxes, and what does a query of it demand? It reads nothing; its own text stands in the place of
///   the bytes.
///
/// The program is linked, with the stand-ins for Java's own classes that are built in, from the `main` of the class ENTRY on. The checks come in this
/// order: words, length, tokens, grammar, stand-ins, linking, place, protocol, certificate or batch, budget, lines of the certificate. The first that fails is
/// the status, and its line is the reply; else the status is `Done`. The reply is made whole before it is written.
///
/// The queries of a batch are asked in pieces, each query within one; for other commands the tables of more than 16 sites are settled in pieces side by side, by the threads, and the gate is told of each piece as it begins. No clause speaks
/// of either: the reply is that of one thread, whatever the gate does.
///
/// The clauses on replies speak of a source that tells the bytes it has left, and of any source where nothing is read.
pub fn boomer<R: Threads + Sync, S: Source, K: Sink, G: Gate>(
    threads: &R,
    alloc: Global,
    words: &[String],
    source: &mut S,
    sink: &mut K,
    gate: &G,
) -> Status
    // The status and the text are those of the definition; only a fault or want of memory is no reply.
    ensures reply { (bytes : List ℕ) → AreAbout (map string_bytes words.now) (S.left source.old) bytes → GivesUp result
        ⊎ ((lines : List (List ℕ)) × IsReply (map string_bytes words.now) bytes result lines × Appends (K.written sink.old) (K.written sink.new) (text_of lines)) }
    // Each status comes exactly where it is the reply's, but for a fault or want of memory.
    ensures exact { (bytes : List ℕ) → AreAbout (map string_bytes words.now) (S.left source.old) bytes
        → (status : Status) (lines : List (List ℕ)) → IsReply (map string_bytes words.now) bytes status lines → (result ≡ status) ⊎ GivesUp result }

    // The headline: whatever a local holds in any frame that stands at the place, at the end of any run of the machine, of any length, its site is
    // printed, for each query of a batch in its own answer; and two locals of a frame that hold one object are printed as aliases.
    ensures sound { (bytes : List ℕ) → AreAbout (map string_bytes words.now) (S.left source.old) bytes → result ≡ Status.Done
        → (r : Request) → IsRequest (map string_bytes words.now) r
        → (a : Accepted r bytes) → CoversAllRuns a.linked (rest_in r.question (source_of r.question bytes)) r.question (K.written sink.old) (K.written sink.new) }
    // Its third part: where the sink tells that the answer to a `typestate` command ends with `verdict safe` and the size of the demand, no run of the
    // machine, of any length, breaks the protocol: no event comes on an object in a state in which no row allows it.
    ensures safe { (bytes : List ℕ) → S.left source.old ≡ Some bytes → result ≡ Status.Done
        → (entry : List ℕ) (asked : Typestate) → IsQuestion (map string_bytes words.now) entry (typestate asked)
        → (a : Accepted (record { entry = entry; question = typestate asked }) bytes) (k : ProtocolParts) → IsProtocolOf a.linked asked.protocol k
        → SaysSafe (K.written sink.old) (K.written sink.new) → IsSafe a.linked k }
    // The evidence: each site that an answer prints is in both systems at the node, and some list of lines is certified for it; an explanation prints one for
    // each, without a line twice or one that its claim doesn't need, and by a shortest derivation; a replay prints the site for which the lines that it was
    // given are; and each site that two locals are said to share is in both systems at both nodes, under one call string. Of the sites at the end of a path
    // none is claimed.
    ensures evident { (bytes : List ℕ) → AreAbout (map string_bytes words.now) (S.left source.old) bytes → result ≡ Status.Done
        → (r : Request) → IsRequest (map string_bytes words.now) r → (a : Accepted r bytes)
        → HasEvidence a.linked (rest_in r.question (source_of r.question bytes)) r.question (K.written sink.old) (K.written sink.new) }
    // What is there, with a budget of at least its demand's size, is answered where no read and no write fails and memory is found.
    ensures complete { (bytes : List ℕ) → AreAbout (map string_bytes words.now) (S.left source.old) bytes → IsAnswerable (map string_bytes words.now) bytes
        → ¬ Rose (S.faults source.old) (S.faults source.new) → ¬ Rose (K.faults sink.old) (K.faults sink.new) → (result ≡ Status.Done) ⊎ (result ≡ Status.NoMemory) }

    // Words that are no command are refused as such whatever the source tells. They read nothing, and nor does the demo; an answer to other words rests
    // on all that was left.
    ensures usage { result ≡ Status.Usage → NoRequest (map string_bytes words.now) }
    ensures no_words { NoRequest (map string_bytes words.now) → (result ≡ Status.Usage) ⊎ (result ≡ Status.WriteFault) ⊎ (result ≡ Status.NoMemory) }
    ensures unread { ReadsNothing (map string_bytes words.now) → source.new ≡ source.old }
    ensures read_whole { result ≡ Status.Done → ReadsNothing (map string_bytes words.now) ⊎ IsAtEnd (S.left source.new) }
    // Whatever the status, and whether the source tells its bytes or not: one byte more than the limit is the most that is taken.
    ensures taken { TakesAtMost (limit + 1) (S.left source.old) (S.left source.new) }
    ensures read_fault { result ≡ Status.ReadFault → Rose (S.faults source.old) (S.faults source.new) × (sink.new ≡ sink.old) }
    ensures no_memory { result ≡ Status.NoMemory → sink.new ≡ sink.old }
    // A fault is told: with each other status no read, and no write, failed.
    ensures reads_told { result ≢ Status.ReadFault → S.faults source.new ≡ S.faults source.old }
    ensures writes_told { result ≢ Status.WriteFault → K.faults sink.new ≡ K.faults sink.old }
    ensures write_fault { result ≡ Status.WriteFault → Rose (K.faults sink.old) (K.faults sink.new) }
    ensures prefix { (bytes : List ℕ) → AreAbout (map string_bytes words.now) (S.left source.old) bytes → result ≡ Status.WriteFault
        → (status : Status) × (lines : List (List ℕ)) × IsReply (map string_bytes words.now) bytes status lines
        × AppendsProperPrefix (K.written sink.old) (K.written sink.new) (text_of lines) }
{
    let hands = Hands {
        threads,
        alloc,
        gate,
    };
    let made = words_reply(&hands, words, source);
    send(sink, made)
}
