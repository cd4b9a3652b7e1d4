//! The reply about a run.
ghost use Rattle.std.specs.Prelude.{All, IfOk};
ghost use Rattle.std.specs.Char.{IsAsciiDigit};
ghost use Rattle.boom_words.specs.Commands.{run_of};
ghost use Rattle.boom_top.specs.Parts.{Makes};
ghost use Rattle.boom_top.specs.RunReport.{IsRunReply};

use super::query::Reply;
use super::status::Status;
use boom_words::Running;
use link_program::Linked;
use lists::NoMemory;
use run_report::run_text;
use std::alloc::Global;

/// The reply that tells how a run stands.
pub(crate) fn run_reply(
    alloc: Global,
    entry: &str,
    asked: &Running<'_>,
    linked: &Linked,
) -> Result<Reply, NoMemory>
    requires { All IsAsciiDigit asked.now.choices.now }
    ensures { IfOk result (Makes (IsRunReply linked.now entry.now (run_of asked.now))) }
{
    let text = run_text(alloc, linked, entry, asked.steps, asked.choices)?;
    let status = Status::Done;
    Ok(Reply { status, text })
}
