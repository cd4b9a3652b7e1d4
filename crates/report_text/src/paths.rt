//! The text of an answer about a path of fields.
ghost use Rattle.std.specs.Prelude.{All, IfOk, OnOk, string_bytes};
ghost use Rattle.link_sites.specs.Sites.{IsSite};
ghost use Rattle.report_text.specs.Answers.{IsQueryNode};
ghost use Rattle.report_text.specs.Lines.{AddsLine};
ghost use Rattle.report_text.specs.Paths.{IsPathLine, IsPathText};

use super::answers::{push_counts, push_site_lines, push_target};
use link_program::Linked;
use link_sites::Site;
use lists::NoMemory;
use spds_rules::Node;
use std::alloc::Global;

// Adds the line that repeats a query of a path: the text of the node, and the word that spells the fields.
fn push_path_line(
    text: &mut String,
    linked: &Linked,
    target: Node,
    fields: &str,
) -> Result<(), NoMemory>
    requires { IsQueryNode linked.now target }
    ensures { OnOk result (AddsLine (IsPathLine linked.now target fields.now) (string_bytes text.old) (string_bytes text.new)) }
{
    text.push_str("paths ")?;
    push_target(text, linked, target)?;
    text.push_str(" ")?;
    text.push_str(fields)?;
    text.push_str("\n")
}

/// The reply that answers which sites are at the end of a path of fields: `paths PLACE LOCAL FIELDS`, FIELDS being the given word, `site S` for each site
/// in the given order, `sites` with their number and `demanded` with the given size of the demand. Each line ends with a line feed.
pub fn path_text(
    alloc: Global,
    linked: &Linked,
    target: Node,
    fields: &str,
    sites: &[Site],
    demanded: u32,
) -> Result<Vec<u8>, NoMemory>
    requires target { IsQueryNode linked.now target }
    requires sites { All (IsSite linked.now) sites.now }
    ensures { IfOk result (λ text. IsPathText linked.now target fields.now sites.now demanded text.items) }
{
    let mut text = String::new(alloc);
    push_path_line(&mut text, linked, target, fields)?;
    push_site_lines(&mut text, linked, "site ", sites)?;
    push_counts(&mut text, sites.len(), demanded)?;
    Ok(text.into_bytes())
}
