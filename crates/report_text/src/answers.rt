//! The texts of answers.
ghost use Rattle.std.specs.Prelude.{◌≡◌, ◌++◌, ◌∷◌, [], All, IfOk, OnOk, codes, length, string_bytes};
ghost use Rattle.std.specs.Fmt.{decimal};
ghost use Rattle.lists.specs.Lists.{Each};
ghost use Rattle.link_sites.specs.Sites.{IsSite};
ghost use Rattle.report_text.specs.Aliases.{IsAliasLine, IsAliasText, verdict_lines};
ghost use Rattle.report_text.specs.Answers.{IsAcceptedText, IsAnswerText, IsQueryLine, IsQueryNode, IsRefinedText, IsTargetText, IsVarName, IsWordedSite, count_lines, narrowed_line};
ghost use Rattle.report_text.specs.Lines.{AddsLine, AddsLines, text_of};
ghost use Rattle.report_text.specs.Texts.{AddsText};

use super::places::push_place_text;
use super::sites::push_site_text;
use link_program::Linked;
use link_sites::Site;
use lists::NoMemory;
use spds_rules::{Node, Var};
use std::alloc::Global;

// Adds the name of the local that a node names.
fn push_local_name(text: &mut String, linked: &Linked, node: Node) -> Result<(), NoMemory>
    requires { IsQueryNode linked.now node }
    ensures { OnOk result (AddsText (IsVarName linked.now node.place node.var) (string_bytes text.old) (string_bytes text.new)) }
{
    let method = node.place.method;
    match node.var {
        Var::Local(local) => text.push_str(linked.locals(method)[local as usize].as_str()),
        _ => unreachable!(),
    }
}

/// Adds the text of a node that names a local.
pub(crate) fn push_target(text: &mut String, linked: &Linked, target: Node) -> Result<(), NoMemory>
    requires { IsQueryNode linked.now target }
    ensures { OnOk result (AddsText (IsTargetText linked.now target) (string_bytes text.old) (string_bytes text.new)) }
{
    push_place_text(text, linked, target.place)?;
    text.push_str(" ")?;
    push_local_name(text, linked, target)
}

/// Adds the line that repeats a query of one local: a word, `PLACE LOCAL`, and a line feed.
pub fn push_query_line(
    text: &mut String,
    linked: &Linked,
    word: &str,
    target: Node,
) -> Result<(), NoMemory>
    requires { IsQueryNode linked.now target }
    ensures { OnOk result (AddsLine (IsQueryLine linked.now word.now target) (string_bytes text.old) (string_bytes text.new)) }
{
    write!(text, "{word} ")?;
    push_target(text, linked, target)?;
    text.push_str("\n")
}

// Adds the line that repeats a query of two locals: the text of the first, and the name of the second.
fn push_alias_line(
    text: &mut String,
    linked: &Linked,
    first: Node,
    second: Node,
) -> Result<(), NoMemory>
    requires first { IsQueryNode linked.now first }
    requires second { IsQueryNode linked.now second }
    ensures { OnOk result (AddsLine (IsAliasLine linked.now first second) (string_bytes text.old) (string_bytes text.new)) }
{
    text.push_str("alias ")?;
    push_target(text, linked, first)?;
    text.push_str(" ")?;
    push_local_name(text, linked, second)?;
    text.push_str("\n")
}

/// Adds the line of a site, behind a word and its space, with a line feed.
pub fn push_site_line(
    text: &mut String,
    linked: &Linked,
    word: &str,
    site: Site,
) -> Result<(), NoMemory>
    requires { IsSite linked.now site }
    ensures { OnOk result (AddsLine (IsWordedSite linked.now word.now site) (string_bytes text.old) (string_bytes text.new)) }
{
    text.push_str(word)?;
    push_site_text(text, linked, site)?;
    text.push_str("\n")
}

/// Adds the lines of sites, in order, each behind the same word and its space.
pub(crate) fn push_site_lines(
    text: &mut String,
    linked: &Linked,
    word: &str,
    sites: &[Site],
) -> Result<(), NoMemory>
    requires { All (IsSite linked.now) sites.now }
    ensures { OnOk result (AddsLines (Each (IsWordedSite linked.now word.now) sites.now) (string_bytes text.old) (string_bytes text.new)) }
{
    for site in sites {
        push_site_line(text, linked, word, *site)?;
    }
    Ok(())
}

/// Adds the two lines with the number of sites and with the size of the demand.
pub fn push_counts(text: &mut String, sites: usize, demanded: u32) -> Result<(), NoMemory>
    ensures { OnOk result (string_bytes text.new ≡ string_bytes text.old ++ text_of (count_lines sites demanded)) }
{
    write!(text, "sites {sites}\ndemanded {demanded}\n")
}

// Adds the two lines with the verdict over so many shared sites, and with the size of the demand.
fn push_verdict(text: &mut String, sites: usize, demanded: u32) -> Result<(), NoMemory>
    ensures { OnOk result (string_bytes text.new ≡ string_bytes text.old ++ text_of (verdict_lines sites demanded)) }
{
    match sites {
        0 => write!(text, "aliases no\ndemanded {demanded}\n"),
        _ => write!(text, "aliases yes\ndemanded {demanded}\n"),
    }
}

/// The reply that answers which sites a local may hold just before a statement: `points-to PLACE LOCAL`, `site S` for each site in the given order,
/// `sites` with their number and `demanded` with the given size of the demand. Each line ends with a line feed.
pub fn answer_text(
    alloc: Global,
    linked: &Linked,
    target: Node,
    sites: &[Site],
    demanded: u32,
) -> Result<Vec<u8>, NoMemory>
    requires target { IsQueryNode linked.now target }
    requires sites { All (IsSite linked.now) sites.now }
    ensures { IfOk result (λ text. IsAnswerText linked.now target sites.now demanded text.items) }
{
    let mut text = String::new(alloc);
    push_query_line(&mut text, linked, "points-to", target)?;
    push_site_lines(&mut text, linked, "site ", sites)?;
    push_counts(&mut text, sites.len(), demanded)?;
    Ok(text.into_bytes())
}

/// The reply that answers which sites two locals may both hold just before a statement: `alias PLACE LOCAL LOCAL`, the place being that of the first
/// local, `shared S` for each site in the given order, `aliases yes` where there is a site and else `aliases no`, and `demanded` with the given size of
/// the demand. Each line ends with a line feed.
pub fn alias_text(
    alloc: Global,
    linked: &Linked,
    first: Node,
    second: Node,
    sites: &[Site],
    demanded: u32,
) -> Result<Vec<u8>, NoMemory>
    requires first { IsQueryNode linked.now first }
    requires second { IsQueryNode linked.now second }
    requires sites { All (IsSite linked.now) sites.now }
    ensures { IfOk result (λ text. IsAliasText linked.now first second sites.now demanded text.items) }
{
    let mut text = String::new(alloc);
    push_alias_line(&mut text, linked, first, second)?;
    push_site_lines(&mut text, linked, "shared ", sites)?;
    push_verdict(&mut text, sites.len(), demanded)?;
    Ok(text.into_bytes())
}

// Adds the line with the size of a demand.
fn push_demanded(text: &mut String, demanded: u32) -> Result<(), NoMemory>
    ensures { OnOk result (string_bytes text.new ≡ string_bytes text.old ++ text_of ((codes "demanded " ++ decimal demanded) ∷ [])) }
{
    write!(text, "demanded {demanded}\n")
}

/// The reply that accepts a certificate: `accepted PLACE LOCAL` for its target, `site S` for the site that it claims, and `demanded` with the given size
/// of the demand. Each line ends with a line feed.
pub fn accepted_text(
    alloc: Global,
    linked: &Linked,
    target: Node,
    site: Site,
    demanded: u32,
) -> Result<Vec<u8>, NoMemory>
    requires target { IsQueryNode linked.now target }
    requires site { IsSite linked.now site }
    ensures { IfOk result (λ text. IsAcceptedText linked.now target site demanded text.items) }
{
    let mut text = String::new(alloc);
    push_query_line(&mut text, linked, "accepted", target)?;
    push_site_line(&mut text, linked, "site ", site)?;
    push_demanded(&mut text, demanded)?;
    Ok(text.into_bytes())
}

// Adds the line with the number of pairs of a call and a target that are gone.
fn push_narrowed(text: &mut String, narrowed: usize) -> Result<(), NoMemory>
    ensures { OnOk result (string_bytes text.new ≡ string_bytes text.old ++ text_of (narrowed_line narrowed ∷ [])) }
{
    write!(text, "narrowed {narrowed}\n")
}

/// The reply that answers which sites a local may hold just before a statement where calls are refined: `refined PLACE LOCAL`, `narrowed` with the given
/// number of pairs of a call and a target that are gone, `site S` for each site in the given order, `sites` with their number and `demanded` with the given
/// size of the demand. Each line ends with a line feed. The place and the sites are those of the first program.
pub fn refined_text(
    alloc: Global,
    linked: &Linked,
    target: Node,
    narrowed: usize,
    sites: &[Site],
    demanded: u32,
) -> Result<Vec<u8>, NoMemory>
    requires target { IsQueryNode linked.now target }
    requires sites { All (IsSite linked.now) sites.now }
    ensures { IfOk result (λ text. IsRefinedText linked.now target narrowed sites.now demanded text.items) }
{
    let mut reply = String::new(alloc);
    push_query_line(&mut reply, linked, "refined", target)?;
    push_narrowed(&mut reply, narrowed)?;
    push_site_lines(&mut reply, linked, "site ", sites)?;
    push_counts(&mut reply, sites.len(), demanded)?;
    Ok(reply.into_bytes())
}
