//! The texts of the places and the constants of a small program, and replies about its locals, by hand.
ghost use Rattle.std.specs.Prelude.{◌≡◌, ◌<◌, IfSome, IsTrue, false, length};
ghost use Rattle.link_sites.specs.Places.{IsPlace};
ghost use Rattle.link_sites.specs.Sites.{IsSite};
ghost use Rattle.report_text.specs.Answers.{IsQueryNode};

use link_program::Linked;
use link_sites::{Place, Site};
use linked_text::{Rows, first_wrong};
use lists::NoMemory;
use report_text::{alias_text, answer_text, place_text, site_text};
use spds_rules::{Node, Var};
use std::alloc::Global;
use std::test::Fail;

const PROGRAM: &str =
    r#"class A { } class Main { static void main(java.lang.String[]) { A x; int[][] y; java.lang.Object z;
x = new A; y = newarray (int[])[1]; z = "a b"; z = class "LA;"; return; } }"#;

const TEXTS: &str = "<Main: void main(java.lang.String[])> 0
<Main: void main(java.lang.String[])> 1
<Main: void main(java.lang.String[])> 2
<Main: void main(java.lang.String[])> 3
<Main: void main(java.lang.String[])> 4
root 0
root 1
root 2
root 3
root 4
text \"a b\"
class \"LA;\"
alias <Main: void main(java.lang.String[])> 4 x z
shared class \"LA;\"
shared text \"a b\"
aliases yes
demanded 7
alias <Main: void main(java.lang.String[])> 4 z x
aliases no
demanded 0
points-to <Main: void main(java.lang.String[])> 4 z
site class \"LA;\"
site text \"a b\"
sites 2
demanded 5
";

// Whether a statement stands at a place.
fn has_statement(linked: &Linked, place: Place) -> bool
    ensures { IsTrue result → place.raised ≡ false → IsPlace linked.now place }
{
    if place.method >= linked.methods() {
        return false;
    }
    let code = linked.code(place.method);
    if place.index as usize >= code.len() {
        return false;
    }
    true
}

// The node of a local just before a statement, where both are there.
fn local_at(linked: &Linked, method: u32, index: u32, local: u32) -> Option<Node>
    ensures { IfSome result (IsQueryNode linked.now) }
{
    let place = Place {
        method,
        index,
        raised: false,
    };
    if !has_statement(linked, place) {
        return None;
    }
    if local as usize >= linked.locals(method).len() {
        return None;
    }
    Some(Node {
        place,
        var: Var::Local(local),
    })
}

// Adds a line.
fn push_line(lines: &mut Vec<u8>, line: &[u8]) -> Result<(), NoMemory> {
    lines.extend_from_slice(line)?;
    lines.push(b'\n')?;
    Ok(())
}

// Adds the text of a place, where there is a statement.
fn push_statement(
    alloc: Global,
    lines: &mut Vec<u8>,
    linked: &Linked,
    method: u32,
    index: u32,
) -> Result<(), NoMemory> {
    let place = Place {
        method,
        index,
        raised: false,
    };
    if has_statement(linked, place) {
        let text = place_text(alloc, linked, place)?;
        push_line(lines, &text)?;
    }
    Ok(())
}

// Adds the reply about two locals that share both constants.
fn push_shared(
    alloc: Global,
    lines: &mut Vec<u8>,
    linked: &Linked,
    first: Node,
    second: Node,
) -> Result<(), NoMemory>
    requires first { IsQueryNode linked.now first }
    requires second { IsQueryNode linked.now second }
    requires texts { 0 < length linked.now.texts }
    requires classes { 0 < length linked.now.class_texts }
{
    let sites = [Site::Class(0), Site::Text(0)];
    let text = alias_text(alloc, linked, first, second, &sites, 7)?;
    lines.extend_from_slice(&text)
}

// Adds the reply about two locals that share nothing.
fn push_apart(
    alloc: Global,
    lines: &mut Vec<u8>,
    linked: &Linked,
    first: Node,
    second: Node,
) -> Result<(), NoMemory>
    requires first { IsQueryNode linked.now first }
    requires second { IsQueryNode linked.now second }
{
    let text = alias_text(alloc, linked, first, second, &[], 0)?;
    lines.extend_from_slice(&text)
}

// Adds the reply about a local that may hold both constants.
fn push_held(
    alloc: Global,
    lines: &mut Vec<u8>,
    linked: &Linked,
    local: Node,
) -> Result<(), NoMemory>
    requires local { IsQueryNode linked.now local }
    requires texts { 0 < length linked.now.texts }
    requires classes { 0 < length linked.now.class_texts }
{
    let sites = [Site::Class(0), Site::Text(0)];
    let text = answer_text(alloc, linked, local, &sites, 5)?;
    lines.extend_from_slice(&text)
}

// Adds replies about the first and the third local of the first method, where they are there, and constants too.
fn push_answers(alloc: Global, lines: &mut Vec<u8>, linked: &Linked) -> Result<(), NoMemory> {
    if linked.texts().is_empty() || linked.class_texts().is_empty() {
        return Ok(());
    }
    let Some(first) = local_at(linked, 0, 4, 0) else {
        return Ok(());
    };
    let Some(second) = local_at(linked, 0, 4, 2) else {
        return Ok(());
    };
    push_shared(alloc, lines, linked, first, second)?;
    push_apart(alloc, lines, linked, second, first)?;
    push_held(alloc, lines, linked, second)
}

// Adds the text of a constant.
fn push_constant(
    alloc: Global,
    lines: &mut Vec<u8>,
    linked: &Linked,
    constant: Site,
) -> Result<(), NoMemory>
    requires { IsSite linked.now constant }
{
    let text = site_text(alloc, linked, constant)?;
    push_line(lines, &text)
}

// Adds the texts of the first two methods and of the first constants, a line each, and replies.
fn push_texts(alloc: Global, lines: &mut Vec<u8>, linked: &Linked) -> Result<(), NoMemory> {
    for method in 0..2 {
        for index in 0..9 {
            push_statement(alloc, lines, linked, method, index)?;
        }
    }
    if !linked.texts().is_empty() {
        push_constant(alloc, lines, linked, Site::Text(0))?;
    }
    if !linked.class_texts().is_empty() {
        push_constant(alloc, lines, linked, Site::Class(0))?;
    }
    push_answers(alloc, lines, linked)
}

struct Texts;

impl Rows for Texts {
    fn is_right(&self, alloc: Global, linked: &Linked, _: &str) -> Result<bool, NoMemory> {
        let mut lines = Vec::new(alloc);
        push_texts(alloc, &mut lines, linked)?;
        Ok(lines.as_slice() == TEXTS.as_bytes())
    }
}

#[test]
fn tells_places_sites_and_answers(rt: HostRuntime) -> Result<(), Fail> {
    assert_eq!(rt;
        first_wrong(rt.alloc(), PROGRAM, &Texts, "all texts")?,
        None
    );
    Ok(())
}
