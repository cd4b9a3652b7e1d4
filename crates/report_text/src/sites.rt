//! The texts of allocation sites.
ghost use Rattle.std.specs.Prelude.{◌≡◌, ◌++◌, ◌<◌, Some, IfOk, OnOk, slice_get, string_bytes};
ghost use Rattle.link_rules.specs.Flow.{MayRaise};
ghost use Rattle.link_rules.specs.Targets.{exception_names};
ghost use Rattle.link_rules.specs.Names.{brackets};
ghost use Rattle.link_rules.specs.Accessed.{At, MakesArray};
ghost use Rattle.link_sites.specs.Sites.{IsSite, IsUnraised};
ghost use Rattle.report_text.specs.Texts.{AddsText, IsArrayText, IsMadeAt, IsNewText, IsRaisedText, IsSiteText, MakesLevel, constant_text};

use super::places::push_place_text;
use link_program::Linked;
use link_rules::Code;
use link_sites::{Place, Site};
use lists::NoMemory;
use std::alloc::Global;

// The name of the class of the exceptions of a kind.
fn exception_name(kind: u8) -> &'static str
    requires { kind < 6 }
    ensures { slice_get exception_names kind ≡ Some result.now }
{
    match kind {
        0 => "java.lang.NullPointerException",
        1 => "java.lang.ArrayIndexOutOfBoundsException",
        2 => "java.lang.ArrayStoreException",
        3 => "java.lang.NegativeArraySizeException",
        4 => "java.lang.ClassCastException",
        _ => "java.lang.ArithmeticException",
    }
}

// Adds so many pairs of brackets.
fn push_brackets(text: &mut String, pairs: u8) -> Result<(), NoMemory>
    ensures { OnOk result (string_bytes text.new ≡ string_bytes text.old ++ brackets pairs) }
{
    for _ in 0..pairs {
        text.push_str("[]")?;
    }
    Ok(())
}

// Adds the type of the arrays that a statement makes, with so many pairs of brackets behind that of their elements.
fn push_array(text: &mut String, linked: &Linked, place: Place, pairs: u8) -> Result<(), NoMemory>
    requires { MakesArray linked.now place.method place.index }
    ensures { OnOk result (AddsText (λ added. At linked.now.methods place.method (λ m. IsArrayText m place.index pairs added)) (string_bytes text.old) (string_bytes text.new)) }
{
    text.push_str(linked.element_text(place.method, place.index))?;
    push_brackets(text, pairs)
}

// Adds the name of the class of which a statement makes an object, or the type of the arrays of a level that it makes.
fn push_made(text: &mut String, linked: &Linked, place: Place, level: u8) -> Result<(), NoMemory>
    requires { IsUnraised linked.now place (MakesLevel level) }
    ensures { OnOk result (AddsText (IsMadeAt linked.now place level) (string_bytes text.old) (string_bytes text.new)) }
{
    linked.tell_form();
    match linked.code(place.method)[place.index as usize] {
        Code::New { class, .. } => text.push_str(linked.class_name(class)),
        Code::NewArray { .. } => push_array(text, linked, place, 1),
        Code::NewMulti { levels, .. } => push_array(text, linked, place, levels - level),
        _ => unreachable!(),
    }
}

// Adds the text of the objects, or the arrays of a level, that a statement makes.
fn push_new(text: &mut String, linked: &Linked, place: Place, level: u8) -> Result<(), NoMemory>
    requires { IsUnraised linked.now place (MakesLevel level) }
    ensures { OnOk result (AddsText (IsNewText linked.now place level) (string_bytes text.old) (string_bytes text.new)) }
{
    push_place_text(text, linked, place)?;
    text.push_str(" new ")?;
    push_made(text, linked, place, level)
}

// Adds the text of the exceptions of a kind that a statement raises.
fn push_raised(text: &mut String, linked: &Linked, place: Place, kind: u8) -> Result<(), NoMemory>
    requires { IsUnraised linked.now place (λ code. MayRaise code kind) }
    ensures { OnOk result (AddsText (IsRaisedText linked.now place kind) (string_bytes text.old) (string_bytes text.new)) }
{
    push_place_text(text, linked, place)?;
    text.push_str(" raise ")?;
    text.push_str(exception_name(kind))
}

// Adds the text of a constant: what it is, and its spelling in quotes.
fn push_constant(text: &mut String, word: &str, spelling: &str) -> Result<(), NoMemory>
    ensures { OnOk result (AddsText (λ added. added ≡ constant_text word.now spelling.now) (string_bytes text.old) (string_bytes text.new)) }
{
    text.push_str(word)?;
    text.push_str(" \"")?;
    text.push_str(spelling)?;
    text.push_str("\"")
}

/// Adds the text of a site of the program: `PLACE new CLASS` for what a statement makes, the class of an array being the type of its elements and a pair
/// of brackets, and for arrays of arrays one for each level from that of the site on;
/// `PLACE raise CLASS` for the implicit exceptions of one kind that a statement raises; `text "SPELLING"` and `class "SPELLING"` for constants.
pub fn push_site_text(text: &mut String, linked: &Linked, site: Site) -> Result<(), NoMemory>
    requires { IsSite linked.now site }
    ensures { OnOk result (AddsText (IsSiteText linked.now site) (string_bytes text.old) (string_bytes text.new)) }
{
    linked.tell_form();
    match site {
        Site::New(place) => push_new(text, linked, place, 0),
        Site::Nested(place, level) => push_new(text, linked, place, level),
        Site::Raised(place, kind) => push_raised(text, linked, place, kind),
        Site::Text(number) => {
            push_constant(text, "text", linked.texts()[number as usize].as_str())
        }
        Site::Class(number) => {
            push_constant(
                text,
                "class",
                linked.class_texts()[number as usize].as_str(),
            )
        }
    }
}

/// The text of a site of the program, as bytes.
pub fn site_text(alloc: Global, linked: &Linked, site: Site) -> Result<Vec<u8>, NoMemory>
    requires { IsSite linked.now site }
    ensures { IfOk result (λ text. IsSiteText linked.now site text.items) }
{
    let mut text = String::new(alloc);
    push_site_text(&mut text, linked, site)?;
    Ok(text.into_bytes())
}
