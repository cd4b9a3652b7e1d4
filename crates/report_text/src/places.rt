//! The texts of places.
ghost use Rattle.std.specs.Prelude.{IfOk, OnOk, string_bytes};
ghost use Rattle.link_sites.specs.Places.{IsPlace};
ghost use Rattle.report_text.specs.Texts.{AddsText, IsPlaceText};

use link_program::Linked;
use link_sites::Place;
use lists::NoMemory;
use std::alloc::Global;

/// Adds the text of a place of the program: the text of its method, which is `root` for the root, one space, and the index of the statement. Whether an
/// exception is in flight there isn't told.
pub fn push_place_text(text: &mut String, linked: &Linked, place: Place) -> Result<(), NoMemory>
    requires { IsPlace linked.now place }
    ensures { OnOk result (AddsText (IsPlaceText linked.now place) (string_bytes text.old) (string_bytes text.new)) }
{
    text.push_str(linked.method_text(place.method))?;
    let index = place.index;
    write!(text, " {index}")
}

/// The text of a place of the program, as bytes.
pub fn place_text(alloc: Global, linked: &Linked, place: Place) -> Result<Vec<u8>, NoMemory>
    requires { IsPlace linked.now place }
    ensures { IfOk result (λ text. IsPlaceText linked.now place text.items) }
{
    let mut text = String::new(alloc);
    push_place_text(&mut text, linked, place)?;
    Ok(text.into_bytes())
}
