//! Texts of a method: its own, and those of its names.
ghost use Rattle.std.specs.Prelude.{◌≡◌, ◌<◌, ◌++◌, All, IfOk, OnOk, flat_map, length, string_bytes};
ghost use Rattle.jim_ast.specs.declared.names.NameId.{NameId as ANameId};
ghost use Rattle.link_classes.specs.Classes.{IsKnown};
ghost use Rattle.link_classes.specs.Seen.{seen_method};
ghost use Rattle.link_rules.specs.Classes.{method_text};
ghost use Rattle.link_rules.specs.Conditions.{AreWithin, type_names};
ghost use Rattle.link_rules.specs.Names.{text_of, type_text, types_text};
ghost use Rattle.jim_link.specs.Texts.{own_names, separator};

use jim_ast::{List, Name, NameId, Names, Ty};
use link_classes::MethodIn;
use link_codes::push_type;
use lists::NoMemory;
use std::alloc::Global;

/// A copy of a text.
pub fn owned(alloc: Global, text: &str) -> Result<Name, NoMemory>
    ensures { IfOk result (λ name. name ≡ text.now) }
{
    let copy = String::from_str(alloc, text)?;
    Ok(Name::from_string(copy))
}

/// Copies of all texts of a set, in order.
pub fn owned_all(alloc: Global, names: &Names) -> Result<List<Name>, NoMemory>
    ensures { IfOk result (λ copies. copies ≡ names.now) }
{
    let mut copies = Vec::new(alloc);
    for at in 0..names.len() {
        copies.push(owned(alloc, names.text(NameId(at)))?)?;
    }
    Ok(List::from_vec(copies))
}

/// The text of a name of the method's program.
pub fn name_text<'a>(method: &MethodIn<'a>, name: NameId) -> &'a str
    requires numbers { All (λ (id : ANameId). id.0 < length method.now.all.now) method.now.ids.now }
    requires within { name.0 < length method.now.ids.now }
    ensures { result.now ≡ text_of (own_names method.now) name }
{
    method.all.text(method.ids[name.0 as usize])
}

// Adds a comma, unless the type is the first.
fn push_separator(text: &mut String, at: usize) -> Result<(), NoMemory>
    ensures { OnOk result (string_bytes text.new ≡ string_bytes text.old ++ separator at) }
{
    if at > 0 {
        text.push_str(",")?;
    }
    Ok(())
}

// Adds the texts of types, with commas between them.
fn push_types(text: &mut String, method: &MethodIn, types: &[Ty]) -> Result<(), NoMemory>
    requires numbers { All (λ (id : ANameId). id.0 < length method.now.all.now) method.now.ids.now }
    requires within { AreWithin (own_names method.now) (flat_map type_names types.now) }
    ensures { OnOk result (string_bytes text.new ≡ string_bytes text.old ++ types_text (own_names method.now) types.now) }
{
    for (at, ty) in types.iter().enumerate() {
        push_separator(text, at)?;
        push_type(text, method.all, method.ids, *ty)?;
    }
    Ok(())
}

/// `<C: R m(P1,P2)>`, with names unquoted.
pub fn method_text(alloc: Global, method: &MethodIn) -> Result<Name, NoMemory>
    requires { IsKnown method.now.all.now method.now }
    ensures { IfOk result (λ text. text ≡ method_text (seen_method method.now)) }
{
    let mut text = String::new(alloc);
    text.push_str("<")?;
    text.push_str(method.owner)?;
    text.push_str(": ")?;
    push_type(&mut text, method.all, method.ids, method.decl.result)?;
    text.push_str(" ")?;
    text.push_str(name_text(method, method.decl.name))?;
    text.push_str("(")?;
    push_types(&mut text, method, method.decl.params.as_slice())?;
    text.push_str(")>")?;
    Ok(Name::from_string(text))
}
