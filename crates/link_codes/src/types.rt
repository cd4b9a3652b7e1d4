//! The texts of types.
ghost use Rattle.std.specs.Prelude.{◌≡◌, ◌<◌, ◌++◌, All, OnOk, length, string_bytes};
ghost use Rattle.jim_ast.specs.declared.names.NameId.{NameId as ANameId};
ghost use Rattle.link_classes.specs.Classes.{texts_at};
ghost use Rattle.link_rules.specs.Conditions.{AreWithin, base_names, type_names};
ghost use Rattle.link_rules.specs.Names.{base_text, type_text};

use jim_ast::{Base, NameId, Names, Ty};
use lists::NoMemory;

// Adds the text of a type without its brackets.
fn push_base(text: &mut String, names: &Names, ids: &[NameId], base: Base) -> Result<(), NoMemory>
    requires numbers { All (λ (id : ANameId). id.0 < length names.now) ids.now }
    requires within { AreWithin (texts_at names.now ids.now) (base_names base) }
    ensures { OnOk result (string_bytes text.new ≡ string_bytes text.old ++ base_text (texts_at names.now ids.now) base) }
{
    match base {
        Base::Void => text.push_str("void"),
        Base::Boolean => text.push_str("boolean"),
        Base::Byte => text.push_str("byte"),
        Base::Short => text.push_str("short"),
        Base::Char => text.push_str("char"),
        Base::Int => text.push_str("int"),
        Base::Long => text.push_str("long"),
        Base::Float => text.push_str("float"),
        Base::Double => text.push_str("double"),
        Base::Unknown => text.push_str("unknown"),
        Base::NullType => text.push_str("null_type"),
        Base::Class(name) => text.push_str(names.text(ids[name.0 as usize])),
    }
}

/// Adds the text of a type, with names unquoted. `ids` numbers the names of the type's program among all names. Nothing but memory can be wanting; where
/// it is, a part of the text may have been added.
pub fn push_type(text: &mut String, names: &Names, ids: &[NameId], ty: Ty) -> Result<(), NoMemory>
    requires numbers { All (λ (id : ANameId). id.0 < length names.now) ids.now }
    requires within { AreWithin (texts_at names.now ids.now) (type_names ty) }
    ensures { OnOk result (string_bytes text.new ≡ string_bytes text.old ++ type_text (texts_at names.now ids.now) ty) }
{
    push_base(text, names, ids, ty.base)?;
    for _ in 0..ty.dims {
        text.push_str("[]")?;
    }
    Ok(())
}
