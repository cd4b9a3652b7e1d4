//! The field that an access means.
ghost use Rattle.std.specs.Prelude.{◌<◌, ℕ, All, IfSome, length};
ghost use Rattle.class_rules.specs.Lookups.{FieldOf};
ghost use Rattle.jim_ast.specs.declared.names.NameId.{NameId as ANameId};
ghost use Rattle.link_rules.specs.Classes.{fields_of};
ghost use Rattle.link_rules.specs.Conditions.{AreWithin, field_sig_names};
ghost use Rattle.link_rules.specs.Keys.{IsFieldKeyNumber, accessed_key};
ghost use Rattle.link_classes.specs.Classes.{texts_at};

use jim_ast::{FieldSig, NameId};
use link_classes::Classes;

/// The row of the field that an access to a class means, by field look-up. `ids` numbers the names of the method's program.
pub fn find_field(
    classes: &Classes,
    ids: &[NameId],
    class: u32,
    is_static: bool,
    sig: &FieldSig,
) -> Option<u32>
    requires class { class < length classes.now.world.classes }
    requires numbers { All (λ (id : ANameId). id.0 < length classes.now.texts) ids.now }
    requires within { AreWithin (texts_at classes.now.texts ids.now) (field_sig_names sig.now) }
    ensures found { (key : ℕ) × IsFieldKeyNumber (fields_of classes.now.world.classes) (accessed_key (texts_at classes.now.texts ids.now) is_static sig.now) key
        × FieldOf classes.now.world.rows class key result }
    ensures within { IfSome result (λ row. row < length (fields_of classes.now.world.classes)) }
{
    let key = classes.accessed(ids, is_static, sig);
    classes.tree().field(class, key)
}
