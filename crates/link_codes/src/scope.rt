//! What the code of a method is made over.
ghost use Rattle.std.specs.Prelude.{◌≡◌, ◌<◌, All, length};
ghost use Rattle.jim_ast.specs.declared.names.NameId.{NameId as ANameId};
ghost use Rattle.link_rules.specs.Classes.{fields_of};
ghost use Rattle.link_codes.specs.Fields.{field_numbers};

use super::fields::FieldNumbers;
use jim_ast::NameId;
use link_bodies::BodyIndex;
use link_classes::Classes;
use link_program::Numbering;

/// What the code of a method is made over: the classes with the numbers of their fields, the numbers of the methods, the numbers of the names of
/// the method's program among all names, and its body.
#[derive(Drop)]
pub(crate) struct MethodScope<'a> {
    pub(crate) classes: &'a Classes<'a>,
    pub(crate) fields: &'a FieldNumbers,
    pub(crate) numbering: &'a Numbering,
    pub(crate) ids: &'a [NameId],
    pub(crate) body: BodyIndex<'a>,
    ghost within: { All (λ (id : ANameId). id.0 < length classes.now.texts) ids.now },
    ghost numbered: { fields.now ≡ field_numbers (fields_of classes.now.world.classes) },
}
