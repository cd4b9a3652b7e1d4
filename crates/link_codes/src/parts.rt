//! The numbers of what a statement names.
ghost use Rattle.std.specs.Prelude.{◌≡◌, ◌<◌, ℕ, Some, false, true, length, slice_get};
ghost use Rattle.link_rules.specs.Bodies.{IsLabel};
ghost use Rattle.link_rules.specs.Classes.{IsNamed, fields_of};
ghost use Rattle.link_rules.specs.Codes.{FindsField, IsField, IsStatic};
ghost use Rattle.link_rules.specs.Names.{text_of};
ghost use Rattle.link_codes.specs.Contexts.{context_of, scope_with};
ghost use Rattle.link_codes.specs.declared.constants.Constants.{Constants as AConstants};
ghost use Rattle.link_codes.specs.Needs.{HasClass, HasField, HasJump, HasLocal, HasText};

use super::scope::MethodScope;
use jim_ast::{FieldSig, NameId};
use link_calls::find_field;

impl<'a> MethodScope<'a> {
    // The number of a local.
    pub(crate) fn local(&self, name: NameId) -> u32
        requires { HasLocal (context_of self.now) name }
        ensures { slice_get (context_of self.now).body.locals result ≡ Some name }
    {
        self.body.local(name).unwrap()
    }

    // The index of the statement that a label stands before.
    pub(crate) fn jump(&self, label: NameId) -> u32
        requires { HasJump (context_of self.now) label }
        ensures { IsLabel (context_of self.now).body.labels label result }
    {
        self.body.label(label).unwrap()
    }

    // A name by its number among all names.
    fn name(&self, name: NameId) -> NameId
        requires { HasText (context_of self.now) name }
        ensures within { result.0 < length self.now.classes.now.texts }
        ensures text { text_of self.now.classes.now.texts result ≡ text_of (context_of self.now).names name }
    {
        self.ids[name.0 as usize]
    }

    // The text of a name.
    pub(crate) fn text(&self, name: NameId) -> &str
        requires { HasText (context_of self.now) name }
        ensures { result.now ≡ text_of (context_of self.now).names name }
    {
        self.classes.names().text(self.name(name))
    }

    // The number of a class.
    pub(crate) fn class(&self, name: NameId) -> u32
        requires { HasClass (context_of self.now) name }
        ensures { IsNamed (context_of self.now).world.classes (text_of (context_of self.now).names name) result }
    {
        self.classes.number(self.name(name)).unwrap()
    }

    // The row of a field.
    fn field_row(&self, is_static: bool, sig: &FieldSig) -> u32
        requires { HasField (context_of self.now) is_static sig.now }
        ensures finds { (k : AConstants) → FindsField (scope_with (context_of self.now) k) is_static sig.now result }
        ensures within { result < length (fields_of (context_of self.now).world.classes) }
    {
        let class = self.class(sig.class);
        find_field(self.classes, self.ids, class, is_static, sig).unwrap()
    }

    // The number of an instance field.
    pub(crate) fn instance_field(&self, sig: &FieldSig) -> u32
        requires { HasField (context_of self.now) false sig.now }
        ensures { (k : AConstants) → IsField (scope_with (context_of self.now) k) sig.now result }
    {
        self.fields.instance_field(self.field_row(false, sig))
    }

    // The number of a static field.
    pub(crate) fn static_field(&self, sig: &FieldSig) -> u32
        requires { HasField (context_of self.now) true sig.now }
        ensures { (k : AConstants) → IsStatic (scope_with (context_of self.now) k) sig.now result }
    {
        self.fields.static_field(self.field_row(true, sig))
    }
}
