//! The rules on the classes that a statement names.
ghost use Rattle.std.specs.Prelude.{◌≡◌, ◌<◌, ◌↔◌, ℕ, Some, IsTrue, length, nat_eq};
ghost use Rattle.std.specs.List.{starts_with};
ghost use Rattle.link_rules.specs.Classes.{IsNamed};
ghost use Rattle.link_rules.specs.Conditions.{AreWithin, field_sig_names};
ghost use Rattle.link_rules.specs.Faults.{IsBelowName, IsOfThreads, IsReflective, thread_name};
ghost use Rattle.link_rules.specs.Names.{text_of};
ghost use Rattle.link_classes.specs.Classes.{IsKnown};
ghost use Rattle.link_classes.specs.Seen.{seen_method};
ghost use Rattle.link_faults.specs.Parts.{seen_access};
ghost use Rattle.link_faults.specs.Sites.{FindsNo, IsNotConcrete, IsUndeclared};

use super::parts::Accessed;
use jim_ast::NameId;
use link_calls::find_field;
use link_classes::{Classes, MethodIn};

// The number of a class by its name.
pub(crate) fn class_number(classes: &Classes, method: &MethodIn, class: NameId) -> Option<u32>
    requires known { IsKnown classes.now.texts method.now }
    requires within { class.0 < length (seen_method method.now).names }
    ensures { (n : ℕ) → (result ≡ Some n) ↔ IsNamed classes.now.world.classes (text_of (seen_method method.now).names class) n }
{
    classes.number(method.ids[class.0 as usize])
}

// Whether no class has this name.
pub(crate) fn is_undeclared(classes: &Classes, method: &MethodIn, class: NameId) -> bool
    requires known { IsKnown classes.now.texts method.now }
    requires within { class.0 < length (seen_method method.now).names }
    ensures { IsTrue result ↔ IsUndeclared classes.now.world (seen_method method.now).names class }
{
    class_number(classes, method, class).is_none()
}

// The text of a name of the method.
fn text<'a>(classes: &Classes, method: &MethodIn<'a>, name: NameId) -> &'a str
    requires known { IsKnown classes.now.texts method.now }
    requires within { name.0 < length (seen_method method.now).names }
    ensures { result.now ≡ text_of (seen_method method.now).names name }
{
    method.all.text(method.ids[name.0 as usize])
}

// Whether the name begins so.
fn begins_with(name: &str, start: &str) -> bool
    ensures { result ≡ starts_with nat_eq name.now start.now }
{
    name.starts_with(start)
}

// Whether the name is that of a class of reflection.
fn is_reflective_name(name: &str) -> bool
    ensures { IsTrue result ↔ IsReflective name.now }
{
    name == "java.lang.Class"
        || begins_with(name, "java.lang.reflect.")
        || begins_with(name, "java.lang.invoke.")
}

// Whether the class is one of reflection.
pub(crate) fn is_reflective(classes: &Classes, method: &MethodIn, class: NameId) -> bool
    requires known { IsKnown classes.now.texts method.now }
    requires within { class.0 < length (seen_method method.now).names }
    ensures { IsTrue result ↔ IsReflective (text_of (seen_method method.now).names class) }
{
    is_reflective_name(text(classes, method, class))
}

// Whether the class is below that of threads.
fn is_below_thread(classes: &Classes, method: &MethodIn, class: NameId) -> bool
    requires known { IsKnown classes.now.texts method.now }
    requires within { class.0 < length (seen_method method.now).names }
    ensures { IsTrue result ↔ IsBelowName classes.now.world (text_of (seen_method method.now).names class) thread_name }
{
    let Some(lower) = class_number(classes, method, class) else {
        return false;
    };
    let Some(upper) = classes.find("java.lang.Thread") else {
        return false;
    };
    classes.tree().sub(lower, upper)
}

// Whether the class is one of threads.
pub(crate) fn is_of_threads(classes: &Classes, method: &MethodIn, class: NameId) -> bool
    requires known { IsKnown classes.now.texts method.now }
    requires within { class.0 < length (seen_method method.now).names }
    ensures { IsTrue result ↔ IsOfThreads classes.now.world (text_of (seen_method method.now).names class) }
{
    text(classes, method, class) == "java.lang.Thread" || is_below_thread(classes, method, class)
}

// Whether the class can't have objects.
pub(crate) fn is_not_concrete(classes: &Classes, method: &MethodIn, class: NameId) -> bool
    requires known { IsKnown classes.now.texts method.now }
    requires within { class.0 < length (seen_method method.now).names }
    ensures { IsTrue result ↔ IsNotConcrete classes.now.world (text_of (seen_method method.now).names class) }
{
    let Some(number) = class_number(classes, method, class) else {
        return false;
    };
    let class = classes.class(number).class;
    class.interface || class.is_abstract
}

// Whether field look-up finds none.
pub(crate) fn finds_no_field(classes: &Classes, method: &MethodIn, access: Accessed) -> bool
    requires known { IsKnown classes.now.texts method.now }
    requires within { AreWithin (seen_method method.now).names (field_sig_names access.sig) }
    ensures { IsTrue result ↔ FindsNo classes.now.world (seen_method method.now).names (seen_access access) }
{
    let Some(class) = class_number(classes, method, access.sig.class) else {
        return false;
    };
    find_field(classes, method.ids, class, access.is_static, &access.sig).is_none()
}
