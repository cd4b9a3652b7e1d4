//! The sites of a program: the classes of their objects, and the fields that these have.
ghost use Rattle.std.specs.Prelude.{◌≡◌, ℕ, ◌<◌, ◌↔◌, IfNone, IfSome, IsSome, IsTrue, Some, List, codes, false, length, map, slice_get};
ghost use Rattle.lists.specs.Lists.{Has};
ghost use Rattle.link_rules.specs.Flow.{MayRaise};
ghost use Rattle.link_rules.specs.Targets.{exception_names, nine_names};
ghost use Rattle.link_rules.specs.declared.code.Code.{Code as Statement};
ghost use Rattle.link_sites.specs.declared.site.Site.TheVariants.{Nested, New, Raised};
ghost use Rattle.link_sites.specs.Places.{CodeAt};
ghost use Rattle.link_sites.specs.Sites.{HasDeclared, HasField, IsArraySite, IsClassOfMade, IsClassOfRaised, IsNamedClass, IsSite, IsSiteClass, IsUnraised, Makes};

use super::codes::{has_level, makes_arrays, may_raise};
use super::places::code_at;
use link_program::Linked;
use link_rules::Code;
use link_sites::{Place, Site};

// The class with one of the names that each program has.
fn class_named(linked: &Linked, name: &str) -> Option<u32>
    requires { Has nine_names name.now }
    ensures is { (class : ℕ) → (result ≡ Some class) ↔ IsNamedClass linked.now name.now class }
    ensures some { IsSome result }
{
    linked.tell_form();
    linked.class_number(name)
}

// The name of the class of the exceptions of a kind.
fn exception_name(kind: u8) -> &'static str
    requires { kind < 6 }
    ensures { slice_get exception_names kind ≡ Some result.now }
{
    match kind {
        0 => "java.lang.NullPointerException",
        1 => "java.lang.ArrayIndexOutOfBoundsException",
        2 => "java.lang.ArrayStoreException",
        3 => "java.lang.NegativeArraySizeException",
        4 => "java.lang.ClassCastException",
        _ => "java.lang.ArithmeticException",
    }
}

// The statement at a place, where no exception is in flight.
fn unraised_code(linked: &Linked, place: Place) -> Option<&Code>
    ensures some { IfSome result (λ code. (place.raised ≡ false) × CodeAt linked.now place.method place.index code.now) }
    ensures none { IfNone result ((code : Statement) → place.raised ≡ false → CodeAt linked.now place.method place.index code → ⊥) }
{
    if place.raised {
        return None;
    }
    code_at(linked, place.method, place.index)
}

// The class of what a statement makes.
fn class_of_made(linked: &Linked, code: &Code) -> Option<u32>
    ensures is { (class : ℕ) → (result ≡ Some class) ↔ IsClassOfMade linked.now code.now class }
    ensures none { IfNone result (Makes code.now → ⊥) }
{
    match code {
        Code::New { class, .. } => Some(*class),
        Code::NewArray { .. } | Code::NewMulti { .. } => class_named(linked, "java.lang.Object"),
        _ => None,
    }
}

// The class of what the statement at a place makes.
fn made_class(linked: &Linked, place: Place) -> Option<u32>
    ensures is { (class : ℕ) → (result ≡ Some class) ↔ IsSiteClass linked.now (New place) class }
    ensures none { IfNone result (IsSite linked.now (New place) → ⊥) }
{
    match unraised_code(linked, place) {
        Some(code) => class_of_made(linked, code),
        None => None,
    }
}

// The class of the arrays of an inner level of those that the statement at a place makes.
fn nested_class(linked: &Linked, place: Place, level: u8) -> Option<u32>
    ensures is { (class : ℕ) → (result ≡ Some class) ↔ IsSiteClass linked.now (Nested place level) class }
    ensures none { IfNone result (IsSite linked.now (Nested place level) → ⊥) }
{
    match unraised_code(linked, place) {
        Some(code) => {
            if has_level(code, level) {
                return class_named(linked, "java.lang.Object");
            }
            None
        }
        None => None,
    }
}

// The class of the exceptions of a kind that the statement at a place raises.
fn raised_class(linked: &Linked, place: Place, kind: u8) -> Option<u32>
    ensures is { (class : ℕ) → (result ≡ Some class) ↔ IsSiteClass linked.now (Raised place kind) class }
    ensures none { IfNone result (IsSite linked.now (Raised place kind) → ⊥) }
{
    match unraised_code(linked, place) {
        Some(code) => {
            if may_raise(code, kind) {
                return class_named(linked, exception_name(kind));
            }
            None
        }
        None => None,
    }
}

// The class with the name, where there are more constants than the number.
fn constant_class(linked: &Linked, number: u32, count: usize, name: &str) -> Option<u32>
    requires { Has nine_names name.now }
    ensures is { (class : ℕ) → (result ≡ Some class) ↔ ((number < count) × IsNamedClass linked.now name.now class) }
    ensures none { IfNone result (number < count → ⊥) }
{
    if (number as usize) < count {
        return class_named(linked, name);
    }
    None
}

/// The class of the objects of a site, which is `java.lang.Object` for arrays. `None` exactly where the program has no such site. Takes no memory.
pub fn site_class(linked: &Linked, site: Site) -> Option<u32>
    ensures is { (class : ℕ) → (result ≡ Some class) ↔ IsSiteClass linked.now site class }
    ensures none { IfNone result (IsSite linked.now site → ⊥) }
{
    match site {
        Site::New(place) => made_class(linked, place),
        Site::Nested(place, level) => nested_class(linked, place, level),
        Site::Raised(place, kind) => raised_class(linked, place, kind),
        Site::Text(number) => {
            constant_class(linked, number, linked.texts().len(), "java.lang.String")
        }
        Site::Class(number) => {
            constant_class(
                linked,
                number,
                linked.class_texts().len(),
                "java.lang.Class",
            )
        }
    }
}

// Whether the objects of a site are arrays.
fn is_array_site(linked: &Linked, site: Site) -> bool
    ensures { IsTrue result ↔ IsArraySite linked.now site }
{
    match site {
        Site::New(place) => match unraised_code(linked, place) {
            Some(code) => makes_arrays(code),
            None => false,
        },
        Site::Nested(place, level) => match unraised_code(linked, place) {
            Some(code) => has_level(code, level),
            None => false,
        },
        _ => false,
    }
}

// Whether the objects of a class have the declared field.
fn has_declared(linked: &Linked, class: u32, field: u32) -> bool
    requires { class < length linked.now.classes }
    ensures { IsTrue result ↔ HasDeclared linked.now class field }
{
    linked.tell_form();
    match linked.field_class(field) {
        Some(declaring) => linked.tree().sub(class, declaring),
        None => false,
    }
}

// Whether the class of the objects of a site has the declared field.
fn class_has(linked: &Linked, site: Site, field: u32) -> bool
    ensures { IsTrue result ↔ ((class : ℕ) × IsSiteClass linked.now site class × HasDeclared linked.now class field) }
{
    linked.tell_form();
    match site_class(linked, site) {
        Some(class) => has_declared(linked, class, field),
        None => false,
    }
}

/// Whether the objects of a site have the field: one that their class or a class above it declares, or, where they are arrays, the elements, which the
/// number 0 stands for. Takes no memory.
pub fn has_field(linked: &Linked, site: Site, field: u32) -> bool
    ensures { IsTrue result ↔ HasField linked.now site field }
{
    (field == 0 && is_array_site(linked, site)) || class_has(linked, site, field)
}
