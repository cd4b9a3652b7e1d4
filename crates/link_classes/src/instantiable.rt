//! Which classes may have objects.
ghost use Rattle.std.specs.Prelude.{◌<◌, ◌↔◌, ◌∷◌, ℕ, List, IsTrue, length};
ghost use Rattle.lists.specs.Lists.{Has};
ghost use Rattle.link_rules.specs.Targets.{IsInstantiable, exception_names, nine_names};
ghost use Rattle.link_classes.specs.Seen.{seen_class};

use super::seen::ClassIn;

// Whether the name is this one, or else one of those that were looked at before.
fn is_this_or(name: &str, this: &str, before: bool) -> bool
    ensures { (names : List (List ℕ)) → (IsTrue before ↔ Has names name.now) → IsTrue result ↔ Has (this.now ∷ names) name.now }
{
    name == this || before
}

// Whether statements raise exceptions of this name by themselves.
fn is_raised(name: &str) -> bool
    ensures { IsTrue result ↔ Has exception_names name.now }
{
    let is = is_this_or(name, "java.lang.ArithmeticException", false);
    let is = is_this_or(name, "java.lang.ClassCastException", is);
    let is = is_this_or(name, "java.lang.NegativeArraySizeException", is);
    let is = is_this_or(name, "java.lang.ArrayStoreException", is);
    let is = is_this_or(name, "java.lang.ArrayIndexOutOfBoundsException", is);
    is_this_or(name, "java.lang.NullPointerException", is)
}

// Whether objects of this class come to be though no statement names it.
fn is_one_of_nine(name: &str) -> bool
    ensures { IsTrue result ↔ Has nine_names name.now }
{
    let is = is_this_or(name, "java.lang.Class", is_raised(name));
    let is = is_this_or(name, "java.lang.String", is);
    is_this_or(name, "java.lang.Object", is)
}

/// Whether the class may have objects.
pub fn is_instantiable(class: &ClassIn) -> bool
    requires { class.now.class.now.name.0 < length class.now.names.now }
    ensures { IsTrue result ↔ IsInstantiable (seen_class class.now) }
{
    if !class.class.interface && !class.class.is_abstract {
        return true;
    }
    is_one_of_nine(class.names.text(class.class.name))
}
