//! The classes of the objects that come to be though no statement names them.
ghost use Rattle.jim_step.specs.Named.{AreNamed};
ghost use Rattle.link_rules.specs.WellLinked.{HasClass};
ghost use Rattle.link_sites.specs.Sites.{IsNamedClass};

use link_program::Linked;

/// The classes of arrays, of texts, of class constants, and of the implicit exceptions by their kinds.
#[derive(Clone, Copy, Debug, PartialEq, Eq)]
pub struct Classes {
    pub object: u32,
    pub string: u32,
    pub class: u32,
    pub exceptions: [u32; 6],
}

// The class of this name.
fn named(linked: &Linked, name: &str) -> u32
    requires { HasClass linked.now name.now }
    ensures { IsNamedClass linked.now name.now result }
{
    match linked.class_number(name) {
        Some(class) => class,
        None => 0,
    }
}

/// The classes of a linked program.
pub fn classes_of(linked: &Linked) -> Classes
    ensures { AreNamed linked.now result }
{
    linked.tell_form();
    Classes {
        object: named(linked, "java.lang.Object"),
        string: named(linked, "java.lang.String"),
        class: named(linked, "java.lang.Class"),
        exceptions: [
            named(linked, "java.lang.NullPointerException"),
            named(linked, "java.lang.ArrayIndexOutOfBoundsException"),
            named(linked, "java.lang.ArrayStoreException"),
            named(linked, "java.lang.NegativeArraySizeException"),
            named(linked, "java.lang.ClassCastException"),
            named(linked, "java.lang.ArithmeticException"),
        ],
    }
}
