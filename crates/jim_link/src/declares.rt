//! Whether a prelude declares the classes that linking needs.
ghost use Rattle.std.specs.Prelude.{◌≡◌, ◌∷◌, ◌↔◌, ℕ, List as Items, All, IsTrue, flat_map};
ghost use Rattle.link_rules.specs.Classes.{IsDeclared, classes_of};
ghost use Rattle.link_rules.specs.Conditions.{AreWithin, DeclaresNine, class_names};
ghost use Rattle.link_rules.specs.Targets.{exception_names};

use jim_ast::Program;

// Whether the program declares a class of this name.
fn declares(program: &Program, name: &str) -> bool
    requires { AreWithin program.now.names (flat_map class_names program.now.classes) }
    ensures { IsTrue result ↔ IsDeclared (classes_of program.now) name.now }
{
    for class in program.classes.as_slice() {
        if program.names.text(class.name) == name {
            return true;
        }
    }
    false
}

// Whether the program declares this class, and those that were looked for before.
fn declares_too(program: &Program, name: &str, others: bool) -> bool
    requires { AreWithin program.now.names (flat_map class_names program.now.classes) }
    ensures { (names : Items (Items ℕ)) → (IsTrue others ↔ All (IsDeclared (classes_of program.now)) names)
        → IsTrue result ↔ All (IsDeclared (classes_of program.now)) (name.now ∷ names) }
{
    declares(program, name) && others
}

// Whether the program declares the exceptions that statements raise by themselves.
fn declares_exceptions(program: &Program) -> bool
    requires { AreWithin program.now.names (flat_map class_names program.now.classes) }
    ensures { IsTrue result ↔ All (IsDeclared (classes_of program.now)) exception_names }
{
    let all = declares_too(program, "java.lang.ArithmeticException", true);
    let all = declares_too(program, "java.lang.ClassCastException", all);
    let all = declares_too(program, "java.lang.NegativeArraySizeException", all);
    let all = declares_too(program, "java.lang.ArrayStoreException", all);
    let all = declares_too(program, "java.lang.ArrayIndexOutOfBoundsException", all);
    declares_too(program, "java.lang.NullPointerException", all)
}

/// Whether a prelude declares the nine classes of the objects that come to be though no statement names them: the condition that `link` has on
/// it. Takes no memory.
pub fn declares_named(prelude: &Program) -> bool
    requires { AreWithin prelude.now.names (flat_map class_names prelude.now.classes) }
    ensures { IsTrue result ↔ DeclaresNine prelude.now }
{
    let all = declares_too(prelude, "java.lang.Class", declares_exceptions(prelude));
    let all = declares_too(prelude, "java.lang.String", all);
    declares_too(prelude, "java.lang.Object", all)
}
