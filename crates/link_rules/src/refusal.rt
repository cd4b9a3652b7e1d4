//! Why a program can't be linked.
ghost use Rattle.std.specs.Prelude.{◌≡◌};
ghost use Rattle.link_rules.specs.Refusals.{number_of};

use jim_ast::Name;
use thiserror::Error;

/// The rules that refuse a program, by their numbers. The first four are of the program, the others of the code of a method that a run may
/// reach.
#[derive(Clone, Copy, Debug, PartialEq, Eq)]
pub enum LinkKind {
    /// A class has the name of an earlier one.
    DuplicateClass = 1,
    /// A parent or an interface of a class isn't declared.
    UnknownParent = 2,
    /// A class is its own ancestor.
    CyclicClass = 3,
    /// The class to begin with isn't there, or doesn't itself declare a `static void main(java.lang.String[])` with a body.
    NoEntry = 5,
    /// Two locals have one name.
    DuplicateLocal = 6,
    /// Two labels have one name.
    DuplicateLabel = 7,
    /// A label that a statement or a trap names isn't there.
    UnknownLabel = 8,
    /// The end of a body may be reached, or there is no statement.
    FallsOff = 9,
    /// A local that the code keeps isn't declared.
    UnknownLocal = 10,
    /// A receiver or a parameter is named that the method doesn't have.
    BadIdentity = 11,
    /// A `dynamicinvoke`.
    DynamicInvoke = 12,
    /// A call of reflection.
    Reflection = 13,
    /// A class of threads is made or called.
    Threads = 14,
    /// A `ret`.
    RetStatement = 15,
    /// A `newmultiarray` without a size in its first pair of brackets.
    NestedArray = 16,
    /// The class of a `new`, a field, a call or a trap isn't declared.
    UnknownClass = 17,
    /// A field that is named isn't found.
    UnknownField = 18,
    /// An interface or an abstract class is made.
    AbstractNew = 19,
    /// No method is found for a static or special call, or neither the named class nor one above it declares the method of another call.
    UndeclaredCallee = 20,
    /// A call has more or fewer arguments than parameters, or takes a result where there is none.
    BadArguments = 21,
    /// A native method is called.
    NativeCallee = 22,
    /// A class on which a call may look its method up has several default methods, of which none is the most specific.
    AmbiguousDefault = 23,
}

impl LinkKind {
    /// The number of the rule. Where several rules refuse one statement, the least counts.
    pub fn number(self) -> u8
        ensures { result ≡ number_of self }
    {
        self as u8
    }
}

/// Why there is no linked program.
#[derive(Debug, Drop, Error)]
pub enum LinkError {
    /// A rule refuses the program: the class, the method or, of `NoEntry`, nothing, and the index of the statement. The index is 0 for the first
    /// four rules, and the number of statements for what is said of a trap.
    #[error("the program can't be linked")]
    Refused {
        kind: LinkKind,
        place: Name,
        index: u32,
    },
    #[error("out of memory")]
    NoMemory,
}
