//! The code of a method, in which each name is a number.
use jim_ast::{List, Mode};

/// An operand.
#[derive(Clone, Copy, Debug, PartialEq, Eq)]
pub enum Arg {
    /// A local, by its number among those of the method, from 0 in declared order.
    Local(u32),
    /// A numeral.
    Number,
    Null,
    /// A text, by its number among the texts of the program, from 0 in order of first use.
    Text(u32),
    /// A class constant, by its number among those, likewise.
    Class(u32),
}

/// A statement. `to` is the local that it assigns, `base` one that holds an object or an array. A field is named by its number among the
/// instance fields, from 1, or among the static fields, from 0. A jump is the index of a statement of the same method.
#[derive(Drop)]
pub enum Code {
    /// The receiver is assigned.
    This {
        to: u32,
    },
    /// A parameter is assigned, by its number from 0.
    Param {
        to: u32,
        number: u32,
    },
    /// The exception that a handler caught is assigned.
    Caught {
        to: u32,
    },
    Copy {
        to: u32,
        arg: Arg,
    },
    /// A cast to a class or an array type.
    Cast {
        to: u32,
        arg: Arg,
    },
    New {
        to: u32,
        class: u32,
    },
    NewArray {
        to: u32,
    },
    /// An array of arrays, of so many levels, one at least, for which sizes are given.
    NewMulti {
        to: u32,
        levels: u8,
    },
    /// A number is computed, by a division or not.
    Numeric {
        to: u32,
        divides: bool,
    },
    Length {
        to: u32,
        arg: Arg,
    },
    Load {
        to: u32,
        base: u32,
        field: u32,
    },
    Store {
        base: u32,
        field: u32,
        arg: Arg,
    },
    /// An element of an array, whichever its index.
    LoadCell {
        to: u32,
        base: u32,
    },
    StoreCell {
        base: u32,
        arg: Arg,
    },
    LoadStatic {
        to: u32,
        field: u32,
    },
    StoreStatic {
        field: u32,
        arg: Arg,
    },
    /// A call: the class and the key that it names, and the methods that it may run, by their numbers.
    Call {
        to: Option<u32>,
        mode: Mode,
        class: u32,
        key: u32,
        receiver: Option<u32>,
        args: List<Arg>,
        targets: List<u32>,
    },
    If {
        jump: u32,
    },
    Goto {
        jump: u32,
    },
    /// One of the jumps is taken, the default being the last.
    Switch {
        jumps: List<u32>,
    },
    Return {
        arg: Option<Arg>,
    },
    Throw {
        arg: Arg,
    },
    /// A monitor is entered or left.
    Monitor {
        arg: Arg,
    },
    Skip,
}

/// A handler for exceptions of a class, or of one below it, that are raised at the statements from one index up to, not including, another.
#[derive(Clone, Copy, Debug, PartialEq, Eq)]
pub struct Catch {
    pub class: u32,
    pub from: u32,
    pub to: u32,
    pub handler: u32,
}
