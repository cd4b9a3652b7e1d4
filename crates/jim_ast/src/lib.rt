//! The syntax of Jimple, as a program of classes, methods and statements, and the set of its names.
//!
//! What an analysis of references never asks for isn't kept: numerals, conditions, indices, the types of locals, and operators other than
//! whether they divide.
#![tactic(auto)]

mod list;
mod name;
mod names;
mod notes;
mod syntax;

pub use list::List;
pub use lists::NoMemory;
pub use name::Name;
pub use names::{NameId, Names};
pub use syntax::{
    Base, Body, Class, Expr, FieldDecl, FieldSig, Imm, Invoke, Label, MethodDecl, MethodSig, Mode,
    Program, Stmt, Trap, Ty,
};
