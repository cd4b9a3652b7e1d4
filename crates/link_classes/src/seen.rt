//! Classes and members where they stand, with the names of their program.
use jim_ast::{Class, FieldDecl, MethodDecl, NameId, Names};

/// A class, with the names of its program and their numbers among all names.
#[derive(Clone, Copy)]
pub struct ClassIn<'a> {
    pub names: &'a Names,
    pub ids: &'a [NameId],
    pub class: &'a Class,
}

/// A method, with the number and the name of its class, all names, and the numbers among them of the names of its program.
#[derive(Clone, Copy)]
pub struct MethodIn<'a> {
    pub class: u32,
    pub owner: &'a str,
    pub all: &'a Names,
    pub ids: &'a [NameId],
    pub decl: &'a MethodDecl,
}

/// A field, with the number of its class, the names of its program and their numbers among all names.
#[derive(Clone, Copy)]
pub struct FieldIn<'a> {
    pub class: u32,
    pub names: &'a Names,
    pub ids: &'a [NameId],
    pub decl: &'a FieldDecl,
}
