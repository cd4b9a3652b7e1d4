//! The parts of a program, from the whole down to an operand.
use super::list::List;
use super::names::{NameId, Names};

/// A program: its names, and its classes in written order.
#[derive(Drop)]
pub struct Program {
    /// Each `NameId` of the classes is one of these.
    pub names: Names,
    pub classes: List<Class>,
}

/// A class or an interface, with its members in written order.
#[derive(Drop)]
pub struct Class {
    pub name: NameId,
    /// Whether it is an interface.
    pub interface: bool,
    pub is_abstract: bool,
    /// What `extends` names.
    pub parent: Option<NameId>,
    /// What `implements` names.
    pub interfaces: List<NameId>,
    pub fields: List<FieldDecl>,
    pub methods: List<MethodDecl>,
}

/// A field.
#[derive(Clone, Copy, Debug, PartialEq, Eq)]
pub struct FieldDecl {
    pub name: NameId,
    pub ty: Ty,
    pub is_static: bool,
}

/// A method.
#[derive(Drop)]
pub struct MethodDecl {
    pub name: NameId,
    pub result: Ty,
    pub params: List<Ty>,
    pub is_static: bool,
    /// Whether it has that modifier and no body.
    pub is_native: bool,
    /// A method without one is native where it has that modifier, and else abstract.
    pub body: Option<Body>,
}

/// A type: `dims` pairs of brackets behind a base.
#[derive(Clone, Copy, Debug, PartialEq, Eq)]
pub struct Ty {
    pub base: Base,
    pub dims: u8,
}

/// What a type is without its brackets.
#[derive(Clone, Copy, Debug, PartialEq, Eq)]
pub enum Base {
    Void,
    Boolean,
    Byte,
    Short,
    Char,
    Int,
    Long,
    Float,
    Double,
    /// `unknown`, a type that is not known.
    Unknown,
    /// `null_type`, the type of `null`.
    NullType,
    /// A class or an interface, by its name.
    Class(NameId),
}

/// A method's body: its locals in declared order, its statements, its labels and its traps in written order.
#[derive(Drop)]
pub struct Body {
    pub locals: List<NameId>,
    pub stmts: List<Stmt>,
    pub labels: List<Label>,
    pub traps: List<Trap>,
}

/// A label, and the number of statements that stand before it, which is the index of the statement behind it.
#[derive(Clone, Copy, Debug, PartialEq, Eq)]
pub struct Label {
    pub name: NameId,
    pub index: u32,
}

/// A handler for exceptions of a class that come from the statements between two labels. Each label is named and not placed.
#[derive(Clone, Copy, Debug, PartialEq, Eq)]
pub struct Trap {
    pub class: NameId,
    /// The label of the first statement that it covers.
    pub from: NameId,
    /// The label of the first statement behind those.
    pub to: NameId,
    /// The label of the handler.
    pub with: NameId,
}

/// The field that a statement names.
#[derive(Clone, Copy, Debug, PartialEq, Eq)]
pub struct FieldSig {
    /// The class that is written before the colon.
    pub class: NameId,
    pub ty: Ty,
    pub name: NameId,
}

/// The method that a call names.
#[derive(Drop)]
pub struct MethodSig {
    /// The class that is written before the colon.
    pub class: NameId,
    pub result: Ty,
    pub name: NameId,
    pub params: List<Ty>,
}

/// An operand: a local or a constant.
#[derive(Clone, Copy, Debug, PartialEq, Eq)]
pub enum Imm {
    Local(NameId),
    /// A numeral.
    Number,
    Null,
    /// A string, by what stands between its quotes.
    Text(NameId),
    /// `class` and a string, by what stands between its quotes.
    ClassConst(NameId),
}

/// How a call finds its method.
#[derive(Clone, Copy, Debug, PartialEq, Eq)]
pub enum Mode {
    Special,
    Virtual,
    Interface,
    Static,
}

/// A call.
#[derive(Drop)]
pub enum Invoke {
    Plain {
        mode: Mode,
        /// The local that is called on; none exactly where the mode is `Static`.
        receiver: Option<NameId>,
        sig: MethodSig,
        args: List<Imm>,
    },
    /// A call whose method is linked when it runs; of it nothing else is kept.
    Dynamic,
}

/// What an assignment computes.
#[derive(Drop)]
pub enum Expr {
    Use(Imm),
    New(NameId),
    /// An array, by the type of its elements.
    NewArray(Ty),
    /// An array of arrays: the written type with a pair of brackets more for each size that doesn't count, and how many count: those before the
    /// first that is left out.
    NewMulti(Ty, u8),
    Cast(Ty, Imm),
    Length(Imm),
    /// `instanceof`, `neg` or an operator between two operands, and whether that one divides, as `/` and `%` do.
    Numeric { divides: bool },
    /// A field of the object in a local.
    Field(NameId, FieldSig),
    Static(FieldSig),
    /// An element of the array in a local, whichever its index.
    Cell(NameId),
    Invoke(Invoke),
}

/// A statement. A jump names a label.
#[derive(Drop)]
pub enum Stmt {
    /// The identity statement that gives a local the receiver.
    This(NameId),
    /// The identity statement that gives a local a parameter, by its number from 0.
    Param(NameId, u32),
    /// The identity statement that gives a local the exception that a handler caught.
    Caught(NameId),
    Assign(NameId, Expr),
    /// The local with the object, its field, and what is stored.
    PutField(NameId, FieldSig, Imm),
    PutStatic(FieldSig, Imm),
    /// The local with the array, and what is stored, at whichever index.
    PutCell(NameId, Imm),
    /// A call whose result is dropped.
    Call(Invoke),
    /// A jump to a label where a condition holds.
    If(NameId),
    Goto(NameId),
    /// A jump to one of these labels: those of the cases in written order, and the default's last.
    Switch(List<NameId>),
    Return(Option<Imm>),
    Throw(Imm),
    /// `entermonitor` or `exitmonitor`.
    Monitor(Imm),
    /// `nop` or `breakpoint`.
    Skip,
    /// The return from a subroutine of a method.
    Ret,
}
