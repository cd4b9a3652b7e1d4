//! What the table of the grammar is made of.

use crate::set::LeadSet;
use jim_signs::Lead;

/// A part of the grammar: a token of one class or of a set, at most so many of a piece, or a piece by its name.
#[derive(Clone, Copy, Debug, PartialEq, Eq, Hash)]
pub enum Item {
    Tok(Lead),
    One(LeadSet),
    /// At most so many pairs of brackets of a type.
    Pairs(u8),
    /// Pairs of brackets, the end of a type with a first length, and further lengths: at most so many pairs and further lengths together.
    Dimensions(u8),
    /// At most so many lengths in brackets, each of which may be left out.
    Owns(u8),
    /// A piece by its name, as are the ones that follow.
    OfType(TypePiece),
    OfImm(ImmPiece),
    OfSig(SigPiece),
    OfCall(CallPiece),
    OfExpr(ExprPiece),
    OfMove(MovePiece),
    OfJump(JumpPiece),
    OfStmt(StmtPiece),
    OfBody(BodyPiece),
    OfClass(ClassPiece),
}

// A piece of the grammar by its name is a rule, a production of a rule, or a repeated or optional part of one. They stand by what they are pieces of.

/// Names and types, one or a list of them.
#[derive(Clone, Copy, Debug, PartialEq, Eq, Hash)]
pub enum TypePiece {
    Names,
    MoreNames,
    CommaName,
    Pair,
    Type,
    Types,
    MoreTypes,
    CommaType,
    MaybeTypes,
}

/// Immediates, one or a list of them.
#[derive(Clone, Copy, Debug, PartialEq, Eq, Hash)]
pub enum ImmPiece {
    LocalImm,
    NumberImm,
    TextImm,
    ClassImm,
    NullImm,
    MaybeMinus,
    Imm,
    Imms,
    MoreImms,
    CommaImm,
    MaybeImm,
    MaybeImms,
}

/// Signatures of fields and methods.
#[derive(Clone, Copy, Debug, PartialEq, Eq, Hash)]
pub enum SigPiece {
    FieldSig,
    VoidResult,
    TypeResult,
    Outcome,
    MethodSig,
}

/// Calls.
#[derive(Clone, Copy, Debug, PartialEq, Eq, Hash)]
pub enum CallPiece {
    OnReceiver,
    OnClass,
    Dynamic,
    Others,
    Invoke,
}

/// Expressions, and the lengths of new arrays.
#[derive(Clone, Copy, Debug, PartialEq, Eq, Hash)]
pub enum ExprPiece {
    Own,
    FirstOwn,
    UseExpr,
    NewExpr,
    ArrayExpr,
    MultiExpr,
    CastExpr,
    InstanceExpr,
    LengthExpr,
    NegExpr,
    BinaryExpr,
    FieldExpr,
    StaticExpr,
    CellExpr,
    InvokeExpr,
    Expr,
}

/// Statements that give a value to a local, a field or an element of an array.
#[derive(Clone, Copy, Debug, PartialEq, Eq, Hash)]
pub enum MovePiece {
    ThisStmt,
    ParamStmt,
    CaughtStmt,
    AssignStmt,
    PutFieldStmt,
    PutStaticStmt,
    PutCellStmt,
}

/// Statements behind which another than the next line may follow, and the lines of a switch.
#[derive(Clone, Copy, Debug, PartialEq, Eq, Hash)]
pub enum JumpPiece {
    CaseLine,
    Cases,
    IfStmt,
    GotoStmt,
    SwitchStmt,
    ReturnStmt,
    RetStmt,
    ThrowStmt,
}

/// The other statements, and all of them, and lines.
#[derive(Clone, Copy, Debug, PartialEq, Eq, Hash)]
pub enum StmtPiece {
    CallStmt,
    MonitorStmt,
    SkipStmt,
    Stmt,
    LabelLine,
    StmtLine,
    Line,
}

/// Bodies of methods.
#[derive(Clone, Copy, Debug, PartialEq, Eq, Hash)]
pub enum BodyPiece {
    TypeDecl,
    OddDecl,
    Decl,
    Trap,
    DeclLines,
    LineList,
    TrapLines,
    Body,
    NoBody,
    WithBody,
    Ending,
}

/// Members, classes and the program.
#[derive(Clone, Copy, Debug, PartialEq, Eq, Hash)]
pub enum ClassPiece {
    ThrowsPart,
    MaybeThrows,
    Modifiers,
    FieldMember,
    MethodMember,
    Member,
    MemberList,
    ExtendsPart,
    MaybeExtends,
    ImplementsPart,
    MaybeImplements,
    ClassText,
    Program,
}

/// What a part of the grammar is made of.
#[derive(Clone, Copy, Debug)]
pub enum Rule {
    Tok(Lead),
    One(LeadSet),
    /// One after the other.
    Seq(&'static [Item]),
    /// One of these.
    Any(&'static [Item]),
    /// Any number of these.
    Star(Item),
    /// At most one of these.
    Opt(Item),
    /// None of these any more.
    Full(Item),
    /// At most so many of these: what is left behind one of them.
    UpTo(Item, Item),
    /// The parts of a list of dimensions with no room: what comes before, in the middle and behind, and what is left behind the middle.
    FullShared(Item, Item, Item, Item),
    /// The same with room: what is left behind the middle, behind one before it, and behind one that comes after it.
    Shared(Item, Item, Item, Item, Item, Item),
}
