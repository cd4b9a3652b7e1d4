//! The grammar as a table: what each piece is made of.

ghost use Rattle.jim_grammar.specs.Items.{IsRule};

use crate::item::BodyPiece::{self, *};
use crate::item::CallPiece::{self, *};
use crate::item::ClassPiece::{self, *};
use crate::item::ExprPiece::{self, *};
use crate::item::ImmPiece::{self, *};
use crate::item::Item::{self, *};
use crate::item::JumpPiece::{self, *};
use crate::item::MovePiece::{self, *};
use crate::item::Rule::{self, Any, Opt, Seq, Star};
use crate::item::SigPiece::{self, *};
use crate::item::StmtPiece::{self, *};
use crate::item::TypePiece::{self, *};
use crate::set::LeadSet;
use jim_signs::Lead::*;

fn pairs(n: u8) -> Rule
    ensures { IsRule (Item.Pairs n) result }
{
    if n == 0 {
        return Rule::Full(Item::OfType(TypePiece::Pair));
    }
    Rule::UpTo(Item::OfType(TypePiece::Pair), Item::Pairs(n - 1))
}

fn owns(n: u8) -> Rule
    ensures { IsRule (Item.Owns n) result }
{
    if n == 0 {
        return Rule::Full(Item::OfExpr(ExprPiece::Own));
    }
    Rule::UpTo(Item::OfExpr(ExprPiece::Own), Item::Owns(n - 1))
}

fn dimensions(n: u8) -> Rule
    ensures { IsRule (Item.Dimensions n) result }
{
    if n == 0 {
        return Rule::FullShared(
            Item::OfType(TypePiece::Pair),
            Item::OfExpr(ExprPiece::FirstOwn),
            Item::OfExpr(ExprPiece::Own),
            Item::Owns(0),
        );
    }
    Rule::Shared(
        Item::OfType(TypePiece::Pair),
        Item::OfExpr(ExprPiece::FirstOwn),
        Item::OfExpr(ExprPiece::Own),
        Item::Owns(n),
        Item::Dimensions(n - 1),
        Item::Owns(n - 1),
    )
}

/// The rule of a part.
pub fn rule_of(item: Item) -> Rule
    ensures { IsRule item result }
{
    match item {
        Item::Tok(lead) => Rule::Tok(lead),
        Item::One(set) => Rule::One(set),
        Item::Pairs(n) => pairs(n),
        Item::Dimensions(n) => dimensions(n),
        Item::Owns(n) => owns(n),
        Item::OfType(piece) => rule_of_type(piece),
        Item::OfImm(piece) => rule_of_imm(piece),
        Item::OfSig(piece) => rule_of_sig(piece),
        Item::OfCall(piece) => rule_of_call(piece),
        Item::OfExpr(piece) => rule_of_expr(piece),
        Item::OfMove(piece) => rule_of_move(piece),
        Item::OfJump(piece) => rule_of_jump(piece),
        Item::OfStmt(piece) => rule_of_stmt(piece),
        Item::OfBody(piece) => rule_of_body(piece),
        Item::OfClass(piece) => rule_of_class(piece),
    }
}

/// The rules of names and types, in the order of the written grammar.
fn rule_of_type(piece: TypePiece) -> Rule
    ensures { IsRule (Item.OfType piece) result }
{
    match piece {
        Names => Seq(&[Tok(Name), OfType(MoreNames)]),
        MoreNames => Star(OfType(CommaName)),
        CommaName => Seq(&[Tok(Comma), Tok(Name)]),
        Pair => Seq(&[Tok(OpenBracket), Tok(CloseBracket)]),
        Type => Seq(&[One(LeadSet::Bases), Pairs(255)]),
        Types => Seq(&[OfType(Type), OfType(MoreTypes)]),
        MoreTypes => Star(OfType(CommaType)),
        CommaType => Seq(&[Tok(Comma), OfType(Type)]),
        MaybeTypes => Opt(OfType(Types)),
    }
}

/// The rules of immediates, in the order of the written grammar.
fn rule_of_imm(piece: ImmPiece) -> Rule
    ensures { IsRule (Item.OfImm piece) result }
{
    match piece {
        LocalImm => Seq(&[Tok(Name)]),
        NumberImm => Seq(&[OfImm(MaybeMinus), Tok(Number)]),
        TextImm => Seq(&[Tok(Text)]),
        ClassImm => Seq(&[Tok(Class), Tok(Text)]),
        NullImm => Seq(&[Tok(Null)]),
        MaybeMinus => Opt(Tok(Minus)),
        Imm => Any(&[
            OfImm(LocalImm),
            OfImm(NumberImm),
            OfImm(TextImm),
            OfImm(ClassImm),
            OfImm(NullImm),
        ]),
        Imms => Seq(&[OfImm(Imm), OfImm(MoreImms)]),
        MoreImms => Star(OfImm(CommaImm)),
        CommaImm => Seq(&[Tok(Comma), OfImm(Imm)]),
        MaybeImm => Opt(OfImm(Imm)),
        MaybeImms => Opt(OfImm(Imms)),
    }
}

/// The rules of signatures, in the order of the written grammar.
fn rule_of_sig(piece: SigPiece) -> Rule
    ensures { IsRule (Item.OfSig piece) result }
{
    match piece {
        FieldSig => Seq(&[
            Tok(Less),
            Tok(Name),
            Tok(Colon),
            OfType(Type),
            Tok(Name),
            Tok(Greater),
        ]),
        VoidResult => Seq(&[Tok(Void)]),
        TypeResult => Seq(&[OfType(Type)]),
        Outcome => Any(&[OfSig(VoidResult), OfSig(TypeResult)]),
        MethodSig => Seq(&[
            Tok(Less),
            Tok(Name),
            Tok(Colon),
            OfSig(Outcome),
            Tok(Name),
            Tok(OpenParen),
            OfType(MaybeTypes),
            Tok(CloseParen),
            Tok(Greater),
        ]),
    }
}

/// The rules of calls, in the order of the written grammar.
fn rule_of_call(piece: CallPiece) -> Rule
    ensures { IsRule (Item.OfCall piece) result }
{
    match piece {
        OnReceiver => Seq(&[
            One(LeadSet::PlainInvokes),
            Tok(Name),
            Tok(Dot),
            OfSig(MethodSig),
            Tok(OpenParen),
            OfImm(MaybeImms),
            Tok(CloseParen),
        ]),
        OnClass => Seq(&[
            Tok(StaticInvoke),
            OfSig(MethodSig),
            Tok(OpenParen),
            OfImm(MaybeImms),
            Tok(CloseParen),
        ]),
        Dynamic => Seq(&[Tok(DynamicInvoke), OfCall(Others)]),
        Others => Star(One(LeadSet::NotEnds)),
        Invoke => Any(&[OfCall(OnReceiver), OfCall(OnClass), OfCall(Dynamic)]),
    }
}

/// The rules of expressions, in the order of the written grammar.
fn rule_of_expr(piece: ExprPiece) -> Rule
    ensures { IsRule (Item.OfExpr piece) result }
{
    match piece {
        Own => Seq(&[Tok(OpenBracket), OfImm(MaybeImm), Tok(CloseBracket)]),
        FirstOwn => Seq(&[Tok(CloseParen), OfExpr(Own)]),
        UseExpr => Seq(&[OfImm(Imm)]),
        NewExpr => Seq(&[Tok(New), Tok(Name)]),
        ArrayExpr => Seq(&[
            Tok(NewArray),
            Tok(OpenParen),
            OfType(Type),
            Tok(CloseParen),
            Tok(OpenBracket),
            OfImm(Imm),
            Tok(CloseBracket),
        ]),
        MultiExpr => Seq(&[
            Tok(NewMultiArray),
            Tok(OpenParen),
            One(LeadSet::Bases),
            Dimensions(254),
        ]),
        CastExpr => Seq(&[Tok(OpenParen), OfType(Type), Tok(CloseParen), OfImm(Imm)]),
        InstanceExpr => Seq(&[OfImm(Imm), Tok(InstanceOf), OfType(Type)]),
        LengthExpr => Seq(&[Tok(LengthOf), OfImm(Imm)]),
        NegExpr => Seq(&[Tok(Neg), OfImm(Imm)]),
        BinaryExpr => Seq(&[OfImm(Imm), One(LeadSet::Operators), OfImm(Imm)]),
        FieldExpr => Seq(&[Tok(Name), Tok(Dot), OfSig(FieldSig)]),
        StaticExpr => Seq(&[OfSig(FieldSig)]),
        CellExpr => Seq(&[Tok(Name), Tok(OpenBracket), OfImm(Imm), Tok(CloseBracket)]),
        InvokeExpr => Seq(&[OfCall(Invoke)]),
        Expr => Any(&[
            OfExpr(UseExpr),
            OfExpr(NewExpr),
            OfExpr(ArrayExpr),
            OfExpr(MultiExpr),
            OfExpr(CastExpr),
            OfExpr(InstanceExpr),
            OfExpr(LengthExpr),
            OfExpr(NegExpr),
            OfExpr(BinaryExpr),
            OfExpr(FieldExpr),
            OfExpr(StaticExpr),
            OfExpr(CellExpr),
            OfExpr(InvokeExpr),
        ]),
    }
}

/// The rules of statements that move a value, in the order of the written grammar.
fn rule_of_move(piece: MovePiece) -> Rule
    ensures { IsRule (Item.OfMove piece) result }
{
    match piece {
        ThisStmt => Seq(&[
            Tok(Name),
            Tok(Define),
            Tok(This),
            Tok(Colon),
            OfType(Type),
            Tok(Semicolon),
        ]),
        ParamStmt => Seq(&[
            Tok(Name),
            Tok(Define),
            Tok(Parameter),
            Tok(Colon),
            OfType(Type),
            Tok(Semicolon),
        ]),
        CaughtStmt => Seq(&[Tok(Name), Tok(Define), Tok(Caught), Tok(Semicolon)]),
        AssignStmt => Seq(&[Tok(Name), Tok(Assign), OfExpr(Expr), Tok(Semicolon)]),
        PutFieldStmt => Seq(&[
            Tok(Name),
            Tok(Dot),
            OfSig(FieldSig),
            Tok(Assign),
            OfImm(Imm),
            Tok(Semicolon),
        ]),
        PutStaticStmt => Seq(&[OfSig(FieldSig), Tok(Assign), OfImm(Imm), Tok(Semicolon)]),
        PutCellStmt => Seq(&[
            Tok(Name),
            Tok(OpenBracket),
            OfImm(Imm),
            Tok(CloseBracket),
            Tok(Assign),
            OfImm(Imm),
            Tok(Semicolon),
        ]),
    }
}

/// The rules of statements that jump, in the order of the written grammar.
fn rule_of_jump(piece: JumpPiece) -> Rule
    ensures { IsRule (Item.OfJump piece) result }
{
    match piece {
        CaseLine => Seq(&[
            Tok(Case),
            OfImm(MaybeMinus),
            Tok(Number),
            Tok(Colon),
            Tok(Goto),
            Tok(Name),
            Tok(Semicolon),
        ]),
        Cases => Star(OfJump(CaseLine)),
        IfStmt => Seq(&[
            Tok(If),
            OfImm(Imm),
            One(LeadSet::Relations),
            OfImm(Imm),
            Tok(Goto),
            Tok(Name),
            Tok(Semicolon),
        ]),
        GotoStmt => Seq(&[Tok(Goto), Tok(Name), Tok(Semicolon)]),
        SwitchStmt => Seq(&[
            One(LeadSet::SwitchWords),
            Tok(OpenParen),
            OfImm(Imm),
            Tok(CloseParen),
            Tok(OpenBrace),
            OfJump(Cases),
            Tok(Default),
            Tok(Colon),
            Tok(Goto),
            Tok(Name),
            Tok(Semicolon),
            Tok(CloseBrace),
            Tok(Semicolon),
        ]),
        ReturnStmt => Seq(&[Tok(Return), OfImm(MaybeImm), Tok(Semicolon)]),
        RetStmt => Seq(&[Tok(Ret), OfImm(MaybeImm), Tok(Semicolon)]),
        ThrowStmt => Seq(&[Tok(Throw), OfImm(Imm), Tok(Semicolon)]),
    }
}

/// The rules of the other statements, and lines, in the order of the written grammar.
fn rule_of_stmt(piece: StmtPiece) -> Rule
    ensures { IsRule (Item.OfStmt piece) result }
{
    match piece {
        CallStmt => Seq(&[OfCall(Invoke), Tok(Semicolon)]),
        MonitorStmt => Seq(&[One(LeadSet::MonitorWords), OfImm(Imm), Tok(Semicolon)]),
        SkipStmt => Seq(&[One(LeadSet::SkipWords), Tok(Semicolon)]),
        Stmt => Any(&[
            OfMove(ThisStmt),
            OfMove(ParamStmt),
            OfMove(CaughtStmt),
            OfMove(AssignStmt),
            OfMove(PutFieldStmt),
            OfMove(PutStaticStmt),
            OfMove(PutCellStmt),
            OfStmt(CallStmt),
            OfJump(IfStmt),
            OfJump(GotoStmt),
            OfJump(SwitchStmt),
            OfJump(ReturnStmt),
            OfJump(RetStmt),
            OfJump(ThrowStmt),
            OfStmt(MonitorStmt),
            OfStmt(SkipStmt),
        ]),
        LabelLine => Seq(&[Tok(Name), Tok(Colon)]),
        StmtLine => Seq(&[OfStmt(Stmt)]),
        Line => Any(&[OfStmt(LabelLine), OfStmt(StmtLine)]),
    }
}

/// The rules of bodies, in the order of the written grammar.
fn rule_of_body(piece: BodyPiece) -> Rule
    ensures { IsRule (Item.OfBody piece) result }
{
    match piece {
        TypeDecl => Seq(&[OfType(Type), OfType(Names), Tok(Semicolon)]),
        OddDecl => Seq(&[One(LeadSet::OddTypes), OfType(Names), Tok(Semicolon)]),
        Decl => Any(&[OfBody(TypeDecl), OfBody(OddDecl)]),
        Trap => Seq(&[
            Tok(Catch),
            Tok(Name),
            Tok(From),
            Tok(Name),
            Tok(To),
            Tok(Name),
            Tok(With),
            Tok(Name),
            Tok(Semicolon),
        ]),
        DeclLines => Star(OfBody(Decl)),
        LineList => Star(OfStmt(Line)),
        TrapLines => Star(OfBody(Trap)),
        Body => Seq(&[
            Tok(OpenBrace),
            OfBody(DeclLines),
            OfBody(LineList),
            OfBody(TrapLines),
            Tok(CloseBrace),
        ]),
        NoBody => Seq(&[Tok(Semicolon)]),
        WithBody => Seq(&[OfBody(Body)]),
        Ending => Any(&[OfBody(NoBody), OfBody(WithBody)]),
    }
}

/// The rules of members, classes and the program, in the order of the written grammar.
fn rule_of_class(piece: ClassPiece) -> Rule
    ensures { IsRule (Item.OfClass piece) result }
{
    match piece {
        ThrowsPart => Seq(&[Tok(Throws), OfType(Names)]),
        MaybeThrows => Opt(OfClass(ThrowsPart)),
        Modifiers => Star(One(LeadSet::Modifiers)),
        FieldMember => Seq(&[OfClass(Modifiers), OfType(Type), Tok(Name), Tok(Semicolon)]),
        MethodMember => Seq(&[
            OfClass(Modifiers),
            OfSig(Outcome),
            Tok(Name),
            Tok(OpenParen),
            OfType(MaybeTypes),
            Tok(CloseParen),
            OfClass(MaybeThrows),
            OfBody(Ending),
        ]),
        Member => Any(&[OfClass(FieldMember), OfClass(MethodMember)]),
        MemberList => Star(OfClass(Member)),
        ExtendsPart => Seq(&[Tok(Extends), Tok(Name)]),
        MaybeExtends => Opt(OfClass(ExtendsPart)),
        ImplementsPart => Seq(&[Tok(Implements), OfType(Names)]),
        MaybeImplements => Opt(OfClass(ImplementsPart)),
        ClassText => Seq(&[
            OfClass(Modifiers),
            One(LeadSet::ClassWords),
            Tok(Name),
            OfClass(MaybeExtends),
            OfClass(MaybeImplements),
            Tok(OpenBrace),
            OfClass(MemberList),
            Tok(CloseBrace),
        ]),
        Program => Star(OfClass(ClassText)),
    }
}
