//! What statements and their parts are, shown as texts.
use jim_ast::{Expr, FieldSig, Imm, Invoke, List, MethodSig, NameId, Stmt, Ty};
use jim_signs::{Lead, Sign, signs};
use jim_stmts::{
    Reader, expr, field_sig, imm, invoke, maybe_types, method_sig, names, outcome, stmt, ty, types,
};
use jim_text::lex;
use lists::NoMemory;
use std::alloc::Global;
use std::test::Fail;

// The signs of a text. Names are numbered from 0 in the order in which they come first.
fn signs_of(alloc: Global, text: &str) -> Option<Vec<Sign>> {
    let bytes = text.as_bytes();
    if bytes.len() > 16777216 {
        return None;
    }
    let tokens = lex(alloc, bytes).ok()?;
    let found = signs(alloc, bytes, &tokens).ok()?;
    Some(found.signs)
}

fn put_number(text: &mut String, number: u32) -> Result<(), NoMemory> {
    write!(text, " {number}")
}

fn put_ty(text: &mut String, ty: Ty) -> Result<(), NoMemory> {
    write!(text, " {:?}+{}", ty.base, ty.dims)
}

fn put_imm(text: &mut String, imm: Imm) -> Result<(), NoMemory> {
    write!(text, " {imm:?}")
}

fn put_names(text: &mut String, names: &List<NameId>) -> Result<(), NoMemory> {
    for name in names.as_slice() {
        put_number(text, name.0)?;
    }
    Ok(())
}

fn put_types(text: &mut String, types: &List<Ty>) -> Result<(), NoMemory> {
    for ty in types.as_slice() {
        put_ty(text, *ty)?;
    }
    Ok(())
}

fn put_imms(text: &mut String, imms: &List<Imm>) -> Result<(), NoMemory> {
    for imm in imms.as_slice() {
        put_imm(text, *imm)?;
    }
    Ok(())
}

fn put_field(text: &mut String, sig: FieldSig) -> Result<(), NoMemory> {
    text.push_str(" <")?;
    put_number(text, sig.class.0)?;
    put_ty(text, sig.ty)?;
    put_number(text, sig.name.0)?;
    text.push_str(" >")
}

fn put_method(text: &mut String, sig: &MethodSig) -> Result<(), NoMemory> {
    text.push_str(" <")?;
    put_number(text, sig.class.0)?;
    put_ty(text, sig.result)?;
    put_number(text, sig.name.0)?;
    put_types(text, &sig.params)?;
    text.push_str(" >")
}

fn put_call(text: &mut String, call: &Invoke) -> Result<(), NoMemory> {
    match call {
        Invoke::Plain {
            mode,
            receiver,
            sig,
            args,
        } => {
            write!(text, " {mode:?} {receiver:?}")?;
            put_method(text, sig)?;
            put_imms(text, args)
        }
        Invoke::Dynamic => text.push_str(" Dynamic"),
    }
}

fn put_expr(text: &mut String, expr: &Expr) -> Result<(), NoMemory> {
    match expr {
        Expr::Use(imm) => {
            text.push_str(" Use")?;
            put_imm(text, *imm)
        }
        Expr::New(class) => {
            text.push_str(" New")?;
            put_number(text, class.0)
        }
        Expr::NewArray(ty) => {
            text.push_str(" NewArray")?;
            put_ty(text, *ty)
        }
        Expr::NewMulti(ty, sized) => {
            text.push_str(" NewMulti")?;
            put_ty(text, *ty)?;
            put_number(text, *sized as u32)
        }
        Expr::Cast(ty, imm) => {
            text.push_str(" Cast")?;
            put_ty(text, *ty)?;
            put_imm(text, *imm)
        }
        Expr::Length(imm) => {
            text.push_str(" Length")?;
            put_imm(text, *imm)
        }
        Expr::Numeric { divides } => {
            text.push_str(if *divides { " Divides" } else { " Numeric" })
        }
        Expr::Field(local, sig) => {
            text.push_str(" Field")?;
            put_number(text, local.0)?;
            put_field(text, *sig)
        }
        Expr::Static(sig) => {
            text.push_str(" Static")?;
            put_field(text, *sig)
        }
        Expr::Cell(local) => {
            text.push_str(" Cell")?;
            put_number(text, local.0)
        }
        Expr::Invoke(call) => put_call(text, call),
    }
}

// An assignment to a local, a field or a cell.
fn put_assignment(text: &mut String, stmt: &Stmt) -> Result<(), NoMemory> {
    match stmt {
        Stmt::Assign(local, expr) => {
            text.push_str("Assign")?;
            put_number(text, local.0)?;
            put_expr(text, expr)
        }
        Stmt::PutField(local, sig, imm) => {
            text.push_str("PutField")?;
            put_number(text, local.0)?;
            put_field(text, *sig)?;
            put_imm(text, *imm)
        }
        Stmt::PutStatic(sig, imm) => {
            text.push_str("PutStatic")?;
            put_field(text, *sig)?;
            put_imm(text, *imm)
        }
        Stmt::PutCell(local, imm) => {
            text.push_str("PutCell")?;
            put_number(text, local.0)?;
            put_imm(text, *imm)
        }
        _ => Ok(()),
    }
}

fn put_stmt(text: &mut String, stmt: &Stmt) -> Result<(), NoMemory> {
    match stmt {
        Stmt::This(local) => {
            text.push_str("This")?;
            put_number(text, local.0)
        }
        Stmt::Param(local, number) => {
            text.push_str("Param")?;
            put_number(text, local.0)?;
            put_number(text, *number)
        }
        Stmt::Caught(local) => {
            text.push_str("Caught")?;
            put_number(text, local.0)
        }
        Stmt::Assign(..) | Stmt::PutField(..) | Stmt::PutStatic(..) | Stmt::PutCell(..) => {
            put_assignment(text, stmt)
        }
        Stmt::Call(call) => {
            text.push_str("Call")?;
            put_call(text, call)
        }
        Stmt::If(label) => {
            text.push_str("If")?;
            put_number(text, label.0)
        }
        Stmt::Goto(label) => {
            text.push_str("Goto")?;
            put_number(text, label.0)
        }
        Stmt::Switch(labels) => {
            text.push_str("Switch")?;
            put_names(text, labels)
        }
        Stmt::Return(None) => text.push_str("Return"),
        Stmt::Return(Some(imm)) => {
            text.push_str("Return")?;
            put_imm(text, *imm)
        }
        Stmt::Throw(imm) => {
            text.push_str("Throw")?;
            put_imm(text, *imm)
        }
        Stmt::Monitor(imm) => {
            text.push_str("Monitor")?;
            put_imm(text, *imm)
        }
        Stmt::Skip => text.push_str("Skip"),
        Stmt::Ret => text.push_str("Ret"),
    }
}

// Adds the next statement.
fn put_next(alloc: Global, text: &mut String, reader: &mut Reader<'_>) -> Result<(), NoMemory> {
    let stmt = stmt(alloc, reader)?;
    put_stmt(text, &stmt)
}

// What of a text is shown.
#[derive(Clone, Copy)]
enum Part {
    Statement,
    Types,
    Operands,
}

// Adds that part of a text, and dots where tokens stand behind it.
fn put_part(
    alloc: Global,
    text: &mut String,
    reader: &mut Reader<'_>,
    part: Part,
) -> Result<(), NoMemory> {
    match part {
        Part::Statement => put_next(alloc, text, reader)?,
        Part::Types => put_all_types(alloc, text, reader)?,
        Part::Operands => put_operands(alloc, text, reader)?,
    }
    if !reader.is_empty() {
        text.push_str(" ..")?;
    }
    Ok(())
}

fn put_part_of(alloc: Global, shown: &mut String, text: &str, part: Part) -> Result<(), NoMemory> {
    match signs_of(alloc, text) {
        Some(signs) => put_part(alloc, shown, &mut Reader::new(&signs), part),
        None => shown.push_str("no tokens"),
    }
}

fn is_shown(alloc: Global, text: &str, part: Part, wanted: &str) -> Result<bool, NoMemory> {
    let mut shown = String::new(alloc);
    put_part_of(alloc, &mut shown, text, part)?;
    Ok(shown.as_str() == wanted)
}

// The first text that isn't the statement that stands beside it.
fn first_wrong(
    alloc: Global,
    rows: &[(&'static str, &'static str)],
) -> Result<Option<&'static str>, NoMemory> {
    for (text, wanted) in rows {
        if !is_shown(alloc, text, Part::Statement, wanted)? {
            return Ok(Some(*text));
        }
    }
    Ok(None)
}

const STORES_AND_IDENTITIES: [(&str, &str); 14] = [
    ("x := @this: A;", "This 0"),
    ("x := @parameter12: int[];", "Param 0 12"),
    ("x := @caughtexception;", "Caught 0"),
    (
        "x.<A: B[] f> = null;",
        "PutField 0 < 1 Class(NameId(2))+1 3 > Null",
    ),
    (
        "<A: int f> = y;",
        "PutStatic < 0 Int+0 1 > Local(NameId(2))",
    ),
    ("x[i] = -1;", "PutCell 0 Number"),
    ("x[-1] = class \"A\";", "PutCell 0 ClassConst(NameId(1))"),
    ("nop;", "Skip"),
    ("breakpoint; nop;", "Skip .."),
    ("return;", "Return"),
    ("return \"t\";", "Return Text(NameId(0))"),
    ("ret;", "Ret"),
    ("ret x;", "Ret"),
    ("throw x; x", "Throw Local(NameId(0)) .."),
];

#[test]
fn stores_and_identities(rt: HostRuntime) -> Result<(), Fail> {
    assert_eq!(rt; first_wrong(rt.alloc(), &STORES_AND_IDENTITIES)?, None);
    Ok(())
}

const JUMPS: [(&str, &str); 9] = [
    ("goto l;", "Goto 0"),
    ("if x == -1 goto l;", "If 1"),
    ("if null != class \"A\" goto l;", "If 1"),
    ("if 1 >= y goto l; }", "If 1 .."),
    ("entermonitor x;", "Monitor Local(NameId(0))"),
    ("exitmonitor \"x\";", "Monitor Text(NameId(0))"),
    ("tableswitch(x) { default: goto d; };", "Switch 1"),
    (
        "lookupswitch(-1) { case 2: goto b; case -3: goto a; default: goto d; };",
        "Switch 0 1 2",
    ),
    (
        "tableswitch(x) { case 0: goto d; case 1: goto d; default: goto d; }; }",
        "Switch 1 1 1 ..",
    ),
];

#[test]
fn jumps(rt: HostRuntime) -> Result<(), Fail> {
    assert_eq!(rt; first_wrong(rt.alloc(), &JUMPS)?, None);
    Ok(())
}

const CALLS: [(&str, &str); 6] = [
    (
        "specialinvoke x.<A: void f()>();",
        "Call Special Some(NameId(0)) < 1 Void+0 2 >",
    ),
    (
        "virtualinvoke x.<A: int[] f(long,B[])>(y, -2);",
        "Call Virtual Some(NameId(0)) < 1 Int+1 2 Long+0 Class(NameId(3))+1 > Local(NameId(4)) Number",
    ),
    (
        "interfaceinvoke x.<A: B f(char)>(null);",
        "Call Interface Some(NameId(0)) < 1 Class(NameId(2))+0 3 Char+0 > Null",
    ),
    (
        "x = staticinvoke <A: byte f()>();",
        "Assign 0 Static None < 1 Byte+0 2 >",
    ),
    (
        "dynamicinvoke \"f\" <void(int)> [ := catch; }",
        "Call Dynamic ..",
    ),
    ("x = dynamicinvoke ;", "Assign 0 Dynamic"),
];

#[test]
fn calls(rt: HostRuntime) -> Result<(), Fail> {
    assert_eq!(rt; first_wrong(rt.alloc(), &CALLS)?, None);
    Ok(())
}

const VALUES: [(&str, &str); 15] = [
    ("x = y;", "Assign 0 Use Local(NameId(1))"),
    ("x = -1L;", "Assign 0 Use Number"),
    ("x = class \"x\";", "Assign 0 Use ClassConst(NameId(0))"),
    ("x = new A;", "Assign 0 New 1"),
    (
        "x = (A[][]) y;",
        "Assign 0 Cast Class(NameId(1))+2 Local(NameId(2))",
    ),
    ("x = lengthof y;", "Assign 0 Length Local(NameId(1))"),
    ("x = neg -1;", "Assign 0 Numeric"),
    ("x = y instanceof A[];", "Assign 0 Numeric"),
    ("x = \"t\" instanceof A;", "Assign 0 Numeric"),
    ("x = y - -1;", "Assign 0 Numeric"),
    ("x = -1 / y;", "Assign 0 Divides"),
    ("x = y % 2;", "Assign 0 Divides"),
    (
        "x = y.<A: boolean f>;",
        "Assign 0 Field 1 < 2 Boolean+0 3 >",
    ),
    ("x = <A: double f>;", "Assign 0 Static < 1 Double+0 2 >"),
    ("x = y[-1];", "Assign 0 Cell 1"),
];

#[test]
fn values(rt: HostRuntime) -> Result<(), Fail> {
    assert_eq!(rt; first_wrong(rt.alloc(), &VALUES)?, None);
    Ok(())
}

const ARRAYS: [(&str, &str); 7] = [
    ("x = newarray (int)[3];", "Assign 0 NewArray Int+0"),
    (
        "x = newarray (A[])[y];",
        "Assign 0 NewArray Class(NameId(1))+1",
    ),
    ("x = newmultiarray (int)[2][];", "Assign 0 NewMulti Int+1 1"),
    (
        "x = newmultiarray (float)[2][y][-3];",
        "Assign 0 NewMulti Float+0 3",
    ),
    (
        "x = newmultiarray (short[][])[][2];",
        "Assign 0 NewMulti Short+4 0",
    ),
    (
        "x = newmultiarray (A[])[1][][2][];",
        "Assign 0 NewMulti Class(NameId(1))+4 1",
    ),
    (
        "x = newmultiarray (A)[];",
        "Assign 0 NewMulti Class(NameId(1))+1 0",
    ),
];

#[test]
fn arrays(rt: HostRuntime) -> Result<(), Fail> {
    assert_eq!(rt; first_wrong(rt.alloc(), &ARRAYS)?, None);
    Ok(())
}

fn put_read_types(
    alloc: Global,
    text: &mut String,
    reader: &mut Reader<'_>,
) -> Result<(), NoMemory> {
    let list = types(alloc, reader)?;
    put_types(text, &list)
}

fn put_maybe_types(
    alloc: Global,
    text: &mut String,
    reader: &mut Reader<'_>,
) -> Result<(), NoMemory> {
    let list = maybe_types(alloc, reader)?;
    put_types(text, &list)
}

fn put_read_names(
    alloc: Global,
    text: &mut String,
    reader: &mut Reader<'_>,
) -> Result<(), NoMemory> {
    let list = names(alloc, reader)?;
    put_names(text, &list)
}

// A type, two results, names, types, types again, none, and a name.
fn put_all_types(
    alloc: Global,
    text: &mut String,
    reader: &mut Reader<'_>,
) -> Result<(), NoMemory> {
    put_ty(text, ty(reader))?;
    put_ty(text, outcome(reader))?;
    put_ty(text, outcome(reader))?;
    put_read_names(alloc, text, reader)?;
    reader.skip();
    put_read_types(alloc, text, reader)?;
    reader.skip();
    put_maybe_types(alloc, text, reader)?;
    reader.skip();
    put_maybe_types(alloc, text, reader)?;
    reader.skip();
    put_number(text, reader.name().0)
}

const TYPES: &str = "A[] void int b, c, b; char[], d; byte, A) ) e";

const SHOWN_TYPES: &str =
    " Class(NameId(0))+1 Void+0 Int+0 1 2 1 Char+1 Class(NameId(3))+0 Byte+0 Class(NameId(0))+0 4";

#[test]
fn parts(rt: HostRuntime) -> Result<(), Fail> {
    assert!(rt; is_shown(rt.alloc(), TYPES, Part::Types, SHOWN_TYPES)?);
    Ok(())
}

fn put_method_sig(
    alloc: Global,
    text: &mut String,
    reader: &mut Reader<'_>,
) -> Result<(), NoMemory> {
    let sig = method_sig(alloc, reader)?;
    put_method(text, &sig)
}

fn put_invoke(alloc: Global, text: &mut String, reader: &mut Reader<'_>) -> Result<(), NoMemory> {
    let call = invoke(alloc, reader)?;
    put_call(text, &call)
}

fn put_value(alloc: Global, text: &mut String, reader: &mut Reader<'_>) -> Result<(), NoMemory> {
    let value = expr(alloc, reader)?;
    put_expr(text, &value)
}

// The signatures of a field and of a method, an operand, a call and a value. A semicolon is left.
fn put_operands(alloc: Global, text: &mut String, reader: &mut Reader<'_>) -> Result<(), NoMemory> {
    put_field(text, field_sig(reader))?;
    put_method_sig(alloc, text, reader)?;
    put_imm(text, imm(reader))?;
    put_invoke(alloc, text, reader)?;
    put_value(alloc, text, reader)?;
    if reader.is_at(Lead::Semicolon) {
        text.push_str(" ;")?;
    }
    Ok(())
}

const OPERANDS: &str =
    "<A: int[] f> <B: void g(long,A)> \"t\" staticinvoke <B: byte h()>(null) lengthof x ;";

const SHOWN_OPERANDS: &str =
    " < 0 Int+1 1 > < 2 Void+0 3 Long+0 Class(NameId(0))+0 > Text(NameId(4)) Static None < 2 Byte+0 5 > Null Length Local(NameId(6)) ; ..";

#[test]
fn signatures_and_operands(rt: HostRuntime) -> Result<(), Fail> {
    assert!(rt; is_shown(rt.alloc(), OPERANDS, Part::Operands, SHOWN_OPERANDS)?);
    Ok(())
}

// Whether the tokens are a name, a comma and a name, and there is none behind them.
fn are_three(reader: &mut Reader<'_>) -> bool {
    let begins = reader.is_at(Lead::Name) && !reader.is_empty();
    let goes_on = reader.second() == Lead::Comma && reader.third() == Lead::Name;
    let first = reader.number() == 0;
    reader.skip();
    let ends = reader.lead() == Lead::Name && reader.second() == Lead::Other;
    let last = reader.number() == 1;
    let nothing = reader.is_empty() && reader.is_at(Lead::Other) && reader.third() == Lead::Other;
    begins && goes_on && first && ends && last && nothing && reader.number() == 0
}

fn are_three_of(alloc: Global, text: &str) -> bool {
    match signs_of(alloc, text) {
        Some(signs) => are_three(&mut Reader::new(&signs)),
        None => false,
    }
}

#[test]
fn places_in_front_of_and_behind_tokens(rt: HostRuntime) {
    assert!(rt; are_three_of(rt.alloc(), "a , b"));
}
