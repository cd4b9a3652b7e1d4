//! What programs of texts are, shown as texts.
use jim_ast::{
    Base, Body, Class, Expr, FieldDecl, Imm, Invoke, MethodDecl, NameId, Names, Program, Stmt, Ty,
};
use jim_build::build;
use jim_signs::{Signs, signs};
use jim_text::lex;
use lists::NoMemory;
use std::alloc::Global;
use std::test::Fail;

fn name(names: &Names, id: NameId) -> &str {
    if id.0 < names.len() {
        names.text(id)
    } else {
        "?"
    }
}

fn put_ty(out: &mut String, names: &Names, ty: Ty) -> Result<(), NoMemory> {
    out.push_str(match ty.base {
        Base::Void => "void",
        Base::Boolean => "boolean",
        Base::Int => "int",
        Base::Class(id) => name(names, id),
        _ => "other",
    })?;
    if ty.dims > 0 {
        write!(out, "/{}", ty.dims)?;
    }
    Ok(())
}

fn put_imm(out: &mut String, names: &Names, imm: Imm) -> Result<(), NoMemory> {
    match imm {
        Imm::Local(id) => out.push_str(name(names, id)),
        Imm::Number => out.push('#'),
        Imm::Null => out.push_str("null"),
        Imm::Text(id) => write!(out, "\"{}\"", name(names, id)),
        Imm::ClassConst(id) => write!(out, "class {}", name(names, id)),
    }
}

fn put_invoke(out: &mut String, names: &Names, invoke: &Invoke) -> Result<(), NoMemory> {
    match invoke {
        Invoke::Plain {
            mode,
            sig,
            args,
            ..
        } => write!(
            out,
            "{mode:?} {}({})",
            name(names, sig.name),
            args.as_slice().len()
        ),
        Invoke::Dynamic => out.push_str("Dynamic"),
    }
}

fn put_expr(out: &mut String, names: &Names, expr: &Expr) -> Result<(), NoMemory> {
    match expr {
        Expr::Use(imm) => put_imm(out, names, *imm),
        Expr::New(id) => write!(out, "new {}", name(names, *id)),
        Expr::NewArray(ty) => {
            out.push_str("array ")?;
            put_ty(out, names, *ty)
        }
        Expr::NewMulti(ty, sized) => {
            out.push_str("multi ")?;
            put_ty(out, names, *ty)?;
            write!(out, " {sized}")
        }
        Expr::Cast(ty, imm) => {
            out.push('(')?;
            put_ty(out, names, *ty)?;
            out.push(')')?;
            put_imm(out, names, *imm)
        }
        Expr::Length(imm) => {
            out.push_str("length ")?;
            put_imm(out, names, *imm)
        }
        Expr::Numeric { divides } => write!(out, "numeric {divides}"),
        Expr::Field(id, sig) => write!(out, "{}.{}", name(names, *id), name(names, sig.name)),
        Expr::Static(sig) => write!(out, "static {}", name(names, sig.name)),
        Expr::Cell(id) => write!(out, "{}[]", name(names, *id)),
        Expr::Invoke(invoke) => put_invoke(out, names, invoke),
    }
}

// A place that is assigned, and the operand that it is assigned.
fn put_store(out: &mut String, names: &Names, imm: Imm) -> Result<(), NoMemory> {
    out.push('=')?;
    put_imm(out, names, imm)
}

fn put_switch(out: &mut String, names: &Names, to: &[NameId]) -> Result<(), NoMemory> {
    out.push_str("switch")?;
    for label in to {
        write!(out, " {}", name(names, *label))?;
    }
    Ok(())
}

// A word and an operand behind it.
fn put_of(out: &mut String, names: &Names, word: &str, imm: Imm) -> Result<(), NoMemory> {
    out.push_str(word)?;
    put_imm(out, names, imm)
}

fn put_assigned(out: &mut String, names: &Names, stmt: &Stmt) -> Result<(), NoMemory> {
    match stmt {
        Stmt::This(to) => write!(out, "{}:=this", name(names, *to)),
        Stmt::Param(to, number) => write!(out, "{}:=param {number}", name(names, *to)),
        Stmt::Caught(to) => write!(out, "{}:=caught", name(names, *to)),
        Stmt::Assign(to, expr) => {
            write!(out, "{}=", name(names, *to))?;
            put_expr(out, names, expr)
        }
        Stmt::PutField(of, sig, imm) => {
            write!(out, "{}.{}", name(names, *of), name(names, sig.name))?;
            put_store(out, names, *imm)
        }
        Stmt::PutStatic(sig, imm) => {
            write!(out, "static {}", name(names, sig.name))?;
            put_store(out, names, *imm)
        }
        Stmt::PutCell(of, imm) => {
            write!(out, "{}[]", name(names, *of))?;
            put_store(out, names, *imm)
        }
        _ => put_other(out, names, stmt),
    }
}

// A statement that assigns nothing.
fn put_other(out: &mut String, names: &Names, stmt: &Stmt) -> Result<(), NoMemory> {
    match stmt {
        Stmt::Call(invoke) => put_invoke(out, names, invoke),
        Stmt::If(to) => write!(out, "if {}", name(names, *to)),
        Stmt::Goto(to) => write!(out, "goto {}", name(names, *to)),
        Stmt::Switch(to) => put_switch(out, names, to.as_slice()),
        Stmt::Return(None) => out.push_str("return"),
        Stmt::Return(Some(imm)) => put_of(out, names, "return ", *imm),
        Stmt::Throw(imm) => put_of(out, names, "throw ", *imm),
        Stmt::Monitor(imm) => put_of(out, names, "monitor ", *imm),
        Stmt::Skip => out.push_str("skip"),
        Stmt::Ret => out.push_str("ret"),
        _ => out.push('?'),
    }
}

fn put_body(out: &mut String, names: &Names, body: &Body) -> Result<(), NoMemory> {
    out.push_str(" {")?;
    for local in body.locals.as_slice() {
        write!(out, " {}", name(names, *local))?;
    }
    out.push_str(" |")?;
    for stmt in body.stmts.as_slice() {
        out.push(' ')?;
        put_assigned(out, names, stmt)?;
        out.push(';')?;
    }
    out.push_str(" |")?;
    for label in body.labels.as_slice() {
        write!(out, " {}@{}", name(names, label.name), label.index)?;
    }
    out.push_str(" |")?;
    for trap in body.traps.as_slice() {
        write!(
            out,
            " {}:{}-{}>{}",
            name(names, trap.class),
            name(names, trap.from),
            name(names, trap.to),
            name(names, trap.with)
        )?;
    }
    out.push_str(" }")
}

fn put_method(out: &mut String, names: &Names, method: &MethodDecl) -> Result<(), NoMemory> {
    out.push_str(" [")?;
    out.push_str(if method.is_static { "static " } else { "" })?;
    out.push_str(if method.is_native { "native " } else { "" })?;
    put_ty(out, names, method.result)?;
    write!(out, " {}(", name(names, method.name))?;
    for param in method.params.as_slice() {
        put_ty(out, names, *param)?;
        out.push(',')?;
    }
    out.push(')')?;
    if let Some(body) = &method.body {
        put_body(out, names, body)?;
    }
    out.push(']')
}

fn put_field(out: &mut String, names: &Names, field: &FieldDecl) -> Result<(), NoMemory> {
    out.push_str(if field.is_static { " (static " } else { " (" })?;
    put_ty(out, names, field.ty)?;
    write!(out, " {})", name(names, field.name))
}

fn put_class(out: &mut String, names: &Names, class: &Class) -> Result<(), NoMemory> {
    out.push_str(if class.is_abstract { "abstract " } else { "" })?;
    out.push_str(if class.interface { "interface " } else { "" })?;
    out.push_str(name(names, class.name))?;
    if let Some(parent) = class.parent {
        write!(out, " <{}", name(names, parent))?;
    }
    for interface in class.interfaces.as_slice() {
        write!(out, " :{}", name(names, *interface))?;
    }
    for field in class.fields.as_slice() {
        put_field(out, names, field)?;
    }
    for method in class.methods.as_slice() {
        put_method(out, names, method)?;
    }
    out.push('.')
}

// Adds the classes of a program: a body has its locals, statements, labels and traps between bars.
fn put_program(out: &mut String, program: &Program) -> Result<(), NoMemory> {
    for class in program.classes.as_slice() {
        put_class(out, &program.names, class)?;
    }
    Ok(())
}

// The program of a text.
fn program_of(alloc: Global, text: &str) -> Option<Program> {
    let bytes = text.as_bytes();
    if bytes.len() > 16777216 {
        return None;
    }
    let tokens = lex(alloc, bytes).ok()?;
    let Signs { names, signs } = signs(alloc, bytes, &tokens).ok()?;
    build(alloc, names, &signs).ok()
}

fn put_text(alloc: Global, out: &mut String, text: &str) -> Result<(), NoMemory> {
    match program_of(alloc, text) {
        Some(program) => put_program(out, &program),
        None => out.push_str("no program"),
    }
}

fn is_shown(alloc: Global, text: &str, wanted: &str) -> Result<bool, NoMemory> {
    let mut out = String::new(alloc);
    put_text(alloc, &mut out, text)?;
    Ok(out.as_str() == wanted)
}

// The first text that isn't the program that stands beside it.
fn first_wrong(
    alloc: Global,
    rows: &[(&'static str, &'static str)],
) -> Result<Option<&'static str>, NoMemory> {
    for (text, wanted) in rows {
        if !is_shown(alloc, text, wanted)? {
            return Ok(Some(*text));
        }
    }
    Ok(None)
}

// Whether the body is shown so, in a class of one method.
fn is_body(alloc: Global, body: &str, wanted: &str) -> Result<bool, NoMemory> {
    let text = format!(in alloc; "class A {{ void m() {{ {body} }} }}")?;
    let whole = format!(in alloc; "A [void m() {wanted}].")?;
    is_shown(alloc, text.as_str(), whole.as_str())
}

// The same of bodies.
fn first_wrong_body(
    alloc: Global,
    rows: &[(&'static str, &'static str)],
) -> Result<Option<&'static str>, NoMemory> {
    for (body, wanted) in rows {
        if !is_body(alloc, body, wanted)? {
            return Ok(Some(*body));
        }
    }
    Ok(None)
}

const CLASSES: [(&str, &str); 10] = [
    ("", ""),
    ("class A { }", "A."),
    ("class A { } class B { }", "A.B."),
    ("interface A { }", "interface A."),
    ("abstract class A { }", "abstract A."),
    ("public abstract interface A { }", "abstract interface A."),
    ("final static native class A { }", "A."),
    ("class A extends B { }", "A <B."),
    ("class A implements B, C, D { }", "A :B :C :D."),
    ("class 'A' extends B implements C { }", "A <B :C."),
];

#[test]
fn classes(rt: HostRuntime) -> Result<(), Fail> {
    assert_eq!(rt; first_wrong(rt.alloc(), &CLASSES)?, None);
    Ok(())
}

const MEMBERS: [(&str, &str); 11] = [
    ("class A { int f; }", "A (int f)."),
    ("class A { private static B[][] f; }", "A (static B/2 f)."),
    ("class A { void m(); }", "A [void m()]."),
    ("class A { abstract int m(); }", "A [int m()]."),
    ("class A { native void m(); }", "A [native void m()]."),
    (
        "class A { static native B[] m(int, B); }",
        "A [static native B/1 m(int,B,)].",
    ),
    ("class A { native void m() { } }", "A [void m() { | | | }]."),
    (
        "class A { void m() throws B, C { } }",
        "A [void m() { | | | }].",
    ),
    (
        "class A { void m() throws B; int g; }",
        "A (int g) [void m()].",
    ),
    (
        "class A { int f; void m(); int g; void n(); }",
        "A (int f) (int g) [void m()] [void n()].",
    ),
    ("class A { B m(B[][][]); B m; }", "A (B m) [B m(B/3,)]."),
];

#[test]
fn members(rt: HostRuntime) -> Result<(), Fail> {
    assert_eq!(rt; first_wrong(rt.alloc(), &MEMBERS)?, None);
    Ok(())
}

const BODIES: [(&str, &str); 11] = [
    ("int i, j; return;", "{ i j | return; | | }"),
    (
        "A a; B[] b, c; unknown d; null_type e;",
        "{ a b c d e | | | }",
    ),
    ("A[] a; a[0] = null;", "{ a | a[]=null; | | }"),
    ("a[i] = b;", "{ | a[]=b; | | }"),
    (
        "a: b: nop; c: nop; nop; d:",
        "{ | skip; skip; skip; | a@0 b@0 c@1 d@3 | }",
    ),
    ("A a; a: a = a; goto a;", "{ a | a=a; goto a; | a@0 | }"),
    (
        "a = new A; a := @this: A; a.<A: B f> = b; <A: B g> = b;",
        "{ | a=new A; a:=this; a.f=b; static g=b; | | }",
    ),
    (
        "dynamicinvoke : ; b: breakpoint;",
        "{ | Dynamic; skip; | b@1 | }",
    ),
    (
        "l: nop; m: catch A from l to m with m; catch B from m to l with l;",
        "{ | skip; | l@0 m@1 | A:l-m>m B:m-l>l }",
    ),
    ("catch A from b to c with d;", "{ | | | A:b-c>d }"),
    ("double d; long[] l; return d;", "{ d l | return d; | | }"),
];

#[test]
fn bodies(rt: HostRuntime) -> Result<(), Fail> {
    assert_eq!(rt; first_wrong_body(rt.alloc(), &BODIES)?, None);
    Ok(())
}

// A class in the usual layout of a compiler's output.
const COMPILED: &str = "
public class Shop extends java.lang.Object implements java.lang.Runnable
{
    private java.lang.Object[] items;
    static int count;

    public void <init>(int) throws java.lang.Exception
    {
        Shop r0;
        int i0;
        java.lang.Object[] $r1;
        r0 := @this: Shop;
        i0 := @parameter0: int;
        specialinvoke r0.<java.lang.Object: void <init>()>();
        $r1 = newarray (java.lang.Object)[i0];
        r0.<Shop: java.lang.Object[] items> = $r1;
        <Shop: int count> = 0;
        return;
    }

    public java.lang.String pick(int)
    {
        Shop r0;
        int i0;
        java.lang.Object $r1;
        java.lang.String r2;
        java.lang.Throwable $r3;
        r0 := @this: Shop;
        i0 := @parameter0: int;
     label1:
        lookupswitch(i0)
        {
            case -1: goto label2;
            case 3: goto label3;
            default: goto label3;
        };
     label2:
        $r1 = virtualinvoke r0.<Shop: java.lang.Object get(int)>(i0);
        r2 = (java.lang.String) $r1;
        if r2 != null goto label4;
     label3:
        throw null;
     label4:
        return r2;
     label5:
        $r3 := @caughtexception;
        return \"none\";
        catch java.lang.Throwable from label1 to label5 with label5;
    }

    abstract java.lang.Object get(int);
}
";

const SHOWN_COMPILED: &str =
    "Shop <java.lang.Object :java.lang.Runnable (java.lang.Object/1 items) (static int count) \
 [void <init>(int,) { r0 i0 $r1 | r0:=this; i0:=param 0; Special <init>(0); $r1=array java.lang.Object; r0.items=$r1; static count=#; return; | | }] \
 [java.lang.String pick(int,) { r0 i0 $r1 r2 $r3 | r0:=this; i0:=param 0; switch label2 label3 label3; $r1=Virtual get(1); r2=(java.lang.String)$r1; \
 if label4; throw null; return r2; $r3:=caught; return \"none\"; | label1@2 label2@3 label3@6 label4@7 label5@8 | \
 java.lang.Throwable:label1-label5>label5 }] \
 [java.lang.Object get(int,)].";

#[test]
fn compiled(rt: HostRuntime) -> Result<(), Fail> {
    assert!(rt; is_shown(rt.alloc(), COMPILED, SHOWN_COMPILED)?);
    Ok(())
}
