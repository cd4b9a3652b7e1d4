//! The classes of tokens, and the numbers of what they name.
use jim_ast::NameId;
use jim_signs::{Signs, read_signs, signs};
use jim_text::lex;
use lists::NoMemory;
use std::alloc::Global;
use std::test::Fail;

// The class of each token, with a number behind it where that isn't 0, and the names behind a bar.
fn put_signs(text: &mut String, found: &Signs) -> Result<(), NoMemory> {
    for sign in &found.signs {
        match sign.text {
            0 => write!(text, "{:?} ", sign.lead)?,
            number => write!(text, "{:?}{number} ", sign.lead)?,
        }
    }
    for number in 0..found.names.len() {
        write!(text, "|{}", found.names.text(NameId(number)))?;
    }
    Ok(())
}

fn signs_of(alloc: Global, bytes: &[u8]) -> Option<Signs> {
    if bytes.len() > 16777216 {
        return None;
    }
    let tokens = lex(alloc, bytes).ok()?;
    signs(alloc, bytes, &tokens).ok()
}

// The same where the text is read in one pass.
fn signs_read(alloc: Global, bytes: &[u8]) -> Option<Signs> {
    if bytes.len() > 16777216 {
        return None;
    }
    read_signs(alloc, bytes).ok()
}

fn are(alloc: Global, found: Option<Signs>, wanted: &str) -> Result<bool, NoMemory> {
    let mut text = String::new(alloc);
    match found {
        Some(found) => put_signs(&mut text, &found)?,
        None => text.push_str("no tokens")?,
    }
    Ok(text.as_str() == wanted)
}

fn is_shown(alloc: Global, bytes: &[u8], wanted: &str) -> Result<bool, NoMemory> {
    let of_tokens = are(alloc, signs_of(alloc, bytes), wanted)?;
    let read = are(alloc, signs_read(alloc, bytes), wanted)?;
    Ok(of_tokens && read)
}

// The first text whose signs aren't those that stand beside it.
fn first_wrong(
    alloc: Global,
    rows: &[(&'static str, &'static str)],
) -> Result<Option<&'static str>, NoMemory> {
    for (text, wanted) in rows {
        if !is_shown(alloc, text.as_bytes(), wanted)? {
            return Ok(Some(*text));
        }
    }
    Ok(None)
}

const WORDS: [(&str, &str); 15] = [
    ("if to", "If To "),
    ("int new neg cmp ret nop", "Int New Neg Cmp Ret Nop "),
    (
        "enum void byte char long null",
        "Enum Void Byte Char Long Null ",
    ),
    (
        "cmpg cmpl goto case from with",
        "Cmpg Cmpl Goto Case From With ",
    ),
    (
        "final class short float throw catch",
        "Final Class Short Float Throw Catch ",
    ),
    (
        "native public static throws double return",
        "Native Public Static Throws Double Return ",
    ),
    (
        "private extends boolean unknown default",
        "Private Extends Boolean Unknown Default ",
    ),
    (
        "abstract volatile strictfp newarray lengthof",
        "Abstract Volatile Strictfp NewArray LengthOf ",
    ),
    (
        "protected transient interface null_type",
        "Protected Transient Interface NullType ",
    ),
    (
        "annotation implements instanceof breakpoint",
        "Annotation Implements InstanceOf Breakpoint ",
    ),
    ("tableswitch exitmonitor", "TableSwitch ExitMonitor "),
    ("synchronized lookupswitch", "Synchronized LookupSwitch "),
    ("entermonitor staticinvoke", "EnterMonitor StaticInvoke "),
    (
        "newmultiarray specialinvoke virtualinvoke",
        "NewMultiArray SpecialInvoke VirtualInvoke ",
    ),
    (
        "dynamicinvoke interfaceinvoke",
        "DynamicInvoke InterfaceInvoke ",
    ),
];

#[test]
fn words(rt: HostRuntime) -> Result<(), Fail> {
    assert_eq!(rt; first_wrong(rt.alloc(), &WORDS)?, None);
    Ok(())
}

const MARKS_AND_KINDS: [(&str, &str); 12] = [
    (
        "{ } ( ) [ ]",
        "OpenBrace CloseBrace OpenParen CloseParen OpenBracket CloseBracket ",
    ),
    ("; , : .", "Semicolon Comma Colon Dot "),
    (":= = == !=", "Define Assign Equal NotEqual "),
    ("< <= > >=", "Less LessEqual Greater GreaterEqual "),
    ("<< >> >>>", "ShiftLeft ShiftRight ShiftRightUnsigned "),
    ("+ - * / %", "Plus Minus Times Slash Percent "),
    ("& | ^", "And Or Xor "),
    ("@this @caughtexception", "This Caught "),
    (
        "@parameter0 @parameter12 @parameter99999",
        "Parameter Parameter12 Parameter99999 ",
    ),
    ("0 12L 1.5F #NaN", "Number Number Number Number "),
    ("<init> <clinit>", "Name Name1 |<init>|<clinit>"),
    ("", ""),
];

#[test]
fn marks_and_kinds(rt: HostRuntime) -> Result<(), Fail> {
    assert_eq!(rt; first_wrong(rt.alloc(), &MARKS_AND_KINDS)?, None);
    Ok(())
}

const NAMES: [(&str, &str); 13] = [
    ("a b a", "Name Name1 Name |a|b"),
    ("a 'a' \"a\"", "Name Name Text |a"),
    ("'b' b 'c' 'b'", "Name Name Name1 Name |b|c"),
    ("a.b 'a'.b a.'b' 'a'.'b'", "Name Name Name Name |a.b"),
    ("'a.b' a.b", "Name Name |a.b"),
    ("class 'class' 'int'", "Class Name Name1 |class|int"),
    ("\"\" x \"\" \"x\"", "Text Name1 Text Text1 ||x"),
    ("\"a'b\" 'b'", "Text Name1 |a'b|b"),
    ("\"\\\"\" a", "Text Name1 |\\\"|a"),
    ("A a", "Name Name1 |A|a"),
    ("'é' é \"é\" x", "Name Name Text Name1 |é|x"),
    ("c b a c b a", "Name Name1 Name2 Name Name1 Name2 |c|b|a"),
    ("x /* y */ z // w", "Name Name1 |x|z"),
];

#[test]
fn names(rt: HostRuntime) -> Result<(), Fail> {
    assert_eq!(rt; first_wrong(rt.alloc(), &NAMES)?, None);
    Ok(())
}
