//! The reserved words, and their classes.
ghost use Rattle.std.specs.Prelude.{◌≡◌};
ghost use Rattle.jim_text.specs.Words as table;

use super::lead::Lead;
use lists::same_bytes;

fn lead_of_two(text: &[u8]) -> Lead
    ensures { result ≡ table.look_up table.two_words text.now }
{
    if same_bytes(text, b"if") {
        Lead::If
    } else if same_bytes(text, b"to") {
        Lead::To
    } else {
        Lead::Other
    }
}

fn lead_of_three(text: &[u8]) -> Lead
    ensures { result ≡ table.look_up table.three_words text.now }
{
    if same_bytes(text, b"int") {
        Lead::Int
    } else if same_bytes(text, b"new") {
        Lead::New
    } else if same_bytes(text, b"neg") {
        Lead::Neg
    } else if same_bytes(text, b"cmp") {
        Lead::Cmp
    } else if same_bytes(text, b"ret") {
        Lead::Ret
    } else if same_bytes(text, b"nop") {
        Lead::Nop
    } else {
        Lead::Other
    }
}

fn lead_of_four(text: &[u8]) -> Lead
    ensures { result ≡ table.look_up table.four_words text.now }
{
    if same_bytes(text, b"enum") {
        Lead::Enum
    } else if same_bytes(text, b"void") {
        Lead::Void
    } else if same_bytes(text, b"byte") {
        Lead::Byte
    } else if same_bytes(text, b"char") {
        Lead::Char
    } else if same_bytes(text, b"long") {
        Lead::Long
    } else if same_bytes(text, b"null") {
        Lead::Null
    } else if same_bytes(text, b"cmpg") {
        Lead::Cmpg
    } else if same_bytes(text, b"cmpl") {
        Lead::Cmpl
    } else if same_bytes(text, b"goto") {
        Lead::Goto
    } else if same_bytes(text, b"case") {
        Lead::Case
    } else if same_bytes(text, b"from") {
        Lead::From
    } else if same_bytes(text, b"with") {
        Lead::With
    } else {
        Lead::Other
    }
}

fn lead_of_five(text: &[u8]) -> Lead
    ensures { result ≡ table.look_up table.five_words text.now }
{
    if same_bytes(text, b"final") {
        Lead::Final
    } else if same_bytes(text, b"class") {
        Lead::Class
    } else if same_bytes(text, b"short") {
        Lead::Short
    } else if same_bytes(text, b"float") {
        Lead::Float
    } else if same_bytes(text, b"throw") {
        Lead::Throw
    } else if same_bytes(text, b"catch") {
        Lead::Catch
    } else {
        Lead::Other
    }
}

fn lead_of_six(text: &[u8]) -> Lead
    ensures { result ≡ table.look_up table.six_words text.now }
{
    if same_bytes(text, b"native") {
        Lead::Native
    } else if same_bytes(text, b"public") {
        Lead::Public
    } else if same_bytes(text, b"static") {
        Lead::Static
    } else if same_bytes(text, b"throws") {
        Lead::Throws
    } else if same_bytes(text, b"double") {
        Lead::Double
    } else if same_bytes(text, b"return") {
        Lead::Return
    } else {
        Lead::Other
    }
}

fn lead_of_seven(text: &[u8]) -> Lead
    ensures { result ≡ table.look_up table.seven_words text.now }
{
    if same_bytes(text, b"private") {
        Lead::Private
    } else if same_bytes(text, b"extends") {
        Lead::Extends
    } else if same_bytes(text, b"boolean") {
        Lead::Boolean
    } else if same_bytes(text, b"unknown") {
        Lead::Unknown
    } else if same_bytes(text, b"default") {
        Lead::Default
    } else {
        Lead::Other
    }
}

fn lead_of_eight(text: &[u8]) -> Lead
    ensures { result ≡ table.look_up table.eight_words text.now }
{
    if same_bytes(text, b"abstract") {
        Lead::Abstract
    } else if same_bytes(text, b"volatile") {
        Lead::Volatile
    } else if same_bytes(text, b"strictfp") {
        Lead::Strictfp
    } else if same_bytes(text, b"newarray") {
        Lead::NewArray
    } else if same_bytes(text, b"lengthof") {
        Lead::LengthOf
    } else {
        Lead::Other
    }
}

fn lead_of_nine(text: &[u8]) -> Lead
    ensures { result ≡ table.look_up table.nine_words text.now }
{
    if same_bytes(text, b"protected") {
        Lead::Protected
    } else if same_bytes(text, b"transient") {
        Lead::Transient
    } else if same_bytes(text, b"interface") {
        Lead::Interface
    } else if same_bytes(text, b"null_type") {
        Lead::NullType
    } else {
        Lead::Other
    }
}

fn lead_of_ten(text: &[u8]) -> Lead
    ensures { result ≡ table.look_up table.ten_words text.now }
{
    if same_bytes(text, b"annotation") {
        Lead::Annotation
    } else if same_bytes(text, b"implements") {
        Lead::Implements
    } else if same_bytes(text, b"instanceof") {
        Lead::InstanceOf
    } else if same_bytes(text, b"breakpoint") {
        Lead::Breakpoint
    } else {
        Lead::Other
    }
}

fn lead_of_eleven(text: &[u8]) -> Lead
    ensures { result ≡ table.look_up table.eleven_words text.now }
{
    if same_bytes(text, b"tableswitch") {
        Lead::TableSwitch
    } else if same_bytes(text, b"exitmonitor") {
        Lead::ExitMonitor
    } else {
        Lead::Other
    }
}

fn lead_of_twelve(text: &[u8]) -> Lead
    ensures { result ≡ table.look_up table.twelve_words text.now }
{
    if same_bytes(text, b"synchronized") {
        Lead::Synchronized
    } else if same_bytes(text, b"lookupswitch") {
        Lead::LookupSwitch
    } else if same_bytes(text, b"entermonitor") {
        Lead::EnterMonitor
    } else if same_bytes(text, b"staticinvoke") {
        Lead::StaticInvoke
    } else {
        Lead::Other
    }
}

fn lead_of_thirteen(text: &[u8]) -> Lead
    ensures { result ≡ table.look_up table.thirteen_words text.now }
{
    if same_bytes(text, b"newmultiarray") {
        Lead::NewMultiArray
    } else if same_bytes(text, b"specialinvoke") {
        Lead::SpecialInvoke
    } else if same_bytes(text, b"virtualinvoke") {
        Lead::VirtualInvoke
    } else if same_bytes(text, b"dynamicinvoke") {
        Lead::DynamicInvoke
    } else {
        Lead::Other
    }
}

fn lead_of_fifteen(text: &[u8]) -> Lead
    ensures { result ≡ table.look_up table.fifteen_words text.now }
{
    if same_bytes(text, b"interfaceinvoke") {
        Lead::InterfaceInvoke
    } else {
        Lead::Other
    }
}

/// The class of a reserved word, and `Other` for any other text.
pub fn word_lead(text: &[u8]) -> Lead
    ensures { result ≡ table.look_up table.words text.now }
{
    match text.len() {
        2 => lead_of_two(text),
        3 => lead_of_three(text),
        4 => lead_of_four(text),
        5 => lead_of_five(text),
        6 => lead_of_six(text),
        7 => lead_of_seven(text),
        8 => lead_of_eight(text),
        9 => lead_of_nine(text),
        10 => lead_of_ten(text),
        11 => lead_of_eleven(text),
        12 => lead_of_twelve(text),
        13 => lead_of_thirteen(text),
        15 => lead_of_fifteen(text),
        _ => Lead::Other,
    }
}
