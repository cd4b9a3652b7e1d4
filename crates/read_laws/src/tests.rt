ghost use Rattle.std.specs.Prelude.{◌^◌, ◌<◌, length, IfOk};
ghost use Rattle.jim_text.specs.Lexes.{Lexes};
ghost use Rattle.link_rules.specs.Conditions.{IsRead};

use super::{derived_programs_are_read, spelled_programs_are_read};
use jim_ast::Program;
use jim_parse::{ParseError, parse};
use jim_text::{Token, lex};
use std::alloc::Global;
use std::test::Fail;

// A caller of the reader: by the law alone, what the reader gives is as linking asks.
fn read(alloc: Global, bytes: &[u8], tokens: &[Token]) -> Result<Program, ParseError>
    requires few { length tokens.now < 2 ^ 32 }
    requires lexed { Lexes bytes.now tokens.now }
    ensures read { IfOk result IsRead }
{
    derived_programs_are_read();
    parse(alloc, bytes, tokens)
}

#[test]
fn a_class(rt: HostRuntime) -> Result<(), Fail> {
    spelled_programs_are_read();
    let text =
        b"class A extends B { int f() { int x; x = staticinvoke <A: int f()>(); l: return x; } }";
    let Ok(tokens) = lex(rt.alloc(), text) else {
        return Err(Fail::new("no tokens"));
    };
    assert!(rt; read(rt.alloc(), text, &tokens).is_ok());
    Ok(())
}
