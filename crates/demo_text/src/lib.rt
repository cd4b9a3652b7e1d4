//! The text of a program of any size, in Jimple, and the query that is asked of it.
//!
//! Its `main` fills boxes, each with an item of its own, and reads them again. All are filled by one method and read by one method, so only
//! an analysis that tells calls apart says that a box gives one item.
#![tactic(auto)]

ghost use Rattle.std.specs.Prelude.{◌≡◌, ◌++◌, ◌*◌, ◌-◌, ◌^◌, ◌<◌, IfOk, OnOk, string_bytes};
ghost use Rattle.demo_text.specs.Demo.{calls_of, declarations_of, demo_source, each_of, main_method, makes_of, statements_of, taken_local};

use std::alloc::{AllocError, Global};

/// Memory that was asked for wasn't found.
pub type NoMemory = AllocError;

// What stands before the declarations of `main`.
const HEAD: &str = "\
class Box {
    java.lang.Object v;
}
class Item { }
class Demo {
    static void put(Box, java.lang.Object) {
        Box b;
        java.lang.Object o;
        b := @parameter0: Box;
        o := @parameter1: java.lang.Object;
        b.<Box: java.lang.Object v> = o;
        return;
    }
    static java.lang.Object get(Box) {
        Box b;
        java.lang.Object o;
        b := @parameter0: Box;
        o = b.<Box: java.lang.Object v>;
        return o;
    }
    static void main(java.lang.String[]) {
";

// What stands behind the statements of the boxes.
const END: &str = "        return;
    }
}
";

// Adds the declarations of a box's locals.
fn push_declarations(text: &mut String, number: u32) -> Result<(), NoMemory>
    ensures { OnOk result (string_bytes text.new ≡ string_bytes text.old ++ declarations_of number) }
{
    write!(
        text,
        "        Box b{number};
        java.lang.Object o{number}, x{number};
"
    )
}

// Adds the statements that make a box and its item.
fn push_makes(text: &mut String, number: u32) -> Result<(), NoMemory>
    ensures { OnOk result (string_bytes text.new ≡ string_bytes text.old ++ makes_of number) }
{
    write!(
        text,
        "        b{number} = new Box;
        o{number} = new Item;
"
    )
}

// Adds the statements that put the item into the box, and take what is in it.
fn push_calls(text: &mut String, number: u32) -> Result<(), NoMemory>
    ensures { OnOk result (string_bytes text.new ≡ string_bytes text.old ++ calls_of number) }
{
    write!(
        text,
        "        staticinvoke <Demo: void put(Box,java.lang.Object)>(b{number}, o{number});
        x{number} = staticinvoke <Demo: java.lang.Object get(Box)>(b{number});
"
    )
}

// Adds the statements of a box.
fn push_statements(text: &mut String, number: u32) -> Result<(), NoMemory>
    ensures { OnOk result (string_bytes text.new ≡ string_bytes text.old ++ statements_of number) }
{
    push_makes(text, number)?;
    push_calls(text, number)
}

// Adds the declarations of so many boxes, in order.
fn push_all_declarations(text: &mut String, count: u32) -> Result<(), NoMemory>
    ensures { OnOk result (string_bytes text.new ≡ string_bytes text.old ++ each_of declarations_of count) }
{
    for number in 0..count {
        push_declarations(text, number)?;
    }
    Ok(())
}

// Adds the statements of so many boxes, in order.
fn push_all_statements(text: &mut String, count: u32) -> Result<(), NoMemory>
    ensures { OnOk result (string_bytes text.new ≡ string_bytes text.old ++ each_of statements_of count) }
{
    for number in 0..count {
        push_statements(text, number)?;
    }
    Ok(())
}

/// The text of the program with so many boxes: the classes `Box`, with the field `v`, and `Item`; `Demo` with `put`, which writes the field, `get`, which
/// reads it, and `main`. For each K from 0 to `count` - 1 `main` makes the box `bK` and the item `oK`, puts the item into the box, and takes `xK` from it.
pub fn demo_text(alloc: Global, count: u32) -> Result<String, NoMemory>
    ensures { IfOk result (λ text. string_bytes text ≡ demo_source count) }
{
    let mut text = String::new(alloc);
    text.push_str(HEAD)?;
    push_all_declarations(&mut text, count)?;
    push_all_statements(&mut text, count)?;
    text.push_str(END)?;
    Ok(text)
}

/// The text of the method that is asked.
pub fn demo_method() -> &'static str
    ensures { result.now ≡ main_method }
{
    "<Demo: void main(java.lang.String[])>"
}

/// The local of what is taken from the last of so many boxes, at least one.
pub fn demo_local(alloc: Global, count: u32) -> Result<String, NoMemory>
    requires { 0 < count }
    ensures { IfOk result (λ name. string_bytes name ≡ taken_local (count - 1)) }
{
    let last = count - 1;
    format!(in alloc; "x{last}")
}

/// The index of the statement behind all that is done with so many boxes: the last of `main`, its `return`.
pub fn demo_index(count: u32) -> u32
    requires { count < 2 ^ 30 }
    ensures { result ≡ 4 * count }
{
    count * 4
}
