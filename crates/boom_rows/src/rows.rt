//! Questions about small programs, with the replies found by hand. Rows are as those of the worked programs.
use asked_text::{Pieces, SHARED, SMALL, WORKED, is_reply, reply_text};
use std::alloc::AllocError;
use std::marker::Sync;
use std::test::Fail;
use std::thread::Threads;

// A loop with an allocation: the machine, a free choice at `if` and at the root's array.
const LOOP: (&str, &str) = (
    "class A { }
class Main {
static void main(java.lang.String[]) {
A x, y;
x = new A;
y = x;
label1:
if 0 == 1 goto label2;
x = new A;
goto label1;
label2:
return;
}
}
",
    "run;Main;7;- | run Main~steps 7~end running~at @ 3~local x @ 0 new A~local y @ 0 new A~
run;Main;100;001 | run Main~steps 9~end ended~
run;Main;100;1 | run Main~steps 3~end uncaught root 1 raise java.lang.NegativeArraySizeException~",
);

// The same with one class twice.
const TWICE: (&str, &str) = (
    "class A { }
class A { }
class Main {
static void main(java.lang.String[]) {
A x, y;
x = new A;
y = x;
label1:
if 0 == 1 goto label2;
x = new A;
goto label1;
label2:
return;
}
}
",
    "points-to;Main;@;5;x;100 | refused NotLinked DuplicateClass A~",
);

// Each kind of value, and the exceptions of a number that is divided and of an array that is stored into.
const RUNS: (&str, &str) = (
    "class A { } class Main { static void main(java.lang.String[]) { A x; int n; java.lang.Object t, c, o; A[] y; A unset; x = new A; n = 3 / 2; t = \"a b\";
c = class \"LA;\"; y = newarray (A)[1]; o = null; if n == 0 goto bad; return; bad: o = unset; return; } }",
    "run;Main;0;- | run Main~steps 0~end running~at root 0~
run;Main;3;- | run Main~steps 3~end running~at root 3~local text root 0 new java.lang.String~local args root 1 new java.lang.String[]~
run;Main;10;- | run Main~steps 10~end running~at @ 6~local x @ 0 new A~local n number~local t text \"a b\"~local c class \"LA;\"~local o null~local y @ 4 new A[]~
run;Main;6;007 | run Main~steps 6~end running~at @ 1 raised @ 1 raise java.lang.ArithmeticException~local x @ 0 new A~
run;Main;13;0000 | run Main~steps 13~end ended~
run;Main;1000000;- | run Main~steps 13~end ended~
run;Main;12;000019 | run Main~steps 12~end ill-typed~
run;Main;4;03 | run Main~steps 4~end uncaught root 2 raise java.lang.ArrayStoreException~
run;Main;50;001 | run Main~steps 8~end uncaught @ 1 raise java.lang.ArithmeticException~
run;Other;50;001 | refused NotLinked NoEntry~",
);

// The demo, which reads nothing: no program stands in these bytes.
const DEMO: (&str, &str) = (
    "#",
    "demo;40 | demo 40~statements 168~sites 1~demanded 250~
demo;1 | demo 1~statements 12~sites 1~demanded 16~
demo;0 | refused Usage~
demo;401 | refused Usage~",
);

// The number of the status that a reply tells of: a refusal has the word of its status behind `refused`.
fn number(told: &str) -> u8 {
    let Some(refused) = told.strip_prefix("refused ") else {
        return 0;
    };
    match refused.split_once(' ') {
        Some(("NotLinked", _)) => 6,
        Some(("NoSuchPlace", _)) => 7,
        Some(("OverBudget", _)) => 11,
        _ => 1,
    }
}

// Whether a command over a program gets the reply.
fn is_right<R: Threads + AllocGlobal + Sync>(
    rt: &R,
    pieces: Pieces,
    program: &str,
    row: &str,
) -> Result<bool, AllocError> {
    let Some((asked, told)) = row.split_once(" | ") else {
        return Ok(false);
    };
    let reply = reply_text(rt.alloc(), told)?;
    is_reply(
        rt,
        asked,
        program.as_bytes(),
        pieces,
        number(told),
        reply.as_str(),
    )
}

/// The first row of a program that doesn't get its reply, in such pieces.
pub fn first_wrong_in<R: Threads + AllocGlobal + Sync>(
    rt: &R,
    pieces: Pieces,
    rows: (&'static str, &'static str),
) -> Result<Option<&'static str>, AllocError> {
    let (program, rows) = rows;
    for row in rows.lines() {
        if !is_right(rt, pieces, program, row)? {
            return Ok(Some(row));
        }
    }
    Ok(None)
}

fn first_wrong<R: Threads + AllocGlobal + Sync>(
    rt: &R,
    rows: (&'static str, &'static str),
) -> Result<Option<&'static str>, AllocError> {
    first_wrong_in(rt, SMALL, rows)
}

#[test]
fn answers_calls_and_fields(rt: HostRuntime) -> Result<(), Fail> {
    for rows in WORKED {
        assert_eq!(rt; first_wrong(&rt, rows)?, None);
    }
    Ok(())
}

#[test]
fn answers_calls_of_interfaces_and_aliases(rt: HostRuntime) -> Result<(), Fail> {
    for rows in SHARED {
        assert_eq!(rt; first_wrong(&rt, rows)?, None);
    }
    Ok(())
}

#[test]
fn runs_and_shows_the_demo(rt: HostRuntime) -> Result<(), Fail> {
    for rows in [LOOP, RUNS, DEMO, TWICE] {
        assert_eq!(rt; first_wrong(&rt, rows)?, None);
    }
    Ok(())
}
