//! Words, with what they ask for where they are a command.
use boom_words::{Asked, FieldWord, Query, Running, read_fields, read_words};
use std::alloc::{AllocError, Global};
use std::test::Fail;

// What is told of words that are no command.
const OTHER: &str = "no command";

// Words, with a comma between two, and what they ask for. The prover takes a text at once, but goes over each row of an array.
const ROWS: &str =
    "points-to,Main,<Main: void main(java.lang.String[])>,5,x,100 => of Main: <Main: void main(java.lang.String[])> at 5, x, within 100
points-to,,,0,,0 => of :  at 0, , within 0
points-to,run,alias,4294967295,-,4294967295 => of run: alias at 4294967295, -, within 4294967295
explain,Main,m,5,explain,4294967295 => of Main: why m at 5, explain, within 4294967295
alias,Main,<Main: void main(java.lang.String[])>,5,x,y,100 => of Main: <Main: void main(java.lang.String[])> at 5, x and y, within 100
alias,A,m,0,x,x,0 => of A: m at 0, x and x, within 0
alias,A,m,4294967295,5,07,4294967295 => of A: m at 4294967295, 5 and 07, within 4294967295
run,Main,10,- => of Main: 10 steps by ''
run,Main,0,0 => of Main: 0 steps by '0'
run,Main,1000000,007 => of Main: 1000000 steps by '007'
run,run,999999,0123456789 => of run: 999999 steps by '0123456789'
run,,1,- => of : 1 steps by ''
run,-,1,1 => of -: 1 steps by '1'
run,Main,7,4294967296 => of Main: 7 steps by '4294967296'
run,Main,7,9 => of Main: 7 steps by '9'
demo,1 => of Demo: 1 boxes
demo,9 => of Demo: 9 boxes
demo,40 => of Demo: 40 boxes
demo,400 => of Demo: 400 boxes
# no command
 => no command
points-to => no command
alias => no command
run => no command
run,Main => no command
help,Main => no command
explain,Main,m,05,x,100 => no command
explain,Main,m,5,x,100, => no command
# another first word
Points-to,Main,<Main: void main(java.lang.String[])>,5,x,100 => no command
points-to ,Main,<Main: void main(java.lang.String[])>,5,x,100 => no command
pointsto,Main,<Main: void main(java.lang.String[])>,5,x,100 => no command
explains,Main,<Main: void main(java.lang.String[])>,5,x,100 => no command
alias,Main,<Main: void main(java.lang.String[])>,5,x,100 => no command
points-to,Main,<Main: void main(java.lang.String[])>,5,x,y,100 => no command
aliases,Main,<Main: void main(java.lang.String[])>,5,x,y,100 => no command
Run,Main,10,- => no command
,Main,10,- => no command
# one word more or less
points-to,Main,<Main: void main(java.lang.String[])>,5,x => no command
points-to,Main,<Main: void main(java.lang.String[])>,5,100 => no command
points-to,Main,<Main: void main(java.lang.String[])>,5,x,100, => no command
points-to,Main,<Main: void main(java.lang.String[])>,5,x,100,100 => no command
alias,Main,<Main: void main(java.lang.String[])>,5,x,y => no command
alias,Main,<Main: void main(java.lang.String[])>,5,x,y,100,100 => no command
run,Main,10 => no command
run,Main,10,-,- => no command
run,Main,10,1, => no command
# numbers in other forms
points-to,Main,<Main: void main(java.lang.String[])>,05,x,100 => no command
points-to,Main,<Main: void main(java.lang.String[])>,00,x,100 => no command
points-to,Main,<Main: void main(java.lang.String[])>,,x,100 => no command
points-to,Main,<Main: void main(java.lang.String[])>,-1,x,100 => no command
points-to,Main,<Main: void main(java.lang.String[])>,5,x,0100 => no command
points-to,Main,<Main: void main(java.lang.String[])>,5,x,+100 => no command
points-to,Main,<Main: void main(java.lang.String[])>,5,x,100  => no command
points-to,Main,<Main: void main(java.lang.String[])>,5,x,1e2 => no command
points-to,Main,<Main: void main(java.lang.String[])>,4294967296,x,100 => no command
points-to,Main,<Main: void main(java.lang.String[])>,5,x,4294967296 => no command
points-to,Main,<Main: void main(java.lang.String[])>,5,x,18446744073709551616 => no command
alias,Main,<Main: void main(java.lang.String[])>,05,x,y,100 => no command
alias,Main,<Main: void main(java.lang.String[])>,5,x,y,0100 => no command
alias,Main,<Main: void main(java.lang.String[])>,4294967296,x,y,100 => no command
alias,Main,<Main: void main(java.lang.String[])>,5,x,y,4294967296 => no command
alias,Main,<Main: void main(java.lang.String[])>,x,5,y,100 => no command
# too many steps, or steps in another form
run,Main,1000001,- => no command
run,Main,4294967296,- => no command
run,Main,010,- => no command
run,Main,,- => no command
run,Main,-,10 => no command
# no choices, or other characters among them
run,Main,10, => no command
run,Main,10,-- => no command
run,Main,10,1-2 => no command
run,Main,10,-1 => no command
run,Main,10,1 2 => no command
run,Main,10,12/: => no command
# no box or too many, or their number in another form, or another word
demo => no command
demo, => no command
demo,0 => no command
demo,401 => no command
demo,4294967297 => no command
demo,040 => no command
demo,+40 => no command
demo,40  => no command
demo,40,1 => no command
demo,Main,40 => no command
Demo,40 => no command
demo 40 => no command
40 => no command";

// The same about certificates.
const REPLAYS: &str = "replay,Main,100 => of Main: a certificate, within 100
replay,,0 => of : a certificate, within 0
replay,replay,4294967295 => of replay: a certificate, within 4294967295
# a budget in another form, too large or wanting, or another word
replay => no command
replay,Main => no command
replay,Main, => no command
replay,Main,0100 => no command
replay,Main,4294967296 => no command
replay,Main,-1 => no command
replay,Main,100,0 => no command
replay,Main,<Main: void main(java.lang.String[])>,5,x,100 => no command
Replay,Main,100 => no command";

// The same about batches.
const BATCHES: &str = "batch,Main,100 => of Main: a batch, within 100 each
batch,,0 => of : a batch, within 0 each
batch,batch,4294967295 => of batch: a batch, within 4294967295 each
batch => no command
batch,Main => no command
batch,Main,0100 => no command
batch,Main,4294967296 => no command
batch,Main,100,0 => no command
Batch,Main,100 => no command";

// The same about protocols, which any word may spell.
const TYPESTATES: &str =
    "typestate,Main,F closed;closed open opened,100 => of Main: 'F closed;closed open opened', within 100
typestate,,,0 => of : '', within 0
typestate,typestate,0,4294967295 => of typestate: '0', within 4294967295
# a budget in another form or too large, a word less or more, or another first word
typestate,Main,F s,0100 => no command
typestate,Main,F s,4294967296 => no command
typestate,Main,100,F s => no command
typestate,Main,100 => no command
typestate,Main,F,s,100 => no command
typestate,Main,F s,100, => no command
typestates,Main,F s,100 => no command";

// The same about paths: here a semicolon stands between the words.
const PATHS: &str = "paths;Main;m;5;x;A:f;100 => of Main: m at 5, x along A:f, within 100
paths;;;0;;[];0 => of :  at 0,  along [], within 0
paths;Main;m;5;x;[],a.B:c,'d':<e>,[];4294967295 => of Main: m at 5, x along [],a.B:c,'d':<e>,[], within 4294967295
paths;Main;m;5;x;[]:[],ä:ö;1 => of Main: m at 5, x along []:[],ä:ö, within 1
# a number in another form or too large, a word less or more, or another first word
paths;Main;m;05;x;A:f;100 => no command
paths;Main;m;4294967296;x;A:f;100 => no command
paths;Main;m;5;x;A:f;0100 => no command
paths;Main;m;5;x;A:f => no command
paths;Main;m;5;x;100 => no command
paths;Main;m;5;x;A:f;100; => no command
Paths;Main;m;5;x;A:f;100 => no command
path;Main;m;5;x;A:f;100 => no command
# no field, or five
paths;Main;m;5;x;;100 => no command
paths;Main;m;5;x;[],[],[],[],[];100 => no command
# a part that is no field
paths;Main;m;5;x;A:f,;100 => no command
paths;Main;m;5;x;,A:f;100 => no command
paths;Main;m;5;x;A:f,,A:f;100 => no command
paths;Main;m;5;x;A;100 => no command
paths;Main;m;5;x;:f;100 => no command
paths;Main;m;5;x;A:;100 => no command
paths;Main;m;5;x;A:f:g;100 => no command
paths;Main;m;5;x;A: f;100 => no command
paths;Main;m;5;x;A:f, [];100 => no command
paths;Main;m;5;x;A:f\t;100 => no command
paths;Main;m;5;x;\u{c}A:f;100 => no command
paths;Main;m;5;x;A:f\r;100 => no command
paths;Main;m;5;x;[ ];100 => no command
paths;Main;m;5;x;[;100 => no command";

// The same about narrowed programs.
const REFINED: &str = "refined,Main,m,5,x,0,100 => of Main: m at 5, x in 0 rounds, within 100
refined,,,0,,8,4294967295 => of :  at 0,  in 8 rounds, within 4294967295
# a number in another form or too large, too many rounds, a word less or more, or another first word
refined,Main,m,05,x,1,100 => no command
refined,Main,m,4294967296,x,1,100 => no command
refined,Main,m,5,x,9,100 => no command
refined,Main,m,5,x,10,100 => no command
refined,Main,m,5,x,01,100 => no command
refined,Main,m,5,x,,100 => no command
refined,Main,m,5,x,-1,100 => no command
refined,Main,m,5,x,1,0100 => no command
refined,Main,m,5,x,1,4294967296 => no command
refined,Main,m,5,x,100 => no command
refined,Main,m,5,x,1,1,100 => no command
Refined,Main,m,5,x,1,100 => no command
refine,Main,m,5,x,1,100 => no command";

fn of_one(alloc: Global, a: &Asked<'_>) -> Result<String, AllocError> {
    format!(in alloc;
        "{} at {}, {}, within {}",
        a.method, a.index, a.local, a.budget
    )
}

fn of_both(alloc: Global, a: &Asked<'_>, second: &str) -> Result<String, AllocError> {
    format!(in alloc;
        "{} at {}, {} and {}, within {}",
        a.method, a.index, a.local, second, a.budget
    )
}

fn of_run(alloc: Global, a: &Running<'_>) -> Result<String, AllocError> {
    let mut choices = String::new(alloc);
    for choice in a.choices {
        choices.push(*choice as char)?;
    }
    format!(in alloc; "{} steps by '{}'", a.steps, choices.as_str())
}

// What a query asks for.
fn asked_of(alloc: Global, query: &Query<'_>) -> Result<String, AllocError> {
    match query {
        Query::PointsTo(a) => of_one(alloc, a),
        Query::Alias { asked, second } => of_both(alloc, asked, second),
        Query::Explain(a) => format!(in alloc;
            "why {} at {}, {}, within {}",
            a.method, a.index, a.local, a.budget
        ),
        Query::Paths { asked: a, fields } => format!(in alloc;
            "{} at {}, {} along {}, within {}",
            a.method, a.index, a.local, fields, a.budget
        ),
        Query::Refined { asked: a, rounds } => format!(in alloc;
            "{} at {}, {} in {} rounds, within {}",
            a.method, a.index, a.local, rounds, a.budget
        ),
        Query::Run(a) => of_run(alloc, a),
        Query::Replay { budget } => format!(in alloc; "a certificate, within {budget}"),
        Query::Typestate(a) => format!(in alloc; "'{}', within {}", a.protocol, a.budget),
        Query::Batch { budget } => format!(in alloc; "a batch, within {budget} each"),
        Query::Demo { boxes } => format!(in alloc; "{boxes} boxes"),
    }
}

fn asked_in(alloc: Global, entry: &str, query: &Query<'_>) -> Result<String, AllocError> {
    let text = asked_of(alloc, query)?;
    format!(in alloc; "of {}: {}", entry, text.as_str())
}

// What words ask for.
fn asked(alloc: Global, words: &[String]) -> Result<String, AllocError> {
    match read_words(alloc, words)? {
        None => String::from_str(alloc, OTHER),
        Some(command) => asked_in(alloc, command.entry, &command.query),
    }
}

fn words_of(alloc: Global, line: &str, mark: char) -> Result<Vec<String>, AllocError> {
    let mut words = Vec::new(alloc);
    for word in line.split(mark) {
        words.push(String::from_str(alloc, word)?)?;
    }
    Ok(words)
}

fn asks_for(alloc: Global, words: &[String], wanted: &str) -> Result<bool, AllocError> {
    let text = asked(alloc, words)?;
    Ok(text.as_str() == wanted)
}

// Whether a row is right. One that begins with `#` says what the next ones show.
fn is_right(alloc: Global, row: &str, mark: char) -> Result<bool, AllocError> {
    match row.split_once(" => ") {
        Some((line, wanted)) => {
            let words = words_of(alloc, line, mark)?;
            asks_for(alloc, &words, wanted)
        }
        None => Ok(row.starts_with("# ")),
    }
}

// The first row that is wrong, where the mark stands between words.
fn first_wrong(
    alloc: Global,
    rows: &'static str,
    mark: char,
) -> Result<Option<&'static str>, AllocError> {
    for row in rows.lines() {
        if !is_right(alloc, row, mark)? {
            return Ok(Some(row));
        }
    }
    Ok(None)
}

#[test]
fn reads_words(rt: HostRuntime) -> Result<(), Fail> {
    assert_eq!(rt; first_wrong(rt.alloc(), ROWS, ',')?, None);
    assert!(rt; asks_for(rt.alloc(), &[], OTHER)?);
    Ok(())
}

#[test]
fn reads_words_of_replays(rt: HostRuntime) -> Result<(), Fail> {
    assert_eq!(rt; first_wrong(rt.alloc(), REPLAYS, ',')?, None);
    Ok(())
}

#[test]
fn reads_words_of_batches(rt: HostRuntime) -> Result<(), Fail> {
    assert_eq!(rt; first_wrong(rt.alloc(), BATCHES, ',')?, None);
    Ok(())
}

#[test]
fn reads_words_of_typestates(rt: HostRuntime) -> Result<(), Fail> {
    assert_eq!(rt; first_wrong(rt.alloc(), TYPESTATES, ',')?, None);
    Ok(())
}

#[test]
fn reads_words_of_paths(rt: HostRuntime) -> Result<(), Fail> {
    assert_eq!(rt; first_wrong(rt.alloc(), PATHS, ';')?, None);
    Ok(())
}

#[test]
fn reads_words_of_narrowed_programs(rt: HostRuntime) -> Result<(), Fail> {
    assert_eq!(rt; first_wrong(rt.alloc(), REFINED, ',')?, None);
    Ok(())
}

// The fields that a word spells, each with a blank before it.
fn fields_of(alloc: Global, word: &str) -> Result<String, AllocError> {
    let mut text = String::new(alloc);
    let Some(fields) = read_fields(alloc, word)? else {
        return String::from_str(alloc, OTHER);
    };
    for field in fields.as_slice() {
        match field {
            FieldWord::Cells => text.push_str(" cells")?,
            FieldWord::Named { class, name } => {
                text.push_str(" ")?;
                text.push_str(name)?;
                text.push_str(" of ")?;
                text.push_str(class)?;
            }
        }
    }
    Ok(text)
}

#[test]
fn reads_fields(rt: HostRuntime) -> Result<(), Fail> {
    for (word, expected) in [
        ("[]", " cells"),
        ("A:f", " f of A"),
        ("a.B:c,[],x:y,[]", " c of a.B cells y of x cells"),
        ("[]:[]", " [] of []"),
        ("A:f,A", OTHER),
        ("", OTHER),
    ] {
        assert_eq!(rt; fields_of(rt.alloc(), word)?.as_str(), expected, "{word}");
    }
    Ok(())
}

// Whether so many digits are choices of a run.
fn names_choices(alloc: Global, count: u32) -> Result<bool, AllocError> {
    let mut line = String::from_str(alloc, "run,Main,10,")?;
    for _ in 0..count {
        line.push('7')?;
    }
    let words = words_of(alloc, line.as_str(), ',')?;
    Ok(!asks_for(alloc, &words, OTHER)?)
}

#[test]
fn counts_choices(rt: HostRuntime) -> Result<(), Fail> {
    for (count, expected) in [(1, true), (999, true), (1000, true), (1001, false)] {
        assert_eq!(rt; names_choices(rt.alloc(), count)?, expected, "{count}");
    }
    Ok(())
}
