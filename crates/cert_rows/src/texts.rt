//! Texts, with what is read of each. In a row `;` stands for a line feed.
use cert_text::{CertError, cert_text, read_cert};
use lists::NoMemory;
use std::alloc::Global;
use std::test::Fail;

// Texts that spell a certificate: it is written as it was read.
const SPELLED: &str =
    "query 1.4.l2;start F 1.0.new;flow F 1 1.1.l0;start C 1.0.new;push C 10 0.0.p0;link C 10 0.0.p0;pop C 12 13 1.3.l2;claim 7 15;
query 0.0!.thrown;
query 4294967295.4294967295.k4294967295;start C 0 0.0.caught;start C 0 4294967295 0.0.this;push F 1 2 0.0.n255;link F 1 2 0.0.n0;pop F 1 2 0.0!.t0;
query 0.0.r255;flow C 1 0.0.r0;base C 1 0.0.p1;meet 3 4;shared 1 2 -;
query 1.1.l0;shared 1,2,3 4 0.1,2.3;shared 1 1,0 0.0;";

// Texts that spell none, behind the first line that isn't one of a certificate.
const REFUSED: &str = "0 
0 ;
0 query 1.4.l2 
0 query 1.4
0 query 1.4.l2.0
0 query 1.4.l
0 query 1.4.x2
0 query 1!.4.l2
0 query 1.4!!.l2
0 query 1.04.l2
0 query 1.4.r256
0 query 1.4.n256
0 query 1.4294967296.l2
0 Query 1.4.l2
0 claim 1 2;
# An empty line behind the last line feed but one is a line.
1 query 1.4.l2;;
0 query 1.4.l2\r;
1 query 1.4.l2;claim 1 2\r;
2 query 1.4.l2;claim 1 2;;
1 query 1.4.l2;claim 1  2;
1 query 1.4.l2; claim 1 2;
1 query 1.4.l2;claim 1 +2;
1 query 1.4.l2;claim 01 2;
1 query 1.4.l2;claim 4294967296 1;
1 query 1.4.l2;claim 1 2 3;
1 query 1.4.l2;start F 1 1.0.new;
1 query 1.4.l2;push F 1 1.0.new;
1 query 1.4.l2;base F 1 1.0.new;
1 query 1.4.l2;flow G 1 1.0.new;
1 query 1.4.l2;shared 1 2 1.2!;
1 query 1.4.l2;shared 1, 2 -;
1 query 1.4.l2;shared - 2 -;
1 query 1.4.l2;shared 1 2 1.2,;";

// One that is no text.
const NO_TEXT: &[u8] = b"query 1.4.l2\nclaim 1 2\nclaim 1 \xff\n";

// Whether the certificate that the text spells is written as it was read.
fn is_read_back(alloc: Global, text: &[u8]) -> Result<bool, NoMemory> {
    match read_cert(alloc, text) {
        Ok(certificate) => Ok(cert_text(alloc, &certificate)?.as_slice() == text),
        Err(_) => Ok(false),
    }
}

// The first row that isn't written as it was read.
fn first_lost(alloc: Global) -> Result<Option<&'static str>, NoMemory> {
    for row in SPELLED.lines() {
        let text = row.replace(alloc, ";", "\n")?;
        if !is_read_back(alloc, text.as_bytes())? {
            return Ok(Some(row));
        }
    }
    Ok(None)
}

#[test]
fn certificates(rt: HostRuntime) -> Result<(), Fail> {
    assert_eq!(rt; first_lost(rt.alloc())?, None);
    Ok(())
}

// The first line that isn't one of a certificate.
fn bad_line(alloc: Global, text: &[u8]) -> Option<u32> {
    match read_cert(alloc, text) {
        Err(CertError::NotCertificate { at }) => Some(at),
        _ => None,
    }
}

fn is_refused(alloc: Global, row: &str) -> Result<bool, NoMemory> {
    let Some((line, text)) = row.split_once(' ') else {
        return Ok(false);
    };
    let text = text.replace(alloc, ";", "\n")?;
    let line = line.parse::<u32>().ok();
    Ok(line.is_some() && bad_line(alloc, text.as_bytes()) == line)
}

// The first row that isn't refused so.
fn first_taken(alloc: Global) -> Result<Option<&'static str>, NoMemory> {
    for row in REFUSED.lines() {
        if !row.starts_with("# ") && !is_refused(alloc, row)? {
            return Ok(Some(row));
        }
    }
    Ok(None)
}

#[test]
fn other_texts(rt: HostRuntime) -> Result<(), Fail> {
    assert_eq!(rt; first_taken(rt.alloc())?, None);
    assert_eq!(rt; bad_line(rt.alloc(), NO_TEXT), Some(2));
    Ok(())
}

#[test]
fn last_line_feed(rt: HostRuntime) -> Result<(), Fail> {
    // It may lack.
    assert_eq!(rt; bad_line(rt.alloc(), b"query 0.0.l0"), None);
    assert_eq!(rt; bad_line(rt.alloc(), b"query 0.0.l0\nclaim 1 2"), None);
    Ok(())
}
