//! Names.
use jim_ast::{NameId, Names};
use lists::NoMemory;
use std::test::Fail;

// Adds a text, once more where there was no memory.
fn added(names: &mut Names, text: &str) -> Result<(NameId, bool), NoMemory> {
    let before = names.len();
    match names.add(text) {
        Ok(id) => Ok((id, true)),
        Err(_) => {
            let kept = names.len() == before && names.find(text).is_none();
            Ok((names.add(text)?, kept))
        }
    }
}

#[test]
fn names_go_on(rt: HostRuntime) -> Result<(), Fail> {
    let alloc = rt.alloc();
    let mut names = Names::new(alloc);
    for number in 0..40u32 {
        let text = "abcdefghijklmnopqrstuvwxyz0123456789ABCD";
        let part = text.get(number as usize..).unwrap_or("");
        let (id, kept) = added(&mut names, part)?;
        assert!(rt; kept && id == NameId(number));
        assert!(rt; names.find(part) == Some(id));
    }
    assert_eq!(rt; names.len(), 40);
    Ok(())
}
