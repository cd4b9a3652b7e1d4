//! The set of names, and the types of lists and names.
use jim_ast::{List, Name, NameId, Names};
use std::test::Fail;

#[test]
fn names(rt: HostRuntime) -> Result<(), Fail> {
    let mut names = Names::new(rt.alloc());
    assert_eq!(rt; names.len(), 0);
    assert!(rt; names.find("").is_none());
    let rows = [
        ("a", 0, 1),
        ("b", 1, 2),
        ("a", 0, 2),
        ("", 2, 3),
        ("java.lang.Object", 3, 4),
        ("b", 1, 4),
        ("é", 4, 5),
        ("", 2, 5),
    ];
    for (text, number, len) in rows {
        let known = names.find(text);
        let id = names.add(text)?;
        assert_eq!(rt; id.0, number, "{text}");
        assert_eq!(rt; names.len(), len, "{text}");
        assert!(rt; known.is_none() || known == Some(id), "{text}");
        assert!(rt; names.find(text) == Some(id), "{text}");
        assert_eq!(rt; names.text(id), text);
    }
    assert!(rt; names.find("A").is_none());
    Ok(())
}

#[test]
fn own_types(rt: HostRuntime) -> Result<(), Fail> {
    let name = Name::from_string(String::from_str(rt.alloc(), "<init>")?);
    assert_eq!(rt; name.as_str(), "<init>");
    let list = List::from_vec(vec![in rt.alloc(); 3u32, 1, 2]?);
    assert!(rt; list.as_slice() == [3, 1, 2].as_slice());
    Ok(())
}

// 24 bytes, behind which any 8 give a text that the kit's hasher folds to one number.
const FRONT: &str = "huFyjFnloDfToYLUuA8mDHyS";

#[test]
fn names_of_one_hash(rt: HostRuntime) -> Result<(), Fail> {
    let mut names = Names::new(rt.alloc());
    for number in 0..300u32 {
        let text = format!(in rt.alloc(); "{}{:08}", FRONT, number)?;
        assert_eq!(rt; names.add(&text)?.0, number);
    }
    for number in 0..300u32 {
        let text = format!(in rt.alloc(); "{}{:08}", FRONT, number)?;
        assert!(rt; names.find(&text) == Some(NameId(number)));
        assert_eq!(rt; names.add(&text)?.0, number);
    }
    assert_eq!(rt; names.len(), 300);
    Ok(())
}
