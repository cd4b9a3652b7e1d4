//! The numbers of rows that are linked, and the texts of types.
use jim_ast::{Base, NameId, Names, Ty};
use link_codes::push_type;
use link_program::Numbering;
use lists::NoMemory;
use std::alloc::Global;
use std::test::Fail;

// The numbering of the rows 1, 4 and 5 of seven.
fn three_rows(alloc: Global) -> Result<Numbering, NoMemory> {
    let rows = Vec::from_slice(alloc, &[1, 4, 5])?;
    Numbering::new(alloc, rows, 7)
}

fn are_numbered(numbering: &Numbering) -> bool {
    let inside = numbering.number(1) == Some(0)
        && numbering.number(4) == Some(1)
        && numbering.number(5) == Some(2);
    let outside = numbering.number(0).is_none()
        && numbering.number(6).is_none()
        && numbering.number(7).is_none();
    inside && outside && numbering.rows() == [1, 4, 5].as_slice()
}

fn numbers_hold(alloc: Global) -> Result<bool, NoMemory> {
    let numbering = three_rows(alloc)?;
    Ok(are_numbered(&numbering))
}

#[test]
fn numbers(rt: HostRuntime) -> Result<(), Fail> {
    assert!(rt; numbers_hold(rt.alloc())?);
    Ok(())
}

#[test]
fn types(rt: HostRuntime) -> Result<(), Fail> {
    let mut names = Names::new(rt.alloc());
    let class = names.add("a.B")?;
    let ids = [class];
    let table = [
        (Base::Int, 0, "int"),
        (Base::NullType, 0, "null_type"),
        (Base::Boolean, 2, "boolean[][]"),
        (Base::Class(NameId(0)), 1, "a.B[]"),
    ];
    for (base, dims, expected) in table {
        let mut text = String::new(rt.alloc());
        push_type(&mut text, &names, &ids, Ty { base, dims })?;
        assert_eq!(rt; text.as_str(), expected);
    }
    Ok(())
}
