//! The locals and the labels of a body, by name.
use jim_ast::{Body, Label, List, NameId};
use link_bodies::BodyIndex;
use lists::NoMemory;
use std::alloc::Global;
use std::test::Fail;

// A body of locals and labels alone.
fn body(alloc: Global, locals: &[u32], labels: &[(u32, u32)]) -> Result<Body, NoMemory> {
    let locals: Vec<NameId> = locals.iter().map(|name| NameId(*name)).collect(alloc)?;
    let labels: Vec<Label> = labels
        .iter()
        .map(|label| Label {
            name: NameId(label.0),
            index: label.1,
        })
        .collect(alloc)?;
    Ok(Body {
        locals: List::from_vec(locals),
        stmts: List::from_vec(Vec::new(alloc)),
        labels: List::from_vec(labels),
        traps: List::from_vec(Vec::new(alloc)),
    })
}

// The index of a body is made in one function and asked in another, since the prover goes over it at each way out of the function that owns it.
fn the_first_count(index: &BodyIndex<'_>) -> bool {
    let locals = index.local(NameId(7)) == Some(0)
        && index.local(NameId(3)) == Some(1)
        && index.local(NameId(4)).is_none();
    let labels = index.label(NameId(4)) == Some(5)
        && index.label(NameId(9)) == Some(8)
        && index.label(NameId(3)) == Some(0)
        && index.label(NameId(7)).is_none();
    locals
        && labels
        && index.repeats_local()
        && index.repeated_label() == Some(2)
        && index.body().labels.as_slice().len() == 5
}

fn the_first_count_of(alloc: Global, body: &Body) -> Result<bool, NoMemory> {
    let index = BodyIndex::new(alloc, body)?;
    Ok(the_first_count(&index))
}

fn repeated_names(alloc: Global) -> Result<bool, NoMemory> {
    let body = body(alloc, &[7, 3, 7], &[(4, 5), (9, 8), (4, 6), (9, 2), (3, 0)])?;
    the_first_count_of(alloc, &body)
}

#[test]
fn the_first_of_a_name_counts(rt: HostRuntime) -> Result<(), Fail> {
    assert!(rt; repeated_names(rt.alloc())?);
    Ok(())
}

fn are_apart(alloc: Global, body: &Body) -> Result<bool, NoMemory> {
    let index = BodyIndex::new(alloc, body)?;
    Ok(!index.repeats_local() && index.repeated_label().is_none())
}

fn names_of_two_kinds(alloc: Global) -> Result<bool, NoMemory> {
    let body = body(alloc, &[7, 3], &[(7, 1), (3, 1)])?;
    are_apart(alloc, &body)
}

#[test]
fn names_apart(rt: HostRuntime) -> Result<(), Fail> {
    assert!(rt; names_of_two_kinds(rt.alloc())?);
    Ok(())
}
