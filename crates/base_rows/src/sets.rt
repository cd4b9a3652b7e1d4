//! Sets of numbers, and what is kept for numbers: none, one twice, out of order, the largest, and numbers that aren't there.
use number_sets::{MarkedSet, NumberTable, SortedSet};
use std::alloc::{AllocError, Global};
use std::test::Fail;

/// Whether the set of some numbers is these in order, each found at its index and each of the others nowhere.
fn sorts(
    alloc: Global,
    numbers: &[u32],
    wanted: &[u32],
    others: &[u32],
) -> Result<bool, AllocError> {
    let set = SortedSet::new(Vec::from_slice(alloc, numbers)?);
    let found = wanted
        .iter()
        .enumerate()
        .all(|(at, number)| set.index_of(*number) == Some(at));
    let missed = others.iter().all(|number| set.index_of(*number).is_none());
    Ok(set.as_slice() == wanted && set.len() == wanted.len() && found && missed)
}

#[test]
fn sorted(rt: HostRuntime) -> Result<(), Fail> {
    let alloc = rt.alloc();
    assert!(rt; sorts(alloc, &[], &[], &[0, u32::MAX])?);
    assert!(rt; sorts(alloc, &[7, 7], &[7], &[6, 8])?);
    assert!(rt;
        sorts(
            alloc,
            &[u32::MAX, 3, 0, 3, 12],
            &[0, 3, 12, u32::MAX],
            &[1, 4, 13, u32::MAX - 1]
        )?
    );
    Ok(())
}

/// Whether a set into which these are put, one after the other, tells each time whether the number is new.
fn tells_new(set: &mut MarkedSet, puts: &[(u32, bool)]) -> Result<bool, AllocError> {
    let mut told = true;
    for (number, is_new) in puts {
        told = told && set.insert(*number)? == *is_new;
    }
    Ok(told)
}

/// Whether a set has these numbers in this order, and none of the others.
fn has_those(set: &MarkedSet, wanted: &[u32], others: &[u32]) -> bool {
    let found = wanted.iter().all(|number| set.contains(*number));
    let missed = others.iter().all(|number| !set.contains(*number));
    set.as_slice() == wanted
        && set.len() == wanted.len()
        && set.get(0) == wanted.first().copied()
        && set.get(wanted.len()).is_none()
        && found
        && missed
}

/// Whether the set of these numbers has them in this order, and none of the others.
fn marks(
    alloc: Global,
    puts: &[(u32, bool)],
    wanted: &[u32],
    others: &[u32],
) -> Result<bool, AllocError> {
    let mut set = MarkedSet::new(alloc);
    Ok(tells_new(&mut set, puts)? && has_those(&set, wanted, others))
}

#[test]
fn marked(rt: HostRuntime) -> Result<(), Fail> {
    let alloc = rt.alloc();
    assert!(rt; marks(alloc, &[], &[], &[0, u32::MAX])?);
    assert!(rt; marks(alloc, &[(0, true), (0, false)], &[0], &[1])?);
    assert!(rt;
        marks(
            alloc,
            &[
                (1000, true),
                (3, true),
                (1000, false),
                (64, true),
                (3, false)
            ],
            &[1000, 3, 64],
            &[0, 2, 4, 63, 65, 999, 1001]
        )?
    );
    Ok(())
}

/// Whether a table gives for each number what was put last for it, and nothing for others.
fn keeps_last(alloc: Global) -> Result<bool, AllocError> {
    let mut table = NumberTable::new(alloc);
    let none = table.get(0).is_none();
    for (number, value) in [(7, 70), (u32::MAX, 1), (0, 5), (7, 71)] {
        table.put(number, value)?;
    }
    let kept = table.get(7) == Some(&71) && table.get(0) == Some(&5);
    Ok(none && kept && table.get(u32::MAX) == Some(&1) && table.get(6).is_none())
}

#[test]
fn kept(rt: HostRuntime) -> Result<(), Fail> {
    assert!(rt; keeps_last(rt.alloc())?);
    Ok(())
}
