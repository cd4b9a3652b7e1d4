//! Keys by number, around each growth and along chains, and items by key.
use lists::{Groups, Key, Keyed, Numbered};
use std::alloc::{AllocError, Global};
use std::test::Fail;

/// A node in a row.
#[derive(Clone, Copy, Debug, PartialEq, Eq)]
struct Spot {
    row: u32,
    node: u32,
}

impl Key for Spot {
    ghost use Rattle.std.specs.Prelude.{◌+◌, ◌*◌, ◌^◌};
    ghost use Rattle.std.proofs.Common.{rules};

    ghost spread = { λ s. s.row * 2 ^ 32 + s.node };

    fn spread(self) -> u64 {
        self.row as u64 * 4_294_967_296 + self.node as u64
    }

    ghost same = { Prim.search rules };
}

/// A key that is spread no better than any other: all stand on one chain.
#[derive(Clone, Copy, Debug, PartialEq, Eq)]
struct Crowded(u32);

impl Key for Crowded {
    ghost use Rattle.std.proofs.Common.{rules};

    ghost spread = { λ _. 7 };

    fn spread(self) -> u64 {
        7
    }

    ghost same = { Prim.search rules };
}

/// Whether each of so many keys that are put one after the other has its number, before and after, and the one behind them has none.
fn counts<K: Key, F: Fn(u32) -> K>(alloc: Global, many: u32, key: F) -> Result<bool, AllocError>
    requires { F.IsAlwaysCallable key }
{
    let mut numbered = Numbered::new(alloc);
    let mut holds = true;
    for i in 0..many {
        holds = holds && numbered.add(key(i))? == (i, true);
    }
    for i in 0..many {
        holds = holds && numbered.find(key(i)) == Some(i) && numbered.add(key(i))? == (i, false);
    }
    Ok(holds && numbered.find(key(many)).is_none() && numbered.len() == many as usize)
}

/// Around 8 keys, where chains begin, and around each growth.
#[test]
fn one_by_one_and_by_chains(rt: HostRuntime) -> Result<(), Fail> {
    for many in [0, 1, 8, 9, 16, 17, 33, 100] {
        assert!(rt; counts(rt.alloc(), many, |i| i.wrapping_mul(3))?);
        assert!(rt;
            counts(
                rt.alloc(),
                many,
                |i| Spot {
                    row: i / 7,
                    node: i % 7
                }
            )?
        );
        assert!(rt; counts(rt.alloc(), many, Crowded)?);
    }
    Ok(())
}

/// Puts the key after room is made, unless it is there.
fn put_new<K: Key>(numbered: &mut Numbered<K>, key: K) -> Result<Option<u32>, AllocError> {
    if numbered.find(key).is_some() {
        return Ok(None);
    }
    numbered.room()?;
    Ok(Some(numbered.put(key)))
}

/// Whether the last and the first key of one chain are found, and one that isn't there is put.
fn ends_are_found(numbered: &mut Numbered<Crowded>) -> Result<bool, AllocError> {
    for i in 0..20 {
        numbered.add(Crowded(i))?;
    }
    let found = numbered.find(Crowded(19)) == Some(19) && numbered.find(Crowded(0)) == Some(0);
    let put = put_new(numbered, Crowded(0))?.is_none()
        && put_new(numbered, Crowded(20))? == Some(20);
    Ok(found && put && numbered.keys().last() == Some(&Crowded(20)))
}

fn chain_ends(alloc: Global) -> Result<bool, AllocError> {
    let mut numbered = Numbered::new(alloc);
    ends_are_found(&mut numbered)
}

#[test]
fn ends_of_a_chain(rt: HostRuntime) -> Result<(), Fail> {
    assert!(rt; chain_ends(rt.alloc())?);
    Ok(())
}

// Keys that are far apart, one that comes often, and one that has no items.
const ITEMS: [Keyed<u32, u8>; 5] = [
    Keyed { key: 7, item: 1 },
    Keyed {
        key: 4_000_000_000,
        item: 2,
    },
    Keyed { key: 7, item: 3 },
    Keyed { key: 0, item: 4 },
    Keyed { key: 7, item: 3 },
];

/// Whether a key has these items among some. The groups are owned here, and not in a test: the prover goes over them at each way out.
fn has_at(
    alloc: Global,
    items: &[Keyed<u32, u8>],
    key: u32,
    wanted: &[u8],
) -> Result<bool, AllocError> {
    let groups = Groups::of(alloc, items)?;
    Ok(groups.at(key) == wanted)
}

#[test]
fn groups_by_key(rt: HostRuntime) -> Result<(), Fail> {
    let alloc = rt.alloc();
    assert!(rt; has_at(alloc, &ITEMS, 7, &[1, 3, 3])?);
    assert!(rt; has_at(alloc, &ITEMS, 4_000_000_000, &[2])?);
    assert!(rt; has_at(alloc, &ITEMS, 0, &[4])?);
    assert!(rt; has_at(alloc, &ITEMS, 1, &[])?);
    assert!(rt; has_at(alloc, &ITEMS[3..4], 0, &[4])?);
    assert!(rt; has_at(alloc, &ITEMS[3..4], 7, &[])?);
    assert!(rt; has_at(alloc, &[], 0, &[])?);
    Ok(())
}
