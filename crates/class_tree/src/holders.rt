ghost use Rattle.std.specs.Prelude.{◌≡◌, ◌<◌, ◌↔◌, length, All, Contains, IfOk, slice_index};
ghost use Rattle.class_tree.specs.declared.first_rows.Member.{Member};
ghost use Rattle.class_tree.specs.Holders.{AreHolders, IsInterface, few_of, holders_of};

use super::first_rows::Member;
use super::key_spans::{classes_by_key, keys_of};
use class_order::Groups;
use class_rules::ClassRow;
use number_sets::SortedSet;
use std::alloc::{AllocError, Global};

// So many interfaces are few: a look-up may go over them one by one.
const FEW: usize = 4;

/// For each key the interfaces that have a member of it. The key is found by halves.
#[derive(Drop)]
pub struct Holders {
    keys: SortedSet,
    interfaces: Groups<u32>,
}

// Those of the members that are in interfaces.
fn in_interfaces(
    alloc: Global,
    classes: &[ClassRow],
    members: &[Member],
) -> Result<Vec<Member>, AllocError>
    requires { All (λ m. m.class < length classes.now) members.now }
    ensures { IfOk result (λ found. (m : Member) → Contains found.items m ↔ Contains members.now m × IsInterface classes.now m.class) }
{
    let mut found = Vec::new(alloc);
    for member in members {
        if classes[member.class as usize].interface {
            found.push(*member)?;
        }
    }
    Ok(found)
}

// The rank of the class, or 0 where there is none.
fn rank_of(ranks: &[u32], class: u32) -> u32
    ensures { result ≡ slice_index ranks.now class }
{
    ranks.get(class as usize).copied().unwrap_or(0)
}

impl Holders {
    /// The interfaces of each key of the members, those with higher ranks first.
    pub fn new(
        alloc: Global,
        classes: &[ClassRow],
        members: &[Member],
        ranks: &[u32],
    ) -> Result<Self, AllocError>
        requires { All (λ m. m.class < length classes.now) members.now }
        ensures { IfOk result (AreHolders classes.now members.now) }
    {
        let mut found = in_interfaces(alloc, classes, members)?;
        // Those below others, with higher ranks, come first, so that a look-up soon meets what hides
        // the others.
        found.sort_unstable_by_key(|member| u32::MAX - rank_of(ranks, member.class));
        let keys = keys_of(alloc, found.as_slice())?;
        let interfaces = classes_by_key(alloc, found.as_slice(), &keys)?;
        Ok(Holders { keys, interfaces })
    }

    /// The interfaces with a member of this key. One with more such members may stand there more
    /// than once.
    pub fn of(&self, key: u32) -> &[u32]
        requires { length self.now.interfaces ≡ length self.now.keys }
        ensures { result.now ≡ holders_of self.now key }
    {
        match self.keys.index_of(key) {
            Some(at) => self.interfaces.get(at),
            None => &[],
        }
    }

    /// The interfaces with a member of this key, where these are few, and none where they are more.
    pub fn few(&self, key: u32) -> &[u32]
        requires { length self.now.interfaces ≡ length self.now.keys }
        ensures { result.now ≡ few_of self.now key }
    {
        let all = self.of(key);
        if all.len() <= FEW { all } else { &[] }
    }
}
