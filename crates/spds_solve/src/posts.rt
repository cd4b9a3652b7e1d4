//! What is known of the call strings at the ends of stores.
ghost use Rattle.std.specs.Prelude.{◌≡◌, ◌↔◌, ℕ, [], false, IfOk, OnOk};
ghost use Rattle.lists.specs.Lists.{Has, Adds};
ghost use Rattle.spds_solve.specs.declared.heads.Head.{Head as AHead};
ghost use Rattle.spds_solve.specs.declared.posts.Post.{Post as APost};
ghost use Rattle.spds_solve.specs.Posts.{IsPosted, key_at, Knows, post_of};

use super::heads::Head;
use lists::{ByKey, NoMemory, Numbered};
use post_star::key::Key;
use std::alloc::Global;

/// At an end of the store, call strings of the site begin so.
#[derive(Clone, Copy, Debug, PartialEq, Eq)]
pub struct Post {
    pub store: u32,
    pub head: Head,
    pub site: u32,
}

impl lists::Key for Post {
    ghost use Rattle.std.proofs.Common.{rules};
    ghost use Rattle.spds_solve.specs.Posts.{post_spread};

    ghost spread = { post_spread };

    fn spread(self) -> u64 {
        let place = self.store as u64 * 4_294_967_296 + self.site as u64;
        match self.head {
            Head::Any => place,
            Head::Mark(mark) => {
                place.wrapping_add((mark as u64).wrapping_mul(14_029_467_366_897_019_727))
            }
        }
    }

    ghost same = { Prim.search rules };
}

/// The key of a head at a store.
fn key_of(store: u32, head: Head) -> Key
    ensures { result ≡ key_at store head }
{
    match head {
        Head::Any => Key::Node(store),
        Head::Mark(mark) => Key::Marked { node: store, mark },
    }
}

/// What is known of one end of all stores.
#[derive(Drop)]
pub struct Posts {
    posts: Numbered<Post>,
    /// The sites by store and head.
    by_head: ByKey<Key, u32>,
    /// The sites by store, each once for each of its heads.
    by_store: ByKey<Key, u32>,
}

impl Posts {
    /// Nothing is known. Takes no memory.
    pub fn new(alloc: Global) -> Self
        ensures posted { IsPosted result }
        ensures none { (post : APost) → Knows result post → ⊥ }
    {
        Posts {
            posts: Numbered::new(alloc),
            by_head: ByKey::new(alloc),
            by_store: ByKey::new(alloc),
        }
    }

    /// The sites with a head at a store. Takes no memory.
    pub fn with_head(&self, store: u32, head: Head) -> &[u32]
        requires { IsPosted self.now }
        ensures { (site : ℕ) → Has result.now site ↔ Knows self.now (post_of store head site) }
    {
        self.by_head.at(key_of(store, head))
    }

    /// The sites with any head at a store. Takes no memory.
    pub fn at_store(&self, store: u32) -> &[u32]
        requires { IsPosted self.now }
        ensures { (site : ℕ) → Has result.now site ↔ ((head : AHead) × Knows self.now (post_of store head site)) }
    {
        self.by_store.at(Key::Node(store))
    }

    /// Puts a post in; `false` says that it was known.
    pub fn add(&mut self, post: Post) -> Result<bool, NoMemory>
        ensures old { IfOk result (λ new. (new ≡ false) ↔ Knows self.old post) }
        ensures adds { OnOk result (Adds self.old.posts.keys post self.new.posts.keys) }
        ensures posted { OnOk result (IsPosted self.old → IsPosted self.new) }
    {
        let (_, is_new) = self.posts.add(post)?;
        if !is_new {
            return Ok(false);
        }
        self.by_head.add(key_of(post.store, post.head), post.site)?;
        self.by_store.add(Key::Node(post.store), post.site)?;
        Ok(true)
    }
}
