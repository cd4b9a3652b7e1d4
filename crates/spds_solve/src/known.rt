//! What is known of both ends of stores, and the pairs of sites that wait for a common call string.
ghost use Rattle.std.specs.Prelude.{◌≡◌, ◌⊎◌, ◌<◌, ℕ, List, length, IfOk, OnOk};
ghost use Rattle.lists.specs.Lists.{Has};
ghost use Rattle.spds_solve.specs.declared.heads.Head.TheVariants.{Mark};
ghost use Rattle.spds_solve.specs.declared.met.Met.{Met as AMet};
ghost use Rattle.spds_solve.specs.Known.{AreSeen, AreStillAt, FitsAt, IsInRange, IsKnown, IsPairOf, Keeps, met_at, posts_at};
ghost use Rattle.spds_solve.specs.Posts.{IsPosted, Knows};
ghost use Rattle.spds_tables.specs.declared.numbered.Met.{Met as ANumbers};
ghost use Rattle.spds_tables.specs.declared.parts.Parts.{Parts as AParts};

use super::ends::End;
use super::heads::Head;
use super::mets::Mets;
use super::posts::{Post, Posts};
use indexmap::IndexSet;
use lists::NoMemory;
use spds_tables::Met as Numbers;
use std::alloc::Global;

/// The meet of the post's site with the site at the other end of its store.
fn met_of(end: End, post: Post, other: u32) -> Numbers
    ensures { result ≡ met_at end post other }
{
    match end {
        End::Arg => Numbers {
            object: post.site,
            base: other,
            store: post.store,
        },
        End::Base => Numbers {
            object: other,
            base: post.site,
            store: post.store,
        },
    }
}

/// Lets a pair wait, unless it is met.
fn put(pending: &mut IndexSet<Numbers>, mets: &Mets, pair: Numbers) -> Result<(), NoMemory>
    ensures { OnOk result (AreSeen mets.now (λ m. m ≡ pair) pending.old.keys pending.new.keys) }
{
    if mets.contains(pair) {
        return Ok(());
    }
    pending.insert(pair)?;
    Ok(())
}

/// Lets each of the pairs wait that isn't met.
fn put_all(pending: &mut IndexSet<Numbers>, mets: &Mets, pairs: &[Numbers]) -> Result<(), NoMemory>
    ensures { OnOk result (AreSeen mets.now (Has pairs.now) pending.old.keys pending.new.keys) }
{
    for pair in pairs {
        put(pending, mets, *pair)?;
    }
    Ok(())
}

/// Lets the post's site wait with each of the others at the other end, but where they are met.
fn pair_with(
    pending: &mut IndexSet<Numbers>,
    mets: &Mets,
    end: End,
    post: Post,
    others: &[u32],
) -> Result<(), NoMemory>
    ensures { OnOk result (AreSeen mets.now (IsPairOf end post (Has others.now)) pending.old.keys pending.new.keys) }
{
    for other in others {
        put(pending, mets, met_of(end, post, *other))?;
    }
    Ok(())
}

/// Lets the site of a mark wait with those of the mark and those of any call string.
fn pair_mark(
    pending: &mut IndexSet<Numbers>,
    mets: &Mets,
    end: End,
    post: Post,
    others: &Posts,
) -> Result<(), NoMemory>
    requires posted { IsPosted others.now }
    requires mark { (mark : ℕ) × (post.head ≡ Mark mark) }
    ensures { OnOk result (AreSeen mets.now (IsPairOf end post (FitsAt others.now post)) pending.old.keys pending.new.keys) }
{
    pair_with(
        pending,
        mets,
        end,
        post,
        others.with_head(post.store, post.head),
    )?;
    pair_with(
        pending,
        mets,
        end,
        post,
        others.with_head(post.store, Head::Any),
    )?;
    Ok(())
}

/// Lets the post's site wait with each that fits at the other end, but where they are met.
fn pair(
    pending: &mut IndexSet<Numbers>,
    mets: &Mets,
    end: End,
    post: Post,
    others: &Posts,
) -> Result<(), NoMemory>
    requires { IsPosted others.now }
    ensures { OnOk result (AreSeen mets.now (IsPairOf end post (FitsAt others.now post)) pending.old.keys pending.new.keys) }
{
    match post.head {
        Head::Any => {
            pair_with(pending, mets, end, post, others.at_store(post.store))?;
            Ok(())
        }
        Head::Mark(_) => pair_mark(pending, mets, end, post, others),
    }
}

/// Puts a pair last, if one of its sites changed.
fn put_changed(changed: &[bool], pair: Numbers, found: &mut Vec<Numbers>) -> Result<(), NoMemory>
    requires object { pair.object < length changed.now }
    requires base { pair.base < length changed.now }
    ensures each { OnOk result ((m : ANumbers) → Has found.new.items m → Has found.old.items m ⊎ (m ≡ pair)) }
    ensures kept { OnOk result ((m : ANumbers) → Has found.old.items m → Has found.new.items m) }
    ensures there { OnOk result (Has found.new.items pair ⊎ AreStillAt changed.now pair) }
{
    if !changed[pair.object as usize] && !changed[pair.base as usize] {
        return Ok(());
    }
    found.push(pair)?;
    Ok(())
}

/// The pairs of which a site changed.
fn changed_pairs(
    alloc: Global,
    pairs: &[Numbers],
    changed: &[bool],
) -> Result<Vec<Numbers>, NoMemory>
    requires { (m : ANumbers) → Has pairs.now m → (m.object < length changed.now) × (m.base < length changed.now) }
    ensures each { IfOk result (λ found. (m : ANumbers) → Has found.items m → Has pairs.now m) }
    ensures all { IfOk result (λ found. (m : ANumbers) → Has pairs.now m → Has found.items m ⊎ AreStillAt changed.now m) }
{
    let mut found = Vec::new(alloc);
    for pair in pairs {
        put_changed(changed, *pair, &mut found)?;
    }
    Ok(found)
}

/// What is known of both ends of stores.
#[derive(Drop)]
pub struct Known {
    /// Of what is stored.
    pub args: Posts,
    /// Of what it is stored into: of sites whose own object may be there, and has the field.
    pub bases: Posts,
    /// Pairs that fit, of which no common call string was found yet.
    pub pending: IndexSet<Numbers>,
}

impl Known {
    /// Nothing is known. Takes no memory.
    pub fn new(alloc: Global) -> Self
        ensures { (parts : AParts) (mets : List AMet) → IsKnown parts mets result }
    {
        Known {
            args: Posts::new(alloc),
            bases: Posts::new(alloc),
            pending: IndexSet::new(alloc),
        }
    }

    /// Puts a post in of what is stored.
    fn add_arg(&mut self, mets: &Mets, post: Post) -> Result<(), NoMemory>
        requires { (parts : AParts) × IsKnown parts mets.now self.old }
        ensures known { OnOk result ((parts : AParts) → IsInRange parts post → IsKnown parts mets.now self.old → IsKnown parts mets.now self.new) }
        ensures keeps { OnOk result (Keeps self.old self.new) }
        ensures there { OnOk result (Knows self.new.args post) }
    {
        let is_new = self.args.add(post)?;
        if !is_new {
            return Ok(());
        }
        pair(&mut self.pending, mets, End::Arg, post, &self.bases)?;
        Ok(())
    }

    /// Puts a post in of what is stored into.
    fn add_base(&mut self, mets: &Mets, post: Post) -> Result<(), NoMemory>
        requires { (parts : AParts) × IsKnown parts mets.now self.old }
        ensures known { OnOk result ((parts : AParts) → IsInRange parts post → IsKnown parts mets.now self.old → IsKnown parts mets.now self.new) }
        ensures keeps { OnOk result (Keeps self.old self.new) }
        ensures there { OnOk result (Knows self.new.bases post) }
    {
        let is_new = self.bases.add(post)?;
        if !is_new {
            return Ok(());
        }
        pair(&mut self.pending, mets, End::Base, post, &self.args)?;
        Ok(())
    }

    /// Puts a post in. Where it is new, its site waits with each that fits at the other end of the store, but where they are met.
    pub fn add(&mut self, mets: &Mets, end: End, post: Post) -> Result<(), NoMemory>
        requires { (parts : AParts) × IsKnown parts mets.now self.old }
        ensures known { OnOk result ((parts : AParts) → IsInRange parts post → IsKnown parts mets.now self.old → IsKnown parts mets.now self.new) }
        ensures keeps { OnOk result (Keeps self.old self.new) }
        ensures there { OnOk result (Knows (posts_at self.new end) post) }
    {
        match end {
            End::Arg => self.add_arg(mets, post),
            End::Base => self.add_base(mets, post),
        }
    }

    /// The pairs that wait and one of whose sites changed, by object, base and store.
    pub fn waiting(&self, alloc: Global, changed: &[bool]) -> Result<Vec<Numbers>, NoMemory>
        requires { (m : ANumbers) → Has self.now.pending.keys m → (m.object < length changed.now) × (m.base < length changed.now) }
        ensures each { IfOk result (λ found. (m : ANumbers) → Has found.items m → Has self.now.pending.keys m) }
        ensures all { IfOk result (λ found. (m : ANumbers) → Has self.now.pending.keys m → Has found.items m ⊎ AreStillAt changed.now m) }
    {
        let mut found = changed_pairs(alloc, self.pending.as_slice(), changed)?;
        found.sort_unstable_by_key(|pair| (pair.object, pair.base, pair.store));
        Ok(found)
    }

    /// Lets no pair wait that is met.
    pub fn drop_met(&mut self, alloc: Global, mets: &Mets) -> Result<(), NoMemory>
        ensures known { OnOk result ((parts : AParts) → IsKnown parts mets.now self.old → IsKnown parts mets.now self.new) }
        ensures keeps { OnOk result (Keeps self.old self.new) }
    {
        let mut left = IndexSet::new(alloc);
        put_all(&mut left, mets, self.pending.as_slice())?;
        self.pending = left;
        Ok(())
    }
}
