//! Where objects are followed.
ghost use Rattle.std.specs.Prelude.{◌≡◌, ◌↔◌, [], IfSome, IsTrue, OnOk, true};
ghost use Rattle.cert_work.specs.Wants.{IsAheadUnder, IsEverywhere, IsFollowedAt, IsWanted, IsWider};

use cert_lines::{FieldAt, Origin, Spot};
use cert_rules::Entry;
use link_sites::Site;
use lists::{NoMemory, Numbered};
use spds_rules::Node;
use std::alloc::Global;

/// The nodes that lie before loads, by the fields that these load. Where it is `everywhere`, all nodes do.
#[derive(Drop)]
pub struct Ahead {
    pub everywhere: bool,
    pub fields: Numbered<FieldAt>,
}

impl Ahead {
    /// Each node lies before loads of each field. Takes no memory.
    pub fn everywhere(alloc: Global) -> Self
        ensures { result.everywhere ≡ true }
    {
        Ahead {
            everywhere: true,
            fields: Numbered::new(alloc),
        }
    }

    // Whether the node lies before loads of the field with which the words of the entry begin. Where they begin with none, nothing is asked.
    fn has(&self, entry: &Entry, node: Node) -> bool
        ensures { IsTrue result ↔ IsAheadUnder self.now entry.now node }
    {
        let Entry::Field { field, .. } = entry else {
            return true;
        };
        if self.everywhere {
            return true;
        }
        let there = FieldAt {
            field: *field,
            node,
        };
        match self.fields.find(there) {
            Some(_number) => true,
            None => false,
        }
    }
}

/// Where objects are followed: those of some sites everywhere, and others at some nodes; both only where what loads the first field of their words lies ahead.
#[derive(Drop)]
pub struct Wants {
    pub sites: Numbered<Origin>,
    pub spots: Numbered<Spot>,
    pub ahead: Ahead,
}

impl Wants {
    /// Nowhere. Takes no memory.
    pub fn new(alloc: Global, ahead: Ahead) -> Self
        ensures sites { result.sites.keys ≡ [] }
        ensures spots { result.spots.keys ≡ [] }
        ensures ahead { result.ahead ≡ ahead }
    {
        Wants {
            sites: Numbered::new(alloc),
            spots: Numbered::new(alloc),
            ahead,
        }
    }

    // Whether objects of the site are followed everywhere. Where they are, it is kept: lines of one site come one after another.
    fn is_everywhere(&self, last: &mut Option<Site>, site: Site) -> bool
        requires { IfSome last.old (IsEverywhere self.now) }
        ensures exact { IsTrue result ↔ IsEverywhere self.now site }
        ensures last { IfSome last.new (IsEverywhere self.now) }
    {
        if let Some(kept) = *last {
            if kept == site {
                return true;
            }
        }
        if let Some(_number) = self.sites.find(Origin { site }) {
            *last = Some(site);
            return true;
        }
        false
    }

    /// Whether objects of the site are followed at the node under words of the entry, by up to three look-ups. What is kept is a site whose objects are
    /// followed everywhere. Takes no memory.
    pub(crate) fn follows(
        &self,
        last: &mut Option<Site>,
        site: Site,
        entry: &Entry,
        node: Node,
    ) -> bool
        requires { IfSome last.old (IsEverywhere self.now) }
        ensures exact { IsTrue result ↔ IsFollowedAt self.now site entry.now node }
        ensures last { IfSome last.new (IsEverywhere self.now) }
    {
        if !self.is_everywhere(last, site) && !self.has(site, node) {
            return false;
        }
        self.ahead.has(entry, node)
    }

    /// Whether objects of the site are followed at the node, by two look-ups. Takes no memory.
    pub fn has(&self, site: Site, node: Node) -> bool
        ensures { IsTrue result ↔ IsWanted self.now site node }
    {
        if let Some(_number) = self.sites.find(Origin { site }) {
            return true;
        }
        match self.spots.find(Spot { site, node }) {
            Some(_number) => true,
            None => false,
        }
    }

    /// Lets objects of the site be followed at the node too.
    pub fn add(&mut self, site: Site, node: Node) -> Result<(), NoMemory>
        ensures wanted { OnOk result (IsWanted self.new site node) }
        ensures wider { OnOk result (IsWider self.old self.new) }
    {
        if let Some(_number) = self.sites.find(Origin { site }) {
            return Ok(());
        }
        self.spots.add(Spot { site, node })?;
        Ok(())
    }
}
