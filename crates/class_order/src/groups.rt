ghost use Rattle.std.specs.Prelude.{◌≡◌, ◌+◌, ◌<◌, ◌∷◌, ◌++◌, [], length, IfOk, OnOk, OnErr, slice_set, replicate};
ghost use Rattle.class_order.specs.Groups.{group};

use std::alloc::{AllocError, Global};
use std::marker::Model;

/// Lists, numbered from 0.
#[derive(Drop)]
pub struct Groups<T: Drop> {
    lists: Vec<Vec<T>>,
}

impl<T: Drop> Model for Groups<T> {
    ghost use Rattle.std.specs.Prelude.{List, map};

    ghost Value = { List (List T) };

    ghost view = { λ g. map (λ v. v.items) g.lists.items };
}

impl<T: Drop> Groups<T> {
    /// `count` empty lists.
    pub fn new(alloc: Global, count: usize) -> Result<Self, AllocError>
        ensures { IfOk result (λ g. g ≡ replicate count []) }
    {
        let mut lists = Vec::with_capacity(alloc, count)?;
        for _ in 0..count {
            lists.push(Vec::new(alloc))?;
        }
        Ok(Groups { lists })
    }

    /// How many lists there are.
    pub fn len(&self) -> usize
        ensures { result ≡ length self.now }
    {
        self.lists.len()
    }

    /// The list with this number.
    pub fn get(&self, at: usize) -> &[T]
        requires { at < length self.now }
        ensures { result.now ≡ group self.now at }
    {
        self.lists[at].as_slice()
    }

    /// Appends an element to the list with this number.
    pub fn push(&mut self, at: usize, value: T) -> Result<(), AllocError>
        requires { at < length self.old }
        ensures { OnOk result (self.new ≡ slice_set self.old at (group self.old at ++ value ∷ [])) }
    {
        let list = &mut self.lists[at];
        list.push(value)?;
        Ok(())
    }

    /// Puts a list in the place of another.
    pub fn put(&mut self, at: usize, list: Vec<T>)
        requires { at < length self.old }
        ensures { self.new ≡ slice_set self.old at list.items }
    {
        self.lists[at] = list;
    }
}
