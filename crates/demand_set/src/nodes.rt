//! The nodes that a walk has found.
ghost use Rattle.std.specs.Prelude.{◌≡◌, ◌<◌, ◌^◌, ◌↔◌, ℕ, [], length, slice_get, IfOk, OnOk, Some};
ghost use Rattle.lists.specs.Lists.{Adds, IsApart};

use lists::Numbered;
use spds_rules::Node;
use std::alloc::{AllocError, Global};
use std::marker::Model;

/// Nodes in the order in which they were found, each once, with their numbers.
#[derive(Drop)]
pub struct Nodes {
    keys: Numbered<Node>,
}

impl Model for Nodes {
    ghost use Rattle.std.specs.Prelude.{List};
    ghost use Rattle.spds_rules.specs.declared.node.Node.{Node};

    ghost Value = { List Node };

    ghost view = { λ s. s.keys.keys };
}

impl Nodes {
    /// No node. Takes no memory.
    pub fn new(alloc: Global) -> Self
        ensures { result ≡ [] }
    {
        Nodes {
            keys: Numbered::new(alloc),
        }
    }

    /// How many nodes there are.
    pub fn len(&self) -> usize
        ensures value { result ≡ length self.now }
        ensures few { result < 2 ^ 32 }
    {
        self.keys.len()
    }

    /// The nodes.
    pub fn as_slice(&self) -> &[Node]
        ensures value { result.now ≡ self.now }
        ensures apart { IsApart self.now }
    {
        self.keys.keys()
    }

    /// The number of the node, if it is there.
    pub fn find(&self, node: Node) -> Option<u32>
        ensures { (i : ℕ) → (result ≡ Some i) ↔ (slice_get self.now i ≡ Some node) }
    {
        self.keys.find(node)
    }

    /// The number of the node, which is put last unless it is there already. Costs one look-up.
    pub fn add(&mut self, node: Node) -> Result<u32, AllocError>
        ensures added { OnOk result (Adds self.old node self.new) }
        ensures number { IfOk result (λ number. slice_get self.new number ≡ Some node) }
    {
        let (number, _) = self.keys.add(node)?;
        Ok(number)
    }
}
