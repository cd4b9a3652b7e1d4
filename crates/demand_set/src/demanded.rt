//! What is demanded, and why that isn't known.
ghost use Rattle.std.specs.Prelude.{◌≡◌, IfOk};
ghost use Rattle.demand_set.specs.Walks.{walk_of};

use super::nodes::Nodes;
use super::numbered::EdgeAt;
use jim_ast::List;
use spds_rules::{Edge, Node, StoreAt};
use std::alloc::{AllocError, Global};

/// What is demanded: the nodes, the edges into them, the fields that these edges load, and the stores of these fields; each once.
#[derive(Drop)]
pub struct Walk {
    pub nodes: List<Node>,
    pub edges: List<Edge>,
    pub fields: List<u32>,
    pub stores: List<StoreAt>,
}

/// The same, with the nodes by number, and the edges by the numbers of their nodes beside them.
#[derive(Drop)]
pub struct Walked {
    pub nodes: Nodes,
    pub edges: List<Edge>,
    pub numbered: List<EdgeAt>,
    pub fields: List<u32>,
    pub stores: List<StoreAt>,
}

impl Walked {
    /// What is demanded, as lists. Only the nodes are copied.
    pub fn into_walk(self, alloc: Global) -> Result<Walk, AllocError>
        ensures { IfOk result (λ w. w ≡ walk_of self) }
    {
        let nodes = self.nodes.as_slice().to_vec(alloc)?;
        Ok(Walk {
            nodes: List::from_vec(nodes),
            edges: self.edges,
            fields: self.fields,
            stores: self.stores,
        })
    }
}

/// Why there is no walk.
#[derive(Clone, Copy, Debug, PartialEq, Eq)]
pub enum DemandError {
    /// More nodes are demanded than the budget allows.
    OverBudget { budget: u32 },
    /// Memory that was asked for wasn't found.
    NoMemory,
}

impl From<AllocError> for DemandError {
    ghost use Rattle.std.specs.Prelude.{◌≡◌};
    ghost use Rattle.demand_set.specs.declared.demanded.DemandError.TheVariants.{NoMemory};

    ghost from_gives = { λ _ e. e ≡ NoMemory };

    fn from(_error: AllocError) -> Self {
        DemandError::NoMemory
    }
}
