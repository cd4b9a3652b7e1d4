//! What the systems of all sites share.
ghost use Rattle.std.specs.Prelude.{◌≡◌, ◌<◌, length};
ghost use Rattle.spds_tables.specs.Parts.{call_cell, cells_at, field_cell, starts_at, store_at, store_nodes_at};

use super::numbered::{CellsAt, Jump, StartAt, StoreNodes, Stored};
use call_side::{CallBases, CallCommon, Calls};
use post_star::Common;
use rule_cells::number_of;
use std::sync::Arc;
use weight_laws::Reach;

/// What the systems of all sites of a demand share.
#[derive(Drop)]
pub struct Parts {
    /// What the field systems have in common: their rules between cells, but for those of stores.
    pub fields: Arc<Common<Reach>>,
    /// The cell of each node in field systems.
    pub field_cells: Vec<u32>,
    /// What the call systems have in common: their rules between cells, and the call strings of methods.
    pub calls: Arc<CallCommon>,
    /// The cell of each node in call systems.
    pub call_cells: Vec<u32>,
    /// The call strings of methods.
    pub bases: CallBases,
    /// The calls that marks stand for.
    pub places: Calls,
    pub jumps: Vec<Jump>,
    /// The start nodes of each site.
    pub starts: Vec<Vec<StartAt>>,
    pub stores: Vec<StoreNodes>,
}

impl Parts {
    /// The start nodes of a site.
    pub fn starts_of(&self, site: u32) -> &[StartAt]
        requires { site < length self.now.starts.items }
        ensures { result.now ≡ starts_at self.now site }
    {
        self.starts[site as usize].as_slice()
    }

    /// The nodes and the field of the store with the number.
    pub fn store_nodes(&self, store: u32) -> StoreNodes
        requires { store < length self.now.stores.items }
        ensures { result ≡ store_nodes_at self.now store }
    {
        self.stores[store as usize]
    }

    /// The store with the number, by cells.
    pub fn stored(&self, store: u32) -> Stored
        requires { store < length self.now.stores.items }
        ensures { result ≡ store_at self.now store }
    {
        let nodes = self.store_nodes(store);
        Stored {
            base: self.cells_of(nodes.base),
            arg: self.cells_of(nodes.arg),
            field: nodes.field,
        }
    }

    /// The cell of a node in field systems. The number of no node is its own cell.
    pub fn field_cell(&self, node: u32) -> u32
        ensures { result ≡ field_cell self.now node }
    {
        number_of(&self.field_cells, node)
    }

    /// The cell of a node in call systems. The number of no node is its own cell.
    pub fn call_cell(&self, node: u32) -> u32
        ensures { result ≡ call_cell self.now node }
    {
        number_of(&self.call_cells, node)
    }

    /// Both cells of a node.
    fn cells_of(&self, node: u32) -> CellsAt
        ensures { result ≡ cells_at self.now node }
    {
        CellsAt {
            fields: self.field_cell(node),
            calls: self.call_cell(node),
        }
    }
}
