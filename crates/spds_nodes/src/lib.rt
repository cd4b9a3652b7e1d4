//! The edges into a node, the start nodes of a site and the stores of a field, exactly as the definitions of `spds_rules` have them, read off the
//! indexes of a linked program.
#![tactic(auto)]

mod backs;
mod behind;
mod codes;
mod edges;
mod flows;
mod formals;
mod found;
mod nodes;
mod places;
mod positions;
mod raised;
mod rows;
mod sites;
mod starts;
mod stores;

pub use edges::into;
pub use flows::targets_of;
pub use formals::{Position, identity_of, local_formal};
pub use nodes::is_node;
pub use places::code_at;
pub use positions::is_local;
pub use sites::{has_field, site_class};
pub use spds_rules::site_of;
pub use starts::starts_of;
pub use stores::stores_of;
