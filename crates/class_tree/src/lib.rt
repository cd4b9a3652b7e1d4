//! The hierarchy of classes: sub-classing, method resolution and field lookup over numbered rows.
#![tactic(auto)]

mod errors;
mod field_owners;
mod first_fields;
mod first_rows;
mod holders;
mod inherited;
mod kept;
mod key_spans;
mod layout;
mod members;
mod near;
mod numbering;
mod own_rows;
mod owners;
mod paths;
mod runs;
mod steps;
mod tree;
mod turns;
mod unknown;
mod walk;
mod weights;

pub use errors::TreeError;
pub use layout::Layout;
pub use paths::Paths;
pub use tree::{Defaults, Tree, build};
pub use turns::Turn;
