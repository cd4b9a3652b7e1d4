//! The grammar of the Jimple profile, and the least place at which a list of tokens leaves it.
//!
//! The grammar has no recursion, so it is one regular expression over classes of tokens: `specs/Grammar.antt`, a production a line. A program's tokens are read
//! by sets of stacks of parts of it, each kept by a number when it is first met, so that most tokens cost one look into a table.
#![tactic(auto)]

mod automaton;
mod item;
mod laws;
mod machine;
mod read;
mod set;
mod table;

pub use laws::{least_place_is_one, texts_go_by_classes};
pub use read::least_refused;
pub use set::LeadSet;
