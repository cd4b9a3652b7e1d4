//! The texts of replies: places and allocation sites of a linked program, and what is answered about them, as a user reads them.
//!
//! A call fails only where memory is wanting, and what stands in a text that it was to add to is then left open.
#![tactic(auto)]

mod answers;
mod paths;
mod places;
mod sites;

pub use answers::{
    accepted_text, alias_text, answer_text, push_counts, push_query_line, push_site_line,
    refined_text,
};
pub use paths::path_text;
pub use places::{place_text, push_place_text};
pub use sites::{push_site_text, site_text};
