//! Events of a protocol in a program: the event statements, what they do to the objects of one site (at each of them, inside each call, and anywhere), and the
//! weights of the site's system, which say how the states of its objects may change along one edge.
//!
//! What all sites share is made once: the event statements, and what each event does. A site is told at which places of their list those stand that may be
//! events on its objects, so its cost goes by these.
#![tactic(auto)]

mod call;
mod callers;
mod event_statement;
mod events;
mod identities;
mod inner;
mod laws;
mod loud;
mod passed;
mod places;
mod query;
mod receiving;
mod relations;
mod settled;
mod shared;
mod site;
mod star;
mod statement;
mod statements;
mod weights;

pub use callers::all_callers;
pub use event_statement::EventStatement;
pub use events::{Events, events_of};
pub use laws::loud_calls_enter;
pub use loud::loud_methods;
pub use query::receivers;
pub use site::{SiteEvents, site_events};
pub use star::{closure, event_relation};
pub use statement::Statement;
pub use statements::event_statements;
pub use weights::{flow_weight, own_weight};
