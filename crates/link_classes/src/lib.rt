//! The classes that are linked: names of both programs as numbers, class order, member keys, rows and the hierarchy, and the rules that refuse
//! a program as a whole.
#![tactic(auto)]

mod bodies;
mod checks;
mod classes;
mod instantiable;
mod keys;
mod member_tables;
mod members;
mod names;
mod order;
mod repeated;
mod root;
mod row_tables;
mod rows;
mod seen;
mod tables;

pub use classes::{Classes, NoClasses, Root, root_method};
pub use names::AllNames;
pub use order::ClassOrder;
pub use seen::{ClassIn, FieldIn, MethodIn};
