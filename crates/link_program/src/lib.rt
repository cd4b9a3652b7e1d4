//! The linked program: its methods, classes, keys and constants by their numbers, its hierarchy, and the indexes of its code.
#![tactic(auto)]

mod classes;
mod elements;
mod fields;
mod heads;
mod linked;
mod method;
mod methods;
mod numbering;
mod parts;
mod places;
mod selecting;

pub use classes::{ClassEntry, ClassTable};
pub use elements::ElementText;
pub use heads::Heads;
pub use linked::Linked;
pub use method::MethodHead;
pub use methods::Methods;
pub use numbering::Numbering;
pub use parts::{CodePart, ConstantTexts, FieldEntry, KeyEntry, MemberPart, Shared};
