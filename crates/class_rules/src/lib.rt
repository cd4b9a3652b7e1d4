//! What sub-classing, the selection of methods and the look-up of fields are, over numbered rows of classes, methods and fields: the types, the definitions,
//! and the laws on them.
#![tactic(auto)]

mod laws;
mod rows;

pub use laws::{
    fields_are_found_above, methods_are_found_above, methods_are_selected_above, sub_is_an_order,
};
pub use rows::{BodyKind, ClassRow, FieldRow, MethodRow};
