//! Tests of class hierarchies. They stand by themselves, so that `class_tree` isn't proved again for them.
#![tactic(auto)]

#[cfg(test)]
mod near_fields;
#[cfg(test)]
mod trees;
