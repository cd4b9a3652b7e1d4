//! What a machine keeps of a state.
use super::frame::Frame;
use step_heap::Heap;
use step_rules::{Moved, Value};

/// The frames, the top one being the last, the heap, the static fields, and whether the run goes on.
#[derive(Drop)]
pub struct Kept {
    pub frames: Vec<Frame>,
    pub heap: Heap,
    pub statics: Vec<Value>,
    pub moved: Moved,
}
