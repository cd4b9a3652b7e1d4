//! The frames of a run, the top one being the last.
ghost use Rattle.std.specs.Prelude.{◌≡◌, ◌+◌, ◌<◌, ◌^◌, ◌++◌, ◌∷◌, [], None, OnErr, OnOk, Some, false, length, slice_set, true};
ghost use Rattle.jim_step.specs.Stacks.{ChangesTop, EachTop};

use super::frame::Frame;
use step_rules::Value;

/// The top frame goes on at a statement.
pub fn top_goes_to(frames: &mut Vec<Frame>, index: u32)
    requires { 0 < length frames.old.items }
    ensures { ChangesTop (λ f. record f { index = index }) frames.old.items frames.new.items }
{
    let last = frames.len() - 1;
    let top = &mut frames[last];
    top.go_to(index);
}

/// The top frame goes on at the next statement.
pub fn top_goes_on(frames: &mut Vec<Frame>)
    requires some { 0 < length frames.old.items }
    requires next { EachTop (λ f. f.index + 1 < 2 ^ 32) frames.old.items }
    ensures { ChangesTop (λ f. record f { index = f.index + 1 }) frames.old.items frames.new.items }
{
    let last = frames.len() - 1;
    let top = &mut frames[last];
    top.go_on();
}

/// A local of the top frame gets a value, and the frame goes on at the next statement.
pub fn top_gets(frames: &mut Vec<Frame>, to: u32, value: Value)
    requires some { 0 < length frames.old.items }
    requires next { EachTop (λ f. f.index + 1 < 2 ^ 32) frames.old.items }
    requires local { EachTop (λ f. to < length f.locals) frames.old.items }
    ensures { ChangesTop (λ f. record f { index = f.index + 1; locals = slice_set f.locals to (Some value) }) frames.old.items frames.new.items }
{
    let last = frames.len() - 1;
    let top = &mut frames[last];
    top.get(to, value);
}

/// An object is in flight at the top frame's statement.
pub fn top_throws(frames: &mut Vec<Frame>, object: u32)
    requires { 0 < length frames.old.items }
    ensures { ChangesTop (λ f. record f { raised = true; thrown = Some (Value.Object object) }) frames.old.items frames.new.items }
{
    let last = frames.len() - 1;
    let top = &mut frames[last];
    top.throw(object);
}

/// A handler of the top frame's method catches an object.
pub fn top_catches(frames: &mut Vec<Frame>, handler: u32, object: u32)
    requires { 0 < length frames.old.items }
    ensures { ChangesTop (λ f. record f { index = handler; raised = false; caught = Some (Value.Object object); thrown = None }) frames.old.items frames.new.items }
{
    let last = frames.len() - 1;
    let top = &mut frames[last];
    top.catch_at(handler, object);
}
