//! Which edges a query looks at.

/// The kind of a demand.
#[derive(Clone, Copy, Debug, PartialEq, Eq, Hash)]
pub enum Reach {
    /// Over the edges along which objects go.
    Plain,
    /// Over back edges too: what a call passes from a local comes back to it where the call ends.
    Tracked,
}
