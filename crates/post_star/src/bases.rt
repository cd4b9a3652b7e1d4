ghost use Rattle.std.specs.Prelude.{◌≡◌, ◌↔◌, IsTrue};

/// A weight with which a base begins at a node.
#[derive(Clone, Copy, Debug, PartialEq, Eq)]
pub struct Start<W> {
    pub base: u32,
    pub node: u32,
    pub weight: W,
}

/// A base, a mark, and the base below it: the first stands for the mark in front of what the other stands for.
#[derive(Clone, Copy, Debug, PartialEq, Eq)]
pub struct BaseStep {
    pub base: u32,
    pub mark: u32,
    pub below: u32,
}

/// A base stands for each word that steps lead from it to the last base. Steps weigh `one`.
#[derive(Clone, Copy)]
pub struct Bases<'a> {
    pub steps: &'a [BaseStep],
    pub last: u32,
}

impl BaseStep {
    /// Whether the step takes the mark off below the base.
    pub fn leads_from(&self, base: u32, mark: u32) -> bool
        ensures { IsTrue result ↔ ((self.now.base ≡ base) × (self.now.mark ≡ mark)) }
    {
        self.base == base && self.mark == mark
    }
}
