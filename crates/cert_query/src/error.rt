//! Why a text isn't accepted as a certificate.

/// Why a text isn't accepted as a certificate: the first of these that is so.
#[derive(Clone, Copy, Debug, PartialEq, Eq)]
pub enum ReplayedError {
    /// The first line, from 0, that isn't one of a certificate; 0 where there is no line.
    NotCertificate { at: u32 },
    /// The first line, from 1, that isn't justified; where each is and the last is no claim of the target, the number behind it; and 0 where the target
    /// is no node that a query may name.
    Rejected { line: u32 },
    /// The target demands more nodes than this budget. Line 0 is looked at before this, all other lines after it.
    OverBudget { budget: u32 },
    /// Memory that was asked for wasn't found.
    NoMemory,
}
