//! What went wrong.
use hx_bytes::OutOfMemory;

/// What went wrong.
#[derive(Clone, Copy, Debug, PartialEq, Eq)]
pub enum Flaw {
    NoMemory,
    /// The volume wasn't made, or its journal wasn't accepted.
    NotMounted,
    /// A fork has no tree.
    NoTree,
    /// An edit wasn't done, or not committed.
    Refused(u32),
    /// A pair isn't what the table says.
    Lost(u32),
    /// The numbers of the header record aren't those of the pairs.
    Numbers,
}

impl From<OutOfMemory> for Flaw {
    fn from(_fault: OutOfMemory) -> Flaw {
        Flaw::NoMemory
    }
}
