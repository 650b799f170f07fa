//! What is wrong with forks.
use hx_bytes::{Failed, OutOfMemory, Trouble};

/// What stopped a test: a call that failed, or the first thing that isn't as wanted.
#[derive(Clone, Copy, Debug, PartialEq, Eq)]
pub enum Flaw {
    Memory,
    /// The store has no room for more, or a list too many blocks.
    Room,
    /// A call failed.
    Failed,
    /// The record of a file's fork hasn't its first eight extents.
    Front(u32),
    /// The fork of a file has other extents than those that were stored.
    Extents(u32),
    /// No overflow record of a file stands under this start with the extents that were wanted.
    Record(u32, u32),
    /// The tree has another number of records than wanted.
    Count(u32),
    /// The tree hasn't the levels that were wanted, or isn't empty.
    Levels(u16),
}

impl From<OutOfMemory> for Flaw {
    fn from(_: OutOfMemory) -> Flaw {
        Flaw::Memory
    }
}

impl From<Failed> for Flaw {
    fn from(_: Failed) -> Flaw {
        Flaw::Failed
    }
}

impl From<Trouble> for Flaw {
    fn from(_: Trouble) -> Flaw {
        Flaw::Failed
    }
}

/// Answers the flaw where something isn't so.
pub fn wanted(is_so: bool, flaw: Flaw) -> Result<(), Flaw> {
    if is_so { Ok(()) } else { Err(flaw) }
}
