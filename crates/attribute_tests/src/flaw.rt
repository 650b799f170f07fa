//! What is wrong with attributes.
use crate::table::Place;
use entry_kit::Stop;

/// What stopped a test: a call that failed, or the first thing that isn't as the table has it.
#[derive(Clone, Copy, Debug, PartialEq, Eq)]
pub enum Flaw {
    /// A call wasn't made, or failed.
    Stopped(Stop),
    /// Setting an attribute was answered otherwise than wanted.
    Setting(Place),
    Deleting(Place),
    /// Dropping the attributes of a file told another number than wanted.
    Dropping(u32),
    /// A name doesn't give the value that was wanted, or gives one where there is none.
    Value(Place),
    /// A file doesn't have the names that were wanted.
    Names(u32),
    /// The tree hasn't the levels that were wanted, or isn't empty.
    Levels(u16),
}

impl From<Stop> for Flaw {
    fn from(stop: Stop) -> Flaw {
        Flaw::Stopped(stop)
    }
}

/// Answers the flaw where something isn't so.
pub fn wanted(is_so: bool, flaw: Flaw) -> Result<(), Flaw> {
    if is_so { Ok(()) } else { Err(flaw) }
}
