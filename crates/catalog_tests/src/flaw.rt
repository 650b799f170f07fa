//! What is wrong with a catalog.
use crate::table::Place;
use entry_kit::Stop;

/// What stopped a test: a call that failed, or the first thing that isn't as the table has it.
#[derive(Clone, Copy, Debug, PartialEq, Eq)]
pub enum Flaw {
    /// A call wasn't made, or failed.
    Stopped(Stop),
    /// Adding an entry was answered otherwise than wanted.
    Adding(Place),
    Updating(Place),
    Removing(Place),
    Moving(Place, Place),
    /// A name doesn't give the record that was wanted, or gives one where there is none.
    Record(Place),
    /// The thread of a CNID doesn't tell the place that was wanted, or is there where there is no entry.
    Thread(u32),
    /// A folder doesn't have the names that were wanted.
    Children(u8),
    /// Moves weren't answered as often as wanted.
    Moves,
    /// The tree hasn't the levels that were wanted, or isn't empty.
    Levels(u16),
}

impl From<Stop> for Flaw {
    fn from(stop: Stop) -> Flaw {
        Flaw::Stopped(stop)
    }
}

/// Answers the flaw where something isn't so.
pub fn wanted(is_so: bool, flaw: Flaw) -> Result<(), Flaw> {
    if is_so { Ok(()) } else { Err(flaw) }
}
