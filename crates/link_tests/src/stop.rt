//! Why a test stopped.
use crate::places::Place;
use hx_bytes::{OutOfMemory, Trouble};

/// What stopped a test: a call that wasn't made or failed, or the first thing that isn't as wanted.
#[derive(Clone, Copy, Debug)]
pub enum Stop {
    Memory,
    /// The name has no unit or too many, or the store has no room for more.
    Room,
    /// The call failed.
    Failed,
    /// A call was answered otherwise than wanted.
    Answer(Place),
    /// A name doesn't give the record that was wanted, or gives one where there is none.
    Record(Place),
    /// The thread of a CNID doesn't tell the place that was wanted, or is there where there is no entry.
    Thread(u32),
    /// A name stands for another file than wanted.
    Identity(Place),
}

impl From<OutOfMemory> for Stop {
    fn from(_: OutOfMemory) -> Stop {
        Stop::Memory
    }
}

impl From<Trouble> for Stop {
    fn from(_: Trouble) -> Stop {
        Stop::Failed
    }
}

/// Answers why where something isn't so.
pub fn wanted(is_so: bool, stop: Stop) -> Result<(), Stop> {
    if is_so { Ok(()) } else { Err(stop) }
}
