//! Why a call wasn't made, or failed.
use hx_bytes::{OutOfMemory, Trouble};
use std::alloc::AllocError;

/// What stopped a call.
#[derive(Clone, Copy, Debug, PartialEq, Eq)]
pub enum Stop {
    Memory,
    /// The name has no unit or too many, or the store has no room for more.
    Room,
    /// The call failed.
    Failed,
}

impl From<OutOfMemory> for Stop {
    fn from(_: OutOfMemory) -> Stop {
        Stop::Memory
    }
}

impl From<AllocError> for Stop {
    fn from(_: AllocError) -> Stop {
        Stop::Memory
    }
}

impl From<Trouble> for Stop {
    fn from(_: Trouble) -> Stop {
        Stop::Failed
    }
}
