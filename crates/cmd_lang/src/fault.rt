//! Why a line was read to no command.
ghost use Rattle.std.specs.Prelude.{◌≡◌, Result};
ghost use Rattle.cmd_lang.specs.Reads.{rank, earlier, both_read};
ghost use Rattle.cmd_lang.specs.declared.fault.LineFault.TheVariants.{Memory};

use hfs_language::Refusal;
use hx_bytes::OutOfMemory;
use std::alloc::{AllocError, AllocFailed};

/// Why a line was read to no command.
#[derive(Clone, Copy, Debug, PartialEq, Eq)]
pub enum LineFault {
    /// One of `TooLong`, `BadCommand`, `BadName` and `NameTooLong`.
    No(Refusal),
    /// There was no memory.
    Memory,
}

impl From<AllocError> for LineFault {
    ghost from_gives = { λ _ e. e ≡ Memory };

    fn from(_: AllocError) -> Self {
        LineFault::Memory
    }
}

impl<T: Drop> From<AllocFailed<T>> for LineFault {
    ghost from_gives = { λ _ e. e ≡ Memory };

    fn from(_: AllocFailed<T>) -> Self {
        LineFault::Memory
    }
}

impl From<OutOfMemory> for LineFault {
    ghost from_gives = { λ _ e. e ≡ Memory };

    fn from(_: OutOfMemory) -> Self {
        LineFault::Memory
    }
}

/// The place of a refusal among those of words.
pub(crate) fn rank(why: Refusal) -> u8
    ensures { result ≡ rank why }
{
    match why {
        Refusal::BadCommand => 0,
        Refusal::BadName => 1,
        _ => 2,
    }
}

/// The first of two refusals.
pub(crate) fn earlier(one: Refusal, other: Refusal) -> Refusal
    ensures { result ≡ earlier one other }
{
    if rank(one) <= rank(other) { one } else { other }
}

/// Both values, or the first refusal of the two.
pub(crate) fn both<A: Drop, B: Drop>(
    one: Result<A, LineFault>,
    other: Result<B, LineFault>,
) -> Result<(A, B), LineFault>
    ensures { result ≡ both_read one other }
{
    match (one, other) {
        (Ok(a), Ok(b)) => Ok((a, b)),
        (Err(LineFault::No(one)), Err(LineFault::No(other))) => {
            Err(LineFault::No(earlier(one, other)))
        }
        (Err(LineFault::Memory), _) | (_, Err(LineFault::Memory)) => Err(LineFault::Memory),
        (Err(fault), _) | (_, Err(fault)) => Err(fault),
    }
}
