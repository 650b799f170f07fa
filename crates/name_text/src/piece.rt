//! The pieces of a spelled name, and why a text spells no name.
ghost use Rattle.std.specs.Prelude.{◌≡◌};
ghost use Rattle.name_text.specs.declared.piece.NameFault.TheVariants.{Memory};

use std::alloc::{AllocError, AllocFailed};

/// One piece of the spelling of a name.
#[derive(Clone, Copy, Debug, PartialEq, Eq)]
pub enum Piece {
    /// A character of the text. A percent sign is spelled twice.
    Character(char),
    /// A code unit of UTF-16, spelled `%uXXXX`.
    Escaped(u16),
}

/// Why a text was read to no name.
#[derive(Clone, Copy, Debug, PartialEq, Eq)]
pub enum NameFault {
    /// It is empty, `.` or `..`, has a `/`, or a `%` that begins neither `%%` nor an escape.
    BadName,
    /// It spells more than 255 units.
    NameTooLong,
    /// There was no memory.
    Memory,
}

impl From<AllocError> for NameFault {
    ghost from_gives = { λ _ e. e ≡ Memory };

    fn from(_: AllocError) -> Self {
        NameFault::Memory
    }
}

impl<T: Drop> From<AllocFailed<T>> for NameFault {
    ghost from_gives = { λ _ e. e ≡ Memory };

    fn from(_: AllocFailed<T>) -> Self {
        NameFault::Memory
    }
}
