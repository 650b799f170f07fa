//! Why no volume was made.
ghost use Rattle.std.specs.Prelude.{◌≡◌};
ghost use Rattle.volume_make.specs.declared.fault.FormatFault.TheVariants.{Disk, Memory};

use hx_bytes::{Failed, OutOfMemory};

/// Why no volume was made. The first five are refusals, in this order; a refused disk isn't written.
#[derive(Clone, Copy, Debug, PartialEq, Eq)]
pub enum FormatFault {
    /// The disk has so many sectors, under 16,384.
    TooSmall(u64),
    /// The disk has so many sectors, over 2,147,483,648.
    TooLarge(u64),
    /// A block of so many bytes: no power of two from 512 to 65,536, or the volume would have over 268,435,456 blocks.
    BadBlockSize(u32),
    /// A journal of so many sectors: under 512, over 65,536, over a quarter of the disk, or no whole blocks.
    BadJournalSize(u64),
    /// The volume's name has no unit, or over 255.
    BadName,
    /// The disk failed. What it holds then is no volume yet, and is to be formatted again.
    Disk,
    /// There was no memory. Nothing was written.
    Memory,
}

impl From<Failed> for FormatFault {
    ghost from_gives = { λ _ e. e ≡ Disk };

    fn from(_: Failed) -> Self {
        FormatFault::Disk
    }
}

impl From<OutOfMemory> for FormatFault {
    ghost from_gives = { λ _ e. e ≡ Memory };

    fn from(_: OutOfMemory) -> Self {
        FormatFault::Memory
    }
}
