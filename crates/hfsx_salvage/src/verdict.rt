//! What is said of a file that was saved.

ghost use Rattle.std.specs.Prelude.{◌≡◌, IsTrue, false};

use salvage_tree::{Fork, Volume};

/// What a file is.
#[derive(Clone, Copy)]
pub(crate) enum Verdict {
    /// Its records and its blocks are whole, and no other file uses them.
    Whole,
    /// Some of its bytes are missing.
    Cut,
    /// Another file uses some of its blocks too.
    Overlaps,
    /// Its record and the rest of the volume contradict each other.
    Unsure,
}

impl Verdict {
    /// The word in lines.
    pub(crate) fn word(self) -> &'static str {
        match self {
            Verdict::Whole => "whole",
            Verdict::Cut => "cut",
            Verdict::Overlaps => "overlaps",
            Verdict::Unsure => "unsure",
        }
    }
}

/// What speaks against a fork, beside its own numbers.
#[derive(Clone, Copy)]
pub(crate) struct Signs {
    /// Whether each sector of its bytes was read.
    pub(crate) read: bool,
    /// Whether another uses one of its blocks.
    pub(crate) shared: bool,
    /// Whether the bitmap has one of its blocks free, while it has blocks in use that nothing uses.
    pub(crate) doubted: bool,
}

/// The verdict on a fork.
pub(crate) fn judge(volume: &Volume, fork: &Fork, signs: Signs) -> Verdict
    // A file is whole only where each of its sectors was read and nothing speaks against it.
    ensures whole { result ≡ Verdict.Whole → IsTrue signs.read × ((signs.shared ≡ false) × (signs.doubted ≡ false)) }
{
    if !signs.read || fork.blocks < volume.blocks_for(fork.size) {
        Verdict::Cut
    } else if signs.shared {
        Verdict::Overlaps
    } else if signs.doubted || !fork.agrees(volume) {
        Verdict::Unsure
    } else {
        Verdict::Whole
    }
}
