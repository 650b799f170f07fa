//! Where a journal is looked for, and what is found there.
ghost use Rattle.std.specs.Prelude.{◌≡◌};
ghost use Rattle.jnl_replay.specs.declared.plan.ReplayFault.TheVariants.{Disk, Refused};

use hx_bytes::Failed;
use jnl_format::{Header, Info, JnlRefusal};

/// What the volume header says of the journal.
#[derive(Clone, Copy, Debug, PartialEq, Eq)]
pub struct Place {
    /// The first sector of the info block's allocation block.
    pub info_sector: u64,
    /// The version of the system that last mounted the volume.
    pub last_mounted: u32,
}

/// A journal that can be replayed.
#[derive(Clone, Copy, Debug, PartialEq, Eq)]
pub struct Plan {
    pub place: Place,
    pub info: Info,
    pub header: Header,
    /// The journal still has to be initialised, and counts as empty.
    pub fresh: bool,
}

/// Why there is no plan.
#[derive(Clone, Copy, Debug, PartialEq, Eq)]
pub enum ReplayFault {
    Disk,
    Refused(JnlRefusal),
}

impl From<Failed> for ReplayFault {
    ghost from_gives = { λ _ e. e ≡ Disk };

    fn from(_: Failed) -> Self {
        ReplayFault::Disk
    }
}

impl From<JnlRefusal> for ReplayFault {
    ghost from_gives = { λ r e. e ≡ Refused r };

    fn from(refusal: JnlRefusal) -> Self {
        ReplayFault::Refused(refusal)
    }
}
