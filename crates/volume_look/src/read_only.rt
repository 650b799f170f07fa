//! What a disk stands for, as a space that is only read.
ghost use Rattle.std.specs.Prelude.{IsTrue};
ghost use Rattle.sector_disk.specs.Disk.{content};
ghost use Rattle.jnl_replay.specs.Viewing.{shown};
ghost use Rattle.volume_look.specs.Slots.{AreCopies};

use crate::slots::Copied;
use jnl_replay::Peek;
use sector_disk::SectorDisk;

/// What a disk stands for, by a peek that was made of it, and sectors of it that were read. Nothing is written: there is room for one put, and it
/// stays in memory.
#[derive(Drop)]
pub(crate) struct ReadOnly<'a, 'b, 'c, D: SectorDisk> {
    pub(crate) peek: &'a Peek,
    pub(crate) disk: &'b mut D,
    pub(crate) slots: &'c mut [Option<Copied>],
    /// The sector that was put.
    pub(crate) put: Option<Copied>,
    ghost fresh: { IsTrue (D.state disk.now).tells → AreCopies (shown peek.now (D.state disk.now).sectors (content (D.state disk.now))) slots.now },
}
