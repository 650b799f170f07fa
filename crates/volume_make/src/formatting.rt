//! A volume that is made on a disk.
ghost use Rattle.std.specs.Prelude.{◌≡◌, ◌≢◌, IsTrue, IfOk, OnOk, None};
ghost use Rattle.sector_disk.specs.Disk.{SameDisk, SameSink, Untouched, HasNothingPending, content};
ghost use Rattle.volume_make.specs.Layout.{IsFitting, layout_of};
ghost use Rattle.volume_make.specs.Refusal.{format_refusal, refusal_in};
ghost use Rattle.volume_make.specs.Written.{IsFormatted, IsSummary, IsCause};

use crate::fault::FormatFault;
use crate::layout::{Layout, layout_of};
use crate::refusing::format_refusal;
use crate::trees::fresh_trees;
use crate::writing::write_volume;
use hfs_volume::Summary;
use hx_bytes::Units;
use sector_disk::SectorDisk;
use std::alloc::Global;

/// Makes an empty volume of all sectors of a disk: blocks of `block` bytes, a journal of `journal` sectors, the volume's name
/// in units. What the disk holds doesn't matter. It writes the layout's sectors alone and reads nothing, in memory for four
/// nodes. Where the disk fails the volume isn't made, and the disk is to be formatted again.
pub fn format<D: SectorDisk>(
    alloc: Global,
    disk: &mut D,
    block: u32,
    journal: u64,
    name: &Units,
) -> Result<Summary, FormatFault>
    // It refuses exactly where the sizes or the name are refused, and with that refusal; then nothing was written.
    ensures refused { refusal_in result ≡ format_refusal (D.state disk.old).sectors block journal name.now }
    ensures untouched { format_refusal (D.state disk.old).sectors block journal name.now ≢ None → Untouched (D.state disk.old) (D.state disk.new) }
    // Where it is made, the disk has the layout, and no write is pending.
    ensures formatted { IsTrue (D.state disk.old).tells → OnOk result (IsFormatted (layout_of (D.state disk.old).sectors block journal) name.now (content (D.state disk.old)) (content (D.state disk.new))) }
    ensures settled { IsTrue (D.state disk.old).tells → OnOk result (HasNothingPending (D.state disk.new)) }
    ensures summary { IfOk result (IsSummary (layout_of (D.state disk.old).sectors block journal)) }
    ensures fitting { OnOk result (IsFitting (layout_of (D.state disk.old).sectors block journal)) }
    ensures same { SameDisk (D.state disk.old) (D.state disk.new) }
    ensures sink { SameSink (D.state disk.old) (D.state disk.new) }
    ensures cause { IsCause (D.state disk.old).faults (D.state disk.new).faults result }
{
    let sectors = disk.sectors();
    if let Some(refusal) = format_refusal(sectors, block, journal, name) {
        return Err(refusal);
    }
    let layout = layout_of(sectors, block, journal);
    let trees = fresh_trees(alloc, layout, name)?;
    write_volume(disk, layout, &trees)?;
    Ok(summary(layout))
}

/// What a volume has that was just made: the two files of the journal.
fn summary(layout: Layout) -> Summary
    requires { IsFitting layout }
    ensures { IsSummary layout result }
{
    Summary {
        files: 2,
        folders: 0,
        blocks: layout.total,
        free: layout.free(),
    }
}
