//! A volume that is made, to those who read it.
ghost use Rattle.std.specs.Prelude.{◌≡◌, ◌≢◌, ◌<◌, ◌^◌, IsTrue, IfOk, OnOk, None};
ghost use Rattle.std.specs.List.{AllByRecursion};
ghost use Rattle.sector_disk.specs.Disk.{SameDisk, SameSink, Untouched, HasNothingPending, content};
ghost use Rattle.volume_make.specs.Layout.{layout_of};
ghost use Rattle.volume_make.specs.Refusal.{format_refusal, refusal_in};
ghost use Rattle.volume_make.specs.Written.{IsFormatted, IsSummary, IsCause};
ghost use Rattle.fresh_volume.specs.Fresh.{IsFreshVolume};

use hfs_volume::Summary;
use hx_bytes::Units;
use sector_disk::SectorDisk;
use std::alloc::Global;
use volume_make::FormatFault;

/// Makes an empty volume of all sectors of a disk, by `volume_make::format`: blocks of `block` bytes, a journal of `journal`
/// sectors, the volume's name in units. The volume is sound, it has the root alone, and a mount finds it. Its errors are those
/// of `volume_make::format`: a refusal, before anything was written, or want of memory or a fault of the disk.
pub fn format<D: SectorDisk>(
    alloc: Global,
    disk: &mut D,
    block: u32,
    journal: u64,
    name: &Units,
) -> Result<Summary, FormatFault>
    // It refuses exactly where the sizes or the name are refused, and with that refusal; then nothing was written.
    ensures refused { refusal_in result ≡ format_refusal (D.state disk.old).sectors block journal name.now }
    ensures untouched { format_refusal (D.state disk.old).sectors block journal name.now ≢ None → Untouched (D.state disk.old) (D.state disk.new) }
    // Where it is made, the disk has the layout, no write is pending, and what it has is a sound volume of the root alone.
    ensures formatted { IsTrue (D.state disk.old).tells → OnOk result (IsFormatted (layout_of (D.state disk.old).sectors block journal) name.now (content (D.state disk.old)) (content (D.state disk.new))) }
    ensures settled { IsTrue (D.state disk.old).tells → OnOk result (HasNothingPending (D.state disk.new)) }
    ensures fresh { IsTrue (D.state disk.old).tells → OnOk result (IsFreshVolume (content (D.state disk.new))) }
    ensures summary { IfOk result (IsSummary (layout_of (D.state disk.old).sectors block journal)) }
    ensures same { SameDisk (D.state disk.old) (D.state disk.new) }
    ensures sink { SameSink (D.state disk.old) (D.state disk.new) }
    ensures cause { IsCause (D.state disk.old).faults (D.state disk.new).faults result }
{
    units_fit(name.as_slice());
    volume_make::format(alloc, disk, block, journal, name)
}

/// Each unit has sixteen bits: what the type says, for proofs.
fn units_fit(units: &[u16])
    ensures { AllByRecursion (λ unit. unit < 2 ^ 16) units.now }
{
    let _first = units.first();
}
