// A volume that is formatted.
ghost use Rattle.std.specs.Prelude.{◌≡◌, ◌≢◌, ◌≤◌, ◌↔◌, ◌++◌, IsTrue, IfOk, IfSome, OnOk, None};
ghost use Rattle.sector_disk.specs.Cause.{Rose};
ghost use Rattle.sector_disk.specs.Disk.{SameDisk, SameSink};
ghost use Rattle.volume_make.specs.Layout.{free_of};
ghost use Rattle.volume_make.specs.Refusal.{as_refusal};
ghost use Rattle.hfsx_server.specs.Cause.{IsCause};
ghost use Rattle.hfsx_server.specs.Made.{HasBlocks, IsMade, IsNoSize, journal_sectors, made_layout};
ghost use Rattle.hfsx_server.specs.Telling.{Tells, refusal_text, size_refusal, formatted_text};

use crate::reports::tell_formatted;
use crate::{SizeRefusal, Status, tell_refusal};
use hfs_model::ascii;
use hx_bytes::{Failed, Trouble};
use sector_disk::{Rig, SectorDisk};
use std::alloc::Global;
use volume_make::{FormatFault, Summary};

/// The fewest sectors that a volume has, and the most.
const FEWEST: u64 = 16_384;

const MOST: u64 = 2_147_483_648;

/// The bytes of a block.
const BLOCK: u32 = 4_096;

/// The most sectors that a journal has.
const MOST_JOURNAL: u64 = 65_536;

/// The volume's name.
const NAME: &str = "untitled";

/// Formats an image, and tells its blocks and those that are free: blocks of 4,096 bytes, a journal of an eighth of the
/// image, the name `untitled`. An image of fewer than 16,384 or more than 2,147,483,648 sectors is refused and isn't written.
pub fn format<R: Rig>(alloc: Global, rig: &mut R) -> Status
    ensures refused { (result ≡ Status.Refused) ↔ IsNoSize (R.state rig.old).sectors }
    ensures refusal { result ≡ Status.Refused → Tells (R.state rig.old) (R.state rig.new) (refusal_text (size_refusal (R.state rig.old).sectors)) }
    ensures made { IsTrue (R.state rig.old).tells → result ≡ Status.Done → IsMade (R.state rig.old) (R.state rig.new) }
    ensures told { IsTrue (R.state rig.old).tells → result ≡ Status.Done → (R.state rig.new).told ≡ (R.state rig.old).told ++ formatted_text (made_layout (R.state rig.old).sectors).total (free_of (made_layout (R.state rig.old).sectors)) }
    ensures no_usage { result ≢ Status.Usage }
    ensures no_source { result ≢ Status.Source }
    ensures no_many { result ≢ Status.TooMany }
    ensures disk { result ≡ Status.Disk → Rose (R.state rig.old).faults (R.state rig.new).faults }
    ensures sink { result ≡ Status.Sink → Rose (R.state rig.old).sink_faults (R.state rig.new).sink_faults }
    ensures same { SameDisk (R.state rig.old) (R.state rig.new) }
{
    if let Some(refusal) = refused_size(rig.sectors()) {
        tell_refusal(rig, refusal);
        return Status::Refused;
    }
    match make_volume(alloc, rig) {
        Ok(summary) => match tell_formatted(rig, summary) {
            Ok(()) => Status::Done,
            Err(Failed) => Status::Sink,
        },
        Err(Trouble::Disk) => Status::Disk,
        Err(Trouble::Memory) => Status::Memory,
    }
}

// Why so many sectors aren't formatted, if they aren't.
pub(crate) fn refused_size(sectors: u64) -> Option<SizeRefusal>
    ensures none { result ≡ None ↔ ¬ (IsNoSize sectors) }
    ensures some { IfSome result (λ refusal. (refusal ≡ size_refusal sectors) × IsNoSize sectors) }
{
    if sectors < FEWEST {
        return Some(SizeRefusal::TooSmall(sectors));
    }
    if sectors > MOST {
        return Some(SizeRefusal::TooLarge(sectors));
    }
    None
}

// Writes an empty volume.
fn make_volume<D: SectorDisk>(alloc: Global, disk: &mut D) -> Result<Summary, Trouble>
    requires fewest { FEWEST ≤ (D.state disk.old).sectors }
    requires most { (D.state disk.old).sectors ≤ MOST }
    ensures blocks { IfOk result (HasBlocks (D.state disk.old).sectors) }
    ensures made { IsTrue (D.state disk.old).tells → OnOk result (IsMade (D.state disk.old) (D.state disk.new)) }
    ensures same { SameDisk (D.state disk.old) (D.state disk.new) }
    ensures sink { SameSink (D.state disk.old) (D.state disk.new) }
    ensures cause { IsCause Trouble.Disk (D.state disk.old).faults (D.state disk.new).faults result }
{
    let name = ascii(alloc, NAME)?;
    let journal = journal_sectors(disk.sectors());
    match fresh_volume::format(alloc, disk, BLOCK, journal, &name) {
        Ok(summary) => Ok(summary),
        Err(fault) => Err(trouble_of(fault)),
    }
}

// The sectors of the journal: an eighth of all, in whole blocks, up to the most that a journal has. They are 2,048 at least.
fn journal_sectors(sectors: u64) -> u64
    ensures { result ≡ journal_sectors sectors }
{
    (sectors / 64 * 8).min(MOST_JOURNAL)
}

// The trouble of a format that isn't refused.
fn trouble_of(fault: FormatFault) -> Trouble
    requires { as_refusal fault ≡ None }
    ensures disk { (result ≡ Trouble.Disk) ↔ (fault ≡ FormatFault.Disk) }
{
    match fault {
        FormatFault::Disk => Trouble::Disk,
        _ => Trouble::Memory,
    }
}
