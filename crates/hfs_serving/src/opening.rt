//! What a mount makes of an image before it looks into the volume: its header, its journal, and how many sectors a transaction holds. Nothing is
//! written.
ghost use Rattle.std.specs.Prelude.{◌≡◌, ◌<◌, ◌≤◌, ℕ, IsTrue, IfOk, IfErr, Some, None, Ok, false, true};
ghost use Rattle.sector_disk.specs.Cause.{HasCause};
ghost use Rattle.sector_disk.specs.Disk.{OnlyReads, content};
ghost use Rattle.volume_header.specs.Refusal.{is_volume_size};
ghost use Rattle.jnl_replay.specs.Plan.{FitsPlan, IsPlan, journal_of};
ghost use Rattle.jnl_format.specs.Recovery.{Content, recovery, replayed};
ghost use Rattle.jnl_replay.specs.Finding.{RefusesVolume};
ghost use Rattle.jnl_store.specs.Plan.{IsCapacityOf};
ghost use Rattle.hfs_volume.specs.Mount.{IsOpen};
ghost use Rattle.hfs_serving.specs.Refusing.{IsOpened, RefusesImage, RefusesPlan};

use hx_bytes::Failed;
use jnl_format::JnlRefusal;
use jnl_replay::{Plan, ReplayFault, VolumeRefusal, find_place, validate};
use jnl_store::capacity;
use sector_disk::SectorDisk;
use volume_header::HeaderRefusal;

/// A transaction must hold so many sectors.
const LEAST_CAPACITY: u64 = 256;

/// Why an image isn't opened. Of the refusals, the first in this order that stands is told.
#[derive(Clone, Copy, Debug, PartialEq, Eq)]
pub enum OpenRefusal {
    /// Its volume header isn't accepted.
    Header(HeaderRefusal),
    /// It is locked by software.
    SoftwareLocked,
    /// Its journal can't be replayed.
    Journal(JnlRefusal),
    /// A transaction of its journal must hold `need` sectors, and holds `has`.
    JournalTooSmall { need: u64, has: u64 },
}

/// Reads an image's header and its journal, and answers the plan of its replay, or the first refusal that stands. Nothing is written.
pub fn open_image<D: SectorDisk>(disk: &mut D) -> Result<Result<Plan, OpenRefusal>, Failed>
    ensures opened { IsTrue (D.state disk.old).tells → IfOk result (λ answer. IfOk answer (IsOpened (content (D.state disk.old)))) }
    ensures refused { IsTrue (D.state disk.old).tells → IfOk result (λ answer. IfErr answer (RefusesImage (content (D.state disk.old)))) }
    ensures fits { IfOk result (λ answer. IfOk answer (FitsPlan (D.state disk.old).sectors)) }
    ensures size { IfOk result (λ answer. IfOk answer (λ _. is_volume_size (D.state disk.new).sectors ≡ true)) }
    ensures reads { OnlyReads (D.state disk.old) (D.state disk.new) }
    ensures cause { HasCause (D.state disk.old).faults (D.state disk.new).faults result }
{
    let place = match find_place(disk)? {
        Ok(place) => place,
        Err(why) => return Ok(Err(refused(why))),
    };
    match validate(disk, &place) {
        Ok(plan) => Ok(large_enough(plan)),
        Err(ReplayFault::Disk) => Err(Failed),
        Err(ReplayFault::Refused(why)) => Ok(Err(OpenRefusal::Journal(why))),
    }
}

// The same refusal of an image that is opened.
fn refused(why: VolumeRefusal) -> OpenRefusal
    ensures { (image : Content) → RefusesVolume image why → RefusesImage image result }
{
    match why {
        VolumeRefusal::Header(why) => OpenRefusal::Header(why),
        VolumeRefusal::SoftwareLocked => OpenRefusal::SoftwareLocked,
    }
}

// The plan, where its journal is large enough.
fn large_enough(plan: Plan) -> Result<Plan, OpenRefusal>
    requires { (sectors : ℕ) × FitsPlan sectors plan }
    ensures opened { IfOk result (λ large. (large ≡ plan) × (most : ℕ) × IsCapacityOf plan most × (256 ≤ most)) }
    ensures refused { IfErr result (RefusesPlan plan) }
{
    let has = capacity(&plan);
    if has < LEAST_CAPACITY {
        return Err(OpenRefusal::JournalTooSmall {
            need: LEAST_CAPACITY,
            has,
        });
    }
    Ok(plan)
}
