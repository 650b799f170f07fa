//! A journal that later systems wrote, replayed, and its header written anew as the plain dialect has it.
ghost use Rattle.std.specs.Prelude.{◌≡◌, ◌≤◌, ◌+◌, IsTrue, OnOk};
ghost use Rattle.sector_disk.specs.Cause.{HasCause};
ghost use Rattle.sector_disk.specs.Disk.{HasNothingPending, CrashesLeave, SameDisk, SameSink, content, only};
ghost use Rattle.jnl_format.specs.declared.dialect.Dialect.TheVariants.{Wide};
ghost use Rattle.jnl_replay.specs.Adopting.{IsAdopted, StandsAdopted, after_adoption, narrowed, plain_blhdr};
ghost use Rattle.jnl_replay.specs.Plan.{FitsAny, IsPlanAs};

use crate::emptying::empty_journal;
use crate::plan::Plan;
use crate::replaying::replay_as;
use hx_bytes::Failed;
use jnl_format::{Dialect, Header};
use sector_disk::SectorDisk;

const PLAIN_BLHDR: u32 = 4096;

/// Makes the journal of a plan that `validate_as` answers in the wide dialect on this disk as it reads one that the plain dialect
/// reads: replays it, and then writes its empty header anew behind a barrier, with a size of the lists' headers that the plain
/// dialect has. It takes no memory. After a fault, or a loss of power, the disk may be validated in the wide dialect again.
pub fn adopt<D: SectorDisk>(disk: &mut D, plan: &Plan) -> Result<(), Failed>
    requires fits { FitsAny (D.state disk.old).sectors plan.now }
    requires plan { IsTrue (D.state disk.old).tells → IsPlanAs Wide (content (D.state disk.old)) plan.now }
    // The content is what it stood for, the journal is empty, and nothing is pending.
    ensures adopted { IsTrue (D.state disk.old).tells → OnOk result ((D.state disk.new).candidates ≡ only (after_adoption plan.now (content (D.state disk.old)))) }
    // The plain dialect reads it.
    ensures plain { IsTrue (D.state disk.old).tells → OnOk result (IsAdopted plan.now (content (D.state disk.old)) (content (D.state disk.new))) }
    // A crash at any moment of the call, or at its end, leaves a content that stands in the wide dialect for the same, and that no
    // mount in the plain one reads as another.
    ensures crash { IsTrue (D.state disk.old).tells → HasNothingPending (D.state disk.old) → CrashesLeave (D.state disk.old) (D.state disk.new) (StandsAdopted plan.now (content (D.state disk.old))) }
    ensures barriers { (D.state disk.new).barriers ≤ (D.state disk.old).barriers + 4 }
    ensures same { SameDisk (D.state disk.old) (D.state disk.new) }
    ensures sink { SameSink (D.state disk.old) (D.state disk.new) }
    ensures cause { HasCause (D.state disk.old).faults (D.state disk.new).faults result }
{
    replay_as(disk, plan)?;
    let plain = narrow(plan);
    empty_journal(disk, &plain)
}

// The plan of the journal that this plan's becomes.
fn narrow(plan: &Plan) -> Plan
    ensures { result ≡ narrowed plan.now }
{
    let header = Header {
        blhdr: plain_size(plan.header.blhdr),
        ..plan.header
    };
    Plan { header, ..*plan }
}

/// How many bytes the header of a list fills after an adoption, where it filled so many before.
pub fn plain_size(blhdr: u32) -> u32
    ensures { result ≡ plain_blhdr blhdr }
{
    if blhdr <= Dialect::Plain.most_blhdr() {
        blhdr
    } else {
        PLAIN_BLHDR
    }
}
