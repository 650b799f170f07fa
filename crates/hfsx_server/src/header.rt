// What an image stands for, before its volume is looked at: its header and its journal.
ghost use Rattle.std.specs.Prelude.{◌≡◌, IsTrue, IfOk, IfErr, None, Ok};
ghost use Rattle.sector_disk.specs.Disk.{OnlyReads, content};
ghost use Rattle.volume_header.specs.Refusal.{header_refusal};
ghost use Rattle.jnl_format.specs.Recovery.{header_of_volume, recovery, replayed};
ghost use Rattle.jnl_replay.specs.Plan.{FitsPlan, IsPlan, journal_of};
ghost use Rattle.hfsx_server.specs.Cause.{IsCause};
ghost use Rattle.hfsx_server.specs.Checking.{IsCheckFault};

use crate::faults::CheckFault;
use hfs_serving::OpenRefusal;
use jnl_replay::{Plan, ReplayFault, find_volume_header, place_of, validate};
use sector_disk::SectorDisk;
use volume_header::{HeaderRefusal, VolumeHeader};

/// The volume header, where it is accepted.
pub(crate) fn find_header<D: SectorDisk>(disk: &mut D) -> Result<VolumeHeader, CheckFault>
    ensures header { IsTrue (D.state disk.old).tells → IfOk result (λ head. head ≡ header_of_volume (content (D.state disk.old))) }
    ensures accepted { IfOk result (λ head. header_refusal head (D.state disk.old).sectors ≡ None) }
    ensures refused { IsTrue (D.state disk.old).tells → IfErr result (IsCheckFault (content (D.state disk.old))) }
    ensures reads { OnlyReads (D.state disk.old) (D.state disk.new) }
    ensures cause { IsCause CheckFault.Disk (D.state disk.old).faults (D.state disk.new).faults result }
{
    let found = find_volume_header(disk)?;
    match found {
        Ok(header) => Ok(header),
        Err(why) => Err(refused_header(why)),
    }
}

fn refused_header(why: HeaderRefusal) -> CheckFault
    ensures { result ≡ CheckFault.Refused (OpenRefusal.Header why) }
{
    CheckFault::Refused(OpenRefusal::Header(why))
}

/// The plan of the journal's replay, where it has no fault.
pub(crate) fn find_journal<D: SectorDisk>(
    disk: &mut D,
    header: &VolumeHeader,
) -> Result<Plan, CheckFault>
    requires accepted { header_refusal header.now (D.state disk.old).sectors ≡ None }
    requires header { IsTrue (D.state disk.old).tells → header.now ≡ header_of_volume (content (D.state disk.old)) }
    ensures plan { IsTrue (D.state disk.old).tells → IfOk result (IsPlan (content (D.state disk.old))) }
    ensures recovers { IsTrue (D.state disk.old).tells → IfOk result (λ plan. recovery (content (D.state disk.old)) ≡ Ok (replayed (journal_of plan) (content (D.state disk.old)))) }
    ensures refused { IsTrue (D.state disk.old).tells → IfErr result (IsCheckFault (content (D.state disk.old))) }
    ensures fits { IfOk result (λ plan. FitsPlan (D.state disk.old).sectors plan) }
    ensures reads { OnlyReads (D.state disk.old) (D.state disk.new) }
    ensures cause { IsCause CheckFault.Disk (D.state disk.old).faults (D.state disk.new).faults result }
{
    match validate(disk, &place_of(header)) {
        Ok(plan) => Ok(plan),
        Err(ReplayFault::Disk) => Err(CheckFault::Disk),
        Err(ReplayFault::Refused(why)) => Err(CheckFault::Refused(OpenRefusal::Journal(why))),
    }
}
