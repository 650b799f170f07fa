// An image that is checked.
ghost use Rattle.std.specs.Prelude.{◌≡◌, ◌≢◌, ◌⊎◌, IsTrue, IfOk, IfErr, true};
ghost use Rattle.sector_disk.specs.Disk.{OnlyReads, SameDisk, content};
ghost use Rattle.volume_header.specs.Refusal.{is_volume_size};
ghost use Rattle.hfs_volume.specs.Findings.{HasBytes};
ghost use Rattle.jnl_replay.specs.Viewing.{shown};
ghost use Rattle.hfsx_server.specs.Cause.{IsCause, IsCauseOf};
ghost use Rattle.hfsx_server.specs.Checking.{IsCheckFault, IsSoundImage, Judges, JudgesImage, ToldBroken, ToldCheckRefusal, ToldSound};

use crate::faults::CheckFault;
use crate::header::{find_header, find_journal};
use crate::reports::{tell_clean, tell_findings};
use crate::{Status, tell_open};
use fsck_core::Verdict;
use hx_bytes::{Failed, Trouble};
use jnl_replay::{Peek, PeekView};
use sector_disk::{Rig, SectorDisk};
use std::alloc::Global;

/// Checks the volume of an image, as it is with its journal replayed, and tells what it has, or each finding. Nothing is written.
pub fn check<R: Rig>(alloc: Global, rig: &mut R) -> Status
    ensures sound { IsTrue (R.state rig.old).tells → result ≡ Status.Done → ToldSound (R.state rig.old) (R.state rig.new) }
    ensures found { IsTrue (R.state rig.old).tells → result ≡ Status.Refused → ToldCheckRefusal (R.state rig.old) (R.state rig.new) ⊎ ToldBroken (R.state rig.old) (R.state rig.new) }
    ensures unsound { IsTrue (R.state rig.old).tells → result ≡ Status.Refused → ¬ IsSoundImage (content (R.state rig.old)) }
    ensures finds { IsTrue (R.state rig.old).tells → ¬ IsSoundImage (content (R.state rig.old)) → (result ≡ Status.Refused) ⊎ ((result ≡ Status.Disk) ⊎ (result ≡ Status.Memory)) }
    ensures unwritten { (R.state rig.new).candidates ≡ (R.state rig.old).candidates }
    ensures barriers { (R.state rig.new).barriers ≡ (R.state rig.old).barriers }
    ensures no_usage { result ≢ Status.Usage }
    ensures no_source { result ≢ Status.Source }
    ensures no_many { result ≢ Status.TooMany }
    ensures disk { IsCauseOf Status.Disk (R.state rig.old).faults (R.state rig.new).faults result }
    ensures sink { IsCauseOf Status.Sink (R.state rig.old).sink_faults (R.state rig.new).sink_faults result }
    ensures same { SameDisk (R.state rig.old) (R.state rig.new) }
{
    match judge(alloc, rig) {
        Ok(Verdict::Clean(summary)) => match tell_clean(rig, summary) {
            Ok(()) => Status::Done,
            Err(Failed) => Status::Sink,
        },
        Ok(Verdict::Findings(findings)) => {
            tell_findings(rig, findings.as_slice());
            Status::Refused
        }
        Err(CheckFault::Refused(why)) => {
            tell_open(rig, why);
            Status::Refused
        }
        Err(CheckFault::Disk) => Status::Disk,
        Err(CheckFault::Memory) => Status::Memory,
    }
}

// The verdict on what an image stands for.
fn judge<D: SectorDisk>(alloc: Global, disk: &mut D) -> Result<Verdict, CheckFault>
    ensures judged { IsTrue (D.state disk.old).tells → IfOk result (JudgesImage (content (D.state disk.old))) }
    ensures refused { IsTrue (D.state disk.old).tells → IfErr result (IsCheckFault (content (D.state disk.old))) }
    ensures reads { OnlyReads (D.state disk.old) (D.state disk.new) }
    ensures cause { IsCause CheckFault.Disk (D.state disk.old).faults (D.state disk.new).faults result }
{
    let header = find_header(disk)?;
    let plan = find_journal(disk, &header)?;
    let peek = Peek::new(alloc, disk, &plan)?;
    Ok(judge_through(alloc, disk, &peek)?)
}

// The verdict on what a peek shows of a disk.
fn judge_through<D: SectorDisk>(
    alloc: Global,
    disk: &mut D,
    peek: &Peek,
) -> Result<Verdict, Trouble>
    requires size { is_volume_size (D.state disk.old).sectors ≡ true }
    ensures judged { IsTrue (D.state disk.old).tells → HasBytes (shown peek.now (D.state disk.old).sectors (content (D.state disk.old)))
        → IfOk result (Judges (shown peek.now (D.state disk.old).sectors (content (D.state disk.old)))) }
    ensures reads { OnlyReads (D.state disk.old) (D.state disk.new) }
    ensures cause { IsCause Trouble.Disk (D.state disk.old).faults (D.state disk.new).faults result }
{
    let mut view = PeekView { peek, disk };
    fsck_core::check(alloc, &mut view)
}
