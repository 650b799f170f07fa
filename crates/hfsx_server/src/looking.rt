// A look at what a volume holds.
ghost use Rattle.std.specs.Prelude.{◌≡◌, ◌≢◌, ◌⊎◌, ℕ, IsTrue};
ghost use Rattle.sector_disk.specs.Disk.{SameDisk, content};
ghost use Rattle.jnl_format.specs.Recovery.{Content};
ghost use Rattle.hfs_volume.specs.Mount.{IsMountable, Mounts};
ghost use Rattle.volume_look.specs.Talk.{Ends, HearsRight};
ghost use Rattle.hfsx_server.specs.Cause.{IsCauseOf};
ghost use Rattle.hfsx_server.specs.Telling.{ToldRefusal};

use crate::{Status, tell_mount};
use hx_bytes::Trouble;
use sector_disk::Rig;
use served_volume::VolumeChecker;
use std::alloc::Global;
use volume_look::{Asker, look_into};

/// Opens an image for reading, as it is with its journal replayed, and answers the commands that are asked, to the last. Nothing is written, and
/// no barrier is called. Where the image can't be mounted, the first refusal that stands is told, as by `run`, and nothing is asked.
pub fn look<R: Rig, A: Asker>(alloc: Global, rig: &mut R, asker: &mut A) -> Status
    // Whatever ends it, each reply that was heard is that of the plain tree's step, on the tree of the content that a mount finds.
    ensures right { IsTrue (R.state rig.old).tells → IsTrue (A.state asker.old).tells → (capacity : ℕ) (start : Content) → Mounts (content (R.state rig.old)) capacity start
        → HearsRight capacity start (A.state asker.old) (A.state asker.new) }
    // Status 0 means that each command that was asked has its reply, and that no more is asked.
    ensures ends { IsTrue (A.state asker.old).tells → result ≡ Status.Done → Ends (A.state asker.old) (A.state asker.new) }
    // Status 1 stands exactly where the image isn't mountable, unless it couldn't be read, and then the first refusal that stands is told.
    ensures refused { IsTrue (R.state rig.old).tells → result ≡ Status.Refused → ToldRefusal (R.state rig.old) (R.state rig.new) × ¬ IsMountable (content (R.state rig.old)) }
    ensures refuses { IsTrue (R.state rig.old).tells → ¬ IsMountable (content (R.state rig.old)) → (result ≡ Status.Refused) ⊎ ((result ≡ Status.Disk) ⊎ (result ≡ Status.Memory)) }
    ensures unasked { result ≡ Status.Refused → A.state asker.new ≡ A.state asker.old }
    ensures unwritten { (R.state rig.new).candidates ≡ (R.state rig.old).candidates }
    ensures barriers { (R.state rig.new).barriers ≡ (R.state rig.old).barriers }
    ensures untold { result ≢ Status.Refused → (R.state rig.new).told ≡ (R.state rig.old).told }
    ensures no_usage { result ≢ Status.Usage }
    ensures no_source { result ≢ Status.Source }
    ensures no_sink { result ≢ Status.Sink }
    ensures no_many { result ≢ Status.TooMany }
    ensures disk { IsCauseOf Status.Disk (R.state rig.old).faults (R.state rig.new).faults result }
    ensures same { SameDisk (R.state rig.old) (R.state rig.new) }
{
    let mut checker = VolumeChecker::new(alloc);
    match look_into::<VolumeChecker, R, A>(alloc, &mut checker, rig, asker) {
        Ok(Ok(())) => Status::Done,
        Ok(Err(why)) => {
            tell_mount(rig, why, checker.found.as_slice());
            Status::Refused
        }
        Err(Trouble::Disk) => Status::Disk,
        Err(Trouble::Memory) => Status::Memory,
    }
}
