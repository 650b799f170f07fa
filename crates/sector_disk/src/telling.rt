//! Bytes told whole.
ghost use Rattle.std.specs.Prelude.{◌≡◌, ◌++◌, IsTrue, OnOk};
ghost use Rattle.sector_disk.specs.Cause.{HasCause};
ghost use Rattle.sector_disk.specs.Clock.{TimePasses};
ghost use Rattle.sector_disk.specs.Disk.{IsImage, SameDisk, ToldPrefix};

use crate::disk::Rig;
use hx_bytes::Failed;

/// Tells all of the bytes.
pub fn tell_whole<R: Rig>(rig: &mut R, bytes: &[u8]) -> Result<(), Failed>
    ensures told { IsTrue (R.state rig.old).tells → OnOk result ((R.state rig.new).told ≡ (R.state rig.old).told ++ bytes.now) }
    ensures unsure { IsTrue (R.state rig.old).tells → ToldPrefix (R.state rig.old).told bytes.now (R.state rig.new).told }
    ensures candidates { (R.state rig.new).candidates ≡ (R.state rig.old).candidates }
    ensures barriers { (R.state rig.new).barriers ≡ (R.state rig.old).barriers }
    ensures faults { (R.state rig.new).faults ≡ (R.state rig.old).faults }
    ensures same { SameDisk (R.state rig.old) (R.state rig.new) }
    ensures time { IsTrue (R.state rig.old).tells → TimePasses (R.state rig.old).clock (R.state rig.new).clock
        (λ image told. IsImage (R.state rig.old).candidates image × ToldPrefix (R.state rig.old).told bytes.now told) }
    ensures cause { HasCause (R.state rig.old).sink_faults (R.state rig.new).sink_faults result }
{
    let mut at = 0;
    while at < bytes.len() {
        let count = rig.tell(&bytes[at..])?;
        if count == 0 {
            return Err(Failed);
        }
        at += count;
    }
    Ok(())
}
