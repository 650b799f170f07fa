//! The adoption of an image that is a file or a block device.
ghost use Rattle.std.specs.Prelude.{◌≡◌, ◌≤◌, ◌+◌, ◌⊎◌, IsTrue, IfOk};
ghost use Rattle.sector_disk.specs.Cause.{Rose};
ghost use Rattle.sector_disk.specs.Disk.{CrashesLeave, HasNothingPending, OnlyReads, SameDisk, SameSink, content};
ghost use Rattle.image_adopt.specs.Adopting.{MayBeAdopted};
ghost use Rattle.hfsx_adopt.specs.Ending.{AdoptsSo, IsRefusedSo};

use crate::telling::{done_text, refusal_text};
use file_rig::{FileRig, Image, Sparse, Store, Waiting, tell};
use hx_bytes::Failed;
use image_adopt::{AdoptRefusal, Adopted, adopt_image};
use sector_disk::SectorDisk;
use std::alloc::AllocError;
use std::io::Write;

/// The status where the volume is refused.
const REFUSED: u8 = 1;

/// The status where the image could not be read or written.
const NO_DISK: u8 = 3;

/// The status where standard output failed.
const NO_OUTPUT: u8 = 5;

/// The status where the image can't be opened or locked.
const NO_IMAGE: u8 = 8;

/// Makes the volume in an image one that `hfsx` serves, says what was done, and gives the exit status: of an image that is opened the one that
/// `adopt_on` gives, and otherwise 8, and nothing is written.
pub fn adopt(rt: &HostRuntime, image: &str) -> Result<u8, AllocError> {
    let (place, sectors) = match Image::open(rt, image) {
        Ok(found) => found,
        Err(failure) => {
            tell(rt, &failure, image);
            return Ok(NO_IMAGE);
        }
    };
    let store = Store::new(rt.alloc(), Sparse::new(place), sectors)?;
    let mut rig = FileRig::new(store, Waiting::new(rt, rt.stdout()));
    let status = adopt_on(rt, &mut rig, image)?;
    if status == NO_DISK {
        if let Some(failure) = rig.failure() {
            tell(rt, &failure, image);
        }
    }
    Ok(status)
}

/// Makes the volume on the disk of an image one that `hfsx` serves, says what was done, and gives the exit status: 0, or 1 where the volume is
/// refused, 3 where the disk failed, and 5 where standard output failed after the adoption.
pub fn adopt_on<D: SectorDisk>(
    rt: &HostRuntime,
    disk: &mut D,
    image: &str,
) -> Result<u8, AllocError>
    // What is adopted stands for what it stood for; where the plain dialect reads it already, nothing is written.
    ensures adopted { IfOk result (λ status. (status ≡ 0) ⊎ (status ≡ 5) → AdoptsSo (D.state disk.old) (D.state disk.new)) }
    // Where it is refused, nothing is written.
    ensures refused { IfOk result (λ status. status ≡ 1 → IsRefusedSo (D.state disk.old) (D.state disk.new)) }
    ensures failed { IfOk result (λ status. status ≡ 3 → Rose (D.state disk.old).faults (D.state disk.new).faults) }
    ensures statuses { IfOk result (λ status. (status ≡ 0) ⊎ ((status ≡ 1) ⊎ ((status ≡ 3) ⊎ (status ≡ 5)))) }
    // A crash at any moment of the call, or at its end, leaves the image, or one that can be adopted to the same end.
    ensures crash { IsTrue (D.state disk.old).tells → HasNothingPending (D.state disk.old) → CrashesLeave (D.state disk.old) (D.state disk.new) (MayBeAdopted (content (D.state disk.old))) }
    ensures barriers { (D.state disk.new).barriers ≤ (D.state disk.old).barriers + 4 }
    ensures same { SameDisk (D.state disk.old) (D.state disk.new) }
    ensures sink { SameSink (D.state disk.old) (D.state disk.new) }
{
    match adopt_image(disk) {
        Ok(Ok(done)) => tell_done(rt, done),
        Ok(Err(why)) => tell_refusal(rt, image, why),
        Err(Failed) => Ok(NO_DISK),
    }
}

// Says on standard output what was done.
fn tell_done(rt: &HostRuntime, done: Adopted) -> Result<u8, AllocError>
    ensures { IfOk result (λ status. (status ≡ 0) ⊎ (status ≡ 5)) }
{
    let text = done_text(rt.alloc(), done)?;
    match rt.stdout().write_all(text.as_bytes()) {
        Ok(()) => Ok(0),
        Err(_) => Ok(NO_OUTPUT),
    }
}

// Says on standard error why the volume is refused.
fn tell_refusal(rt: &HostRuntime, image: &str, why: AdoptRefusal) -> Result<u8, AllocError>
    ensures { IfOk result (λ status. status ≡ 1) }
{
    let text = refusal_text(rt.alloc(), why)?;
    let why = text.as_str();
    let _ = eprintln!(rt; "hfsx-files: {image}: the volume is refused: {why}");
    Ok(REFUSED)
}
