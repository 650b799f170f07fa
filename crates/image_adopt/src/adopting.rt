//! The adoption of an image.
ghost use Rattle.std.specs.Prelude.{◌≡◌, ◌≤◌, ◌+◌, ◌==◌, IsTrue, IfOk, IfErr, IfSome, not};
ghost use Rattle.sector_disk.specs.Cause.{HasCause};
ghost use Rattle.sector_disk.specs.Disk.{CrashesLeave, HasNothingPending, OnlyReads, SameDisk, SameSink, content};
ghost use Rattle.jnl_format.specs.Recovery.{Content};
ghost use Rattle.jnl_replay.specs.Adopting.{plain_blhdr};
ghost use Rattle.jnl_replay.specs.Finding.{RefusesVolume};
ghost use Rattle.jnl_replay.specs.Plan.{FitsAny};
ghost use Rattle.image_adopt.specs.Adopting.{IsAdoptedAs, IsFoundAs, MayBeAdopted, RefusesAdoption};
ghost use Rattle.image_adopt.specs.declared.answers.Adopted.TheVariants.{Already};

use crate::answers::{AdoptRefusal, Adopted, Made};
use hx_bytes::Failed;
use jnl_format::Dialect;
use jnl_replay::{
    Plan, ReplayFault, VolumeRefusal, adopt, find_place, plain_size, validate, validate_as,
};
use sector_disk::SectorDisk;

/// Makes an image whose journal the wide dialect reads one that the plain dialect reads: replays its journal, and then writes the journal's
/// header anew, behind a barrier. Where the plain dialect reads the image as it is, and where it is refused, nothing is written. After a fault,
/// or a loss of power, it may be called again.
pub fn adopt_image<D: SectorDisk>(disk: &mut D) -> Result<Result<Adopted, AdoptRefusal>, Failed>
    // What the image stands for in the plain dialect afterwards is what it stood for in the wide one, but in the journal header and the info block.
    ensures adopted { IsTrue (D.state disk.old).tells → IfOk result (λ answer. IfOk answer (IsAdoptedAs (content (D.state disk.old)) (content (D.state disk.new)))) }
    // A refusal is the first that stands.
    ensures refused { IsTrue (D.state disk.old).tells → IfOk result (λ answer. IfErr answer (RefusesAdoption (content (D.state disk.old)))) }
    ensures unwritten { IfOk result (λ answer. IfErr answer (λ _. OnlyReads (D.state disk.old) (D.state disk.new))) }
    ensures already { IfOk result (λ answer. IfOk answer (λ how. how ≡ Already → OnlyReads (D.state disk.old) (D.state disk.new))) }
    // A crash at any moment of the call, or at its end, leaves the image, or one that can be adopted to the same end, and that no mount in either
    // dialect reads as another.
    ensures crash { IsTrue (D.state disk.old).tells → HasNothingPending (D.state disk.old) → CrashesLeave (D.state disk.old) (D.state disk.new) (MayBeAdopted (content (D.state disk.old))) }
    ensures barriers { (D.state disk.new).barriers ≤ (D.state disk.old).barriers + 4 }
    ensures same { SameDisk (D.state disk.old) (D.state disk.new) }
    ensures sink { SameSink (D.state disk.old) (D.state disk.new) }
    ensures cause { HasCause (D.state disk.old).faults (D.state disk.new).faults result }
{
    let found = look(disk)?;
    match found {
        Ok(None) => Ok(Ok(Adopted::Already)),
        Ok(Some(plan)) => {
            adopt(disk, &plan)?;
            Ok(Ok(Adopted::Anew(made_of(&plan))))
        }
        Err(why) => Ok(Err(why)),
    }
}

// The plan of the image's journal in the wide dialect; none where the plain one reads it. Nothing is written.
fn look<D: SectorDisk>(disk: &mut D) -> Result<Result<Option<Plan>, AdoptRefusal>, Failed>
    ensures found { IsTrue (D.state disk.old).tells → IfOk result (λ answer. IfOk answer (IsFoundAs (content (D.state disk.old)))) }
    ensures refused { IsTrue (D.state disk.old).tells → IfOk result (λ answer. IfErr answer (RefusesAdoption (content (D.state disk.old)))) }
    ensures fits { IfOk result (λ answer. IfOk answer (λ found. IfSome found (FitsAny (D.state disk.old).sectors))) }
    ensures reads { OnlyReads (D.state disk.old) (D.state disk.new) }
    ensures cause { HasCause (D.state disk.old).faults (D.state disk.new).faults result }
{
    let place = match find_place(disk)? {
        Ok(place) => place,
        Err(why) => return Ok(Err(refused(why))),
    };
    match validate(disk, &place) {
        Ok(plan) => return Ok(Ok(None)),
        Err(ReplayFault::Disk) => return Err(Failed),
        Err(ReplayFault::Refused(why)) => {}
    }
    match validate_as(disk, &place, Dialect::Wide) {
        Ok(plan) => Ok(Ok(Some(plan))),
        Err(ReplayFault::Disk) => Err(Failed),
        Err(ReplayFault::Refused(why)) => Ok(Err(AdoptRefusal::Journal(why))),
    }
}

// The same refusal of an image that is adopted.
fn refused(why: VolumeRefusal) -> AdoptRefusal
    ensures { (image : Content) → RefusesVolume image why → RefusesAdoption image result }
{
    match why {
        VolumeRefusal::Header(why) => AdoptRefusal::Header(why),
        VolumeRefusal::SoftwareLocked => AdoptRefusal::SoftwareLocked,
    }
}

// What was made of the journal of this plan.
fn made_of(plan: &Plan) -> Made
    ensures { result ≡ record { was = plan.now.header.blhdr; now = plain_blhdr plan.now.header.blhdr; live = not (plan.now.header.start == plan.now.header.end) } }
{
    let was = plan.header.blhdr;
    Made {
        was,
        now: plain_size(was),
        live: plan.header.start != plan.header.end,
    }
}
