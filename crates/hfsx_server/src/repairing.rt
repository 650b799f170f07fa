// An image that is repaired.
ghost use Rattle.std.specs.Prelude.{◌≡◌, ◌≢◌, ◌⊎◌, ◌≤◌, ◌++◌, ◌∷◌, [], ℕ, codes, length, IsTrue, IfOk, IfErr, IsErrOf, OnOk, true};
ghost use Rattle.hx_bytes.specs.declared.faults.Trouble.TheVariants as trouble;
ghost use Rattle.sector_disk.specs.Cause.{Rose};
ghost use Rattle.sector_disk.specs.Disk.{HasNothingPending, OnlyReads, SameDisk, content};
ghost use Rattle.volume_header.specs.Refusal.{is_volume_size};
ghost use Rattle.jnl_format.specs.Recovery.{Content};
ghost use Rattle.jnl_replay.specs.Plan.{FitsPlan};
ghost use Rattle.jnl_replay.specs.Viewing.{shown};
ghost use Rattle.jnl_store.specs.Plan.{IsCapacityOf};
ghost use Rattle.hfs_volume.specs.Findings.{HasBytes};
ghost use Rattle.hfs_volume.specs.Sound.{IsSound};
ghost use Rattle.hfs_serving.specs.Refusing.{IsOpened};
ghost use Rattle.fsck_repair.specs.Overlay.{overlaid};
ghost use Rattle.fsck_repair.specs.Renewing.{FitInto};
ghost use Rattle.hfsx_server.specs.Cause.{IsCause, IsCauseOf};
ghost use Rattle.hfsx_server.specs.Checking.{Judges};
ghost use Rattle.hfsx_server.specs.Repairing.{CanBePut, CanBeRepaired, HasRoom, IsFoundFor, IsJudged, IsMendableImage, KeepsImage, RefusesRepair, ToldRepairRefusal, ToldRepaired, found_by, judged_by, repair_text, repaired_text, trouble_status};
ghost use Rattle.hfsx_server.specs.Telling.{Tells, refused_text};

use crate::refusal::{tell_case, tell_refused};
use crate::reports::tell_findings;
use crate::{Status, tell_open};
use fsck_core::{Verdict, check};
use fsck_list::Findings;
use fsck_repair::{Mend, Repaired};
use hfs_serving::{OpenRefusal, open_image};
use hfs_volume::aside_is_free;
use hx_bytes::{Failed, OutOfMemory, Trouble};
use image_repair::mend_image;
use itoa::Buffer;
use jnl_replay::{Peek, PeekView, Plan};
use jnl_store::capacity;
use sector_disk::{Rig, SectorDisk, SectorView, tell_whole};
use served_volume::folds_case;
use std::alloc::Global;
use volume_header::header_round_trip;
use volume_repair::{repair_keeps_size, sound_is_own_repair};

/// Why an image isn't repaired. Of the refusals, the first in this order that stands is told.
#[derive(Drop)]
pub enum RepairRefusal {
    /// The image isn't opened.
    Image(OpenRefusal),
    /// What it stands for compares the keys of its catalog with letter case folded.
    CaseFolding,
    /// What it stands for isn't sound with its counts made anew; these were found then.
    Unsound(Findings),
    /// So many sectors differ, and one transaction of the journal holds so many.
    TooBig { sectors: u64, capacity: u64 },
}

/// What the content of a view is with its counts made anew.
#[derive(Drop)]
enum Judged {
    CaseFolding,
    Unsound(Findings),
    /// It is sound, and differs in the sectors of these changes.
    Sound(Mend),
}

/// An image that can be repaired: the plan of its journal, and the sectors in which its repair differs.
#[derive(Drop)]
pub struct Mendable {
    pub(crate) plan: Plan,
    pub(crate) mend: Mend,
}

impl Mendable {
    /// In how many sectors the repair differs.
    pub fn sectors(&self) -> u64
        ensures { result ≡ length self.now.mend.changes.items }
    {
        self.mend.changes.len() as u64
    }
}

/// Counts anew what can be counted of the volume of an image, and makes that durable in one transaction; tells in how many sectors it differed. An image
/// that can't be repaired isn't written, whatever the status.
pub fn repair<R: Rig>(alloc: Global, rig: &mut R) -> Status
    ensures refused { IsTrue (R.state rig.old).tells → result ≡ Status.Refused → ToldRepairRefusal (R.state rig.old) (R.state rig.new) × ¬ CanBeRepaired (content (R.state rig.old)) }
    ensures refuses { IsTrue (R.state rig.old).tells → ¬ CanBeRepaired (content (R.state rig.old)) → (result ≡ Status.Refused) ⊎ ((result ≡ Status.Disk) ⊎ (result ≡ Status.Memory)) }
    ensures unwritten { result ≡ Status.Refused → ((R.state rig.new).candidates ≡ (R.state rig.old).candidates) × ((R.state rig.new).barriers ≡ (R.state rig.old).barriers) }
    ensures untouched { IsTrue (R.state rig.old).tells → ¬ CanBeRepaired (content (R.state rig.old)) → ((R.state rig.new).candidates ≡ (R.state rig.old).candidates) × ((R.state rig.new).barriers ≡ (R.state rig.old).barriers) }
    ensures keeps { IsTrue (R.state rig.old).tells → HasNothingPending (R.state rig.old) → (capacity : ℕ) (start : Content) → IsMendableImage (content (R.state rig.old)) capacity start → KeepsImage capacity start (R.state rig.old) (R.state rig.new) }
    ensures done { IsTrue (R.state rig.old).tells → HasNothingPending (R.state rig.old) → (capacity : ℕ) (start : Content) → IsMendableImage (content (R.state rig.old)) capacity start → result ≡ Status.Done → ToldRepaired capacity start (R.state rig.old) (R.state rig.new) }
    ensures sound { IsTrue (R.state rig.old).tells → HasNothingPending (R.state rig.old) → (capacity : ℕ) (start : Content) → IsMendableImage (content (R.state rig.old)) capacity start → IsSound start → result ≡ Status.Done → (R.state rig.new).told ≡ (R.state rig.old).told ++ repaired_text 0 }
    ensures no_usage { result ≢ Status.Usage }
    ensures no_source { result ≢ Status.Source }
    ensures no_many { result ≢ Status.TooMany }
    ensures disk { IsCauseOf Status.Disk (R.state rig.old).faults (R.state rig.new).faults result }
    ensures sink { IsCauseOf Status.Sink (R.state rig.old).sink_faults (R.state rig.new).sink_faults result }
    ensures same { SameDisk (R.state rig.old) (R.state rig.new) }
{
    match find_repair(alloc, rig) {
        Ok(Ok(found)) => repair_found(alloc, rig, found),
        Ok(Err(why)) => {
            tell_repair_refusal(rig, &why);
            Status::Refused
        }
        Err(trouble) => trouble_status(trouble),
    }
}

// Repairs an image that was found, since which it was only read.
fn repair_found<R: Rig>(alloc: Global, rig: &mut R, found: Mendable) -> Status
    requires fits { FitsPlan (R.state rig.old).sectors found.plan }
    requires size { is_volume_size (R.state rig.old).sectors ≡ true }
    requires holds { HasRoom found }
    requires changes { FitInto (R.state rig.old).sectors found.mend.changes.items }
    requires found { IsTrue (R.state rig.old).tells → IsFoundFor (content (R.state rig.old)) found }
    ensures keeps { IsTrue (R.state rig.old).tells → HasNothingPending (R.state rig.old) → (first : R) → OnlyReads (R.state first) (R.state rig.old) → (capacity : ℕ) (start : Content) → IsMendableImage (content (R.state rig.old)) capacity start
        → KeepsImage capacity start (R.state first) (R.state rig.new) }
    ensures done { IsTrue (R.state rig.old).tells → HasNothingPending (R.state rig.old) → (capacity : ℕ) (start : Content) → IsMendableImage (content (R.state rig.old)) capacity start → result ≡ Status.Done → ToldRepaired capacity start (R.state rig.old) (R.state rig.new) }
    ensures sound { IsTrue (R.state rig.old).tells → HasNothingPending (R.state rig.old) → (capacity : ℕ) (start : Content) → IsMendableImage (content (R.state rig.old)) capacity start → IsSound start → result ≡ Status.Done → (R.state rig.new).told ≡ (R.state rig.old).told ++ repaired_text 0 }
    ensures no_refusal { result ≢ Status.Refused }
    ensures no_usage { result ≢ Status.Usage }
    ensures no_source { result ≢ Status.Source }
    ensures no_many { result ≢ Status.TooMany }
    ensures disk { IsCauseOf Status.Disk (R.state rig.old).faults (R.state rig.new).faults result }
    ensures sink { IsCauseOf Status.Sink (R.state rig.old).sink_faults (R.state rig.new).sink_faults result }
    ensures same { SameDisk (R.state rig.old) (R.state rig.new) }
{
    repair_keeps_size();
    sound_is_own_repair();
    aside_is_free();
    header_round_trip();
    let Ok(line) = repaired_line(alloc, found.sectors()) else {
        return Status::Memory;
    };
    let Mendable { plan, mend } = found;
    match mend_image(alloc, rig, &plan, mend) {
        Ok(_sectors) => match tell_whole(rig, line.as_slice()) {
            Ok(()) => Status::Done,
            Err(Failed) => Status::Sink,
        },
        Err(trouble) => trouble_status(trouble),
    }
}

// The line that is told of a repair, which differed in so many sectors.
fn repaired_line(alloc: Global, sectors: u64) -> Result<Vec<u8>, OutOfMemory>
    ensures { IfOk result (λ line. line.items ≡ repaired_text sectors) }
{
    let mut buffer = Buffer::new();
    let mut line = Vec::new(alloc);
    line.extend_from_slice(b"repaired ")?;
    line.extend_from_slice(buffer.format(sectors).as_bytes())?;
    line.extend_from_slice(b"\n")?;
    Ok(line)
}

// The status of work that was in trouble.
fn trouble_status(trouble: Trouble) -> Status
    ensures { result ≡ trouble_status trouble }
{
    match trouble {
        Trouble::Disk => Status::Disk,
        Trouble::Memory => Status::Memory,
    }
}

/// What an image is to a repair: in how many sectors it differs, or the first refusal that stands. Nothing is written.
pub fn find_repair<D: SectorDisk>(
    alloc: Global,
    disk: &mut D,
) -> Result<Result<Mendable, RepairRefusal>, Trouble>
    ensures found { IsTrue (D.state disk.old).tells → IfOk result (λ answer. IfOk answer (IsFoundFor (content (D.state disk.old)))) }
    ensures refused { IsTrue (D.state disk.old).tells → IfOk result (λ answer. IfErr answer (RefusesRepair (content (D.state disk.old)))) }
    ensures fits { IfOk result (λ answer. IfOk answer (λ found. FitsPlan (D.state disk.old).sectors found.plan)) }
    ensures size { IfOk result (λ answer. IfOk answer (λ _. is_volume_size (D.state disk.new).sectors ≡ true)) }
    ensures holds { IfOk result (λ answer. IfOk answer HasRoom) }
    ensures changes { IfOk result (λ answer. IfOk answer (λ found. FitInto (D.state disk.old).sectors found.mend.changes.items)) }
    ensures reads { OnlyReads (D.state disk.old) (D.state disk.new) }
    ensures cause { IsCause trouble.Disk (D.state disk.old).faults (D.state disk.new).faults result }
{
    match open_image(disk)? {
        Ok(plan) => find_opened(alloc, disk, plan),
        Err(why) => Ok(Err(RepairRefusal::Image(why))),
    }
}

// The same of an image that was opened.
fn find_opened<D: SectorDisk>(
    alloc: Global,
    disk: &mut D,
    plan: Plan,
) -> Result<Result<Mendable, RepairRefusal>, Trouble>
    requires fits { FitsPlan (D.state disk.old).sectors plan }
    requires size { is_volume_size (D.state disk.old).sectors ≡ true }
    requires opened { IsTrue (D.state disk.old).tells → IsOpened (content (D.state disk.old)) plan }
    ensures found { IsTrue (D.state disk.old).tells → IfOk result (λ answer. IfOk answer (IsFoundFor (content (D.state disk.old)))) }
    ensures refused { IsTrue (D.state disk.old).tells → IfOk result (λ answer. IfErr answer (RefusesRepair (content (D.state disk.old)))) }
    ensures fits { IfOk result (λ answer. IfOk answer (λ found. FitsPlan (D.state disk.old).sectors found.plan)) }
    ensures size { IfOk result (λ answer. IfOk answer (λ _. is_volume_size (D.state disk.new).sectors ≡ true)) }
    ensures holds { IfOk result (λ answer. IfOk answer HasRoom) }
    ensures changes { IfOk result (λ answer. IfOk answer (λ found. FitInto (D.state disk.old).sectors found.mend.changes.items)) }
    ensures reads { OnlyReads (D.state disk.old) (D.state disk.new) }
    ensures cause { IsCause trouble.Disk (D.state disk.old).faults (D.state disk.new).faults result }
{
    let peek = Peek::new(alloc, disk, &plan)?;
    let judged = judge_peek(alloc, disk, &peek)?;
    let most = capacity(&plan);
    Ok(found_by(plan, most, judged))
}

// What a judgment comes to, with room for so many sectors in one transaction: the image can be repaired, or is refused.
fn found_by(plan: Plan, capacity: u64, judged: Judged) -> Result<Mendable, RepairRefusal>
    ensures { result ≡ found_by plan capacity judged }
{
    match judged {
        Judged::CaseFolding => Err(RepairRefusal::CaseFolding),
        Judged::Unsound(findings) => Err(RepairRefusal::Unsound(findings)),
        Judged::Sound(mend) => {
            let sectors = mend.changes.len() as u64;
            if sectors > capacity {
                return Err(RepairRefusal::TooBig { sectors, capacity });
            }
            Ok(Mendable { plan, mend })
        }
    }
}

// The judgment of what a peek shows of a disk.
fn judge_peek<D: SectorDisk>(alloc: Global, disk: &mut D, peek: &Peek) -> Result<Judged, Trouble>
    requires size { is_volume_size (D.state disk.old).sectors ≡ true }
    requires bytes { IsTrue (D.state disk.old).tells → HasBytes (shown peek.now (D.state disk.old).sectors (content (D.state disk.old))) }
    ensures judged { IsTrue (D.state disk.old).tells → IfOk result (IsJudged (shown peek.now (D.state disk.old).sectors (content (D.state disk.old)))) }
    ensures changes { IfOk result (CanBePut (D.state disk.old).sectors) }
    ensures reads { OnlyReads (D.state disk.old) (D.state disk.new) }
    ensures cause { IsCause trouble.Disk (D.state disk.old).faults (D.state disk.new).faults result }
{
    let mut view = PeekView { peek, disk };
    judge_view(alloc, &mut view)
}

// The judgment of what a view shows.
fn judge_view<V: SectorView>(alloc: Global, view: &mut V) -> Result<Judged, Trouble>
    requires size { is_volume_size (V.space view.old).sectors ≡ true }
    requires bytes { IsTrue (V.space view.old).tells → HasBytes (V.space view.old).content }
    ensures judged { IsTrue (V.space view.old).tells → IfOk result (IsJudged (V.space view.old).content) }
    ensures changes { IfOk result (CanBePut (V.space view.old).sectors) }
    ensures names { (V.space view.new).names ≡ (V.space view.old).names }
    ensures below { V.follows view.old view.new }
    ensures disk { IsErrOf result trouble.Disk → Rose (V.space view.old).faults (V.space view.new).faults }
{
    if folds_case(alloc, view)? {
        return Ok(Judged::CaseFolding);
    }
    let mend = Mend::new(alloc, view)?;
    let verdict = check_through(alloc, view, &mend)?;
    Ok(judged_by(verdict, mend))
}

// The verdict on what a view shows through changes.
fn check_through<V: SectorView>(
    alloc: Global,
    view: &mut V,
    mend: &Mend,
) -> Result<Verdict, Trouble>
    requires size { is_volume_size (V.space view.old).sectors ≡ true }
    requires bytes { IsTrue (V.space view.old).tells → HasBytes (overlaid mend.now.changes.items (V.space view.old).content) }
    ensures judged { IsTrue (V.space view.old).tells → IfOk result (Judges (overlaid mend.now.changes.items (V.space view.old).content)) }
    ensures names { (V.space view.new).names ≡ (V.space view.old).names }
    ensures below { V.follows view.old view.new }
    ensures disk { IsErrOf result trouble.Disk → Rose (V.space view.old).faults (V.space view.new).faults }
{
    let mut through = Repaired { mend, view };
    check(alloc, &mut through)
}

// What the verdict on a repair comes to, which has these changes.
fn judged_by(verdict: Verdict, mend: Mend) -> Judged
    ensures { result ≡ judged_by verdict mend }
{
    match verdict {
        Verdict::Clean(_) => Judged::Sound(mend),
        Verdict::Findings(findings) => Judged::Unsound(findings),
    }
}

// Tells why an image isn't repaired. A sink that fails is left at that.
fn tell_repair_refusal<R: Rig>(rig: &mut R, why: &RepairRefusal)
    ensures { Tells (R.state rig.old) (R.state rig.new) (repair_text why.now) }
{
    match why {
        RepairRefusal::Image(why) => tell_open(rig, *why),
        RepairRefusal::CaseFolding => tell_case(rig),
        RepairRefusal::Unsound(findings) => tell_findings(rig, findings.as_slice()),
        RepairRefusal::TooBig { sectors, capacity } => tell_big(rig, *sectors, *capacity),
    }
}

// Tells that more sectors differ than one transaction holds.
fn tell_big<R: Rig>(rig: &mut R, sectors: u64, capacity: u64)
    ensures { Tells (R.state rig.old) (R.state rig.new) (refused_text (codes "TooBig") (sectors ∷ capacity ∷ [])) }
{
    let _ = tell_refused(rig, b"TooBig", &[sectors, capacity]);
}
