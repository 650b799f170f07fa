//! What a mount finds of a volume before it writes anything.
ghost use Rattle.std.specs.Prelude.{◌≡◌, ℕ, List, IsTrue, IfOk, IfErr, true};
ghost use Rattle.hx_bytes.specs.declared.faults.Trouble.TheVariants as trouble;
ghost use Rattle.sector_disk.specs.Disk.{OnlyReads, content};
ghost use Rattle.jnl_format.specs.Recovery.{replayed};
ghost use Rattle.jnl_replay.specs.Plan.{FitsPlan, IsPlan, journal_of};
ghost use Rattle.jnl_replay.specs.Viewing.{shown};
ghost use Rattle.line_source.specs.Cause.{IsCause};
ghost use Rattle.hfs_volume.specs.Broken.{Finding};
ghost use Rattle.hfs_volume.specs.Findings.{HasBytes};
ghost use Rattle.volume_header.specs.Refusal.{is_volume_size};
ghost use Rattle.hfs_serving.specs.Checking.{IsFound, IsVerdict, RefusesMount, judged};
ghost use Rattle.hfs_serving.specs.Refusing.{IsOpened};

use crate::opening::{OpenRefusal, open_image};
use hx_bytes::Trouble;
use jnl_replay::{Peek, PeekView, Plan};
use sector_disk::{SectorDisk, SectorView};
use std::alloc::Global;

/// What a content is to a mount.
#[derive(Clone, Copy, Debug, PartialEq, Eq)]
pub enum Verdict {
    Sound,
    /// The keys of its catalog are compared with letter case folded.
    CaseFolding,
    /// Otherwise unsound.
    Unsound,
}

/// Judges volumes, and keeps what it finds wrong.
pub trait Checker {
    /// What it found wrong of the volume that it judged last.
    ghost findings: { Self → List Finding };

    /// Judges the content that a view shows. It only reads.
    fn check<W: SectorView>(&mut self, alloc: Global, view: &mut W) -> Result<Verdict, Trouble>
        requires size { is_volume_size (W.space view.old).sectors ≡ true }
        requires bytes { IsTrue (W.space view.old).tells → HasBytes (W.space view.old).content }
        ensures verdict { IsTrue (W.space view.old).tells → IfOk result (IsVerdict (W.space view.old).content (findings self.new)) }
        ensures below { W.follows view.old view.new }
        ensures names { (W.space view.new).names ≡ (W.space view.old).names }
        ensures cause { IsCause trouble.Disk (W.space view.old).faults (W.space view.new).faults result };
}

/// Why a mount refuses an image. Of the refusals, the first in this order that stands is told.
#[derive(Clone, Copy, Debug, PartialEq, Eq)]
pub enum MountRefusal {
    /// The image isn't opened.
    Image(OpenRefusal),
    /// What it stands for compares the keys of its catalog with letter case folded.
    CaseFolding,
    /// What it stands for isn't sound. The checker has what it found.
    Unsound,
}

/// Opens an image and judges what it stands for. Answers the plan of its replay where it can be served, or the first refusal that stands. Nothing
/// is written.
pub fn find_image<C: Checker, D: SectorDisk>(
    alloc: Global,
    checker: &mut C,
    disk: &mut D,
) -> Result<Result<Plan, MountRefusal>, Trouble>
    ensures found { IsTrue (D.state disk.old).tells → IfOk result (λ answer. IfOk answer (IsFound (content (D.state disk.old)))) }
    ensures refused { IsTrue (D.state disk.old).tells → IfOk result (λ answer. IfErr answer (RefusesMount (content (D.state disk.old)) (C.findings checker.new))) }
    ensures fits { IfOk result (λ answer. IfOk answer (FitsPlan (D.state disk.old).sectors)) }
    ensures reads { OnlyReads (D.state disk.old) (D.state disk.new) }
    ensures cause { IsCause trouble.Disk (D.state disk.old).faults (D.state disk.new).faults result }
{
    match open_image(disk)? {
        Ok(plan) => judge_image(alloc, checker, disk, plan),
        Err(why) => Ok(Err(MountRefusal::Image(why))),
    }
}

// The plan of an image that was opened, where what it stands for can be served.
fn judge_image<C: Checker, D: SectorDisk>(
    alloc: Global,
    checker: &mut C,
    disk: &mut D,
    plan: Plan,
) -> Result<Result<Plan, MountRefusal>, Trouble>
    requires size { is_volume_size (D.state disk.old).sectors ≡ true }
    requires fits { FitsPlan (D.state disk.old).sectors plan }
    requires opened { IsTrue (D.state disk.old).tells → IsOpened (content (D.state disk.old)) plan }
    ensures found { IsTrue (D.state disk.old).tells → IfOk result (λ answer. IfOk answer (IsFound (content (D.state disk.old)))) }
    ensures refused { IsTrue (D.state disk.old).tells → IfOk result (λ answer. IfErr answer (RefusesMount (content (D.state disk.old)) (C.findings checker.new))) }
    ensures fits { IfOk result (λ answer. IfOk answer (FitsPlan (D.state disk.old).sectors)) }
    ensures reads { OnlyReads (D.state disk.old) (D.state disk.new) }
    ensures cause { IsCause trouble.Disk (D.state disk.old).faults (D.state disk.new).faults result }
{
    let verdict = check_image(alloc, checker, disk, &plan)?;
    Ok(judged(plan, verdict))
}

// The plan, or the refusal that a verdict is.
fn judged(plan: Plan, verdict: Verdict) -> Result<Plan, MountRefusal>
    ensures { result ≡ judged plan verdict }
{
    match verdict {
        Verdict::Sound => Ok(plan),
        Verdict::CaseFolding => Err(MountRefusal::CaseFolding),
        Verdict::Unsound => Err(MountRefusal::Unsound),
    }
}

// The verdict on what an image stands for.
fn check_image<C: Checker, D: SectorDisk>(
    alloc: Global,
    checker: &mut C,
    disk: &mut D,
    plan: &Plan,
) -> Result<Verdict, Trouble>
    requires size { is_volume_size (D.state disk.old).sectors ≡ true }
    requires fits { FitsPlan (D.state disk.old).sectors plan.now }
    requires plan { IsTrue (D.state disk.old).tells → IsPlan (content (D.state disk.old)) plan.now }
    ensures verdict { IsTrue (D.state disk.old).tells → IfOk result (IsVerdict (replayed (journal_of plan.now) (content (D.state disk.old))) (C.findings checker.new)) }
    ensures reads { OnlyReads (D.state disk.old) (D.state disk.new) }
    ensures cause { IsCause trouble.Disk (D.state disk.old).faults (D.state disk.new).faults result }
{
    let peek = Peek::new(alloc, disk, plan)?;
    check_peek(alloc, checker, disk, &peek)
}

// The verdict on what a peek shows of a disk.
fn check_peek<C: Checker, D: SectorDisk>(
    alloc: Global,
    checker: &mut C,
    disk: &mut D,
    peek: &Peek,
) -> Result<Verdict, Trouble>
    requires size { is_volume_size (D.state disk.old).sectors ≡ true }
    requires bytes { IsTrue (D.state disk.old).tells → HasBytes (shown peek.now (D.state disk.old).sectors (content (D.state disk.old))) }
    ensures verdict { IsTrue (D.state disk.old).tells → IfOk result (IsVerdict (shown peek.now (D.state disk.old).sectors (content (D.state disk.old))) (C.findings checker.new)) }
    ensures reads { OnlyReads (D.state disk.old) (D.state disk.new) }
    ensures cause { IsCause trouble.Disk (D.state disk.old).faults (D.state disk.new).faults result }
{
    let mut view = PeekView { peek, disk };
    checker.check(alloc, &mut view)
}
