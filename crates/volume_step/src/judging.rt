//! A command judged before its step: by its weight, and by the room that there is.
ghost use Rattle.std.specs.Prelude.{◌≡◌, ℕ, List, nat_lt, true, false, IsTrue, IfOk, if◌then◌else◌};
ghost use Rattle.hfs_language.specs.Written.{FitsCommand};
ghost use Rattle.hfs_model.specs.Step.{only_reads};
ghost use Rattle.hfs_volume.specs.Content.{volume_of};
ghost use Rattle.hfs_volume.specs.TreeOf.{tree_of};
ghost use Rattle.hfs_volume.specs.Weight.{data_of, needs_cut, weight_with};
ghost use Rattle.hfs_volume.specs.declared.cost.Cost.TheVariants as cost;
ghost use Rattle.volume_base.specs.Fitting.{takable_of};
ghost use Rattle.volume_base.specs.Frame.{Looked, Serves};
ghost use Rattle.volume_base.specs.Room.{capacity_of};
ghost use Rattle.volume_step.specs.Anew.{FitsAlike};
ghost use Rattle.volume_step.specs.Steps.{FitsReady, GrowsTheFirst, IsCutFirst, IsDirect, IsJudged, IsTaken, IsTakenAlike, PutsNow, growth_or, verdict_of};
ghost use Rattle.volume_step.specs.declared.judging.Verdict.TheVariants as verdict;

use hfs_language::{Command, Refusal};
use hx_bytes::Trouble;
use sector_disk::SectorSpace;
use std::alloc::Global;
use volume_base::{Volume, Weight};
use volume_space::WhichTree;
use volume_weights::weigh;

/// Whether a command may be done now.
#[derive(Clone, Copy)]
pub enum Verdict {
    /// Its step refuses it, or a resource is missing.
    Refused(Refusal),
    /// Blocks past the size of the file that it puts data into go first.
    CutFirst,
    /// It wants a commit before it.
    CommitFirst,
    /// A tree has to grow ahead of it, by so many nodes.
    Grows { tree: WhichTree, more: u32 },
    /// Nothing stands in its way.
    Fits,
}

/// What a command comes to by its load alone, where so many sectors may be put.
fn fitting(sectors: u64, spare: u64) -> Verdict
    ensures { result ≡ (if nat_lt spare sectors then verdict.CommitFirst else verdict.Fits) }
{
    if spare < sectors {
        Verdict::CommitFirst
    } else {
        Verdict::Fits
    }
}

/// The growth of the first of the trees that have to grow: extents overflow file, catalog, attributes file; or what else the command comes to.
fn growth_or(grow: [u32; 3], otherwise: Verdict) -> Verdict
    ensures { result ≡ growth_or grow otherwise }
{
    if grow[0] != 0 {
        return Verdict::Grows {
            tree: WhichTree::Extents,
            more: grow[0],
        };
    }
    if grow[1] != 0 {
        return Verdict::Grows {
            tree: WhichTree::Catalog,
            more: grow[1],
        };
    }
    if grow[2] != 0 {
        return Verdict::Grows {
            tree: WhichTree::Attributes,
            more: grow[2],
        };
    }
    otherwise
}

/// What a weight comes to, where so many sectors may be put.
pub fn verdict_of(weight: Weight, spare: u64) -> Verdict
    ensures { result ≡ verdict_of weight spare }
{
    match weight {
        Weight::Refused(why) => Verdict::Refused(why),
        Weight::CommitFirst => Verdict::CommitFirst,
        Weight::Load { sectors, grow } => growth_or(grow, fitting(sectors, spare)),
    }
}

/// Judges a command that changes the volume. Ahead of one that isn't weighed goes a cut.
pub(crate) fn judge<P: SectorSpace>(
    alloc: Global,
    volume: &mut Volume,
    space: &mut P,
    command: &Command,
) -> Result<Verdict, Trouble>
    requires serves { Serves volume.old (P.SectorView.space space.old) }
    requires fits { FitsCommand command.now }
    requires changes { only_reads command.now ≡ false }
    ensures judged { IsTrue (P.SectorView.space space.old).tells → IfOk result (λ verdict. IsJudged verdict (capacity_of volume.old) command.now (P.SectorView.space space.old).content) }
    // Where it fits now, no commit comes first.
    ensures taken { IsTrue (P.SectorView.space space.old).tells → (ready : FitsReady command.now volume.old (P.SectorView.space space.old)) → IfOk result (λ verdict. IsTaken verdict ready.now.grow) }
    // Where it costs the same of all free blocks as of those that may be taken, neither does one; a cut may.
    ensures alike { IsTrue (P.SectorView.space space.old).tells → (now : FitsAlike command.now volume.old (P.SectorView.space space.old)) → IfOk result (λ verdict. IsTakenAlike verdict now.grow) }
    // A tree that grows first is the first of those that its load counts.
    ensures first { IsTrue (P.SectorView.space space.old).tells → (load : ℕ) (grow : List ℕ) → weight_with (capacity_of volume.old) (takable_of volume.old) (volume_of (P.SectorView.space space.old).content) (tree_of (P.SectorView.space space.old).content) command.now ≡ cost.Load load grow → IfOk result (λ verdict. GrowsTheFirst verdict grow) }
    // Where blocks past its file's size go ahead of it, they are cut first, or it is refused.
    ensures cuts { IsTrue (P.SectorView.space space.old).tells → needs_cut (volume_of (P.SectorView.space space.old).content) (data_of (tree_of (P.SectorView.space space.old).content) command.now) ≡ true → IfOk result IsCutFirst }
    // Where its data is put now, nothing goes ahead of it.
    ensures puts { IsTrue (P.SectorView.space space.old).tells → PutsNow command.now volume.old (P.SectorView.space space.old) → IfOk result IsDirect }
    ensures looked { Looked P.SectorView.space P.SectorView.follows volume.old volume.new space.old space.new result }
    ensures serves { Serves volume.new (P.SectorView.space space.new) }
{
    match weigh(volume, alloc, space, command)? {
        Some(weight) => Ok(verdict_of(weight, space.spare())),
        None => Ok(Verdict::CutFirst),
    }
}
