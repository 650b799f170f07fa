//! The lists of a volume, as they were read, and who uses which of its blocks (rule 18).
ghost use Rattle.std.specs.Prelude.{◌≡◌, [], IfOk};
ghost use Rattle.alloc_bitmap.specs.Apart.{AreApart};
ghost use Rattle.hfs_volume.specs.Blocks.{IsGoodHeader, forks_of, used_in};
ghost use Rattle.hfs_volume.specs.Content.{VolumeState};
ghost use Rattle.fsck_core.specs.Flags.{AreUsed};
ghost use Rattle.fsck_core.specs.Lists.{AreLists};
ghost use Rattle.fsck_core.specs.Owners.{owned_all};
ghost use Rattle.fsck_core.specs.Passed.{Passed, IsBrokenList};
ghost use Rattle.hfs_volume.specs.Broken.{IsUnmet, use_wants};
ghost use Rattle.fsck_core.specs.Decided.{TellsOf};

use crate::blocks::no_marks;
use crate::follow::OwnedFork;
use crate::overflow::OverflowRow;
use crate::used::read_used;
use crate::uses::judge_uses;
use flag_rows::Bits;
use fsck_list::{Findings, Marks};
use fsck_scan::Pairs;
use hx_bytes::OutOfMemory;
use jnl_format::Info;
use std::alloc::Global;
use volume_header::VolumeHeader;

/// The lists of a volume whose header and trees keep rules 1 to 7, as they were read.
#[derive(Drop)]
pub(crate) struct Lists {
    pub sectors: u64,
    pub head: VolumeHeader,
    /// The journal's info block.
    pub info: Info,
    pub overflow: Vec<OverflowRow>,
    pub catalog: Pairs,
    pub attributes: Pairs,
    /// The bit of each block.
    pub flags: Bits,
}

/// Judges that no block is used twice (rule 18), and tells which are used. Nothing was found yet.
pub(crate) fn judge_blocks_used(
    alloc: Global,
    lists: &Lists,
    forks: &[OwnedFork],
    out: &mut Findings,
) -> Result<Marks, OutOfMemory>
    requires good { IsGoodHeader lists.now.sectors lists.now.head }
    requires none { out.old ≡ [] }
    ensures passed { (volume : VolumeState) → AreLists volume lists.now → owned_all forks.now ≡ forks_of volume → IfOk result (λ _. Passed (IsBrokenList volume) (AreApart (used_in volume)) out.old out.new) }
    ensures rules { (volume : VolumeState) → AreLists volume lists.now → owned_all forks.now ≡ forks_of volume → IfOk result (λ _. TellsOf (λ f. IsUnmet 18 f (use_wants volume)) out.new) }
    ensures used { (volume : VolumeState) → AreLists volume lists.now → owned_all forks.now ≡ forks_of volume → IfOk result (λ used. AreUsed volume used) }
{
    let extents = read_used(
        alloc,
        lists.sectors,
        &lists.head,
        &lists.overflow,
        forks,
        &lists.attributes,
    )?;
    let mut used = no_marks(alloc, lists.head.total_blocks)?;
    judge_uses(alloc, extents.as_slice(), &mut used, out)?;
    Ok(used)
}
