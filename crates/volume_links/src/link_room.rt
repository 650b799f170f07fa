//! The room for a symbolic link: blocks for its target, a CNID, and sectors for what is put.
ghost use Rattle.std.specs.Prelude.{◌≡◌, ◌<◌, ◌≤◌, ◌+◌, ◌*◌, ◌/◌, ◌^◌, ℕ, min, true, is_some, IsTrue, IfSome, length};
ghost use Rattle.flag_rows.specs.Bits.{sectors_for};
ghost use Rattle.hfs_volume.specs.Forks.{parts_for};
ghost use Rattle.volume_base.specs.Frame.{Serves};
ghost use Rattle.volume_links.specs.Links.{FitsTarget, HasRoomToLink, IsLight, link_bits};

use sector_disk::SectorSpace;
use tree_weights::{
    a_load_is_of_parts, a_load_says_enough, trees_grow_by_enough, trees_hold_three,
};
use volume_base::{Volume, Weight};
use volume_names::fits_make;
use volume_space::blocks_for;
use volume_weights::weigh_target;

/// The most bytes of a link's target.
const MOST_TARGET: usize = 1_023;

/// How many blocks so many bytes take, where they are the text of a link.
fn target_blocks(block: u32, long: usize) -> Option<u32>
    requires block { 512 ≤ block }
    ensures many { IfSome result (λ blocks. blocks ≡ parts_for long block) }
    ensures some { IfSome result (λ blocks. 0 < long) }
    ensures short { IfSome result (λ blocks. long ≤ 1023) }
    ensures there { 0 < long → long ≤ 1023 → is_some result ≡ true }
{
    if long == 0 {
        return None;
    }
    if long > MOST_TARGET {
        return None;
    }
    let blocks = blocks_for(block, long as u64);
    if blocks > 0xFFFF_FFFF {
        return None;
    }
    Some(blocks as u32)
}

/// How many sectors of the bitmap have bits that change where so many blocks are taken, at most.
fn count_bits(volume: &Volume, blocks: u32) -> u64
    ensures exact { result ≡ link_bits blocks volume.now }
{
    let all = (u64::from(volume.map.total()) + 4_095) / 4_096;
    let runs = volume.map.fewest(blocks);
    all.min(u64::from(blocks) / 4_096 + 2 * u64::from(runs))
}

/// Whether so many sectors and the header's are no more than these.
fn suffices(sectors: u64, spare: u64) -> bool
    ensures enough { IsTrue result → sectors + 1 ≤ spare }
    ensures sure { sectors + 1 ≤ spare → IsTrue result }
{
    sectors < spare
}

/// Whether this is a load that so many sectors suffice for.
fn is_light(weight: Weight, spare: u64) -> bool
    ensures light { IsTrue result → IsLight weight spare }
    ensures sure { IsLight weight spare → IsTrue result }
{
    match weight {
        Weight::Load { sectors, grow: _ } => sectors <= spare,
        Weight::Refused(_) | Weight::CommitFirst => false,
    }
}

/// How many blocks the target of a link of so many bytes takes, where there is room for the link.
pub(crate) fn link_room<P: SectorSpace>(volume: &Volume, space: &P, long: usize) -> Option<u32>
    requires serves { Serves volume.now (P.SectorView.space space.now) }
    ensures room { IfSome result (λ blocks. HasRoomToLink long blocks volume.now (P.SectorView.space space.now)) }
    // There is room wherever the link costs a load for which there is.
    ensures met { IsTrue (P.SectorView.space space.now).tells → FitsTarget long volume.now (P.SectorView.space space.now) → is_some result ≡ true }
{
    a_load_says_enough();
    a_load_is_of_parts();
    trees_grow_by_enough();
    trees_hold_three();
    let Some(blocks) = target_blocks(volume.header.block_size, long) else {
        return None;
    };
    if volume.map.count_free() < blocks {
        return None;
    }
    if !fits_make(volume, space) {
        return None;
    }
    let room = space.spare();
    if !suffices(count_bits(volume, blocks), room) {
        return None;
    }
    if !is_light(weigh_target(volume, space, long as u64), room) {
        return None;
    }
    Some(blocks)
}
