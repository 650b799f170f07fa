//! The load of a command, or its first refusal for want of a resource.
ghost use Rattle.std.specs.Prelude.{◌≡◌, ◌<◌, ◌==◌, ◌&&◌, not, nat_lt, slice_index};
ghost use Rattle.hfs_volume.specs.Cost.{tree_at, cost_of, cost_or, resource_refusal, load_of};
ghost use Rattle.volume_cost.specs.Sizes.{IsNodeSize, IsVolume, AreSmall, IsGrown, plan};

use crate::load::count_load;
use crate::room::{blocks_at, extents_taken, growth_at, is_deep, tree_in};
use crate::{ATTRIBUTES, ATTRIBUTES_KEY, CATALOG, CATALOG_KEY, EXTENTS, EXTENTS_KEY};
use hfs_language::Refusal;
use hfs_volume::{Cost, Needs, Room};

/// The load of a command that needs this of a volume that has that, with the nodes by which each tree grows; or its first
/// refusal. Nodes have at least 512 bytes in the extents file, and 4,096 in the two other trees where they have edits.
pub fn cost(needs: &Needs, room: &Room) -> Cost
    requires small { AreSmall needs.now }
    requires volume { IsVolume room.now }
    requires extents { IsNodeSize 512 (tree_at room.now 0) }
    requires catalog { 0 < slice_index needs.now.edits 1 → IsNodeSize 4096 (tree_at room.now 1) }
    requires attributes { 0 < slice_index needs.now.edits 2 → IsNodeSize 4096 (tree_at room.now 2) }
    ensures { result ≡ cost_of needs.now room.now }
{
    let catalog = growth_at(room, CATALOG, CATALOG_KEY, needs.edits[1]);
    let attributes = growth_at(room, ATTRIBUTES, ATTRIBUTES_KEY, needs.edits[2]);
    let edits = needs.edits[0]
        + extents_taken(room, CATALOG, catalog)
        + extents_taken(room, ATTRIBUTES, attributes);
    let extents = growth_at(room, EXTENTS, EXTENTS_KEY, edits);
    judge(
        needs,
        room,
        &[edits, needs.edits[1], needs.edits[2]],
        &[extents, catalog, attributes],
    )
}

/// The first refusal, or the load, where the trees have so many edits and grow by so many nodes.
fn judge(needs: &Needs, room: &Room, edits: &[u64; 3], grow: &[u128; 3]) -> Cost
    requires small { AreSmall needs.now }
    requires volume { IsVolume room.now }
    requires extents { IsGrown room.now.block 10 (tree_at room.now 0) (slice_index edits.now 0) (slice_index grow.now 0) }
    requires catalog { IsGrown room.now.block 516 (tree_at room.now 1) (slice_index edits.now 1) (slice_index grow.now 1) }
    requires attributes { IsGrown room.now.block 266 (tree_at room.now 2) (slice_index edits.now 2) (slice_index grow.now 2) }
    ensures { result ≡ cost_or (resource_refusal needs.now room.now (plan edits.now grow.now)) (load_of needs.now room.now (plan edits.now grow.now)) grow.now }
{
    if room.next_id as u64 + needs.ids as u64 > 4294967295 {
        return Cost::Refused(Refusal::NoIds(room.next_id as u64));
    }
    if is_deep(room, EXTENTS, EXTENTS_KEY, edits[0]) {
        return Cost::Refused(Refusal::TooDeep(tree_in(room, EXTENTS).depth as u64));
    }
    if is_deep(room, CATALOG, CATALOG_KEY, edits[1]) {
        return Cost::Refused(Refusal::TooDeep(tree_in(room, CATALOG).depth as u64));
    }
    if is_deep(room, ATTRIBUTES, ATTRIBUTES_KEY, edits[2]) {
        return Cost::Refused(Refusal::TooDeep(tree_in(room, ATTRIBUTES).depth as u64));
    }
    if is_full(room, grow[0]) {
        return Cost::Refused(Refusal::OverflowFull(8));
    }
    let blocks = blocks_at(room, EXTENTS, grow[0]) as u64
        + blocks_at(room, CATALOG, grow[1]) as u64
        + blocks_at(room, ATTRIBUTES, grow[2]) as u64;
    let wanted = needs.new_blocks + blocks;
    if (room.free as u64) < wanted {
        return Cost::Refused(Refusal::NoSpace(room.free as u64, wanted));
    }
    if lacks_run(room, blocks, wanted) {
        return Cost::Refused(Refusal::NoRun(room.longest as u64, wanted));
    }
    let sectors = count_load(needs, room, edits, grow, blocks);
    if room.capacity < sectors {
        return Cost::Refused(Refusal::TooBig(sectors, room.capacity));
    }
    Cost::Load {
        sectors,
        grow: [grow[0] as u32, grow[1] as u32, grow[2] as u32],
    }
}

/// Whether the extents file grows that has eight extents already: it has no overflow records itself.
fn is_full(room: &Room, more: u128) -> bool
    ensures { result ≡ (not (more == 0) && ((tree_at room.now 0).extents == 8)) }
{
    let tree = tree_in(room, EXTENTS);
    more != 0 && tree.extents == 8
}

/// Whether trees grow by blocks for which, with those of the data, no free run is long enough.
fn lacks_run(room: &Room, blocks: u64, wanted: u64) -> bool
    ensures { result ≡ (not (blocks == 0) && nat_lt room.now.longest wanted) }
{
    blocks != 0 && (room.longest as u64) < wanted
}
