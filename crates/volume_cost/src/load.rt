//! The sectors that a command puts at most.
ghost use Rattle.std.specs.Prelude.{◌≡◌, ◌<◌, ◌≤◌, ◌+◌, ◌/◌, ◌==◌, ◌^◌, if◌then◌else◌, slice_index};
ghost use Rattle.hfs_volume.specs.Cost.{tree_at, load_of, bitmap_load, growth_blocks};
ghost use Rattle.volume_cost.specs.Sizes.{AreSmall, IsLoaded, plan};

use crate::room::{load_at, sectors_of_node};
use crate::{ATTRIBUTES, ATTRIBUTES_KEY, CATALOG, CATALOG_KEY, EXTENTS, EXTENTS_KEY};
use hfs_volume::{Needs, Room};

/// The sectors that a command puts at most: the volume header, records updated in place, the trees, the bitmap.
pub fn count_load(
    needs: &Needs,
    room: &Room,
    edits: &[u64; 3],
    grow: &[u128; 3],
    blocks: u64,
) -> u64
    requires small { AreSmall needs.now }
    requires extents { IsLoaded 10 (tree_at room.now 0) (slice_index edits.now 0) (slice_index grow.now 0) }
    requires catalog { IsLoaded 516 (tree_at room.now 1) (slice_index edits.now 1) (slice_index grow.now 1) }
    requires attributes { IsLoaded 266 (tree_at room.now 2) (slice_index edits.now 2) (slice_index grow.now 2) }
    requires blocks { blocks ≡ growth_blocks (plan edits.now grow.now) room.now }
    requires bound { blocks ≤ 2 ^ 60 }
    ensures { result ≡ load_of needs.now room.now (plan edits.now grow.now) }
{
    let updates = needs.updates * sectors_of_node(room, CATALOG) as u64;
    let extents = load_at(room, EXTENTS, EXTENTS_KEY, edits[0], grow[0]) as u64;
    let catalog = load_at(room, CATALOG, CATALOG_KEY, edits[1], grow[1]) as u64;
    let attributes = load_at(room, ATTRIBUTES, ATTRIBUTES_KEY, edits[2], grow[2]) as u64;
    1 + updates + extents + catalog + attributes + bitmap_sectors(needs, room, blocks)
}

/// The sectors of the bitmap that a command changes at most.
fn bitmap_sectors(needs: &Needs, room: &Room, blocks: u64) -> u64
    requires small { AreSmall needs.now }
    requires bound { blocks ≤ 2 ^ 60 }
    ensures count { result ≡ bitmap_load needs.now room.now blocks }
    ensures bound { result ≤ 2 ^ 32 }
{
    let all = (room.total as u64 + 4096 - 1) / 4096;
    let changed = needs.new_blocks / 4096
        + 2 * needs.runs
        + needs.old_blocks
        + grown_sectors(blocks);
    all.min(changed)
}

/// The sectors of the bitmap that one run of blocks changes at most.
fn grown_sectors(blocks: u64) -> u64
    ensures { result ≡ (if blocks == 0 then 0 else blocks / 4096 + 2) }
{
    if blocks == 0 {
        return 0;
    }
    blocks / 4096 + 2
}
