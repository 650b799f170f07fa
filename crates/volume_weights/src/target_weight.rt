//! What `symlink` needs: a new file whose target goes into blocks of its own.
ghost use Rattle.std.specs.Prelude.{◌≡◌, ◌≤◌, ◌^◌, true, IsTrue};
ghost use Rattle.hfs_volume.specs.Content.{volume_of};
ghost use Rattle.hfs_volume.specs.Cost.{cost_of};
ghost use Rattle.hfs_volume.specs.Weight.{room_with};
ghost use Rattle.volume_cost.specs.Sizes.{AreSmall};
ghost use Rattle.volume_weights.specs.DataWeighing.{are_usual, needs_link};
ghost use Rattle.volume_base.specs.DataWeighing.{data_as, target_weighed};
ghost use Rattle.volume_base.specs.Frame.{Serves};
ghost use Rattle.volume_base.specs.Room.{capacity_of, free_in};
ghost use Rattle.volume_base.specs.declared.room.FreeBlocks.TheVariants as blocks;

use crate::data_cost::{are_usual, blocks_of_put};
use crate::weighing::joined;
use hfs_language::Refusal;
use hfs_volume::{Cost, Needs};
use sector_disk::SectorSpace;
use tree_weights::trees_grow_by_enough;
use volume_base::{FreeBlocks, Put, Volume, Weight, is_measured, is_narrow};
use volume_cost::{cost, count_extents_edits};

/// How many records of the catalog a new link has: its own, and its thread.
const RECORDS: u32 = 2;

/// What a link needs whose data this is: an id, its record with its thread, an update of its folder, and blocks for the target.
fn needs_link(volume: &Volume, free: FreeBlocks, put: Put) -> Needs
    requires usual { are_usual volume.now.header.block_size put ≡ true }
    ensures same { result ≡ needs_link (free_in free volume.now.map) volume.now.header.block_size (data_as put) }
    ensures small { AreSmall result }
{
    let (new_blocks, old_blocks) = blocks_of_put(volume.header.block_size, put);
    let runs = volume.fewest(free, new_blocks as u32) as u64;
    Needs {
        ids: 1,
        edits: [
            count_extents_edits(0, runs, new_blocks),
            u64::from(RECORDS),
            0,
        ],
        updates: 1,
        new_blocks,
        old_blocks,
        runs,
    }
}

/// What it costs where these blocks count as free.
fn cost_of_link<P: SectorSpace>(volume: &Volume, _space: &P, free: FreeBlocks, put: Put) -> Cost
    requires serves { Serves volume.now (P.SectorView.space _space.now) }
    requires usual { are_usual volume.now.header.block_size put ≡ true }
    ensures exact { IsTrue (P.SectorView.space _space.now).tells → result ≡ cost_of (needs_link (free_in free volume.now.map) volume.now.header.block_size (data_as put)) (room_with (capacity_of volume.now) (free_in free volume.now.map) (volume_of (P.SectorView.space _space.now).content)) }
{
    trees_grow_by_enough();
    let room = volume.room(free);
    // A space that tells its sectors has a volume with usual numbers.
    if !is_measured(&room) {
        return Cost::Refused(Refusal::NoSpace(0, 0));
    }
    if is_narrow(RECORDS, &room.trees[1]) {
        return Cost::Refused(Refusal::NoSpace(0, 0));
    }
    cost(&needs_link(volume, free, put), &room)
}

/// What a link with a target of so many bytes weighs: what all free blocks cost, and what those cost that may be taken.
pub fn weigh_target<P: SectorSpace>(volume: &Volume, space: &P, long: u64) -> Weight
    requires serves { Serves volume.now (P.SectorView.space space.now) }
    requires few { long ≤ 2 ^ 40 }
    ensures exact { IsTrue (P.SectorView.space space.now).tells → result ≡ target_weighed (capacity_of volume.now) (free_in blocks.Takable volume.now.map) (volume_of (P.SectorView.space space.now).content) long }
{
    let put = Put {
        id: volume.header.next_catalog_id,
        old_size: 0,
        from: 0,
        end: long,
    };
    // A space that tells its sectors has a volume with usual numbers.
    if !are_usual(volume.header.block_size, put) {
        return Weight::Refused(Refusal::NoSpace(0, 0));
    }
    let all = cost_of_link(volume, space, FreeBlocks::All, put);
    let takable = cost_of_link(volume, space, FreeBlocks::Takable, put);
    joined(all, takable)
}
