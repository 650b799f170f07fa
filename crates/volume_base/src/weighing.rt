//! What the edits of a command cost a volume.
ghost use Rattle.std.specs.Prelude.{◌≡◌, ◌<◌, ◌≤◌, ◌+◌, ◌^◌, false, true, IsTrue};
ghost use Rattle.hfs_volume.specs.Content.{volume_of, has_attributes};
ghost use Rattle.hfs_volume.specs.Cost.{cost_of, overflow_records};
ghost use Rattle.flag_rows.specs.Runs.{fewest_of};
ghost use Rattle.hfs_volume.specs.Weight.{free_runs, room_with, runs_for};
ghost use Rattle.volume_cost.specs.Sizes.{AreSmall};
ghost use Rattle.volume_base.specs.Frame.{Serves};
ghost use Rattle.volume_base.specs.Room.{capacity_of, free_in};
ghost use Rattle.volume_base.specs.Weighing.{AreUsual, are_within, is_block, is_measured, needs_asked, needs_of_change, needs_valued};

use crate::room::FreeBlocks;
use crate::volume::Volume;
use hfs_language::Refusal;
use hfs_volume::{Cost, Needs, Room, TreeCost, ValueChange};
use sector_disk::SectorSpace;
use tree_weights::trees_grow_by_enough;
use volume_cost::{cost, count_overflow};

/// The ids, the edits of the catalog and of the attributes, and the records updated in place that a command takes.
#[derive(Clone, Copy)]
pub struct Edits {
    pub ids: u32,
    pub catalog: u32,
    pub attributes: u32,
    pub updates: u32,
}

/// What a command needs before its step.
#[derive(Clone, Copy)]
pub enum Weight {
    /// Its step refuses it, or a resource is missing.
    Refused(Refusal),
    /// Blocks that were given back are free behind the next commit alone.
    CommitFirst,
    /// Its step puts so many sectors at most, after each tree has grown by so many nodes.
    Load { sectors: u64, grow: [u32; 3] },
}

/// What edits need, where no data is put.
fn needs_of(edits: Edits) -> Needs
    ensures same { result ≡ needs_asked edits }
    ensures small { AreSmall result }
{
    Needs {
        ids: edits.ids,
        edits: [0, edits.catalog as u64, edits.attributes as u64],
        updates: edits.updates as u64,
        new_blocks: 0,
        old_blocks: 0,
        runs: 0,
    }
}

/// What edits need that also change values, where the blocks of a new one are of so many runs.
fn needs_with_values(edits: Edits, change: ValueChange, runs: u32) -> Needs
    requires few { edits.attributes + change.records + overflow_records runs < 2 ^ 32 }
    requires new { change.blocks < 2 ^ 32 }
    requires old { change.freed < 2 ^ 32 }
    ensures same { result ≡ needs_of_change edits change runs }
    ensures small { AreSmall result }
{
    let attributes = u64::from(edits.attributes) + change.records + count_overflow(u64::from(runs));
    Needs {
        ids: edits.ids,
        edits: [0, edits.catalog as u64, attributes],
        updates: edits.updates as u64,
        new_blocks: change.blocks,
        old_blocks: change.freed,
        runs: runs as u64,
    }
}

/// Whether a change of values with so many edits beside it, and blocks of so many runs, is such as a volume has.
fn are_usual(edits: u32, change: ValueChange, runs: u32) -> bool
    ensures few { IsTrue result → edits + change.records + overflow_records runs < 2 ^ 32 }
    ensures new { IsTrue result → change.blocks < 2 ^ 32 }
    ensures old { IsTrue result → change.freed < 2 ^ 32 }
    ensures exact { edits + change.records + overflow_records runs < 2 ^ 32 → change.blocks < 2 ^ 32 → change.freed < 2 ^ 32 → IsTrue result }
{
    if change.records > 0xFFFF_FFFF {
        return false;
    }
    if change.blocks > 0xFFFF_FFFF {
        return false;
    }
    if change.freed > 0xFFFF_FFFF {
        return false;
    }
    u64::from(edits) + change.records + count_overflow(u64::from(runs)) <= 0xFFFF_FFFF
}

/// Whether blocks have a size that volumes have (TN1150, "Volume Header").
fn is_block(size: u32) -> bool
    ensures { result ≡ is_block size }
{
    512 <= size && size <= 65_536
}

/// Whether no more blocks are free than there are.
fn are_within(room: &Room) -> bool
    ensures { result ≡ are_within room.now }
{
    room.free <= room.total && room.longest <= room.total
}

/// Whether blocks, their bytes and the free ones among them are such as a volume has.
pub fn is_measured(room: &Room) -> bool
    ensures { result ≡ is_measured room.now }
{
    is_block(room.block)
        && ((room.total as u64) * (room.block as u64) <= 1_099_511_627_776 && are_within(room))
}

/// Whether a tree that is to be edited has nodes smaller than the format allows it.
pub fn is_narrow(edits: u32, tree: &TreeCost) -> bool
    ensures wide { result ≡ false → 0 < edits → 4096 ≤ tree.now.node_size }
    ensures narrow { result ≡ true → tree.now.node_size < 4096 }
    ensures asked { result ≡ true → 0 < edits }
{
    0 < edits && tree.node_size < 4096
}

impl Volume {
    /// What edits cost, where these blocks count as free: the sectors that they put at most and the nodes by which each tree
    /// grows before, or the first resource that is missing.
    pub fn cost_of_edits<P: SectorSpace>(&self, _space: &P, free: FreeBlocks, edits: Edits) -> Cost
        requires serves { Serves self.now (P.SectorView.space _space.now) }
        // Attributes are edited only where there is an attributes file.
        requires tree { IsTrue (P.SectorView.space _space.now).tells → 0 < edits.attributes → IsTrue (has_attributes self.now.header) }
        // Told, it is what they cost a volume of this content with these free blocks.
        ensures exact { IsTrue (P.SectorView.space _space.now).tells → result ≡ cost_of (needs_asked edits) (room_with (capacity_of self.now) (free_in free self.now.map) (volume_of (P.SectorView.space _space.now).content)) }
    {
        trees_grow_by_enough();
        let room = self.room(free);
        // A space that tells its sectors has a volume with usual numbers.
        if !is_measured(&room) {
            return Cost::Refused(Refusal::NoSpace(0, 0));
        }
        if is_narrow(edits.catalog, &room.trees[1]) {
            return Cost::Refused(Refusal::NoSpace(0, 0));
        }
        if is_narrow(edits.attributes, &room.trees[2]) {
            return Cost::Refused(Refusal::NoSpace(0, 0));
        }
        cost(&needs_of(edits), &room)
    }

    /// How few of the runs of free blocks have so many blocks together.
    pub fn fewest(&self, free: FreeBlocks, count: u32) -> u32
        ensures { result ≡ fewest_of count (free_runs (free_in free self.now.map)) }
    {
        match free {
            FreeBlocks::All => self.map.fewest_all(count),
            FreeBlocks::Takable => self.map.fewest(count),
        }
    }

    /// The same of the blocks of a value; none have no block.
    fn fewest_runs(&self, free: FreeBlocks, count: u64) -> u32
        requires few { count < 2 ^ 32 }
        ensures { result ≡ runs_for count (free_in free self.now.map) }
    {
        if count == 0 {
            return 0;
        }
        self.fewest(free, count as u32)
    }

    /// What edits cost that also change values, where these blocks count as free.
    pub fn cost_of_values<P: SectorSpace>(
        &self,
        _space: &P,
        free: FreeBlocks,
        edits: Edits,
        change: ValueChange,
    ) -> Cost
        requires serves { Serves self.now (P.SectorView.space _space.now) }
        // Values are changed only where there is an attributes file.
        requires tree { IsTrue (P.SectorView.space _space.now).tells → IsTrue (has_attributes self.now.header) }
        // The numbers are those of a volume: no more records than its attributes file may have, and no more blocks than there may be.
        requires small { IsTrue (P.SectorView.space _space.now).tells → AreUsual edits.attributes change }
        // Told, it is what they cost a volume of this content with these free blocks.
        ensures exact { IsTrue (P.SectorView.space _space.now).tells → result ≡ cost_of (needs_valued (free_in free self.now.map) edits change) (room_with (capacity_of self.now) (free_in free self.now.map) (volume_of (P.SectorView.space _space.now).content)) }
    {
        trees_grow_by_enough();
        let room = self.room(free);
        // A space that tells its sectors has a volume with usual numbers.
        if !is_measured(&room) {
            return Cost::Refused(Refusal::NoSpace(0, 0));
        }
        if is_narrow(edits.catalog, &room.trees[1]) {
            return Cost::Refused(Refusal::NoSpace(0, 0));
        }
        if is_narrow(1, &room.trees[2]) {
            return Cost::Refused(Refusal::NoSpace(0, 0));
        }
        if change.blocks > 0xFFFF_FFFF {
            return Cost::Refused(Refusal::NoSpace(0, 0));
        }
        let runs = self.fewest_runs(free, change.blocks);
        if !are_usual(edits.attributes, change, runs) {
            return Cost::Refused(Refusal::NoSpace(0, 0));
        }
        cost(&needs_with_values(edits, change, runs), &room)
    }
}
