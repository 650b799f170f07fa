//! Whether the file of a tree whose fork has eight extents or more can grow: those behind the eight of the header's record stand in overflow records (TN1150, "Extents Overflow File").
ghost use Rattle.std.specs.Prelude.{◌≡◌, ◌⊎◌, ◌≤◌, ◌-◌, ◌*◌, ◌/◌, true, IsTrue, length};
ghost use Rattle.alloc_bitmap.specs.Map.{none};
ghost use Rattle.flag_rows.specs.Bits.{sectors_for};
ghost use Rattle.volume_base.specs.Room.{room_on};
ghost use Rattle.volume_base.specs.Weighing.{is_measured};
ghost use Rattle.volume_base.specs.declared.room.FreeBlocks.TheVariants as blocks;
ghost use Rattle.volume_space.specs.Growing.{blocks_filled};
ghost use Rattle.volume_space.specs.SpreadGrowth.{CanGrowSpread, HasRoomBehind, HasRoomForRun, NumbersHaveRoom, SpreadFits};

use crate::growable::{count_blocks, count_growth_sectors, has_free_run};
use crate::storing::{is_met, needs_of_extents};
use btree_file::TreeFile;
use hx_bytes::ForkRecord;
use sector_disk::SectorSpace;
use volume_base::{FreeBlocks, Volume, is_measured};
use volume_cost::cost;

/// Whether the numbers that count the nodes, blocks and bytes of a file with this fork have room for so many nodes more.
fn numbers_have_room(
    volume: &Volume,
    file: &TreeFile,
    fork: ForkRecord,
    more: u32,
    blocks: u64,
) -> bool
    requires { blocks ≡ blocks_filled file.now more }
    ensures room { IsTrue result → NumbersHaveRoom more file.now fork volume.now }
    ensures sure { NumbersHaveRoom more file.now fork volume.now → IsTrue result }
{
    let shape = file.shape();
    if shape.node_size < 512 || shape.node_size > 32_768 {
        return false;
    }
    if u128::from(blocks) * u128::from(file.per_block())
        != u128::from(more) * u128::from(shape.node_size / 512)
    {
        return false;
    }
    if u64::from(shape.total) + u64::from(more) > 0xFFFF_FFFF {
        return false;
    }
    if u128::from(fork.total_blocks).saturating_add(u128::from(blocks)) > 0xFFFF_FFFF {
        return false;
    }
    let bytes = u128::from(blocks) * u128::from(volume.header.block_size);
    if u128::from(fork.logical_size).saturating_add(bytes) > 0xFFFF_FFFF_FFFF_FFFF {
        return false;
    }
    blocks <= u64::from(volume.header.free_blocks)
}

/// Whether the extents overflow file has room for the records of a fork that goes on in a run, where so many sectors may be put.
fn can_store_run<P: SectorSpace>(volume: &Volume, _space: &P, spare: u64) -> bool
    ensures room { IsTrue result → HasRoomForRun volume.now spare }
    ensures sure { is_measured (room_on blocks.Takable volume.now) ≡ true → HasRoomForRun volume.now spare → IsTrue result }
{
    let room = volume.room(FreeBlocks::Takable);
    if !is_measured(&room) {
        return false;
    }
    is_met(cost(&needs_of_extents(1), &room), spare)
}

/// Whether a file with this fork, of any number of extents, can get so many nodes more now: they fill blocks that are free in a row, and
/// there is room to put what is changed, with the overflow records of its fork.
pub(crate) fn can_grow_spread<P: SectorSpace>(
    volume: &Volume,
    space: &P,
    file: &TreeFile,
    fork: ForkRecord,
    more: u32,
) -> bool
    requires unchanged { volume.now.map.changed ≡ none (sectors_for (length volume.now.map.used)) }
    ensures sure { IsTrue result → CanGrowSpread more file.now fork volume.now (P.SectorView.space space.now) }
    ensures fits { is_measured (room_on blocks.Takable volume.now) ≡ true → SpreadFits more file.now fork volume.now (P.SectorView.space space.now) → length volume.now.map.used * file.now.per_block ≤ (P.SectorView.space space.now).sectors → IsTrue result }
    ensures records { IsTrue result → HasRoomBehind more file.now volume.now (P.SectorView.space space.now) }
{
    if file.per_block() == 0 {
        return false;
    }
    let blocks = count_blocks(file, more);
    if !has_free_run(volume, blocks) {
        return false;
    }
    if !numbers_have_room(volume, file, fork, more, blocks) {
        return false;
    }
    if u64::from(volume.map.total()) * u64::from(file.per_block()) > space.sectors() {
        return false;
    }
    let sectors = count_growth_sectors(volume, file, more, blocks);
    let spare = space.spare();
    if spare < sectors {
        return false;
    }
    can_store_run(volume, space, spare - sectors)
}
