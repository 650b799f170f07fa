//! Whether a tree of a volume in service can get more nodes.
ghost use Rattle.std.specs.Prelude.{◌≡◌, ◌<◌, ◌≤◌, ◌+◌, ◌*◌, ◌/◌, ◌^◌, min, IsTrue, length};
ghost use Rattle.alloc_bitmap.specs.Map.{free_of, none};
ghost use Rattle.btree_file.specs.Growth.{map_nodes_for};
ghost use Rattle.flag_rows.specs.Bits.{count_set, sectors_for};
ghost use Rattle.hfs_volume.specs.Content.{has_attributes};
ghost use Rattle.flag_rows.specs.Runs.{longest_of, runs_of};
ghost use Rattle.volume_space.specs.Growing.{CanGrow, CanGrowAttributes, CanGrowCatalog, CanGrowExtents, CountsHaveRoom, FileFits, GrowthFits, HasFreeRun, blocks_filled, growth_load};
ghost use Rattle.volume_space.specs.declared.ahead.WhichTree.TheVariants as which;
ghost use Rattle.volume_base.specs.Standing.{StandsOver};

use btree_file::TreeFile;
use hx_bytes::ForkRecord;
use sector_disk::SectorSpace;
use volume_base::Volume;

/// How many map nodes more are wanted so that each of so many nodes has a bit, where a map has so many bits (TN1150, "Map Nodes").
fn count_map_nodes(nodes: u32, bits: u32, node_size: u32) -> u32
    requires least { 512 ≤ node_size }
    requires most { node_size ≤ 32768 }
    ensures { result ≡ map_nodes_for node_size bits nodes }
{
    let each = 8 * (node_size - 20);
    nodes.saturating_sub(bits).div_ceil(each)
}

/// In how many sectors of a bitmap for so many blocks a run has bits, at most.
pub(crate) fn count_map_sectors(total: u32, run: u64) -> u64
    ensures { result ≡ min (sectors_for total) (run / 4096 + 2) }
{
    let all = (u64::from(total) + 4095) / 4096;
    all.min(run / 4096 + 2)
}

/// How many blocks so many nodes of a tree's file fill.
pub(crate) fn count_blocks(file: &TreeFile, more: u32) -> u64
    requires { 0 < file.now.per_block }
    ensures { result ≡ blocks_filled file.now more }
{
    let sectors = u64::from(more) * u64::from(file.shape().node_size / 512);
    sectors / u64::from(file.per_block())
}

/// Whether so many blocks in a row are free and not held.
pub(crate) fn has_free_run(volume: &Volume, blocks: u64) -> bool
    ensures some { IsTrue result → 0 < blocks }
    ensures enough { IsTrue result → blocks ≤ count_set (free_of volume.now.map) }
    ensures run { IsTrue result → HasFreeRun blocks (free_of volume.now.map) }
    ensures sure { 0 < blocks → blocks ≤ longest_of (runs_of (free_of volume.now.map)) → IsTrue result }
{
    if blocks == 0 {
        return false;
    }
    if u64::from(volume.map.longest()) < blocks {
        return false;
    }
    true
}

/// Whether the numbers that count the nodes, blocks and bytes of a file with this fork have room for so many nodes more.
pub(crate) fn counts_have_room(
    volume: &Volume,
    file: &TreeFile,
    fork: ForkRecord,
    more: u32,
    blocks: u64,
) -> bool
    requires { blocks ≡ blocks_filled file.now more }
    ensures room { IsTrue result → CountsHaveRoom more file.now fork volume.now }
    ensures sure { CountsHaveRoom more file.now fork volume.now → IsTrue result }
{
    let shape = file.shape();
    if shape.node_size < 512 {
        return false;
    }
    if shape.node_size > 32_768 {
        return false;
    }
    if file.fork().len() >= 8 {
        return false;
    }
    if u128::from(blocks) * u128::from(file.per_block())
        != u128::from(more) * u128::from(shape.node_size / 512)
    {
        return false;
    }
    if u64::from(shape.total) + u64::from(more) > 0xFFFF_FFFF {
        return false;
    }
    if u128::from(fork.total_blocks).saturating_add(u128::from(blocks)) > 0xFFFF_FFFF {
        return false;
    }
    let bytes = u128::from(blocks) * u128::from(volume.header.block_size);
    if u128::from(fork.logical_size).saturating_add(bytes) > 0xFFFF_FFFF_FFFF_FFFF {
        return false;
    }
    if u64::from(volume.header.free_blocks) < blocks {
        return false;
    }
    true
}

/// How many sectors a growth of a file by so many nodes, in so many blocks, puts at most.
pub(crate) fn count_growth_sectors(volume: &Volume, file: &TreeFile, more: u32, blocks: u64) -> u64
    requires blocks { blocks ≡ blocks_filled file.now more }
    requires least { 512 ≤ file.now.shape.node_size }
    requires most { file.now.shape.node_size ≤ 32768 }
    requires nodes { file.now.shape.total + more < 2 ^ 32 }
    ensures { result ≡ growth_load volume.now file.now more }
{
    let shape = file.shape();
    let maps = count_map_nodes(shape.total + more, file.map_bits(), shape.node_size);
    let nodes = (2 + u64::from(maps)) * u64::from(shape.node_size / 512);
    nodes + (count_map_sectors(volume.map.total(), blocks) + 1)
}

/// Whether so many blocks as the volume has, of the size that the file's blocks have, lie in the space.
fn blocks_lie_inside<P: SectorSpace>(volume: &Volume, space: &P, file: &TreeFile) -> bool
    ensures inside { IsTrue result → length volume.now.map.used * file.now.per_block ≤ (P.SectorView.space space.now).sectors }
    ensures sure { length volume.now.map.used * file.now.per_block ≤ (P.SectorView.space space.now).sectors → IsTrue result }
{
    if space.sectors() < u64::from(volume.map.total()) * u64::from(file.per_block()) {
        return false;
    }
    true
}

/// Whether so many sectors may be put.
fn has_room<P: SectorSpace>(space: &P, sectors: u64) -> bool
    ensures room { IsTrue result → sectors ≤ (P.SectorView.space space.now).spare }
    ensures sure { sectors ≤ (P.SectorView.space space.now).spare → IsTrue result }
{
    if space.spare() < sectors {
        return false;
    }
    true
}

/// Whether a file with this fork can get so many nodes more now: they fill blocks that are free in a row, its fork has fewer than
/// eight extents, and there is room to put what is changed. The volume's blocks lie in the space, told.
fn can_grow<P: SectorSpace>(
    volume: &Volume,
    space: &P,
    file: &TreeFile,
    fork: ForkRecord,
    more: u32,
) -> bool
    requires unchanged { volume.now.map.changed ≡ none (sectors_for (length volume.now.map.used)) }
    ensures sure { IsTrue result → CanGrow more file.now fork volume.now (P.SectorView.space space.now) }
    ensures fits { FileFits more file.now fork volume.now (P.SectorView.space space.now) → length volume.now.map.used * file.now.per_block ≤ (P.SectorView.space space.now).sectors → IsTrue result }
{
    if file.per_block() == 0 {
        return false;
    }
    let blocks = count_blocks(file, more);
    if !has_free_run(volume, blocks) {
        return false;
    }
    if !counts_have_room(volume, file, fork, more, blocks) {
        return false;
    }
    if !blocks_lie_inside(volume, space, file) {
        return false;
    }
    has_room(space, count_growth_sectors(volume, file, more, blocks))
}

/// Whether the extents overflow file can get so many nodes more now, by `grow_extents`.
pub fn can_grow_extents<P: SectorSpace>(volume: &Volume, space: &P, more: u32) -> bool
    requires stands { StandsOver volume.now (P.SectorView.space space.now) }
    // Since the last keep no bit was changed.
    requires unchanged { volume.now.map.changed ≡ none (sectors_for (length volume.now.map.used)) }
    ensures sure { IsTrue result → CanGrowExtents more volume.now (P.SectorView.space space.now) }
    // Told, a growth that fits can be made.
    ensures fits { IsTrue (P.SectorView.space space.now).tells → GrowthFits which.Extents more volume.now (P.SectorView.space space.now) → IsTrue result }
{
    can_grow(
        volume,
        space,
        &volume.extents.file,
        volume.header.extents_fork,
        more,
    )
}

/// Whether the catalog can get so many nodes more now, by `grow_catalog`.
pub fn can_grow_catalog<P: SectorSpace>(volume: &Volume, space: &P, more: u32) -> bool
    requires stands { StandsOver volume.now (P.SectorView.space space.now) }
    // Since the last keep no bit was changed.
    requires unchanged { volume.now.map.changed ≡ none (sectors_for (length volume.now.map.used)) }
    ensures sure { IsTrue result → CanGrowCatalog more volume.now (P.SectorView.space space.now) }
    // Told, a growth that fits can be made.
    ensures fits { IsTrue (P.SectorView.space space.now).tells → GrowthFits which.Catalog more volume.now (P.SectorView.space space.now) → IsTrue result }
{
    can_grow(
        volume,
        space,
        &volume.catalog.file,
        volume.header.catalog_fork,
        more,
    )
}

/// Whether there is an attributes file that can get so many nodes more now, by `grow_attributes`.
pub fn can_grow_attributes<P: SectorSpace>(volume: &Volume, space: &P, more: u32) -> bool
    requires stands { StandsOver volume.now (P.SectorView.space space.now) }
    // Since the last keep no bit was changed.
    requires unchanged { volume.now.map.changed ≡ none (sectors_for (length volume.now.map.used)) }
    ensures there { IsTrue result → IsTrue (has_attributes volume.now.header) }
    ensures sure { IsTrue result → CanGrowAttributes more volume.now (P.SectorView.space space.now) }
    // Told, a growth that fits can be made.
    ensures fits { IsTrue (P.SectorView.space space.now).tells → GrowthFits which.Attributes more volume.now (P.SectorView.space space.now) → IsTrue result }
{
    if volume.header.attributes_fork.logical_size == 0 {
        return false;
    }
    can_grow(
        volume,
        space,
        &volume.attributes.file,
        volume.header.attributes_fork,
        more,
    )
}
