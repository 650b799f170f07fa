//! The header of a space that holds a volume.
ghost use Rattle.std.specs.Prelude.{◌≡◌, ◌≤◌, None, IsTrue, IfOk};
ghost use Rattle.sector_disk.specs.Cause.{HasCause};
ghost use Rattle.jnl_format.specs.Recovery.{header_of_volume};
ghost use Rattle.volume_header.specs.Header.{FitsHeader, header_of};
ghost use Rattle.volume_header.specs.Refusal.{header_refusal};
ghost use Rattle.btree_file.specs.Frame.{ReadsSpace};

use hx_bytes::{Extent, ExtentRecord, Failed, ForkRecord, Sector};
use sector_disk::SectorView;
use volume_header::{VolumeHeader, read_header};

/// A fork without blocks.
pub const EMPTY: ForkRecord = ForkRecord {
    logical_size: 0,
    clump_size: 0,
    total_blocks: 0,
    extents: ExtentRecord {
        extents: [Extent { start: 0, count: 0 }; 8],
    },
};

/// The header of a volume without blocks.
fn no_header() -> VolumeHeader
    ensures size { result.block_size ≡ 512 }
    ensures fits { FitsHeader result }
{
    VolumeHeader {
        signature: 0,
        version: 0,
        attributes: 0,
        last_mounted_version: 0,
        journal_info_block: 0,
        create_date: 0,
        modify_date: 0,
        backup_date: 0,
        checked_date: 0,
        file_count: 0,
        folder_count: 0,
        block_size: 512,
        total_blocks: 0,
        free_blocks: 0,
        next_allocation: 0,
        rsrc_clump_size: 0,
        data_clump_size: 0,
        next_catalog_id: 0,
        write_count: 0,
        encodings_bitmap: 0,
        finder_info: [0; 32],
        allocation_fork: EMPTY,
        extents_fork: EMPTY,
        catalog_fork: EMPTY,
        attributes_fork: EMPTY,
        startup_fork: EMPTY,
    }
}

/// The header in a sector, or that of a volume without blocks where it isn't one of a volume of so many sectors.
fn header_or_none(sector: &Sector, sectors: u64) -> VolumeHeader
    ensures read { header_refusal (header_of sector.now) sectors ≡ None → result ≡ header_of sector.now }
    ensures fits { FitsHeader result }
    ensures least { 512 ≤ result.block_size }
    ensures most { result.block_size ≤ 65536 }
{
    match read_header(sector, sectors) {
        Ok(head) => head,
        Err(_) => no_header(),
    }
}

/// The header that a space holds, or that of a volume without blocks where it holds none.
pub(crate) fn read_volume_header<V: SectorView>(view: &mut V) -> Result<VolumeHeader, Failed>
    ensures head { IsTrue (V.space view.old).tells → header_refusal (header_of_volume (V.space view.old).content) (V.space view.old).sectors ≡ None → IfOk result (λ head. head ≡ header_of_volume (V.space view.old).content) }
    ensures fits { IfOk result (λ head. FitsHeader head) }
    ensures least { IfOk result (λ head. 512 ≤ head.block_size) }
    ensures most { IfOk result (λ head. head.block_size ≤ 65536) }
    ensures reads { ReadsSpace (V.space view.old) (V.space view.new) }
    ensures below { V.follows view.old view.new }
    ensures cause { HasCause (V.space view.old).faults (V.space view.new).faults result }
{
    let sectors = view.sectors();
    if sectors < 3 {
        return Ok(no_header());
    }
    let mut sector = [0; 512];
    view.get(2, &mut sector)?;
    Ok(header_or_none(&sector, sectors))
}
