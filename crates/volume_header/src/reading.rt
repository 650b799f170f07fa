//! A volume header read from its sector.
ghost use Rattle.std.specs.Prelude.{◌≡◌, IfOk, IfErr, None, Some, take, drop};
ghost use Rattle.volume_header.specs.Header.{header_of};
ghost use Rattle.volume_header.specs.Refusal.{header_refusal};

use crate::header::VolumeHeader;
use crate::refusal::HeaderRefusal;
use hx_bytes::{Sector, read_be16, read_be32, read_be64, read_fork};

/// Reads the header of a volume of so many sectors from its sector, or says the first reason not to
/// accept it.
pub fn read_header(sector: &Sector, sectors: u64) -> Result<VolumeHeader, HeaderRefusal>
    ensures read { IfOk result (λ head. (head ≡ header_of sector.now) × (header_refusal head sectors ≡ None)) }
    ensures refused { IfErr result (λ refusal. header_refusal (header_of sector.now) sectors ≡ Some refusal) }
{
    let head = header_at(sector);
    match head.refusal(sectors) {
        Some(refusal) => Err(refusal),
        None => Ok(head),
    }
}

/// The header that a sector spells, whatever it says: no field is judged.
pub fn header_at(sector: &Sector) -> VolumeHeader
    ensures { result ≡ header_of sector.now }
{
    VolumeHeader {
        signature: read_be16(sector, 0),
        version: read_be16(sector, 2),
        attributes: read_be32(sector, 4),
        last_mounted_version: read_be32(sector, 8),
        journal_info_block: read_be32(sector, 12),
        create_date: read_be32(sector, 16),
        modify_date: read_be32(sector, 20),
        backup_date: read_be32(sector, 24),
        checked_date: read_be32(sector, 28),
        file_count: read_be32(sector, 32),
        folder_count: read_be32(sector, 36),
        block_size: read_be32(sector, 40),
        total_blocks: read_be32(sector, 44),
        free_blocks: read_be32(sector, 48),
        next_allocation: read_be32(sector, 52),
        rsrc_clump_size: read_be32(sector, 56),
        data_clump_size: read_be32(sector, 60),
        next_catalog_id: read_be32(sector, 64),
        write_count: read_be32(sector, 68),
        encodings_bitmap: read_be64(sector, 72),
        finder_info: finder_info_at(sector),
        allocation_fork: read_fork(sector, 112),
        extents_fork: read_fork(sector, 192),
        catalog_fork: read_fork(sector, 272),
        attributes_fork: read_fork(sector, 352),
        startup_fork: read_fork(sector, 432),
    }
}

fn finder_info_at(sector: &Sector) -> [u8; 32]
    ensures { result ≡ take 32 (drop 80 sector.now) }
{
    let mut info = [0; 32];
    info.copy_from_slice(&sector[80..112]);
    info
}
