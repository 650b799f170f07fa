//! The fields of a volume header.

use hx_bytes::ForkRecord;

/// A volume header, field by field in the order of its sector (TN1150, "Volume Header"). Dates are
/// seconds since 1 January 1904, sizes are bytes, and blocks are allocation blocks.
#[derive(Clone, Copy, Debug, PartialEq, Eq)]
pub struct VolumeHeader {
    pub signature: u16,
    pub version: u16,
    pub attributes: u32,
    pub last_mounted_version: u32,
    pub journal_info_block: u32,
    pub create_date: u32,
    pub modify_date: u32,
    pub backup_date: u32,
    pub checked_date: u32,
    pub file_count: u32,
    pub folder_count: u32,
    pub block_size: u32,
    pub total_blocks: u32,
    pub free_blocks: u32,
    pub next_allocation: u32,
    pub rsrc_clump_size: u32,
    pub data_clump_size: u32,
    pub next_catalog_id: u32,
    pub write_count: u32,
    pub encodings_bitmap: u64,
    pub finder_info: [u8; 32],
    pub allocation_fork: ForkRecord,
    pub extents_fork: ForkRecord,
    pub catalog_fork: ForkRecord,
    pub attributes_fork: ForkRecord,
    pub startup_fork: ForkRecord,
}
