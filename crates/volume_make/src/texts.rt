//! The sectors that a volume is made with: the header, the bitmap, and the journal's info block and header.
ghost use Rattle.std.specs.Prelude.{◌≡◌, ◌<◌, ◌^◌};
ghost use Rattle.volume_make.specs.Layout.{IsFitting};
ghost use Rattle.volume_make.specs.Texts.{special_fork, empty_fork, fresh_header, header_text, bitmap_sector, info_text, journal_text, piece};

use crate::layout::Layout;
use flag_rows::{Marks, bits_sector};
use hfs_model::one_run;
use hx_bytes::{Extent, ForkRecord, Order, Sector};
use jnl_format::{Header, Info};
use volume_header::VolumeHeader;

/// Bit 8, unmounted cleanly, and bit 13, journaled.
const ATTRIBUTES: u32 = 0x2100;
/// `HFSJ`
const WRITTEN_BY: u32 = 0x4846_534A;
/// The first byte behind the journal's header, where an empty journal starts and ends at first.
const JOURNAL_BEGIN: u64 = 512;
/// The bytes of a block list's header in the journal.
const LIST_HEADER: u32 = 4096;
/// The blocks whose bits are in one sector.
const SECTOR_BITS: u64 = 4096;

/// The fork of a special file that fills these blocks.
fn special_fork(block: u32, part: Extent) -> ForkRecord
    ensures { result ≡ special_fork block part }
{
    ForkRecord {
        logical_size: u64::from(part.count) * u64::from(block),
        clump_size: block,
        total_blocks: part.count,
        extents: one_run(part.start, part.count),
    }
}

/// The fork of a special file without a byte.
fn empty_fork(block: u32) -> ForkRecord
    ensures { result ≡ empty_fork block }
{
    ForkRecord {
        logical_size: 0,
        clump_size: block,
        total_blocks: 0,
        extents: one_run(0, 0),
    }
}

fn fresh_header(layout: Layout) -> VolumeHeader
    requires { IsFitting layout }
    ensures { result ≡ fresh_header layout }
{
    VolumeHeader {
        signature: 0x4858,
        version: 5,
        attributes: ATTRIBUTES,
        last_mounted_version: WRITTEN_BY,
        journal_info_block: layout.info.start,
        create_date: 0,
        modify_date: 0,
        backup_date: 0,
        checked_date: 0,
        file_count: 2,
        folder_count: 0,
        block_size: layout.block,
        total_blocks: layout.total,
        free_blocks: layout.free(),
        next_allocation: layout.first_free(),
        rsrc_clump_size: layout.block,
        data_clump_size: layout.block,
        next_catalog_id: 18,
        write_count: 0,
        encodings_bitmap: 1,
        finder_info: [0; 32],
        allocation_fork: special_fork(layout.block, layout.bitmap),
        extents_fork: special_fork(layout.block, layout.extents),
        catalog_fork: special_fork(layout.block, layout.catalog),
        attributes_fork: special_fork(layout.block, layout.attributes),
        startup_fork: empty_fork(layout.block),
    }
}

/// The sector of the volume header and of the alternate one.
pub(crate) fn header_sector(layout: Layout) -> Sector
    requires { IsFitting layout }
    ensures { result ≡ header_text layout }
{
    let mut sector = [0; 512];
    volume_header::write_header(&fresh_header(layout), &mut sector);
    sector
}

/// The journal info block's sector.
pub(crate) fn info_sector(layout: Layout) -> Sector
    ensures { result ≡ info_text layout }
{
    let mut sector = [0; 512];
    let info = Info {
        flags: 1,
        offset: u64::from(layout.journal.start) * u64::from(layout.block),
        size: u64::from(layout.journal.count) * u64::from(layout.block),
    };
    jnl_format::write_info(&info, &mut sector);
    sector
}

/// The journal header's sector.
pub(crate) fn journal_sector(layout: Layout) -> Sector
    ensures { result ≡ journal_text layout }
{
    let mut sector = [0; 512];
    let header = Header {
        order: Order::Little,
        start: JOURNAL_BEGIN,
        end: JOURNAL_BEGIN,
        size: u64::from(layout.journal.count) * u64::from(layout.block),
        blhdr: LIST_HEADER,
    };
    jnl_format::write_header(&header, &mut sector);
    sector
}

/// A sector of the bitmap.
pub(crate) fn bitmap_sector(layout: Layout, k: u64) -> Sector
    requires fitting { IsFitting layout }
    requires small { k < 2 ^ 40 }
    ensures { result ≡ bitmap_sector layout k }
{
    let used = Marks {
        below: layout.first_free(),
        also: layout.last,
    };
    bits_sector(used, k * SECTOR_BITS)
}

/// A sector of a part that begins with this text, behind which all is zero.
pub(crate) fn piece(text: &[u8], k: u64) -> Sector
    ensures { result ≡ piece text.now k }
{
    let mut sector = [0; 512];
    if k < text.len() as u64 / 512 {
        let first = k as usize * 512;
        sector.copy_from_slice(&text[first..first + 512]);
    }
    sector
}
