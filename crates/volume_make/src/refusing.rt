//! Which sizes and names are refused.
ghost use Rattle.std.specs.Prelude.{◌≡◌, ◌≤◌, length, IsTrue};
ghost use Rattle.volume_make.specs.Refusal.{is_block_size, fits_blocks, fits_journal, is_name, format_refusal};

use crate::fault::FormatFault;
use hx_bytes::Units;

const LEAST_SECTORS: u64 = 16_384;

const MOST_SECTORS: u64 = 2_147_483_648;

const MOST_BLOCKS: u64 = 268_435_456;

const LEAST_JOURNAL: u64 = 512;

const MOST_JOURNAL: u64 = 65_536;

const MOST_UNITS: usize = 255;

const SECTOR_SIZE: u64 = 512;

/// The first reason against a volume of so many sectors with blocks of so many bytes, a journal of so many sectors and
/// this name, or none where it can be made.
pub fn format_refusal(sectors: u64, block: u32, journal: u64, name: &Units) -> Option<FormatFault>
    ensures { result ≡ format_refusal sectors block journal name.now }
{
    if sectors < LEAST_SECTORS {
        Some(FormatFault::TooSmall(sectors))
    } else if MOST_SECTORS < sectors {
        Some(FormatFault::TooLarge(sectors))
    } else if !is_block_size(block) {
        Some(FormatFault::BadBlockSize(block))
    } else if !fits_blocks(sectors, block) {
        Some(FormatFault::BadBlockSize(block))
    } else if !fits_journal(sectors, block, journal) {
        Some(FormatFault::BadJournalSize(journal))
    } else if !is_name(name) {
        Some(FormatFault::BadName)
    } else {
        None
    }
}

fn is_block_size(block: u32) -> bool
    ensures { result ≡ is_block_size block }
{
    matches!(
        block,
        512 | 1_024 | 2_048 | 4_096 | 8_192 | 16_384 | 32_768 | 65_536
    )
}

fn fits_blocks(sectors: u64, block: u32) -> bool
    requires size { IsTrue (is_block_size block) }
    requires small { sectors ≤ 2147483648 }
    ensures { result ≡ fits_blocks sectors block }
{
    sectors * SECTOR_SIZE / u64::from(block) <= MOST_BLOCKS
}

fn fits_journal(sectors: u64, block: u32, journal: u64) -> bool
    requires { IsTrue (is_block_size block) }
    ensures { result ≡ fits_journal sectors block journal }
{
    LEAST_JOURNAL <= journal
        && journal <= MOST_JOURNAL
        && journal <= sectors / 4
        && journal % u64::from(block / 512) == 0
}

fn is_name(name: &Units) -> bool
    ensures { result ≡ is_name name.now }
{
    1 <= name.len() && name.len() <= MOST_UNITS
}
