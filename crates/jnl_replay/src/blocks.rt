//! The blocks of a list, held against the volume.
ghost use Rattle.std.specs.Prelude.{◌≡◌, ◌≤◌, ◌<◌, ◌+◌, ◌*◌, ◌-◌, ◌/◌, ◌&&◌, ◌==◌, ◌^◌, ◌↔◌, IsTrue, IfOk};
ghost use Rattle.sector_disk.specs.Cause.{HasCause};
ghost use Rattle.sector_disk.specs.Disk.{content};
ghost use Rattle.jnl_format.specs.Text.{is_skipped, is_inside, is_apart, covers, is_same_volume, is_same_kind, is_same_layout, has_same_bits, keeps_header, keeps_volume, is_block, are_blocks, block_bytes};
ghost use Rattle.sector_disk.specs.Disk.{OnlyReads};
ghost use Rattle.jnl_replay.specs.Text.{words, IsText};

use crate::text::{Text, read_entry_at, read_text};
use hx_bytes::Failed;
use jnl_format::{Entry, Volume};
use sector_disk::SectorDisk;
use volume_header::{VolumeHeader, read_header};

const SKIPPED: u64 = u64::MAX;

const HEADER_SECTOR: u64 = 2;

const ENTRY_BYTES: u64 = 16;

/// Whether the entries at `at`, so many of them, have blocks as they must be, which fill the bytes from
/// `body` to `end`.
pub fn blocks_are_valid<D: SectorDisk>(
    disk: &mut D,
    text: &Text,
    volume: &Volume,
    at: u64,
    body: u64,
    end: u64,
    count: u64,
) -> Result<bool, Failed>
    requires text { IsText (D.state disk.old).sectors text.now }
    requires entries { at + 16 * count ≤ text.now.length }
    requires body { body ≤ end }
    requires inside { end ≤ text.now.length }
    ensures value { IsTrue (D.state disk.old).tells → IfOk result (λ fits.
        let bytes = words text.now (content (D.state disk.old)) in
        fits ≡ ((end == body + block_bytes text.now.order bytes at count) && are_blocks volume.now text.now.order bytes at body count)) }
    ensures reads { OnlyReads (D.state disk.old) (D.state disk.new) }
    ensures cause { HasCause (D.state disk.old).faults (D.state disk.new).faults result }
{
    let mut place = at;
    let mut from = body;
    for _entry in 0..count {
        let entry = read_entry_at(disk, text, place)?;
        let size = u64::from(entry.bsize);
        if end - from < size {
            return Ok(false);
        }
        if !is_block_of(disk, text, volume, &entry, from)? {
            return Ok(false);
        }
        place += ENTRY_BYTES;
        from += size;
    }
    Ok(from == end)
}

/// Whether a block, whose bytes begin at `body`, is as it must be.
fn is_block_of<D: SectorDisk>(
    disk: &mut D,
    text: &Text,
    volume: &Volume,
    entry: &Entry,
    body: u64,
) -> Result<bool, Failed>
    requires text { IsText (D.state disk.old).sectors text.now }
    requires inside { body + entry.now.bsize ≤ text.now.length }
    ensures value { IsTrue (D.state disk.old).tells → IfOk result (λ fits. fits ≡ is_block volume.now (words text.now (content (D.state disk.old))) body entry.now) }
    ensures reads { OnlyReads (D.state disk.old) (D.state disk.new) }
    ensures cause { HasCause (D.state disk.old).faults (D.state disk.new).faults result }
{
    if is_skip(entry) {
        return Ok(true);
    }
    if !lies_inside(volume, entry) || !lies_apart(volume, entry) {
        return Ok(false);
    }
    if !has_sector(entry, HEADER_SECTOR) {
        return Ok(true);
    }
    let mut sector = [0; 512];
    let skipped = (HEADER_SECTOR - entry.bnum) * 512;
    read_text(disk, text, body + skipped, &mut sector)?;
    match read_header(&sector, volume.sectors) {
        Ok(head) => Ok(is_same(&volume.header, &head)),
        Err(_) => Ok(false),
    }
}

pub fn is_skip(entry: &Entry) -> bool
    ensures { result ≡ is_skipped entry.now }
{
    entry.bnum == SKIPPED
}

pub fn has_sector(entry: &Entry, sector: u64) -> bool
    ensures { result ≡ covers entry.now sector }
{
    entry.bnum <= sector && sector - entry.bnum < u64::from(entry.bsize / 512)
}

fn lies_inside(volume: &Volume, entry: &Entry) -> bool
    ensures { result ≡ is_inside volume.now entry.now }
{
    let count = u64::from(entry.bsize / 512);
    0 < entry.bsize && entry.bsize % 512 == 0 && ends_by(entry.bnum, count, volume.sectors)
}

fn lies_apart(volume: &Volume, entry: &Entry) -> bool
    ensures { result ≡ is_apart volume.now entry.now }
{
    let count = u64::from(entry.bsize / 512);
    let before = ends_by(entry.bnum, count, volume.first);
    let behind = ends_by(volume.first, volume.count, entry.bnum);
    (before || behind) && !has_sector(entry, volume.info_sector)
}

fn ends_by(first: u64, count: u64, limit: u64) -> bool
    ensures { IsTrue result ↔ (first + count ≤ limit) }
{
    count <= limit && first <= limit - count
}

#[tactic(auto, unfolding(jnl_format::specs::Text::is_same_volume))]
fn is_same(old: &VolumeHeader, new: &VolumeHeader) -> bool
    ensures { result ≡ is_same_volume old.now new.now }
{
    is_alike(old, new)
        && is_laid_out_alike(old, new)
        && has_equal_bits(old.attributes, new.attributes)
}

fn is_alike(old: &VolumeHeader, new: &VolumeHeader) -> bool
    ensures { result ≡ is_same_kind old.now new.now }
{
    new.signature == old.signature
        && new.version == old.version
        && new.last_mounted_version == old.last_mounted_version
}

fn is_laid_out_alike(old: &VolumeHeader, new: &VolumeHeader) -> bool
    ensures { result ≡ is_same_layout old.now new.now }
{
    new.journal_info_block == old.journal_info_block
        && new.block_size == old.block_size
        && new.total_blocks == old.total_blocks
}

// Bits 12, 13 and 15: ids reused, journaled, locked.
fn has_equal_bits(old: u32, new: u32) -> bool
    ensures { result ≡ has_same_bits old new }
{
    new / 4096 % 2 == old / 4096 % 2
        && new / 8192 % 2 == old / 8192 % 2
        && new / 32768 % 2 == old / 32768 % 2
}
