//! The volume header, and its alternate (rules 1 and 2).
ghost use Rattle.std.specs.Prelude.{◌≡◌, ◌↔◌, ◌⊎◌, ◌≤◌, ◌*◌, ◌/◌, ◌^◌, true, Contains, IsTrue, IfOk, if◌then◌else◌};
ghost use Rattle.fsck_list.specs.declared.finding.Finding.{Finding as Listed};
ghost use Rattle.fsck_list.specs.Kept.{IsListed};
ghost use Rattle.volume_header.specs.Refusal.{is_block_size as is_size, is_volume_size};
ghost use Rattle.hfs_volume.specs.Blocks.{IsGoodHeader, AgreesWith};
ghost use Rattle.hfs_volume.specs.Broken.{IsUnmet, header_wants, alternate_wants, attributes_wanted};
ghost use Rattle.fsck_core.specs.Wants.{as_found};

use crate::want::{Want, judge_wants};
use fsck_list::Findings;
use hx_bytes::OutOfMemory;
use volume_header::VolumeHeader;

const SIGNATURE: u64 = 0x4858;

const VERSION: u64 = 5;

const JOURNALED: u64 = 8192;

const IDS_REUSED: u64 = 4096;

const MOST_BLOCKS: u64 = 268_435_456;

/// The first CNID that users get.
const FIRST_ID: u64 = 16;

/// A bit that is missing where it isn't set.
fn missing(set: bool, bit: u64) -> u64
    ensures { result ≡ (if set then 0 else bit) }
{
    if set { 0 } else { bit }
}

/// A bit that stands there where it is set.
fn standing(set: bool, bit: u64) -> u64
    ensures { result ≡ (if set then bit else 0) }
{
    if set { bit } else { 0 }
}

/// The attributes with the journal's bit, and without the one that says that CNIDs were used again.
fn wanted_attributes(head: &VolumeHeader) -> u64
    ensures { result ≡ attributes_wanted head.now.attributes }
{
    let journal = missing(head.is_journaled(), JOURNALED);
    let reused = standing(head.has_ids_reused(), IDS_REUSED);
    (head.attributes as u64 + journal).saturating_sub(reused)
}

fn is_block_size(size: u32) -> bool
    ensures { result ≡ is_size size }
{
    size.is_power_of_two() && 512 <= size && size <= 65536
}

/// The block size, or 4,096 where it isn't a power of two from 512 to 65,536.
fn wanted_size(size: u32) -> u64
    ensures { result ≡ (if is_size size then size else 4096) }
{
    if is_block_size(size) {
        size as u64
    } else {
        4096
    }
}

/// How many blocks of a size a volume of so many sectors has.
fn wanted_blocks(sectors: u64, size: u32) -> u64
    requires { sectors ≤ 2 ^ 31 }
    ensures { result ≡ sectors * 512 / size }
{
    if size == 0 {
        return 0;
    }
    sectors * 512 / size as u64
}

/// Judges the volume header of a volume of so many sectors, each number at its offset (TN1150, "Volume Header").
pub fn judge_header(
    sectors: u64,
    head: &VolumeHeader,
    out: &mut Findings,
) -> Result<bool, OutOfMemory>
    requires { is_volume_size sectors ≡ true }
    ensures met { IfOk result (λ met. IsTrue met ↔ IsGoodHeader sectors head.now) }
    ensures listed { IfOk result (λ _. (finding : Listed) → IsUnmet 1 (as_found finding) (header_wants sectors head.now) → IsListed out.new finding) }
    ensures still { IfOk result (λ _. (finding : Listed) → IsListed out.old finding → IsListed out.new finding) }
    ensures each { (finding : Listed) → Contains out.new finding → Contains out.old finding ⊎ IsUnmet 1 (as_found finding) (header_wants sectors head.now) }
{
    let total = head.total_blocks as u64;
    let info = head.journal_info_block as u64;
    let next = head.next_catalog_id as u64;
    let attributes = wanted_attributes(head);
    let size = wanted_size(head.block_size);
    let blocks = wanted_blocks(sectors, head.block_size);
    let most = total.min(MOST_BLOCKS);
    let last = total.saturating_sub(1);
    let inside = info.min(last);
    let least = next.max(FIRST_ID);
    judge_wants(
        1,
        &[
            Want {
                place: 0,
                found: head.signature as u64,
                wanted: SIGNATURE,
            },
            Want {
                place: 2,
                found: head.version as u64,
                wanted: VERSION,
            },
            Want {
                place: 4,
                found: head.attributes as u64,
                wanted: attributes,
            },
            Want {
                place: 40,
                found: head.block_size as u64,
                wanted: size,
            },
            Want {
                place: 44,
                found: total,
                wanted: blocks,
            },
            Want {
                place: 44,
                found: total,
                wanted: most,
            },
            Want {
                place: 12,
                found: info,
                wanted: inside,
            },
            Want {
                place: 64,
                found: next,
                wanted: least,
            },
        ],
        out,
    )
}

/// Judges the alternate volume header, which agrees with the volume header in what the volume is (TN1150, "Volume Header").
pub fn judge_alternate(
    head: &VolumeHeader,
    alternate: &VolumeHeader,
    out: &mut Findings,
) -> Result<bool, OutOfMemory>
    ensures met { IfOk result (λ met. IsTrue met ↔ AgreesWith head.now alternate.now) }
    ensures listed { IfOk result (λ _. (finding : Listed) → IsUnmet 2 (as_found finding) (alternate_wants head.now alternate.now) → IsListed out.new finding) }
    ensures still { IfOk result (λ _. (finding : Listed) → IsListed out.old finding → IsListed out.new finding) }
    ensures each { (finding : Listed) → Contains out.new finding → Contains out.old finding ⊎ IsUnmet 2 (as_found finding) (alternate_wants head.now alternate.now) }
{
    judge_wants(
        2,
        &[
            Want {
                place: 0,
                found: alternate.signature as u64,
                wanted: head.signature as u64,
            },
            Want {
                place: 2,
                found: alternate.version as u64,
                wanted: head.version as u64,
            },
            Want {
                place: 40,
                found: alternate.block_size as u64,
                wanted: head.block_size as u64,
            },
            Want {
                place: 44,
                found: alternate.total_blocks as u64,
                wanted: head.total_blocks as u64,
            },
        ],
        out,
    )
}
