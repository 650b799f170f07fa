//! Overflow records, as they stand in the extents tree (TN1150, "Extents Overflow File").
ghost use Rattle.std.specs.Prelude.{◌≡◌, ◌⊎◌, ◌<◌, ◌≤◌, ◌+◌, ◌*◌, ◌^◌, ◌++◌, length, OnOk, OnErr, IfOk, slice_index_or};
ghost use Rattle.hx_bytes.specs.Field.{put_at};
ghost use Rattle.hx_bytes.specs.Fork.{extent_bytes, extents_at, FitsExtent};
ghost use Rattle.fork_map.specs.Blocks.{blocks_of};
ghost use Rattle.hfs_volume.specs.Forks.{in_use, is_full};
ghost use Rattle.overflow.specs.Changes.{same_list};
ghost use Rattle.overflow.specs.Keys.{IsKeyOf};
ghost use Rattle.overflow.specs.Records.{no_extent, eight_at};

use cat_records::extent_key;
use fork_map::ExtentList;
use hx_bytes::{Extent, ExtentRecord, OutOfMemory, write_extent};

/// A record of the extents tree behind the key of its fork: eight extents, and the place in the fork of the first of their blocks.
#[derive(Clone, Copy, Debug, PartialEq, Eq)]
pub struct OverflowRecord {
    pub start: u32,
    pub extents: ExtentRecord,
}

/// The key of the record of a fork that begins at a place.
pub(crate) fn key_of(id: u32, fork: u8, start: u32) -> [u8; 12]
    requires { (fork ≡ 0) ⊎ (fork ≡ 255) }
    ensures { IsKeyOf id fork start result }
{
    extent_key(fork, id, start)
}

/// Eight extents as the value of a pair of the extents tree.
pub(crate) fn value_of(extents: ExtentRecord) -> [u8; 64]
    ensures back { extents_at result 0 ≡ extents }
    ensures long { length result ≡ 64 }
{
    let mut value = [0; 64];
    for (place, extent) in extents.extents.iter().enumerate() {
        put_extent(&mut value, place, *extent);
    }
    value
}

/// Writes an extent at its place among eight.
fn put_extent(value: &mut [u8], place: usize, extent: Extent)
    requires { 8 * place + 8 ≤ length value.old }
    ensures written { value.new ≡ put_at value.old (8 * place) (extent_bytes extent) }
    ensures fits { FitsExtent extent }
{
    write_extent(value, 8 * place, extent);
}

/// Whether two lists have the same extents.
pub(crate) fn have_same(one: &[Extent], other: &[Extent]) -> bool
    ensures { result ≡ same_list one.now other.now }
{
    if one.len() != other.len() {
        return false;
    }
    for place in 0..one.len() {
        if one[place].start != other[place].start {
            return false;
        }
        if one[place].count != other[place].count {
            return false;
        }
    }
    true
}

/// Whether none of the extents of a record is unused.
pub(crate) fn has_no_room(extents: &ExtentRecord) -> bool
    ensures full { result ≡ is_full extents.now.extents }
    ensures eight { length extents.now.extents ≡ 8 }
{
    extents.extents.iter().all(|extent| extent.count != 0)
}

/// How many blocks extents have.
pub fn count_blocks(extents: &[Extent]) -> u64
    requires { length extents.now < 2 ^ 32 }
    ensures { result ≡ length (blocks_of extents.now) }
{
    let mut count = 0;
    for extent in extents {
        count += u64::from(extent.count);
    }
    count
}

/// An extent of a list, or an unused one where the list has no more.
fn extent_or_none(extents: &[Extent], at: usize) -> Extent
    ensures { result ≡ slice_index_or extents.now at no_extent }
{
    match extents.get(at) {
        Some(extent) => *extent,
        None => Extent { start: 0, count: 0 },
    }
}

/// The eight extents of a list from a place on, with unused ones where the list has fewer.
pub fn eight_extents(extents: &[Extent], at: usize) -> ExtentRecord
    requires { at + 8 < 2 ^ 64 }
    ensures { result ≡ eight_at extents.now at }
{
    ExtentRecord {
        extents: [
            extent_or_none(extents, at),
            extent_or_none(extents, at + 1),
            extent_or_none(extents, at + 2),
            extent_or_none(extents, at + 3),
            extent_or_none(extents, at + 4),
            extent_or_none(extents, at + 5),
            extent_or_none(extents, at + 6),
            extent_or_none(extents, at + 7),
        ],
    }
}

/// Adds the extents in use to a list.
pub fn push_used(list: &mut ExtentList, extents: &[Extent]) -> Result<(), OutOfMemory>
    ensures { OnOk result (list.new ≡ list.old ++ in_use extents.now) }
{
    for extent in extents {
        if extent.count != 0 {
            list.push(*extent)?;
        }
    }
    Ok(())
}
