//! The overflow records of a volume, and the extents of a fork by them.
ghost use Rattle.std.specs.Prelude.{◌≡◌, ◌++◌, ◌∷◌, [], All, IsSome, IfSome, IfOk, OnOk};
ghost use Rattle.hfs_volume.specs.Records.{overflow_of};
ghost use Rattle.hfs_volume.specs.Forks.{in_use, extents_of};
ghost use Rattle.fsck_core.specs.Overflows.{overflow_in, overflows_in, overflows_of, extents_for, IsOverflowPair};

use fork_map::ExtentList;
use fsck_scan::Pairs;
use hx_bytes::{Extent, ExtentRecord, ForkRecord, OutOfMemory, read_be32, read_extents};
use std::alloc::Global;

/// The CNID of the extents overflow file, whose own fork has no overflow records.
const EXTENTS_FILE: u32 = 3;

/// Further extents of a fork, from a block of it on: a record of the extents overflow file (TN1150, "Extents Overflow File").
#[derive(Clone, Copy, Debug, PartialEq, Eq)]
pub struct OverflowRow {
    /// 0 is a data fork, 255 a resource fork.
    pub fork: u8,
    /// The CNID of the file.
    pub id: u32,
    /// The block of the fork at which they begin.
    pub start: u32,
    pub extents: ExtentRecord,
}

/// The record of a pair, where its key and its value have the lengths of one.
#[tactic(auto, unfolding(hfs_volume::specs::Records::overflow_of))]
fn overflow_row(key: &[u8], value: &[u8]) -> Option<OverflowRow>
    ensures is { IsOverflowPair (key.now, value.now) → IsSome result }
    ensures row { IfSome result (λ row. overflow_in row ≡ overflow_of (key.now, value.now)) }
{
    if key.len() != 12 {
        return None;
    }
    if value.len() != 64 {
        return None;
    }
    Some(OverflowRow {
        fork: key[2],
        id: read_be32(key, 4),
        start: read_be32(key, 8),
        extents: read_extents(value, 0),
    })
}

/// The overflow records in the pairs of the extents overflow file, in the order of their keys.
pub fn read_overflow(alloc: Global, pairs: &Pairs) -> Result<Vec<OverflowRow>, OutOfMemory>
    ensures { All IsOverflowPair pairs.now → IfOk result (λ rows. overflows_in rows.items ≡ overflows_of pairs.now) }
{
    let mut rows = Vec::new(alloc);
    for i in 0..pairs.len() {
        if let Some(row) = overflow_row(pairs.key(i), pairs.value(i)) {
            rows.push(row)?;
        }
    }
    Ok(rows)
}

/// Adds the extents in use to a list.
pub(crate) fn push_used(list: &mut ExtentList, extents: &[Extent]) -> Result<(), OutOfMemory>
    ensures { OnOk result (list.new ≡ list.old ++ in_use extents.now) }
{
    for extent in extents {
        if extent.count != 0 {
            list.push(*extent)?;
        }
    }
    Ok(())
}

/// Adds the extents in use of a record, where it is one of this fork.
fn push_row(list: &mut ExtentList, row: &OverflowRow, id: u32, kind: u8) -> Result<(), OutOfMemory>
    ensures { OnOk result (list.new ≡ list.old ++ extents_for id kind row.now) }
{
    if row.id != id {
        return Ok(());
    }
    if row.fork != kind {
        return Ok(());
    }
    push_used(list, &row.extents.extents)
}

/// All extents in use of a fork, from its start on: those of its record, and those of its overflow records. The kind of a fork is 0 for data
/// and 255 for resources.
pub fn fork_extents(
    alloc: Global,
    rows: &[OverflowRow],
    id: u32,
    kind: u8,
    fork: &ForkRecord,
) -> Result<ExtentList, OutOfMemory>
    ensures { IfOk result (λ list. list ≡ extents_of (overflows_in rows.now) id kind fork.now) }
{
    let mut list = ExtentList::new(alloc);
    push_used(&mut list, &fork.extents.extents)?;
    if id == EXTENTS_FILE {
        return Ok(list);
    }
    for row in rows {
        push_row(&mut list, row, id, kind)?;
    }
    Ok(list)
}
