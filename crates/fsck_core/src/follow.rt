//! Overflow records that go on behind each other (rule 17).
ghost use Rattle.std.specs.Prelude.{◌≡◌, ◌≤◌, ◌==◌, ◌^◌, length, MatchOption, None, Some};
ghost use Rattle.fork_map.specs.Blocks.{blocks_of};
ghost use Rattle.hfs_volume.specs.Forks.{is_full, has_extents, blocks_owned};
ghost use Rattle.hfs_volume.specs.Blocks.{GoesOn};
ghost use Rattle.fsck_core.specs.Overflows.{overflows_in};
ghost use Rattle.fsck_core.specs.Owners.{owned_in, next_front, follow};

use crate::overflow::OverflowRow;
use hx_bytes::{Extent, ExtentRecord, ForkRecord};

/// The CNID of the extents overflow file, whose own fork has no overflow records.
const EXTENTS_FILE: u32 = 3;

/// A fork with the CNID of its file, and its kind: 0 is a data fork, 255 a resource fork.
#[derive(Clone, Copy, Debug, PartialEq, Eq)]
pub struct OwnedFork {
    pub id: u32,
    pub kind: u8,
    pub fork: ForkRecord,
}

/// How far a fork's records have gone on.
#[derive(Clone, Copy, Debug, PartialEq, Eq)]
pub(crate) struct Front {
    /// The block of the fork at which the next record begins.
    pub place: u64,
    /// Whether the last record has no extent to spare, so that another may come.
    pub full: bool,
}

/// Whether none of the extents of a record is unused.
pub(crate) fn has_no_room(extents: &ExtentRecord) -> bool
    ensures { result ≡ is_full extents.now.extents }
{
    extents.extents.iter().all(|extent| extent.count != 0)
}

/// Whether one of the extents of a record is in use.
fn has_extents(extents: &ExtentRecord) -> bool
    ensures { result ≡ has_extents extents.now.extents }
{
    extents.extents.iter().any(|extent| extent.count != 0)
}

/// How many blocks up to eight extents have.
pub(crate) fn count_blocks(extents: &[Extent]) -> u64
    requires { length extents.now ≤ 8 }
    ensures value { result ≡ length (blocks_of extents.now) }
    ensures few { result ≤ 2 ^ 35 }
{
    let mut count = 0;
    for extent in extents {
        count += u64::from(extent.count);
    }
    count
}

/// The front behind a row, if it goes on there and has an extent in use; a row of another fork leaves it as it is.
pub(crate) fn next_front(id: u32, kind: u8, front: Front, row: &OverflowRow) -> Option<Front>
    ensures { result ≡ next_front id kind front row.now }
{
    if row.id != id {
        return Some(front);
    }
    if row.fork != kind {
        return Some(front);
    }
    if row.start as u64 != front.place {
        return None;
    }
    if !front.full {
        return None;
    }
    if !has_extents(&row.extents) {
        return None;
    }
    Some(Front {
        place: row.start as u64 + count_blocks(&row.extents.extents),
        full: has_no_room(&row.extents),
    })
}

/// The front behind all rows of a fork, if they go on behind each other.
pub(crate) fn follow(rows: &[OverflowRow], id: u32, kind: u8, first: Front) -> Option<Front>
    ensures { result ≡ follow id kind (Some first) rows.now }
{
    let mut front = first;
    for row in rows {
        let Some(next) = next_front(id, kind, front, row) else {
            return None;
        };
        front = next;
    }
    Some(front)
}

/// How many blocks a fork has, if its overflow records go on behind its record: each begins where the one before it ends, that one has no
/// extent to spare, and it has an extent in use itself (TN1150, "Extents Overflow File").
pub fn follow_fork(rows: &[OverflowRow], owned: &OwnedFork) -> Option<u64>
    ensures { MatchOption result (¬ GoesOn (overflows_in rows.now) (owned_in owned.now)) (λ blocks. GoesOn (overflows_in rows.now) (owned_in owned.now) × (blocks ≡ length (blocks_owned (overflows_in rows.now) (owned_in owned.now)))) }
{
    let own = &owned.fork.extents;
    let front = Front {
        place: count_blocks(&own.extents),
        full: has_no_room(own),
    };
    if owned.id == EXTENTS_FILE {
        return Some(front.place);
    }
    let Some(last) = follow(rows, owned.id, owned.kind, front) else {
        return None;
    };
    Some(last.place)
}
