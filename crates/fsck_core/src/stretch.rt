//! The overflow records of one file, found among those of a volume by halves.
ghost use Rattle.std.specs.Prelude.{◌≡◌, ◌≤◌, ℕ, true, false, nat_lt, length, MatchOption, IsTrue, IfOk};
ghost use Rattle.std.specs.List.Sorted.{IsNonDecreasingBy, IsPartitionPoint};
ghost use Rattle.hfs_model.specs.Sorted.{kept};
ghost use Rattle.hfs_volume.specs.Blocks.{GoesOn};
ghost use Rattle.hfs_volume.specs.Forks.{is_of, blocks_owned, extents_of};
ghost use Rattle.fsck_core.specs.Overflows.{overflows_in};
ghost use Rattle.fsck_core.specs.Owners.{owned_in};

use crate::follow::{OwnedFork, follow_fork};
use crate::overflow::{OverflowRow, fork_extents};
use fork_map::ExtentList;
use hx_bytes::OutOfMemory;
use std::alloc::Global;

/// Whether rows stand in the order of their CNIDs, as those of a tree do.
pub(crate) fn are_in_order(rows: &[OverflowRow]) -> bool
    ensures { IsTrue result → IsNonDecreasingBy (λ row. row.id) rows.now }
{
    let mut at = 1;
    while at < rows.len() {
        if rows[at - 1].id > rows[at].id {
            return false;
        }
        at += 1;
    }
    true
}

/// How many rows stand before the first whose CNID isn't below this one.
fn rows_below(rows: &[OverflowRow], id: u64) -> usize
    ensures inside { result ≤ length rows.now }
    ensures point { IsNonDecreasingBy (λ row. row.id) rows.now → IsPartitionPoint (λ row. nat_lt row.id id ≡ true) (λ row. nat_lt row.id id ≡ false) rows.now result }
{
    rows.partition_point(
        |row: &OverflowRow| -> bool
            ensures { result ≡ nat_lt row.now.id id }
        { (row.id as u64) < id },
    )
}

/// The rows with a CNID, where rows stand in the order of theirs; else all rows.
pub(crate) fn rows_of_file(rows: &[OverflowRow], in_order: bool, id: u32) -> &[OverflowRow]
    requires { IsTrue in_order → IsNonDecreasingBy (λ row. row.id) rows.now }
    ensures { (kind : ℕ) → kept (is_of id kind) (overflows_in result.now) ≡ kept (is_of id kind) (overflows_in rows.now) }
{
    if !in_order {
        return rows;
    }
    let from = rows_below(rows, id as u64);
    let to = rows_below(rows, id as u64 + 1);
    if from > to {
        return rows;
    }
    &rows[from..to]
}

/// How many blocks a fork has, if its overflow records go on behind its record. Where rows stand in the order of their CNIDs, only those of
/// its file are looked at.
pub(crate) fn follow_own(rows: &[OverflowRow], in_order: bool, owned: &OwnedFork) -> Option<u64>
    requires { IsTrue in_order → IsNonDecreasingBy (λ row. row.id) rows.now }
    ensures { MatchOption result (¬ GoesOn (overflows_in rows.now) (owned_in owned.now)) (λ blocks. GoesOn (overflows_in rows.now) (owned_in owned.now) × (blocks ≡ length (blocks_owned (overflows_in rows.now) (owned_in owned.now)))) }
{
    follow_fork(rows_of_file(rows, in_order, owned.id), owned)
}

/// All extents in use of a fork, from its start on. Where rows stand in the order of their CNIDs, only those of its file are looked at.
pub(crate) fn own_extents(
    alloc: Global,
    rows: &[OverflowRow],
    in_order: bool,
    owned: &OwnedFork,
) -> Result<ExtentList, OutOfMemory>
    requires { IsTrue in_order → IsNonDecreasingBy (λ row. row.id) rows.now }
    ensures { IfOk result (λ list. list ≡ extents_of (overflows_in rows.now) owned.now.id owned.now.kind owned.now.fork) }
{
    let own = rows_of_file(rows, in_order, owned.id);
    fork_extents(alloc, own, owned.id, owned.kind, &owned.fork)
}
