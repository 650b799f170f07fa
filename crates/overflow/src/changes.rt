//! The changes that make the overflow records of a fork others.
ghost use Rattle.std.specs.Prelude.{◌≡◌, ◌<◌, ◌≤◌, ◌++◌, List, map, drop, length, OnOk, IfOk};
ghost use Rattle.overflow.specs.Changes.{front_before, behind_front, change_at, past, changes_to};
ghost use Rattle.overflow.specs.declared.changes.Change.TheVariants.{Insert};

use crate::record::{OverflowRecord, have_same};
use hx_bytes::OutOfMemory;
use std::alloc::Global;

/// One edit of the extents tree, at a start in a fork.
#[derive(Clone, Copy, Debug, PartialEq, Eq)]
pub enum Change {
    Remove(u32),
    Insert(OverflowRecord),
    Replace(OverflowRecord),
}

/// The changes that make some records those that are wanted.
pub(crate) fn find_changes(
    alloc: Global,
    records: &[OverflowRecord],
    wanted: &[OverflowRecord],
) -> Result<Vec<Change>, OutOfMemory>
    ensures { IfOk result (λ changes. changes.items ≡ changes_to records.now wanted.now) }
{
    let mut changes = Vec::new(alloc);
    let mut at = 0;
    for one in records {
        at = insert_before(&mut changes, wanted, at, one.start)?;
        at = change_one(&mut changes, one, wanted, at)?;
    }
    insert_rest(&mut changes, wanted, at)?;
    Ok(changes)
}

/// Inserts the wanted records from a place of the list on that begin before a start, and gives the place behind them.
fn insert_before(
    changes: &mut Vec<Change>,
    wanted: &[OverflowRecord],
    from: usize,
    start: u32,
) -> Result<usize, OutOfMemory>
    requires { from ≤ length wanted.now }
    ensures added { OnOk result (changes.new.items ≡ changes.old.items ++ map Insert (front_before start (drop from wanted.now))) }
    ensures rest { IfOk result (λ at. drop at wanted.now ≡ behind_front start (drop from wanted.now)) }
    ensures within { IfOk result (λ at. at ≤ length wanted.now) }
{
    let mut at = from;
    while at < wanted.len() {
        if wanted[at].start >= start {
            break;
        }
        changes.push(Change::Insert(wanted[at]))?;
        at += 1;
    }
    Ok(at)
}

/// Removes a record, or replaces it where the wanted one at this place of the list begins where it does, and gives the place behind that one.
fn change_one(
    changes: &mut Vec<Change>,
    one: &OverflowRecord,
    wanted: &[OverflowRecord],
    at: usize,
) -> Result<usize, OutOfMemory>
    requires { at ≤ length wanted.now }
    ensures added { OnOk result (changes.new.items ≡ changes.old.items ++ change_at one.now (drop at wanted.now)) }
    ensures rest { IfOk result (λ next. drop next wanted.now ≡ past one.now.start (drop at wanted.now)) }
    ensures within { IfOk result (λ next. next ≤ length wanted.now) }
{
    if at == wanted.len() {
        changes.push(Change::Remove(one.start))?;
        return Ok(at);
    }
    if wanted[at].start != one.start {
        changes.push(Change::Remove(one.start))?;
        return Ok(at);
    }
    if have_same(&one.extents.extents, &wanted[at].extents.extents) {
        return Ok(at + 1);
    }
    changes.push(Change::Replace(wanted[at]))?;
    Ok(at + 1)
}

/// Inserts the wanted records from a place of the list on.
fn insert_rest(
    changes: &mut Vec<Change>,
    wanted: &[OverflowRecord],
    from: usize,
) -> Result<(), OutOfMemory>
    ensures { OnOk result (changes.new.items ≡ changes.old.items ++ map Insert (drop from wanted.now)) }
{
    for at in from..wanted.len() {
        changes.push(Change::Insert(wanted[at]))?;
    }
    Ok(())
}
