//! Whole forks read: the extents of a fork's record, and those of its overflow records.
ghost use Rattle.std.specs.Prelude.{◌≡◌, ◌≢◌, ◌⊎◌, ◌≤◌, ◌+◌, ◌++◌, ◌∷◌, [], take, map, IsTrue, OnOk, IfOk, length};
ghost use Rattle.std.specs.List.{find};
ghost use Rattle.std.specs.Option.{option_map};
ghost use Rattle.btree_node.specs.Keys.{IsExtentKey, extent_cmp, is_eight_extents};
ghost use Rattle.btree_node.specs.Store.{HasCause};
ghost use Rattle.btree_node.specs.Tree.{IsTree, HasValues};
ghost use Rattle.btree_edit.specs.Causes.{HasTroubleCause};
ghost use Rattle.btree_edit.specs.Desk.{IsDeskOf};
ghost use Rattle.btree_edit.specs.Reading.{ReadsNodes};
ghost use Rattle.hfs_model.specs.Sorted.{kept};
ghost use Rattle.hfs_volume.specs.Blocks.{GoesOn};
ghost use Rattle.hfs_volume.specs.Forks.{extents_of};
ghost use Rattle.overflow.specs.Reading.{overflow_in_store, fork_records, is_behind, OnlyReads, record_on, used_in};
ghost use Rattle.overflow.specs.Records.{under};

use crate::record::{OverflowRecord, has_no_room, key_of, push_used};
use btree_edit::{Desk, next};
use btree_node::{ExtentOrder, NodeStore};
use fork_map::ExtentList;
use hx_bytes::{Failed, ForkRecord, OutOfMemory, Trouble, read_be32, read_extents};
use std::alloc::Global;

/// The CNID of the extents overflow file, whose own fork has no overflow records.
const EXTENTS_FILE: u32 = 3;

/// The extents in use of a fork: those of its record, and those of its overflow records in the order of their keys. The kind of a fork
/// is 0 for data and 255 for resources.
pub fn load_fork<N: NodeStore>(
    alloc: Global,
    store: &mut N,
    desk: &mut Desk,
    id: u32,
    fork: u8,
    rec: &ForkRecord,
) -> Result<ExtentList, Trouble>
    requires desk { IsDeskOf (N.state store.old).shape.node_size desk.old }
    requires kind { (fork ≡ 0) ⊎ (fork ≡ 255) }
    requires tree { IsTrue (N.state store.old).tells → IsTree IsExtentKey extent_cmp (N.state store.old) }
    requires values { IsTrue (N.state store.old).tells → HasValues is_eight_extents (N.state store.old) }
    // The fork's overflow records go on behind its record.
    requires goes_on { IsTrue (N.state store.old).tells → GoesOn (overflow_in_store (N.state store.old)) (record { id = id; kind = fork; fork = rec.now }) }
    ensures found { IsTrue (N.state store.old).tells → IfOk result (λ list. list ≡ extents_of (overflow_in_store (N.state store.old)) id fork rec.now) }
    // It changes nothing.
    ensures reads { OnlyReads (N.state store.old) (N.state store.new) }
    ensures desk { IsDeskOf (N.state store.old).shape.node_size desk.new }
    ensures cause { HasTroubleCause (N.state store.old).faults (N.state store.new).faults result }
    ensures below { N.follows store.old store.new }
{
    let mut list = ExtentList::new(alloc);
    push_used(&mut list, &rec.extents.extents)?;
    if id == EXTENTS_FILE {
        return Ok(list);
    }
    if !has_no_room(&rec.extents) {
        return Ok(list);
    }
    let most = store.shape().leaf_records;
    let records = read_records(alloc, store, desk, id, fork, most)?;
    push_records(&mut list, &records)?;
    Ok(list)
}

/// Adds the extents in use of some records to a list.
fn push_records(list: &mut ExtentList, records: &[OverflowRecord]) -> Result<(), OutOfMemory>
    ensures { OnOk result (list.new ≡ list.old ++ used_in records.now) }
{
    for one in records {
        push_used(list, &one.extents.extents)?;
    }
    Ok(())
}

/// The first overflow records of a fork that begin behind its first block, up to so many.
pub(crate) fn read_records<N: NodeStore>(
    alloc: Global,
    store: &mut N,
    desk: &mut Desk,
    id: u32,
    fork: u8,
    most: u32,
) -> Result<Vec<OverflowRecord>, Trouble>
    requires desk { IsDeskOf (N.state store.old).shape.node_size desk.old }
    requires kind { (fork ≡ 0) ⊎ (fork ≡ 255) }
    requires tree { IsTrue (N.state store.old).tells → IsTree IsExtentKey extent_cmp (N.state store.old) }
    requires values { IsTrue (N.state store.old).tells → HasValues is_eight_extents (N.state store.old) }
    ensures records { IsTrue (N.state store.old).tells → IfOk result (λ records. map (under id fork) records.items ≡ take most (kept (is_behind 0) (fork_records id fork (N.state store.old)))) }
    ensures few { IfOk result (λ records. length records.items ≤ most) }
    ensures reads { OnlyReads (N.state store.old) (N.state store.new) }
    ensures desk { IsDeskOf (N.state store.old).shape.node_size desk.new }
    ensures cause { HasTroubleCause (N.state store.old).faults (N.state store.new).faults result }
    ensures below { N.follows store.old store.new }
{
    let mut records = Vec::new(alloc);
    let mut start = 0;
    for _ in 0..most {
        let Some(one) = next_record(store, desk, id, fork, start)? else {
            return Ok(records);
        };
        start = one.start;
        add_record(&mut records, one)?;
    }
    Ok(records)
}

fn add_record(records: &mut Vec<OverflowRecord>, one: OverflowRecord) -> Result<(), OutOfMemory>
    ensures { OnOk result (records.new.items ≡ records.old.items ++ one ∷ []) }
{
    records.push(one)?;
    Ok(())
}

/// The first overflow record of a fork that begins behind a place of it.
fn next_record<N: NodeStore>(
    store: &mut N,
    desk: &mut Desk,
    id: u32,
    fork: u8,
    start: u32,
) -> Result<Option<OverflowRecord>, Failed>
    requires desk { IsDeskOf (N.state store.old).shape.node_size desk.old }
    requires kind { (fork ≡ 0) ⊎ (fork ≡ 255) }
    requires tree { IsTrue (N.state store.old).tells → IsTree IsExtentKey extent_cmp (N.state store.old) }
    requires values { IsTrue (N.state store.old).tells → HasValues is_eight_extents (N.state store.old) }
    ensures found { IsTrue (N.state store.old).tells → IfOk result (λ found. option_map (under id fork) found ≡ find (is_behind start) (fork_records id fork (N.state store.old))) }
    ensures reads { ReadsNodes ((N.state store.old).shape.depth + 1) (N.state store.old) (N.state store.new) }
    ensures desk { IsDeskOf (N.state store.old).shape.node_size desk.new }
    ensures cause { HasCause (N.state store.old).faults (N.state store.new).faults result }
    ensures below { N.follows store.old store.new }
{
    let key = key_of(id, fork, start);
    if !next::<N, ExtentOrder>(store, desk, &key)? {
        return Ok(None);
    }
    Ok(take_record(desk, id, fork))
}

/// The record of the pair on the desk, where that is one of this fork.
fn take_record(desk: &Desk, id: u32, fork: u8) -> Option<OverflowRecord>
    ensures { result ≡ record_on id fork desk.now.held.key desk.now.held.value }
{
    let key = desk.key();
    let value = desk.value();
    if key.len() != 12 {
        return None;
    }
    if value.len() != 64 {
        return None;
    }
    if read_be32(key, 4) != id {
        return None;
    }
    if key[2] != fork {
        return None;
    }
    Some(OverflowRecord {
        start: read_be32(key, 8),
        extents: read_extents(value, 0),
    })
}
