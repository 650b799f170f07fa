//! The overflow records of a volume: each belongs to a fork, and goes on where the one before it ends (rule 17).
ghost use Rattle.std.specs.Prelude.{◌≡◌, ◌⊎◌, ◌↔◌, ◌<◌, ◌||◌, ◌==◌, ◌+◌, ℕ, List, true, false, length, All, Contains, IsTrue, IfOk, OnOk, count_by, if◌then◌else◌};
ghost use Rattle.std.specs.List.{list_any};
ghost use Rattle.std.specs.List.Sorted.{IsNonDecreasing, IsNonDecreasingBy};
ghost use Rattle.alloc_bitmap.specs.Apart.{times};
ghost use Rattle.fsck_list.specs.declared.finding.Finding.{Finding as Listed};
ghost use Rattle.fsck_list.specs.Kept.{IsListed};
ghost use Rattle.fsck_core.specs.Decided.{StaysListed};
ghost use Rattle.hfs_volume.specs.Records.{Overflow};
ghost use Rattle.hfs_volume.specs.Forks.{Owned, is_of};
ghost use Rattle.hfs_model.specs.Sorted.{kept};
ghost use Rattle.hfs_volume.specs.Blocks.{GoOn, GoesOn, GoOnBad, HasFork};
ghost use Rattle.fsck_core.specs.Overflows.{overflow_in, overflows_in};
ghost use Rattle.fsck_core.specs.Owners.{owned_in, owned_all};
ghost use Rattle.fsck_core.specs.Owned.{FailsIn, AddsFailed, Tested, takes, takes_id, AreForkIds};

use crate::follow::{Front, OwnedFork, follow};
use crate::numbers::{count_number, sort_numbers};
use crate::overflow::OverflowRow;
use crate::stretch::{are_in_order, follow_own};
use crate::want::both;
use fsck_list::{Finding, Findings};
use hx_bytes::OutOfMemory;
use std::alloc::Global;

/// The CNIDs of the extents overflow file, whose own fork has no overflow records, and of the bad blocks, which have no fork.
const EXTENTS_FILE: u32 = 3;

const BAD_BLOCKS: u32 = 5;

const DATA: u8 = 0;

const RESOURCE: u8 = 255;

/// Adds a finding of rule 17 at a CNID where it doesn't hold there.
fn add_unless(holds: bool, id: u32, out: &mut Findings) -> Result<bool, OutOfMemory>
    ensures met { IfOk result (λ met. met ≡ holds) }
    ensures found { IfOk result (λ met. met ≡ false → IsListed out.new (record { rule = 17; place = id; found = 0; wanted = 1 })) }
    ensures still { StaysListed out.old out.new }
    ensures each { (finding : Listed) → Contains out.new finding → Contains out.old finding ⊎ ((holds ≡ false) × (finding ≡ record { rule = 17; place = id; found = 0; wanted = 1 })) }
{
    if holds {
        return Ok(true);
    }
    out.push(Finding {
        rule: 17,
        place: id as u64,
        found: 0,
        wanted: 1,
    })?;
    Ok(false)
}

/// Judges the overflow records of a fork: they go on behind its record.
fn judge_going_on(
    rows: &[OverflowRow],
    in_order: bool,
    owned: &OwnedFork,
    out: &mut Findings,
) -> Result<bool, OutOfMemory>
    requires { IsTrue in_order → IsNonDecreasingBy (λ row. row.id) rows.now }
    ensures tested { (forks : List Owned) → Contains forks (owned_in owned.now)
        → IfOk result (λ met. Tested (FailsIn forks (overflows_in rows.now)) (GoesOn (overflows_in rows.now) (owned_in owned.now)) out.old out.new met) }
    ensures each { (forks : List Owned) → Contains forks (owned_in owned.now) → AddsFailed (FailsIn forks (overflows_in rows.now)) out.old out.new }
{
    let goes_on = follow_own(rows, in_order, owned).is_some();
    add_unless(goes_on, owned.id, out)
}

/// Judges the overflow records of each fork.
fn judge_all_going_on(
    rows: &[OverflowRow],
    forks: &[OwnedFork],
    out: &mut Findings,
) -> Result<bool, OutOfMemory>
    ensures tested { IfOk result (λ met. Tested (FailsIn (owned_all forks.now) (overflows_in rows.now)) (All (GoesOn (overflows_in rows.now)) (owned_all forks.now)) out.old out.new met) }
    ensures each { AddsFailed (FailsIn (owned_all forks.now) (overflows_in rows.now)) out.old out.new }
{
    let in_order = are_in_order(rows);
    let mut met = true;
    for owned in forks {
        let one = judge_going_on(rows, in_order, owned, out)?;
        met = both(one, met);
    }
    Ok(met)
}

/// Whether the records of bad blocks of a kind go on from 0.
fn bad_goes_on(rows: &[OverflowRow], kind: u8) -> bool
    ensures { IsTrue result ↔ GoOn 0 true (kept (is_of 5 kind) (overflows_in rows.now)) }
{
    follow(
        rows,
        BAD_BLOCKS,
        kind,
        Front {
            place: 0,
            full: true,
        },
    )
    .is_some()
}

/// Judges the records of bad blocks.
fn judge_bad(rows: &[OverflowRow], out: &mut Findings) -> Result<bool, OutOfMemory>
    ensures tested { (forks : List Owned) → IfOk result (λ met. Tested (FailsIn forks (overflows_in rows.now)) (GoOnBad (overflows_in rows.now)) out.old out.new met) }
    ensures each { (forks : List Owned) → AddsFailed (FailsIn forks (overflows_in rows.now)) out.old out.new }
{
    let data = bad_goes_on(rows, DATA);
    let resource = bad_goes_on(rows, RESOURCE);
    add_unless(both(data, resource), BAD_BLOCKS, out)
}

/// Whether a row is one of a fork, which isn't that of the extents overflow file.
fn is_row_of(row: &OverflowRow, owned: &OwnedFork) -> bool
    ensures { result ≡ takes row.now owned.now }
{
    row.id == owned.id && row.fork == owned.kind && owned.id != EXTENTS_FILE
}

fn add_id(ids: &mut Vec<u32>, kind: u8, owned: &OwnedFork) -> Result<(), OutOfMemory>
    ensures { OnOk result ((id : ℕ) → times id ids.new.items ≡ times id ids.old.items + (if takes_id kind id owned.now then 1 else 0)) }
{
    if owned.kind != kind {
        return Ok(());
    }
    if owned.id == EXTENTS_FILE {
        return Ok(());
    }
    ids.push(owned.id)?;
    Ok(())
}

/// The CNIDs of the forks of a kind, in order, but for that of the extents overflow file.
fn fork_ids(alloc: Global, forks: &[OwnedFork], kind: u8) -> Result<Vec<u32>, OutOfMemory>
    ensures order { IfOk result (λ ids. IsNonDecreasing ids.items) }
    ensures same { IfOk result (λ ids. (id : ℕ) → times id ids.items ≡ count_by (takes_id kind id) forks.now) }
{
    let mut ids = Vec::new(alloc);
    for owned in forks {
        add_id(&mut ids, kind, owned)?;
    }
    sort_numbers(&mut ids);
    Ok(ids)
}

/// Whether a row is one of a fork, of which the CNIDs by kind are given, too.
fn is_owned(forks: &[OwnedFork], data_ids: &[u32], resource_ids: &[u32], row: &OverflowRow) -> bool
    requires { AreForkIds forks.now data_ids.now resource_ids.now }
    ensures { result ≡ list_any (takes row.now) forks.now }
{
    if row.fork == DATA {
        return count_number(data_ids, row.id) != 0;
    }
    if row.fork == RESOURCE {
        return count_number(resource_ids, row.id) != 0;
    }
    forks.iter().any(|owned| is_row_of(row, owned))
}

/// Whether a row is one of bad blocks, or of a fork.
fn has_fork(forks: &[OwnedFork], data_ids: &[u32], resource_ids: &[u32], row: &OverflowRow) -> bool
    requires { AreForkIds forks.now data_ids.now resource_ids.now }
    ensures { result ≡ ((row.now.id == 5) || list_any (takes row.now) forks.now) }
{
    row.id == BAD_BLOCKS || is_owned(forks, data_ids, resource_ids, row)
}

/// Judges whether a row has a fork.
fn judge_owner(
    forks: &[OwnedFork],
    data_ids: &[u32],
    resource_ids: &[u32],
    row: &OverflowRow,
    out: &mut Findings,
) -> Result<bool, OutOfMemory>
    requires { AreForkIds forks.now data_ids.now resource_ids.now }
    ensures tested { (overflow : List Overflow) → Contains overflow (overflow_in row.now)
        → IfOk result (λ met. Tested (FailsIn (owned_all forks.now) overflow) (HasFork (owned_all forks.now) (overflow_in row.now)) out.old out.new met) }
    ensures each { (overflow : List Overflow) → Contains overflow (overflow_in row.now) → AddsFailed (FailsIn (owned_all forks.now) overflow) out.old out.new }
{
    let has = has_fork(forks, data_ids, resource_ids, row);
    add_unless(has, row.id, out)
}

/// Judges whether each row has a fork.
fn judge_owners(
    rows: &[OverflowRow],
    forks: &[OwnedFork],
    data_ids: &[u32],
    resource_ids: &[u32],
    out: &mut Findings,
) -> Result<bool, OutOfMemory>
    requires { AreForkIds forks.now data_ids.now resource_ids.now }
    ensures tested { IfOk result (λ met. Tested (FailsIn (owned_all forks.now) (overflows_in rows.now)) (All (HasFork (owned_all forks.now)) (overflows_in rows.now)) out.old out.new met) }
    ensures each { AddsFailed (FailsIn (owned_all forks.now) (overflows_in rows.now)) out.old out.new }
{
    let mut met = true;
    for row in rows {
        let one = judge_owner(forks, data_ids, resource_ids, row, out)?;
        met = both(one, met);
    }
    Ok(met)
}

/// Judges whether each row has a fork. The CNIDs of forks are put in order where there is a row alone.
fn judge_rows_owners(
    alloc: Global,
    rows: &[OverflowRow],
    forks: &[OwnedFork],
    out: &mut Findings,
) -> Result<bool, OutOfMemory>
    ensures tested { IfOk result (λ met. Tested (FailsIn (owned_all forks.now) (overflows_in rows.now)) (All (HasFork (owned_all forks.now)) (overflows_in rows.now)) out.old out.new met) }
    ensures each { AddsFailed (FailsIn (owned_all forks.now) (overflows_in rows.now)) out.old out.new }
{
    if rows.is_empty() {
        return Ok(true);
    }
    let data_ids = fork_ids(alloc, forks, DATA)?;
    let resource_ids = fork_ids(alloc, forks, RESOURCE)?;
    judge_owners(rows, forks, &data_ids, &resource_ids, out)
}

/// Judges the records that belong to no file's fork, and those of forks that aren't there.
fn judge_others(
    alloc: Global,
    rows: &[OverflowRow],
    forks: &[OwnedFork],
    out: &mut Findings,
) -> Result<bool, OutOfMemory>
    ensures tested { IfOk result (λ met. Tested (FailsIn (owned_all forks.now) (overflows_in rows.now)) (GoOnBad (overflows_in rows.now) × All (HasFork (owned_all forks.now)) (overflows_in rows.now)) out.old out.new met) }
    ensures each { AddsFailed (FailsIn (owned_all forks.now) (overflows_in rows.now)) out.old out.new }
{
    let one = judge_bad(rows, out)?;
    let other = judge_rows_owners(alloc, rows, forks, out)?;
    Ok(both(other, one))
}

/// Judges the overflow records of a volume: those of each fork go on behind its record, those of bad blocks from 0, and there are no others
/// (TN1150, "Extents Overflow File").
pub fn judge_overflow(
    alloc: Global,
    rows: &[OverflowRow],
    forks: &[OwnedFork],
    out: &mut Findings,
) -> Result<bool, OutOfMemory>
    ensures tested { IfOk result (λ met. Tested (FailsIn (owned_all forks.now) (overflows_in rows.now))
        (All (GoesOn (overflows_in rows.now)) (owned_all forks.now) × (GoOnBad (overflows_in rows.now) × All (HasFork (owned_all forks.now)) (overflows_in rows.now))) out.old out.new met) }
    ensures each { AddsFailed (FailsIn (owned_all forks.now) (overflows_in rows.now)) out.old out.new }
{
    let one = judge_all_going_on(rows, forks, out)?;
    let other = judge_others(alloc, rows, forks, out)?;
    Ok(both(other, one))
}
