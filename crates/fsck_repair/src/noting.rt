//! Changes that are noted, and put in order.
ghost use Rattle.std.specs.Prelude.{◌≡◌, OnOk, IfOk};
ghost use Rattle.std.specs.List.Sorted.{IsNonDecreasingBy};
ghost use Rattle.fsck_repair.specs.Changing.{noted, is_behind, fitting_added, IsInOrder};
ghost use Rattle.fsck_repair.specs.Overlay.{ChangesOnce};
ghost use Rattle.hx_bytes.specs.Field.{AreBytes};

use crate::mend::Change;
use hx_bytes::{OutOfMemory, Sector};
use std::alloc::Global;

/// Notes a change of a sector, where its bytes differ.
pub(crate) fn note(
    changes: &mut Vec<Change>,
    at: u64,
    old: &Sector,
    new: &Sector,
) -> Result<(), OutOfMemory>
    ensures noted { OnOk result (changes.new.items ≡ noted changes.old.items at old.now new.now) }
    ensures bytes { AreBytes new.now }
{
    if old == new {
        return Ok(());
    }
    let bytes = *new;
    changes.push(Change { at, bytes })?;
    Ok(())
}

/// Whether a change is of a sector behind that of the last one.
fn is_behind(changes: &[Change], at: u64) -> bool
    ensures { result ≡ is_behind changes.now at }
{
    let count = changes.len();
    count == 0 || changes[count - 1].at < at
}

/// Adds a change, where it is of one of so many sectors, behind that of the last one.
fn add_behind(sorted: &mut Vec<Change>, sectors: u64, change: &Change) -> Result<(), OutOfMemory>
    ensures { OnOk result (sorted.new.items ≡ fitting_added sectors sorted.old.items change.now) }
{
    if change.at >= sectors {
        return Ok(());
    }
    if is_behind(sorted, change.at) {
        sorted.push(*change)?;
    }
    Ok(())
}

/// The changes of so many sectors in the order of these, each sector once.
pub(crate) fn put_in_order(
    alloc: Global,
    sectors: u64,
    mut changes: Vec<Change>,
) -> Result<Vec<Change>, OutOfMemory>
    ensures order { IfOk result (λ sorted. IsNonDecreasingBy (λ change. change.at) sorted.items) }
    ensures once { IfOk result (λ sorted. ChangesOnce sorted.items) }
    ensures same { IfOk result (λ sorted. IsInOrder sectors changes.items sorted.items) }
{
    changes.sort_unstable_by_key(|change| change.at);
    let mut sorted = Vec::new(alloc);
    for change in &changes {
        add_behind(&mut sorted, sectors, change)?;
    }
    Ok(sorted)
}
