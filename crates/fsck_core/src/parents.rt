//! The folders above each entry, which lead to the root (rule 10).
ghost use Rattle.std.specs.Prelude.{◌≡◌, ◌<◌, ◌≤◌, ◌⊎◌, ◌↔◌, ◌++◌, ◌||◌, ℕ, true, false, List, length, Contains, slice_set, IsTrue, IfOk, OnOk};
ghost use Rattle.std.specs.List.{list_any};
ghost use Rattle.std.specs.List.Sorted.{IsNonDecreasingBy};
ghost use Rattle.hfs_volume.specs.Records.{Placed};
ghost use Rattle.hfs_volume.specs.Entries.{AreRooted};
ghost use Rattle.hfs_volume.specs.Broken.{IsFailed, FailsParent};
ghost use Rattle.fsck_list.specs.declared.finding.Finding.{Finding as Listed};
ghost use Rattle.fsck_list.specs.Kept.{IsListed};
ghost use Rattle.fsck_core.specs.Decided.{StaysListed, IsTold};
ghost use Rattle.fsck_core.specs.Wants.{as_found};
ghost use Rattle.fsck_core.specs.Rows.{rows_of, row_at};
ghost use Rattle.fsck_core.specs.Parents.{is_root_row, marked, Leads, folder_of, IsBelow, IsReaching, EntersAll, HasRoom, is_reached, AreReached, FailsReach};

use crate::rows::{Row, rows_below};
use crate::want::both;
use fsck_list::{Finding, Findings};
use hx_bytes::OutOfMemory;
use std::alloc::Global;

/// The CNID of the root folder.
const ROOT: u32 = 2;

/// The parent in the root's key.
const ROOT_PARENT: u32 = 1;

/// Whether a row is the root's.
fn is_root(row: Row) -> bool
    ensures { result ≡ is_root_row row }
{
    row.folder && row.id == ROOT && row.parent == ROOT_PARENT
}

/// Marks a row. A folder that wasn't marked is put behind those that were reached.
fn reach(
    row: Row,
    at: usize,
    marks: &mut Vec<bool>,
    folders: &mut Vec<u32>,
) -> Result<(), OutOfMemory>
    requires { at < length marks.old.items }
    ensures marks { OnOk result (marks.new.items ≡ slice_set marks.old.items at true) }
    ensures folders { OnOk result (folders.new.items ≡ folders.old.items ++ folder_of (marked marks.old.items at) row) }
{
    if marks[at] {
        return Ok(());
    }
    if row.folder {
        folders.push(row.id)?;
    }
    marks[at] = true;
    Ok(())
}

/// Marks the entries of a folder. The rows stand in the order of their parents.
fn enter(
    rows: &[Row],
    id: u32,
    marks: &mut Vec<bool>,
    folders: &mut Vec<u32>,
) -> Result<(), OutOfMemory>
    requires { length marks.old.items ≡ length rows.now }
    ensures long { OnOk result (length marks.new.items ≡ length rows.now) }
    ensures room { OnOk result (HasRoom marks.old.items folders.old.items marks.new.items folders.new.items) }
    ensures enters { (top : ℕ) → IsNonDecreasingBy (λ row. row.parent) rows.now → IsReaching top rows.now marks.old.items folders.old.items → IsBelow top rows.now id
        → OnOk result (EntersAll top rows.now id marks.old.items folders.old.items marks.new.items folders.new.items) }
{
    let from = rows_below(rows, id as u64);
    let to = rows_below(rows, id as u64 + 1);
    for at in from..to {
        reach(rows[at], at, marks, folders)?;
    }
    Ok(())
}

/// Which rows a folder leads to, found by a walk down from it.
pub(crate) fn walk_down(alloc: Global, rows: &[Row], top: u32) -> Result<Vec<bool>, OutOfMemory>
    ensures long { IfOk result (λ marks. length marks.items ≡ length rows.now) }
    ensures leads { IsNonDecreasingBy (λ row. row.parent) rows.now → IfOk result (λ marks. Leads top rows.now marks.items) }
{
    let mut marks = vec![in alloc; false; rows.len()]?;
    let mut folders = vec![in alloc; top; 1]?;
    let mut at = 0;
    while at < folders.len() {
        enter(rows, folders[at], &mut marks, &mut folders)?;
        at += 1;
    }
    Ok(marks)
}

/// Whether a row is the root's, or is marked.
fn is_reached(row: Row, mark: bool) -> bool
    ensures { result ≡ is_reached row mark }
{
    is_root(row) || mark
}

/// Adds a finding where a row is neither the root's nor marked, and says whether it is one of them.
fn judge_row(row: Row, mark: bool, out: &mut Findings) -> Result<bool, OutOfMemory>
    ensures met { IfOk result (λ met. met ≡ is_reached row mark) }
    ensures found { IfOk result (λ met. met ≡ false → IsListed out.new (record { rule = 10; place = row.id; found = 0; wanted = 1 })) }
    ensures still { StaysListed out.old out.new }
    ensures each { (finding : Listed) → Contains out.new finding → Contains out.old finding ⊎ IsFailed 10 (as_found finding) (λ place. (row.id ≡ place) × (is_reached row mark ≡ false)) }
{
    if is_reached(row, mark) {
        return Ok(true);
    }
    out.push(Finding {
        rule: 10,
        place: row.id as u64,
        found: 0,
        wanted: 1,
    })?;
    Ok(false)
}

/// Judges each row: it is the root's, or is marked.
fn judge_rows(rows: &[Row], marks: &[bool], out: &mut Findings) -> Result<bool, OutOfMemory>
    requires { length marks.now ≡ length rows.now }
    ensures met { IfOk result (λ met. IsTrue met ↔ AreReached rows.now marks.now) }
    ensures found { IfOk result (λ met. met ≡ false → IsTold (λ finding. IsFailed 10 finding (FailsReach rows.now marks.now)) out.new) }
    ensures still { StaysListed out.old out.new }
    ensures each { (finding : Listed) → Contains out.new finding → Contains out.old finding ⊎ IsFailed 10 (as_found finding) (FailsReach rows.now marks.now) }
{
    let mut met = true;
    for at in 0..rows.len() {
        let one = judge_row(rows[at], marks[at], out)?;
        met = both(one, met);
    }
    Ok(met)
}

/// Whether a row is the root's.
fn has_root(rows: &[Row]) -> bool
    ensures { result ≡ list_any is_root_row rows.now }
{
    for row in rows {
        if is_root(*row) {
            return true;
        }
    }
    false
}

/// Judges that there is a root.
fn judge_root(rows: &[Row], out: &mut Findings) -> Result<bool, OutOfMemory>
    ensures met { IfOk result (λ met. met ≡ list_any is_root_row rows.now) }
    ensures found { IfOk result (λ met. met ≡ false → IsTold (λ finding. IsFailed 10 finding (λ place. (place ≡ 2) × (list_any is_root_row rows.now ≡ false))) out.new) }
    ensures still { StaysListed out.old out.new }
    ensures each { (finding : Listed) → Contains out.new finding → Contains out.old finding ⊎ IsFailed 10 (as_found finding) (λ place. (place ≡ 2) × (list_any is_root_row rows.now ≡ false)) }
{
    if has_root(rows) {
        return Ok(true);
    }
    out.push(Finding {
        rule: 10,
        place: ROOT as u64,
        found: 0,
        wanted: 1,
    })?;
    Ok(false)
}

/// Judges the folders above each entry: there is a root, and each parent is a folder whose parents lead to it. The rows stand in the order
/// of their parents (TN1150, "Catalog File").
pub fn judge_parents(alloc: Global, rows: &[Row], out: &mut Findings) -> Result<bool, OutOfMemory>
    ensures met { (entries : List Placed) → rows.now ≡ rows_of entries → IsNonDecreasingBy (λ row. row.parent) rows.now → IfOk result (λ met. IsTrue met ↔ AreRooted entries) }
    ensures found { (entries : List Placed) → rows.now ≡ rows_of entries → IsNonDecreasingBy (λ row. row.parent) rows.now
        → IfOk result (λ met. met ≡ false → IsTold (λ finding. IsFailed 10 finding (FailsParent entries)) out.new) }
    ensures still { StaysListed out.old out.new }
    ensures each { (entries : List Placed) → rows.now ≡ rows_of entries → IsNonDecreasingBy (λ row. row.parent) rows.now
        → (finding : Listed) → Contains out.new finding → Contains out.old finding ⊎ IsFailed 10 (as_found finding) (FailsParent entries) }
{
    let marks = walk_down(alloc, rows, ROOT)?;
    let root = judge_root(rows, out)?;
    let reached = judge_rows(rows, &marks, out)?;
    Ok(both(reached, root))
}
