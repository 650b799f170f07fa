//! The counts and ids of a catalog's entries (rules 11, 12 and 15).
ghost use Rattle.std.specs.Prelude.{◌≡◌, ◌<◌, ◌≤◌, ◌==◌, ℕ, List, count_by, IfOk};
ghost use Rattle.std.specs.List.{flat_map};
ghost use Rattle.std.specs.List.Sorted.{IsNonDecreasingBy};
ghost use Rattle.hfs_volume.specs.Records.{Placed, id_of};
ghost use Rattle.hfs_volume.specs.Broken.{count_wants, valence_wants, id_wants, id_wanted as wanted_id};
ghost use Rattle.fsck_core.specs.Judged.{Judged, AddsUnmet};
ghost use Rattle.fsck_core.specs.Rows.{rows_of, valence_of, given_id};

use crate::rows::{Row, count_files, count_folders, count_under};
use crate::want::{Want, both, judge_wants};
use fsck_list::Findings;
use hx_bytes::OutOfMemory;
use volume_header::VolumeHeader;

/// Judges the numbers of files and of folders in the volume header, which counts no root (TN1150, "Volume Header").
pub fn judge_counts(
    head: &VolumeHeader,
    rows: &[Row],
    out: &mut Findings,
) -> Result<bool, OutOfMemory>
    ensures judged { (entries : List Placed) → rows.now ≡ rows_of entries → IfOk result (λ met. Judged 12 (count_wants head.now entries) out.old out.new met) }
    ensures each { (entries : List Placed) → rows.now ≡ rows_of entries → AddsUnmet 12 (count_wants head.now entries) out.old out.new }
{
    let files = count_files(rows);
    let folders = count_folders(rows).saturating_sub(1);
    judge_wants(
        12,
        &[
            Want {
                place: 32,
                found: head.file_count as u64,
                wanted: files,
            },
            Want {
                place: 36,
                found: head.folder_count as u64,
                wanted: folders,
            },
        ],
        out,
    )
}

/// Judges the valence of a folder.
fn judge_valence(rows: &[Row], row: Row, out: &mut Findings) -> Result<bool, OutOfMemory>
    ensures judged { IsNonDecreasingBy (λ row. row.parent) rows.now → IfOk result (λ met. Judged 11 (valence_of rows.now row) out.old out.new met) }
    ensures each { IsNonDecreasingBy (λ row. row.parent) rows.now → AddsUnmet 11 (valence_of rows.now row) out.old out.new }
{
    if !row.folder {
        return Ok(true);
    }
    let wanted = count_under(rows, row.id);
    judge_wants(
        11,
        &[Want {
            place: row.id as u64,
            found: row.valence as u64,
            wanted,
        }],
        out,
    )
}

/// Judges the valence of each folder: the number of its entries (TN1150, "Catalog Folder Records"). The rows stand in the order of their parents.
pub fn judge_valences(rows: &[Row], out: &mut Findings) -> Result<bool, OutOfMemory>
    ensures judged { (entries : List Placed) → rows.now ≡ rows_of entries → IsNonDecreasingBy (λ row. row.parent) rows.now → IfOk result (λ met. Judged 11 (flat_map (valence_wants entries) entries) out.old out.new met) }
    ensures each { (entries : List Placed) → rows.now ≡ rows_of entries → IsNonDecreasingBy (λ row. row.parent) rows.now → AddsUnmet 11 (flat_map (valence_wants entries) entries) out.old out.new }
{
    let mut met = true;
    for row in rows {
        let one = judge_valence(rows, *row, out)?;
        met = both(one, met);
    }
    Ok(met)
}

/// The id that is wanted where one stands: itself where it was given out.
fn wanted_id(next: u32, id: u32) -> u32
    ensures { result ≡ wanted_id next id }
{
    if id == 2 {
        return id;
    }
    if id < 16 {
        return 16;
    }
    id.min(next.saturating_sub(1))
}

/// Judges the CNID of a row.
fn judge_id(next: u32, row: Row, out: &mut Findings) -> Result<bool, OutOfMemory>
    ensures judged { IfOk result (λ met. Judged 15 (given_id next row) out.old out.new met) }
    ensures each { AddsUnmet 15 (given_id next row) out.old out.new }
{
    let wanted = wanted_id(next, row.id) as u64;
    judge_wants(
        15,
        &[Want {
            place: row.id as u64,
            found: row.id as u64,
            wanted,
        }],
        out,
    )
}

/// Judges the CNID of each entry, which was given out. Rules 8 and 9 hold, so no two entries have one CNID.
pub fn judge_ids(next: u32, rows: &[Row], out: &mut Findings) -> Result<bool, OutOfMemory>
    ensures judged { (entries : List Placed) → rows.now ≡ rows_of entries → ((id : ℕ) → count_by (λ placed. id_of placed == id) entries ≤ 1)
        → IfOk result (λ met. Judged 15 (flat_map (id_wants next entries) entries) out.old out.new met) }
    ensures each { (entries : List Placed) → rows.now ≡ rows_of entries → ((id : ℕ) → count_by (λ placed. id_of placed == id) entries ≤ 1)
        → AddsUnmet 15 (flat_map (id_wants next entries) entries) out.old out.new }
{
    let mut met = true;
    for row in rows {
        let one = judge_id(next, *row, out)?;
        met = both(one, met);
    }
    Ok(met)
}
