//! Files with several names, and the links that are these names (rule 19).
ghost use Rattle.std.specs.Prelude.{◌≡◌, ◌⊎◌, ◌≤◌, ◌+◌, ℕ, length, All, IfOk, OnOk, if◌then◌else◌};
ghost use Rattle.std.specs.List.{flat_map};
ghost use Rattle.std.specs.List.Sorted.{IsNonDecreasing, IsNonDecreasingBy};
ghost use Rattle.alloc_bitmap.specs.Apart.{times};
ghost use Rattle.hfs_volume.specs.Content.{VolumeState, records_of, overflow_in_volume};
ghost use Rattle.hfs_volume.specs.Entries.{AreSpelled};
ghost use Rattle.hfs_volume.specs.Links.{AreLinks, private_id};
ghost use Rattle.hfs_volume.specs.Records.{placed_in};
ghost use Rattle.fsck_core.specs.Judged.{Judged, AddsUnmet};
ghost use Rattle.fsck_core.specs.Decided.{Adds, Decided, AllPass, IsMissed};
ghost use Rattle.fsck_core.specs.Rows.{row_at};
ghost use Rattle.fsck_core.specs.Parents.{marked};
ghost use Rattle.fsck_core.specs.Links.{folder_found, is_private, links_here, link_count, link_want, Hides, is_fine, fine_at, IsBrokenName};
ghost use Rattle.fsck_core.specs.Catalogs.{HasRows};

use crate::decided::add_unless;
use crate::names::{id_found, record_in_root};
use crate::numbers::{count_number, sort_numbers};
use crate::parents::walk_down;
use crate::rows::Row;
use crate::shared::{SharedFile, read_shared, shared_numbers};
use crate::want::{Want, both, judge_wants};
use cat_records::CatRecord;
use fsck_list::Findings;
use fsck_scan::Pairs;
use hx_bytes::OutOfMemory;
use std::alloc::Global;

/// Four zeros and `HFS+ Private Data`, the name of the private folder.
const PRIVATE_FOLDER: [u16; 21] = [
    0, 0, 0, 0, 72, 70, 83, 43, 32, 80, 114, 105, 118, 97, 116, 101, 32, 68, 97, 116, 97,
];

/// The CNID of a folder that was found.
fn folder_id(found: &Option<CatRecord>) -> Option<u32>
    ensures { result ≡ folder_found found.now }
{
    match found {
        Some(CatRecord::Folder(folder)) => Some(folder.fields.id),
        _ => None,
    }
}

/// The CNID of the private folder, if there is one: the folder of this name in the root.
pub fn find_private(alloc: Global, pairs: &Pairs) -> Result<Option<u32>, OutOfMemory>
    requires { AreSpelled pairs.now }
    ensures { All (λ pair. 8 ≤ length pair.0) pairs.now → IfOk result (λ found. found ≡ private_id (placed_in pairs.now)) }
{
    let found = record_in_root(alloc, pairs, PRIVATE_FOLDER.as_slice())?;
    Ok(folder_id(&found))
}

/// Whether what was found is a folder, if something was.
fn is_private(found: &Option<CatRecord>) -> bool
    ensures { result ≡ is_private found.now }
{
    match found {
        Some(CatRecord::File(_)) => false,
        Some(CatRecord::Thread(_)) => false,
        _ => true,
    }
}

/// Which rows the private folder leads to, if there is one.
fn hidden_rows(alloc: Global, rows: &[Row], private: Option<u32>) -> Result<Vec<bool>, OutOfMemory>
    ensures long { IfOk result (λ marks. length marks.items ≡ length rows.now) }
    ensures hides { IsNonDecreasingBy (λ row. row.parent) rows.now → IfOk result (λ marks. Hides private rows.now marks.items) }
{
    let Some(id) = private else {
        return Ok(vec![in alloc; false; rows.len()]?);
    };
    walk_down(alloc, rows, id)
}

fn add_link(numbers: &mut Vec<u32>, row: Row) -> Result<(), OutOfMemory>
    ensures { OnOk result ((number : ℕ) → times number numbers.new.items ≡ times number numbers.old.items + (if links_here number row then 1 else 0)) }
{
    if row.link {
        numbers.push(row.special)?;
    }
    Ok(())
}

/// The numbers that links tell, in order.
pub fn link_numbers(alloc: Global, rows: &[Row]) -> Result<Vec<u32>, OutOfMemory>
    ensures order { IfOk result (λ numbers. IsNonDecreasing numbers.items) }
    ensures same { IfOk result (λ numbers. (number : ℕ) → times number numbers.items ≡ link_count rows.now number) }
{
    let mut numbers = Vec::new(alloc);
    for row in rows {
        add_link(&mut numbers, *row)?;
    }
    sort_numbers(&mut numbers);
    Ok(numbers)
}

/// Whether a row is no link, or a good one: it stands outside the private folder, has no block, and names one of these files with several
/// names.
fn is_fine(row: Row, hidden: bool, shared: &[u32]) -> bool
    ensures { IsNonDecreasing shared.now → result ≡ is_fine row hidden (times row.special shared.now) }
{
    if !row.link {
        return true;
    }
    if hidden {
        return false;
    }
    if !row.bare {
        return false;
    }
    count_number(shared, row.special) != 0
}

/// Judges each link.
fn judge_each(
    rows: &[Row],
    hidden: &[bool],
    shared: &[u32],
    out: &mut Findings,
) -> Result<bool, OutOfMemory>
    requires { length hidden.now ≡ length rows.now }
    ensures decided { IsNonDecreasing shared.now → IfOk result (λ met. Decided (IsMissed 19 (fine_at rows.now hidden.now shared.now) (λ k. (row_at rows.now k).id) (length rows.now))
        (AllPass (fine_at rows.now hidden.now shared.now) (length rows.now)) out.old out.new met) }
    ensures each { IsNonDecreasing shared.now → Adds (IsMissed 19 (fine_at rows.now hidden.now shared.now) (λ k. (row_at rows.now k).id) (length rows.now)) out.old out.new }
{
    let mut met = true;
    for at in 0..rows.len() {
        let fine = is_fine(rows[at], hidden[at], shared);
        let one = add_unless(19, fine, rows[at].id, out)?;
        met = both(one, met);
    }
    Ok(met)
}

/// Judges how many links a file says that it has.
fn judge_count(links: &[u32], file: SharedFile, out: &mut Findings) -> Result<bool, OutOfMemory>
    ensures judged { IsNonDecreasing links.now → IfOk result (λ met. Judged 19 (link_want links.now file) out.old out.new met) }
    ensures each { IsNonDecreasing links.now → AddsUnmet 19 (link_want links.now file) out.old out.new }
{
    let wanted = count_number(links, file.reference);
    judge_wants(
        19,
        &[Want {
            place: file.id as u64,
            found: file.links as u64,
            wanted,
        }],
        out,
    )
}

/// Judges how many links each file says that it has.
fn judge_link_counts(
    links: &[u32],
    files: &[SharedFile],
    out: &mut Findings,
) -> Result<bool, OutOfMemory>
    ensures judged { IsNonDecreasing links.now → IfOk result (λ met. Judged 19 (flat_map (link_want links.now) files.now) out.old out.new met) }
    ensures each { IsNonDecreasing links.now → AddsUnmet 19 (flat_map (link_want links.now) files.now) out.old out.new }
{
    let mut met = true;
    for file in files {
        let one = judge_count(links, *file, out)?;
        met = both(one, met);
    }
    Ok(met)
}

/// Judges the links of a volume whose overflow records go on behind their forks (rule 17 holds): an entry of the private folder's name is a
/// folder, each link stands outside it, has no block in either fork and names a file in there, and each such file has the number of its
/// links (TN1150, "Hard Links").
pub fn judge_links(
    alloc: Global,
    pairs: &Pairs,
    rows: &[Row],
    out: &mut Findings,
) -> Result<bool, OutOfMemory>
    requires { AreSpelled pairs.now }
    ensures decided { (volume : VolumeState) → HasRows volume pairs.now rows.now → IfOk result (λ met. Decided (IsBrokenName volume) (AreLinks (records_of volume) (overflow_in_volume volume)) out.old out.new met) }
    ensures each { (volume : VolumeState) → HasRows volume pairs.now rows.now → Adds (IsBrokenName volume) out.old out.new }
{
    let found = record_in_root(alloc, pairs, PRIVATE_FOLDER.as_slice())?;
    let private = folder_id(&found);
    let hidden = hidden_rows(alloc, rows, private)?;
    let files = read_shared(alloc, pairs, private)?;
    let shared = shared_numbers(alloc, &files)?;
    let links = link_numbers(alloc, rows)?;
    let named = add_unless(19, is_private(&found), id_found(&found), out)?;
    let good = judge_each(rows, &hidden, &shared, out)?;
    let counted = judge_link_counts(&links, &files, out)?;
    Ok(both(counted, both(good, named)))
}
