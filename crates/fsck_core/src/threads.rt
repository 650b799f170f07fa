//! The threads of a catalog, which match its entries one to one (rule 9).
ghost use Rattle.std.specs.Prelude.{◌≡◌, ◌↔◌, ◌⊎◌, ◌<◌, ◌≤◌, ◌+◌, ◌*◌, ℕ, true, false, length, drop, slice_set, Contains, Some, IsTrue, IfSome, IfOk};
ghost use Rattle.std.specs.Str.{bytes_eq};
ghost use Rattle.hx_bytes.specs.Field.{big_at};
ghost use Rattle.btree_node.specs.Keys.{units, catalog_units};
ghost use Rattle.cat_records.specs.Records.{is_catalog, catalog_of, thread_of};
ghost use Rattle.cat_records.specs.declared.record.CatRecord.TheVariants.{Thread};
ghost use Rattle.fsck_list.specs.declared.finding.Finding.{Finding as Listed};
ghost use Rattle.fsck_list.specs.Kept.{IsListed};
ghost use Rattle.hfs_volume.specs.Broken.{IsFailed, FailsThread};
ghost use Rattle.hfs_volume.specs.Entries.{AreSpelled, AreThreaded};
ghost use Rattle.hfs_volume.specs.Records.{placed_in, placed_of};
ghost use Rattle.fsck_core.specs.Decided.{Adds, Decided, AllPass, IsMissed, StaysListed};
ghost use Rattle.fsck_core.specs.Parents.{marked};
ghost use Rattle.fsck_core.specs.Catalogs.{IsCatalog};
ghost use Rattle.fsck_core.specs.Threads.{placed_at, IsSplit, same_bit, is_thread_of, IsItsThread, IsThreadAt, AreMatched, place_of};

use crate::decided::add_unless;
use crate::kinds::{has_no_name, parent_of};
use crate::listing::read_row;
use crate::places::{first_places, place_near};
use crate::rows::Row;
use crate::want::both;
use fsck_list::Findings;
use fsck_scan::Pairs;
use hx_bytes::{OutOfMemory, read_be16, read_be32};
use std::alloc::Global;

/// The types of records (TN1150, "Catalog Data Record Types").
const FOLDER: u16 = 1;

const FILE: u16 = 2;

const FILE_THREAD: u16 = 4;

/// How many pairs stand before the first whose parent isn't below this one, found by halves.
fn pairs_below(pairs: &Pairs, parent: u32) -> usize
    ensures inside { result ≤ length pairs.now }
    ensures split { IsCatalog pairs.now → IsSplit pairs.now parent result }
{
    let mut low = 0;
    let mut high = pairs.len();
    while low < high {
        let mid = low + (high - low) / 2;
        if parent_of(pairs.key(mid)) < parent {
            low = mid + 1;
        } else {
            high = mid;
        }
    }
    low
}

/// Whether the pairs before a place are those whose parent is below this one.
fn splits_at(pairs: &Pairs, parent: u32, at: usize) -> bool
    ensures inside { IsTrue result → at ≤ length pairs.now }
    ensures split { IsCatalog pairs.now → IsTrue result → IsSplit pairs.now parent at }
{
    if at == 0 {
        return false;
    }
    if at >= pairs.len() {
        return false;
    }
    if parent_of(pairs.key(at - 1)) >= parent {
        return false;
    }
    if parent_of(pairs.key(at)) < parent {
        return false;
    }
    true
}

/// How many pairs stand before the first whose parent isn't below this one. Where it is this place, that is seen at once.
fn pairs_before(pairs: &Pairs, parent: u32, near: usize) -> usize
    ensures inside { result ≤ length pairs.now }
    ensures split { IsCatalog pairs.now → IsSplit pairs.now parent result }
{
    if splits_at(pairs, parent, near) {
        return near;
    }
    pairs_below(pairs, parent)
}

/// Whether two kinds are the same.
fn same_kind(one: bool, other: bool) -> bool
    ensures { result ≡ same_bit one other }
{
    if one { other } else { !other }
}

/// Whether bytes are others.
fn are_equal(one: &[u8], other: &[u8]) -> bool
    ensures { result ≡ bytes_eq one.now other.now }
{
    one == other
}

/// Whether the bytes from one place of some on are those from a place of others on.
fn same_bytes(one: &[u8], from: usize, other: &[u8], there: usize) -> bool
    ensures { IsTrue result → drop from one.now ≡ drop there other.now }
{
    if from > one.len() {
        return false;
    }
    if there > other.len() {
        return false;
    }
    are_equal(&one[from..], &other[there..])
}

/// Whether the units from one place of some bytes on are those from a place of others on.
pub(crate) fn same_units(one: &[u8], from: usize, other: &[u8], there: usize) -> bool
    requires from { from ≤ 16 }
    requires there { there ≤ 16 }
    ensures { result ≡ bytes_eq (units (drop from one.now)) (units (drop there other.now)) }
{
    if same_bytes(one, from, other, there) {
        return true;
    }
    let mut at = from;
    let mut place = there;
    while at + 2 <= one.len() {
        if place + 2 > other.len() {
            return false;
        }
        if read_be16(one, at) != read_be16(other, place) {
            return false;
        }
        at += 2;
        place += 2;
    }
    place + 2 > other.len()
}

/// Whether a thread tells this row's place and kind, and the name in its key. Both names are read where they stand.
fn tells_place(value: &[u8], row: Row, key: &[u8]) -> bool
    requires { 10 ≤ length value.now }
    ensures { length value.now ≡ 10 + 2 * big_at 2 value.now 8 → result ≡ is_thread_of (Thread (thread_of value.now)) row (catalog_units key.now) }
{
    if read_be32(value, 4) != row.parent {
        return false;
    }
    if !same_kind(read_be16(value, 0) == FILE_THREAD, row.file) {
        return false;
    }
    same_units(key, 8, value, 10)
}

/// Whether a record is a thread that tells this row's place and kind, and the name in its key.
fn tells(value: &[u8], row: Row, key: &[u8]) -> bool
    requires { IsTrue (is_catalog value.now) }
    ensures { result ≡ is_thread_of (catalog_of value.now) row (catalog_units key.now) }
{
    let kind = read_be16(value, 0);
    if kind == FOLDER {
        return false;
    }
    if kind == FILE {
        return false;
    }
    tells_place(value, row, key)
}

/// Whether a pair is the thread of a row with this key.
fn is_its_thread(row: Row, key: &[u8], other: &[u8], value: &[u8]) -> bool
    requires { IsTrue (is_catalog value.now) }
    ensures { 8 ≤ length other.now → IsTrue result ↔ IsItsThread row (catalog_units key.now) (placed_of (other.now, value.now)) }
{
    if parent_of(other) != row.id {
        return false;
    }
    if !has_no_name(other) {
        return false;
    }
    tells(value, row, key)
}

/// The place of the thread of a row with this key, if it has one. It is looked for at one place first.
fn find_thread(pairs: &Pairs, row: Row, key: &[u8], near: usize) -> Option<usize>
    requires { AreSpelled pairs.now }
    ensures inside { IfSome result (λ at. at < length pairs.now) }
    ensures is { IsCatalog pairs.now → (at : ℕ) → result ≡ Some at ↔ IsThreadAt pairs.now row (catalog_units key.now) at }
{
    let at = pairs_before(pairs, row.id, near);
    if at >= pairs.len() {
        return None;
    }
    let its = is_its_thread(row, key, pairs.key(at), pairs.value(at));
    if its {
        return Some(at);
    }
    None
}

fn mark(marks: &mut Vec<bool>, at: usize)
    requires { at < length marks.old.items }
    ensures { marks.new.items ≡ slice_set marks.old.items at true }
{
    marks[at] = true;
}

/// Marks an entry and its thread, where it has one. It is looked for first where the pairs with its CNID may begin.
fn match_entry(pairs: &Pairs, places: &[u32], at: usize, marks: &mut Vec<bool>)
    requires spelled { AreSpelled pairs.now }
    requires inside { at < length pairs.now }
    requires long { length marks.old.items ≡ length pairs.now }
    ensures long { length marks.new.items ≡ length pairs.now }
    ensures matched { IsCatalog pairs.now → AreMatched pairs.now marks.old.items at → AreMatched pairs.now marks.new.items (at + 1) }
{
    let Some(row) = read_row(pairs.key(at), pairs.value(at)) else {
        return;
    };
    let near = place_near(places, row.id);
    let Some(thread) = find_thread(pairs, row, pairs.key(at), near) else {
        return;
    };
    mark(marks, at);
    mark(marks, thread);
}

/// Which entries have a thread, and which threads an entry.
fn match_pairs(alloc: Global, pairs: &Pairs) -> Result<Vec<bool>, OutOfMemory>
    requires { AreSpelled pairs.now }
    ensures long { IfOk result (λ marks. length marks.items ≡ length pairs.now) }
    ensures matched { IsCatalog pairs.now → IfOk result (λ marks. AreMatched pairs.now marks.items (length pairs.now)) }
{
    let places = first_places(alloc, pairs)?;
    let mut marks = vec![in alloc; false; pairs.len()]?;
    for at in 0..pairs.len() {
        match_entry(pairs, &places, at, &mut marks);
    }
    Ok(marks)
}

/// The CNID of an entry, and that of the entry whose thread a pair is.
fn place_of(key: &[u8], value: &[u8]) -> u32
    requires { IsTrue (is_catalog value.now) }
    ensures { 8 ≤ length key.now → result ≡ place_of (placed_of (key.now, value.now)) }
{
    let Some(row) = read_row(key, value) else {
        return parent_of(key);
    };
    row.id
}

/// Adds a finding where a pair isn't marked, and says whether it is. Its place is told only there.
fn judge_mark(mark: bool, key: &[u8], value: &[u8], out: &mut Findings) -> Result<bool, OutOfMemory>
    requires { IsTrue (is_catalog value.now) }
    ensures met { IfOk result (λ met. met ≡ mark) }
    ensures found { 8 ≤ length key.now → IfOk result (λ met. met ≡ false → IsListed out.new (record { rule = 9; place = place_of (placed_of (key.now, value.now)); found = 0; wanted = 1 })) }
    ensures still { StaysListed out.old out.new }
    ensures each { 8 ≤ length key.now → (finding : Listed) → Contains out.new finding → Contains out.old finding ⊎ ((mark ≡ false) × (finding ≡ record { rule = 9; place = place_of (placed_of (key.now, value.now)); found = 0; wanted = 1 })) }
{
    if mark {
        return Ok(true);
    }
    add_unless(9, mark, place_of(key, value), out)
}

/// Judges that each pair is marked.
fn judge_marks(pairs: &Pairs, marks: &[bool], out: &mut Findings) -> Result<bool, OutOfMemory>
    requires spelled { AreSpelled pairs.now }
    requires long { length marks.now ≡ length pairs.now }
    ensures decided { IsCatalog pairs.now → IfOk result (λ met. Decided (IsMissed 9 (marked marks.now) (λ k. place_of (placed_at pairs.now k)) (length pairs.now)) (AllPass (marked marks.now) (length pairs.now)) out.old out.new met) }
    ensures each { IsCatalog pairs.now → Adds (IsMissed 9 (marked marks.now) (λ k. place_of (placed_at pairs.now k)) (length pairs.now)) out.old out.new }
{
    let mut met = true;
    for at in 0..pairs.len() {
        let one = judge_mark(marks[at], pairs.key(at), pairs.value(at), out)?;
        met = both(one, met);
    }
    Ok(met)
}

/// Judges the threads of a catalog whose records are of the kinds that their keys ask for: each folder and each file has its thread, which
/// tells its parent, its name and its kind, and each thread has its entry (TN1150, "Catalog Thread Records").
pub fn judge_threads(alloc: Global, pairs: &Pairs, out: &mut Findings) -> Result<bool, OutOfMemory>
    requires { AreSpelled pairs.now }
    ensures decided { IsCatalog pairs.now → IfOk result (λ met. Decided (λ finding. IsFailed 9 finding (FailsThread (placed_in pairs.now))) (AreThreaded pairs.now) out.old out.new met) }
    ensures each { IsCatalog pairs.now → Adds (λ finding. IsFailed 9 finding (FailsThread (placed_in pairs.now))) out.old out.new }
{
    let marks = match_pairs(alloc, pairs)?;
    judge_marks(pairs, &marks, out)
}
