//! What the records of a catalog are (rule 8), and its entries as rows.
ghost use Rattle.std.specs.Prelude.{◌≡◌, ◌≤◌, ◌<◌, ◌⊎◌, ◌↔◌, ◌∷◌, ◌||◌, ◌==◌, [], false, length, All, Contains, IsTrue, IfOk};
ghost use Rattle.cat_records.specs.Records.{is_catalog, has_thread_length, catalog_kind, catalog_of};
ghost use Rattle.btree_node.specs.Keys.{catalog_parent, catalog_units};
ghost use Rattle.hfs_volume.specs.Records.{placed_in, is_thread, is_empty};
ghost use Rattle.hfs_volume.specs.Entries.{AreSpelled};
ghost use Rattle.hfs_volume.specs.Broken.{IsFailed, FailsKind};
ghost use Rattle.fsck_list.specs.declared.finding.Finding.{Finding as Listed};
ghost use Rattle.fsck_core.specs.Wants.{as_found};
ghost use Rattle.fsck_core.specs.Kinds.{IsOfKind};

use crate::want::both;
use fsck_list::{Finding, Findings};
use fsck_scan::Pairs;
use hx_bytes::{OutOfMemory, read_be16, read_be32};

const FOLDER: u16 = 1;

const FILE: u16 = 2;

const FOLDER_THREAD: u16 = 3;

const FILE_THREAD: u16 = 4;

/// The type of a record, or 0 where there are no two bytes for it.
fn type_of(value: &[u8]) -> u16
    ensures { result ≡ catalog_kind value.now }
{
    if value.len() < 2 {
        0
    } else {
        read_be16(value, 0)
    }
}

/// Whether a thread has the length that its name makes.
fn has_thread_length(value: &[u8]) -> bool
    ensures { result ≡ has_thread_length value.now }
{
    value.len() >= 10 && value.len() == 10 + 2 * usize::from(read_be16(value, 8))
}

/// Whether bytes of this type have its length (TN1150, "Catalog File Data").
fn has_length(kind: u16, value: &[u8]) -> bool
    requires { kind ≡ catalog_kind value.now }
    ensures { result ≡ is_catalog value.now }
{
    match kind {
        FOLDER => value.len() == 88,
        FILE => value.len() == 248,
        FOLDER_THREAD | FILE_THREAD => has_thread_length(value),
        _ => false,
    }
}

/// Whether a type is that of a folder or a file.
fn is_entry_type(kind: u16) -> bool
    ensures { result ≡ ((kind == 1) || (kind == 2)) }
{
    kind == FOLDER || kind == FILE
}

/// Whether a record of the catalog is a thread.
fn is_thread_record(value: &[u8]) -> bool
    requires { 2 ≤ length value.now }
    ensures { result ≡ is_thread (catalog_of value.now) }
{
    !is_entry_type(read_be16(value, 0))
}

/// Whether a key of the catalog has no name.
pub(crate) fn has_no_name(key: &[u8]) -> bool
    ensures { result ≡ is_empty (catalog_units key.now) }
{
    key.len() < 10
}

fn fits_name(thread: bool, no_name: bool) -> bool
    ensures { IsTrue result ↔ thread ≡ no_name }
{
    if thread { no_name } else { !no_name }
}

/// Whether a value spells a record whose kind fits its key.
fn is_of_kind(key: &[u8], value: &[u8]) -> bool
    ensures { IsTrue result ↔ IsOfKind (key.now, value.now) }
{
    if !has_length(type_of(value), value) {
        return false;
    }
    if value.len() < 2 {
        return false;
    }
    fits_name(is_thread_record(value), has_no_name(key))
}

/// The parent in a key of the catalog, and 0 where bytes are too short for a key.
pub(crate) fn parent_of(key: &[u8]) -> u32
    ensures { 8 ≤ length key.now → result ≡ catalog_parent key.now }
{
    if key.len() < 8 {
        return 0;
    }
    read_be32(key, 2)
}

/// Adds a finding where a record isn't one of the catalog, or its kind doesn't fit its key, and says whether it is.
fn judge_kind(key: &[u8], value: &[u8], out: &mut Findings) -> Result<bool, OutOfMemory>
    ensures met { IfOk result (λ met. IsTrue met ↔ IsOfKind (key.now, value.now)) }
    ensures found { IfOk result (λ met. met ≡ false → 0 < length out.new) }
    ensures still { 0 < length out.old → 0 < length out.new }
    ensures each { 8 ≤ length key.now → (finding : Listed) → Contains out.new finding → Contains out.old finding ⊎ IsFailed 8 (as_found finding) (FailsKind ((key.now, value.now) ∷ [])) }
{
    if is_of_kind(key, value) {
        return Ok(true);
    }
    out.push(Finding {
        rule: 8,
        place: parent_of(key) as u64,
        found: 0,
        wanted: 1,
    })?;
    Ok(false)
}

/// Judges the records of a catalog: each value spells a record, that of a key without a name a thread, and that of any other a folder or a
/// file (TN1150, "Catalog File Data").
pub fn judge_kinds(pairs: &Pairs, out: &mut Findings) -> Result<bool, OutOfMemory>
    ensures met { IfOk result (λ met. IsTrue met ↔ AreSpelled pairs.now × All (λ placed. is_thread placed.value ≡ is_empty placed.name) (placed_in pairs.now)) }
    ensures found { IfOk result (λ met. met ≡ false → 0 < length out.new) }
    ensures each { All (λ pair. 8 ≤ length pair.0) pairs.now → (finding : Listed) → Contains out.new finding → Contains out.old finding ⊎ IsFailed 8 (as_found finding) (FailsKind pairs.now) }
{
    let mut met = true;
    for i in 0..pairs.len() {
        let one = judge_kind(pairs.key(i), pairs.value(i), out)?;
        met = both(one, met);
    }
    Ok(met)
}
