//! The attributes of folders and files, and the two files of the journal (rule 20).
ghost use Rattle.std.specs.Prelude.{◌≡◌, ◌<◌, ◌≤◌, ◌+◌, ◌↔◌, ◌∷◌, [], ℕ, length, All, IsTrue, IfOk, OnOk, if◌then◌else◌};
ghost use Rattle.std.specs.List.Sorted.{IsNonDecreasing};
ghost use Rattle.alloc_bitmap.specs.Apart.{times};
ghost use Rattle.btree_node.specs.Keys.{attr_file};
ghost use Rattle.hx_bytes.specs.declared.extents.Extent.{Extent as Span};
ghost use Rattle.hfs_volume.specs.Attributes.{IsOneExtent, journal_extent, info_extent};
ghost use Rattle.hfs_volume.specs.Broken.{IsFailed, FailsAttribute};
ghost use Rattle.hfs_volume.specs.Content.{VolumeState, records_of};
ghost use Rattle.hfs_volume.specs.Entries.{AreSpelled};
ghost use Rattle.hfs_volume.specs.Records.{entries_of, placed_in};
ghost use Rattle.fsck_core.specs.Attributes.{owner_here, owner_count, is_owned, attribute_at, HasFirstFork, AreAttributesOf, AreOwnersOf, IsGoodRecord, AreGood, IsBrokenValue, Judges, IsToldOr, IsNamedAt, AreNamed, IsBrokenOfNames, KeepsAttributes, IsSpan, IsOneFile, HasOneFile, FailsFile, HasAttributes};
ghost use Rattle.fsck_core.specs.Catalogs.{HasRows};
ghost use Rattle.fsck_core.specs.Decided.{Adds, Decided, TellsOf};
ghost use Rattle.fsck_core.specs.Names.{pair_at};
ghost use Rattle.fsck_core.specs.Overflows.{overflows_in};
ghost use Rattle.fsck_core.specs.Rows.{rows_of};

use crate::decided::add_unless;
use crate::names::{id_found, record_in_root};
use crate::numbers::{count_number, sort_numbers};
use crate::overflow::{OverflowRow, fork_extents};
use crate::rows::Row;
use crate::values::{is_forked, judge_value, owner_of};
use crate::want::both;
use cat_records::CatRecord;
use fsck_list::Findings;
use fsck_scan::Pairs;
use hx_bytes::{Extent, OutOfMemory};
use jnl_format::Info;
use std::alloc::Global;
use volume_header::VolumeHeader;

const DATA: u8 = 0;

/// `.journal`
const JOURNAL: [u16; 8] = [46, 106, 111, 117, 114, 110, 97, 108];

/// `.journal_info_block`
const JOURNAL_INFO: [u16; 19] = [
    46, 106, 111, 117, 114, 110, 97, 108, 95, 105, 110, 102, 111, 95, 98, 108, 111, 99, 107,
];

/// Blocks that a file must have, which may lie outside the volume.
#[derive(Clone, Copy, Debug, PartialEq, Eq)]
pub(crate) struct Blocks {
    pub start: u128,
    pub count: u128,
}

fn add_owner(ids: &mut Vec<u32>, row: Row) -> Result<(), OutOfMemory>
    ensures { OnOk result ((id : ℕ) → times id ids.new.items ≡ times id ids.old.items + (if owner_here id row then 1 else 0)) }
{
    if !row.link {
        ids.push(row.id)?;
    }
    Ok(())
}

/// The CNIDs of those that may have attributes, in order: all folders and files but further names of files.
fn owner_ids(alloc: Global, rows: &[Row]) -> Result<Vec<u32>, OutOfMemory>
    ensures order { IfOk result (λ ids. IsNonDecreasing ids.items) }
    ensures same { IfOk result (λ ids. (id : ℕ) → times id ids.items ≡ owner_count rows.now id) }
{
    let mut ids = Vec::new(alloc);
    for row in rows {
        add_owner(&mut ids, *row)?;
    }
    sort_numbers(&mut ids);
    Ok(ids)
}

/// Whether a key has a name of one unit at least, and belongs to one of these owners.
fn is_owned(key: &[u8], owners: &[u32]) -> bool
    ensures { 14 ≤ length key.now → IsNonDecreasing owners.now → result ≡ is_owned key.now (times (attr_file key.now) owners.now) }
{
    key.len() >= 16 && count_number(owners, owner_of(key)) != 0
}

/// Judges the record at a place, of an attribute that begins with a fork or doesn't: it belongs to an owner, has a name, and its value is one.
fn judge_record(
    alloc: Global,
    head: &VolumeHeader,
    attributes: &Pairs,
    owners: &[u32],
    at: usize,
    forked: bool,
    out: &mut Findings,
) -> Result<bool, OutOfMemory>
    requires { at < length attributes.now }
    ensures judged { (volume : VolumeState) → AreAttributesOf volume head.now attributes.now → AreOwnersOf volume owners.now → IsTrue forked ↔ HasFirstFork attributes.now (attribute_at attributes.now at)
        → IfOk result (λ met. Judges volume (IsGoodRecord volume (pair_at volume.attribute_pairs at)) out.old out.new met) }
    ensures named { (volume : VolumeState) → AreAttributesOf volume head.now attributes.now → AreOwnersOf volume owners.now → IsTrue forked ↔ HasFirstFork attributes.now (attribute_at attributes.now at)
        → IfOk result (λ _. IsToldOr volume (IsNamedAt volume at) out.new) }
    ensures each { (volume : VolumeState) → AreAttributesOf volume head.now attributes.now → AreOwnersOf volume owners.now → IsTrue forked ↔ HasFirstFork attributes.now (attribute_at attributes.now at)
        → Adds (IsBrokenValue volume) out.old out.new }
{
    let key = attributes.key(at);
    let owned = add_unless(20, is_owned(key, owners), owner_of(key), out)?;
    let stands = judge_value(alloc, head, attributes, at, forked, out)?;
    Ok(both(stands, owned))
}

/// Judges each record of the attributes file.
fn judge_records(
    alloc: Global,
    head: &VolumeHeader,
    attributes: &Pairs,
    owners: &[u32],
    out: &mut Findings,
) -> Result<bool, OutOfMemory>
    ensures judged { (volume : VolumeState) → AreAttributesOf volume head.now attributes.now → AreOwnersOf volume owners.now
        → IfOk result (λ met. Judges volume (AreGood volume (length volume.attribute_pairs)) out.old out.new met) }
    ensures named { (volume : VolumeState) → AreAttributesOf volume head.now attributes.now → AreOwnersOf volume owners.now
        → IfOk result (λ _. IsToldOr volume (AreNamed volume (length volume.attribute_pairs)) out.new) }
    ensures each { (volume : VolumeState) → AreAttributesOf volume head.now attributes.now → AreOwnersOf volume owners.now → Adds (IsBrokenValue volume) out.old out.new }
{
    let mut met = true;
    let mut forked = false;
    for at in 0..attributes.len() {
        forked = is_forked(alloc, attributes, at, forked)?;
        let one = judge_record(alloc, head, attributes, owners, at, forked, out)?;
        met = both(one, met);
    }
    Ok(met)
}

/// Judges each record of the attributes file, of which the owners are among these rows. The CNIDs of the rows are put in order where there is
/// a record alone.
fn judge_owned(
    alloc: Global,
    head: &VolumeHeader,
    rows: &[Row],
    attributes: &Pairs,
    out: &mut Findings,
) -> Result<bool, OutOfMemory>
    ensures judged { (volume : VolumeState) → AreAttributesOf volume head.now attributes.now → rows.now ≡ rows_of (entries_of (records_of volume))
        → IfOk result (λ met. Judges volume (AreGood volume (length volume.attribute_pairs)) out.old out.new met) }
    ensures named { (volume : VolumeState) → AreAttributesOf volume head.now attributes.now → rows.now ≡ rows_of (entries_of (records_of volume))
        → IfOk result (λ _. IsToldOr volume (AreNamed volume (length volume.attribute_pairs)) out.new) }
    ensures each { (volume : VolumeState) → AreAttributesOf volume head.now attributes.now → rows.now ≡ rows_of (entries_of (records_of volume)) → Adds (IsBrokenValue volume) out.old out.new }
{
    if attributes.len() == 0 {
        return Ok(true);
    }
    let owners = owner_ids(alloc, rows)?;
    judge_records(alloc, head, attributes, &owners, out)
}

/// The blocks that hold the journal's bytes.
fn journal_blocks(head: &VolumeHeader, info: &Info) -> Blocks
    ensures { 0 < head.now.block_size → IsSpan result (journal_extent head.now (record { offset = info.now.offset; size = info.now.size })) }
{
    let size = head.block_size as u128;
    if size == 0 {
        return Blocks { start: 0, count: 0 };
    }
    let start = info.offset as u128 / size;
    let end = (info.offset as u128 + info.size as u128 + size - 1) / size;
    Blocks {
        start,
        count: end.saturating_sub(start),
    }
}

/// The block of the journal's info block.
fn info_blocks(head: &VolumeHeader) -> Blocks
    ensures { IsSpan result (info_extent head.now) }
{
    Blocks {
        start: head.journal_info_block as u128,
        count: 1,
    }
}

/// Whether extents are one, which has these blocks.
fn is_one(extents: &[Extent], blocks: Blocks) -> bool
    ensures { (span : Span) → IsSpan blocks span → IsTrue result ↔ extents.now ≡ span ∷ [] }
{
    if extents.len() != 1 {
        return false;
    }
    extents[0].start as u128 == blocks.start && extents[0].count as u128 == blocks.count
}

/// Whether a record is a file whose data fork is one extent, with these blocks.
fn is_one_file(
    alloc: Global,
    overflow: &[OverflowRow],
    rec: &CatRecord,
    blocks: Blocks,
) -> Result<bool, OutOfMemory>
    ensures { (span : Span) → IsSpan blocks span → IfOk result (λ is. IsTrue is ↔ IsOneFile (overflows_in overflow.now) rec.now span) }
{
    match rec {
        CatRecord::File(file) => {
            let extents = fork_extents(alloc, overflow, file.fields.id, DATA, &file.data_fork)?;
            Ok(is_one(extents.as_slice(), blocks))
        }
        _ => Ok(false),
    }
}

/// Whether what was found is such a file.
fn is_one_extent(
    alloc: Global,
    overflow: &[OverflowRow],
    found: &Option<CatRecord>,
    blocks: Blocks,
) -> Result<bool, OutOfMemory>
    ensures { (span : Span) → IsSpan blocks span → IfOk result (λ is. IsTrue is ↔ HasOneFile (overflows_in overflow.now) found.now span) }
{
    match found {
        Some(rec) => is_one_file(alloc, overflow, rec, blocks),
        None => Ok(false),
    }
}

/// Judges a file of the journal, which is one extent with these blocks.
fn judge_journal_file(
    alloc: Global,
    pairs: &Pairs,
    overflow: &[OverflowRow],
    name: &[u16],
    blocks: Blocks,
    out: &mut Findings,
) -> Result<bool, OutOfMemory>
    requires { AreSpelled pairs.now }
    ensures decided { (span : Span) → All (λ pair. 8 ≤ length pair.0) pairs.now → IsSpan blocks span
        → IfOk result (λ met. Decided (λ finding. IsFailed 20 finding (FailsFile (placed_in pairs.now) (overflows_in overflow.now) name.now span)) (IsOneExtent (placed_in pairs.now) (overflows_in overflow.now) name.now span) out.old out.new met) }
    ensures each { (span : Span) → All (λ pair. 8 ≤ length pair.0) pairs.now → IsSpan blocks span
        → Adds (λ finding. IsFailed 20 finding (FailsFile (placed_in pairs.now) (overflows_in overflow.now) name.now span)) out.old out.new }
{
    let found = record_in_root(alloc, pairs, name)?;
    let holds = is_one_extent(alloc, overflow, &found, blocks)?;
    add_unless(20, holds, id_found(&found), out)
}

/// Judges the attributes of a volume, and the two files of its journal: each attribute belongs to a folder or a file, has a name, and its value in its
/// record or in a fork, which lies in the volume and has the sizes that it says (rules 16 and 20); and each file is one extent, where the volume header
/// and the info block say (TN1150, "Attributes File", "Journal").
pub fn judge_attributes(
    alloc: Global,
    head: &VolumeHeader,
    info: &Info,
    pairs: &Pairs,
    rows: &[Row],
    overflow: &[OverflowRow],
    attributes: &Pairs,
    out: &mut Findings,
) -> Result<bool, OutOfMemory>
    requires { AreSpelled pairs.now }
    ensures decided { (volume : VolumeState) → HasRows volume pairs.now rows.now → HasAttributes volume head.now info.now (overflows_in overflow.now) attributes.now
        → IfOk result (λ met. Decided (IsBrokenOfNames volume) (KeepsAttributes volume) out.old out.new met) }
    ensures rules { (volume : VolumeState) → HasRows volume pairs.now rows.now → HasAttributes volume head.now info.now (overflows_in overflow.now) attributes.now
        → IfOk result (λ _. TellsOf (λ f. IsFailed 20 f (FailsAttribute volume)) out.new) }
    ensures each { (volume : VolumeState) → HasRows volume pairs.now rows.now → HasAttributes volume head.now info.now (overflows_in overflow.now) attributes.now
        → Adds (IsBrokenOfNames volume) out.old out.new }
{
    let each = judge_owned(alloc, head, rows, attributes, out)?;
    let journal = journal_blocks(head, info);
    let one = judge_journal_file(alloc, pairs, overflow, JOURNAL.as_slice(), journal, out)?;
    let info_block = info_blocks(head);
    let other = judge_journal_file(
        alloc,
        pairs,
        overflow,
        JOURNAL_INFO.as_slice(),
        info_block,
        out,
    )?;
    Ok(both(other, both(one, each)))
}
