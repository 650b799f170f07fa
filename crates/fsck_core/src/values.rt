//! The records of the attributes file: a value stands in its record, or in a fork that goes on in further records (rule 20); and forks have as many
//! blocks as they say, which lie in the volume (rule 16).
ghost use Rattle.std.specs.Prelude.{◌≡◌, ◌<◌, ◌≤◌, ◌+◌, ◌-◌, ◌*◌, ◌↔◌, ◌∷◌, [], true, min, length, All, MatchOption, IsTrue, IfOk};
ghost use Rattle.fork_map.specs.Blocks.{blocks_of};
ghost use Rattle.btree_node.specs.Keys.{attr_file, attr_start};
ghost use Rattle.cat_records.specs.Attributes.{is_attr};
ghost use Rattle.cat_records.specs.declared.attribute.AttrRecord.TheVariants.{Fork, More};
ghost use Rattle.hfs_volume.specs.Broken.{want};
ghost use Rattle.hfs_volume.specs.Content.{VolumeState, attributes_of};
ghost use Rattle.hfs_volume.specs.Forks.{is_full};
ghost use Rattle.hfs_volume.specs.Values.{has_fork, IsValue};
ghost use Rattle.fsck_core.specs.Attributes.{is_one_attribute, attribute_at, rest_at, next_part, GoWholly, end_of, AreKeyed, HasFirstFork, IsBrokenValue, IsGoodValue, AreAttributesOf, Judges, IsToldOr};
ghost use Rattle.fsck_core.specs.Decided.{Adds};
ghost use Rattle.fsck_core.specs.Judged.{Judged, AddsUnmet};
ghost use Rattle.fsck_core.specs.Names.{pair_at};

use crate::decided::add_unless;
use crate::follow::{Front, count_blocks, has_no_room, next_front};
use crate::forks::judge_extents;
use crate::overflow::OverflowRow;
use crate::threads::same_units;
use crate::want::{Want, both, judge_wants};
use cat_records::{AttrRecord, RecordFault, read_attr};
use fsck_list::Findings;
use fsck_scan::Pairs;
use hx_bytes::{ExtentRecord, ForkRecord, OutOfMemory, read_be32};
use std::alloc::Global;
use volume_header::VolumeHeader;

/// The CNID in a key of the attributes file, and 0 where bytes are too short for a key.
pub(crate) fn owner_of(key: &[u8]) -> u32
    ensures { 14 ≤ length key.now → result ≡ attr_file key.now }
{
    if key.len() < 14 {
        return 0;
    }
    read_be32(key, 4)
}

/// The block of its value at which the record with a key begins, and 0 where bytes are too short for a key.
fn start_of(key: &[u8]) -> u32
    ensures { 14 ≤ length key.now → result ≡ attr_start key.now }
{
    if key.len() < 14 {
        return 0;
    }
    read_be32(key, 8)
}

/// Whether two keys are of records of one attribute: they differ in the place of their record alone.
pub(crate) fn is_one_attribute(one: &[u8], other: &[u8]) -> bool
    ensures { 14 ≤ length one.now → 14 ≤ length other.now → result ≡ is_one_attribute one.now other.now }
{
    owner_of(one) == owner_of(other) && same_units(one, 14, other, 14)
}

/// The front behind a further record of a value, if it goes on there and has an extent in use; none behind any other record.
fn next_part(
    alloc: Global,
    front: Front,
    attributes: &Pairs,
    place: usize,
) -> Result<Option<Front>, OutOfMemory>
    requires { place < length attributes.now }
    ensures { AreKeyed attributes.now
        → IfOk result (λ next. next ≡ next_part front (attribute_at attributes.now place) (attribute_at attributes.now place).value) }
{
    let start = start_of(attributes.key(place));
    match read_attr(alloc, attributes.value(place)) {
        Ok(AttrRecord::More(extents)) => {
            let row = OverflowRow {
                fork: 0,
                id: 0,
                start,
                extents,
            };
            Ok(next_front(0, 0, front, &row))
        }
        Ok(AttrRecord::Inline(_)) => Ok(None),
        Ok(AttrRecord::Fork(_)) => Ok(None),
        Err(RecordFault::Memory) => Err(OutOfMemory),
        Err(RecordFault::BadRecord { .. }) => Ok(None),
    }
}

/// How many blocks the value of the attribute at a place has, which begins there with a fork, if all other records of the attribute are further ones
/// of this value, of which each goes on where the one before it ends (TN1150, "Attributes File").
fn follow_value(
    alloc: Global,
    attributes: &Pairs,
    at: usize,
    fork: &ForkRecord,
) -> Result<Option<u64>, OutOfMemory>
    requires { at < length attributes.now }
    ensures { AreKeyed attributes.now → IfOk result (λ found. MatchOption found
        (¬ GoWholly (length (blocks_of fork.now.extents.extents)) (is_full fork.now.extents.extents) (rest_at attributes.now (at + 1) (attribute_at attributes.now at)))
        (λ blocks. GoWholly (length (blocks_of fork.now.extents.extents)) (is_full fork.now.extents.extents) (rest_at attributes.now (at + 1) (attribute_at attributes.now at))
        × (blocks ≡ end_of (length (blocks_of fork.now.extents.extents)) (rest_at attributes.now (at + 1) (attribute_at attributes.now at))))) }
{
    let end = attributes.len();
    let mut front = Front {
        place: count_blocks(&fork.extents.extents),
        full: has_no_room(&fork.extents),
    };
    let mut place = at + 1;
    while place < end {
        if !is_one_attribute(attributes.key(place), attributes.key(at)) {
            return Ok(Some(front.place));
        }
        let Some(next) = next_part(alloc, front, attributes, place)? else {
            return Ok(None);
        };
        front = next;
        place += 1;
    }
    Ok(Some(front.place))
}

/// Judges the numbers of a value's fork: it has as many blocks as it says, and they hold its bytes.
fn judge_value_sizes(
    head: &VolumeHeader,
    id: u32,
    fork: &ForkRecord,
    blocks: u64,
    out: &mut Findings,
) -> Result<bool, OutOfMemory>
    ensures judged { IfOk result (λ met. Judged 16 (want id fork.now.total_blocks blocks ∷ want id fork.now.logical_size (min fork.now.logical_size (fork.now.total_blocks * head.now.block_size)) ∷ []) out.old out.new met) }
    ensures each { AddsUnmet 16 (want id fork.now.total_blocks blocks ∷ want id fork.now.logical_size (min fork.now.logical_size (fork.now.total_blocks * head.now.block_size)) ∷ []) out.old out.new }
{
    let held = fork.total_blocks as u64 * head.block_size as u64;
    judge_wants(
        16,
        &[
            Want {
                place: id as u64,
                found: fork.total_blocks as u64,
                wanted: blocks,
            },
            Want {
                place: id as u64,
                found: fork.logical_size,
                wanted: fork.logical_size.min(held),
            },
        ],
        out,
    )
}

/// Judges the value of the record at a place, which is a fork. One that doesn't begin its value, or isn't gone on with by all other records of its
/// attribute, is found by rule 20, and then its numbers aren't judged.
fn judge_fork_value(
    alloc: Global,
    head: &VolumeHeader,
    attributes: &Pairs,
    at: usize,
    fork: &ForkRecord,
    out: &mut Findings,
) -> Result<bool, OutOfMemory>
    requires { at < length attributes.now }
    ensures judged { (volume : VolumeState) → AreAttributesOf volume head.now attributes.now → IsTrue (is_attr (pair_at attributes.now at).1) → (attribute_at attributes.now at).value ≡ Fork fork.now
        → IfOk result (λ met. Judges volume (IsGoodValue volume at) out.old out.new met) }
    ensures named { (volume : VolumeState) → AreAttributesOf volume head.now attributes.now → (attribute_at attributes.now at).value ≡ Fork fork.now
        → IfOk result (λ _. IsToldOr volume (IsValue (attributes_of volume) (attribute_at attributes.now at)) out.new) }
    ensures each { (volume : VolumeState) → AreAttributesOf volume head.now attributes.now → (attribute_at attributes.now at).value ≡ Fork fork.now → Adds (IsBrokenValue volume) out.old out.new }
{
    let id = owner_of(attributes.key(at));
    let inside = judge_extents(id, head.total_blocks, &fork.extents.extents, out)?;
    if start_of(attributes.key(at)) != 0 {
        return add_unless(20, false, id, out);
    }
    let Some(blocks) = follow_value(alloc, attributes, at, fork)? else {
        return add_unless(20, false, id, out);
    };
    let sizes = judge_value_sizes(head, id, fork, blocks, out)?;
    Ok(both(sizes, inside))
}

/// Judges further extents of a value at a place, whose attribute begins with a fork or doesn't.
fn judge_further(
    head: &VolumeHeader,
    attributes: &Pairs,
    at: usize,
    forked: bool,
    more: &ExtentRecord,
    out: &mut Findings,
) -> Result<bool, OutOfMemory>
    requires { at < length attributes.now }
    ensures judged { (volume : VolumeState) → AreAttributesOf volume head.now attributes.now → IsTrue (is_attr (pair_at attributes.now at).1) → (attribute_at attributes.now at).value ≡ More more.now
        → IsTrue forked ↔ HasFirstFork attributes.now (attribute_at attributes.now at) → IfOk result (λ met. Judges volume (IsGoodValue volume at) out.old out.new met) }
    ensures named { (volume : VolumeState) → AreAttributesOf volume head.now attributes.now → (attribute_at attributes.now at).value ≡ More more.now → IsTrue forked ↔ HasFirstFork attributes.now (attribute_at attributes.now at)
        → IfOk result (λ _. IsToldOr volume (IsValue (attributes_of volume) (attribute_at attributes.now at)) out.new) }
    ensures each { (volume : VolumeState) → AreAttributesOf volume head.now attributes.now → (attribute_at attributes.now at).value ≡ More more.now → IsTrue forked ↔ HasFirstFork attributes.now (attribute_at attributes.now at)
        → Adds (IsBrokenValue volume) out.old out.new }
{
    let id = owner_of(attributes.key(at));
    let inside = judge_extents(id, head.total_blocks, &more.extents, out)?;
    let stands = add_unless(20, forked, id, out)?;
    Ok(both(stands, inside))
}

/// Judges the value of the record at a place, whose attribute begins with a fork or doesn't.
pub(crate) fn judge_value(
    alloc: Global,
    head: &VolumeHeader,
    attributes: &Pairs,
    at: usize,
    forked: bool,
    out: &mut Findings,
) -> Result<bool, OutOfMemory>
    requires { at < length attributes.now }
    ensures judged { (volume : VolumeState) → AreAttributesOf volume head.now attributes.now → IsTrue forked ↔ HasFirstFork attributes.now (attribute_at attributes.now at)
        → IfOk result (λ met. Judges volume (IsGoodValue volume at) out.old out.new met) }
    ensures named { (volume : VolumeState) → AreAttributesOf volume head.now attributes.now → IsTrue forked ↔ HasFirstFork attributes.now (attribute_at attributes.now at)
        → IfOk result (λ _. IsToldOr volume (IsTrue (is_attr (pair_at attributes.now at).1) × IsValue (attributes_of volume) (attribute_at attributes.now at)) out.new) }
    ensures each { (volume : VolumeState) → AreAttributesOf volume head.now attributes.now → IsTrue forked ↔ HasFirstFork attributes.now (attribute_at attributes.now at)
        → Adds (IsBrokenValue volume) out.old out.new }
{
    let id = owner_of(attributes.key(at));
    match read_attr(alloc, attributes.value(at)) {
        Ok(AttrRecord::Inline(_)) => add_unless(20, start_of(attributes.key(at)) == 0, id, out),
        Ok(AttrRecord::Fork(fork)) => judge_fork_value(alloc, head, attributes, at, &fork, out),
        Ok(AttrRecord::More(more)) => judge_further(head, attributes, at, forked, &more, out),
        Err(RecordFault::Memory) => Err(OutOfMemory),
        Err(RecordFault::BadRecord { .. }) => add_unless(20, false, id, out),
    }
}

/// Whether a value in a fork begins with the record at a place.
fn begins_fork(alloc: Global, attributes: &Pairs, at: usize) -> Result<bool, OutOfMemory>
    requires { at < length attributes.now }
    ensures { AreKeyed attributes.now → IfOk result (λ is. IsTrue is ↔ ((has_fork (attribute_at attributes.now at).value ≡ true) × ((attribute_at attributes.now at).start ≡ 0))) }
{
    if start_of(attributes.key(at)) != 0 {
        return Ok(false);
    }
    match read_attr(alloc, attributes.value(at)) {
        Ok(AttrRecord::Fork(_)) => Ok(true),
        Ok(AttrRecord::Inline(_)) => Ok(false),
        Ok(AttrRecord::More(_)) => Ok(false),
        Err(RecordFault::Memory) => Err(OutOfMemory),
        Err(RecordFault::BadRecord { .. }) => Ok(false),
    }
}

/// Whether the attribute of the record at a place begins with a fork, where that of the record before it does or doesn't.
pub(crate) fn is_forked(
    alloc: Global,
    attributes: &Pairs,
    at: usize,
    before: bool,
) -> Result<bool, OutOfMemory>
    requires { at < length attributes.now }
    ensures { AreKeyed attributes.now → (0 < at → IsTrue before ↔ HasFirstFork attributes.now (attribute_at attributes.now (at - 1)))
        → IfOk result (λ forked. IsTrue forked ↔ HasFirstFork attributes.now (attribute_at attributes.now at)) }
{
    if at == 0 {
        return begins_fork(alloc, attributes, at);
    }
    if is_one_attribute(attributes.key(at - 1), attributes.key(at)) {
        return Ok(before);
    }
    begins_fork(alloc, attributes, at)
}
