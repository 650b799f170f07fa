//! What data costs that a command puts into a file.
ghost use Rattle.std.specs.Prelude.{◌≡◌, ◌<◌, ◌≤◌, ◌^◌, true, false, is_some, length, min, Some, IsTrue, IfOk, IfSome};
ghost use Rattle.std.specs.List.{Contains};
ghost use Rattle.flag_rows.specs.Runs.{fewest_of};
ghost use Rattle.hfs_model.specs.declared.plain.PlainNode.{PlainNode};
ghost use Rattle.hfs_volume.specs.Content.{volume_of, records_of, overflow_in_volume};
ghost use Rattle.hfs_volume.specs.Cost.{cost_of};
ghost use Rattle.hfs_volume.specs.Forks.{extents_of};
ghost use Rattle.hfs_volume.specs.TreeOf.{tree_of};
ghost use Rattle.hfs_volume.specs.Weight.{file_blocks, file_extents, free_runs, needs_cut_in, new_blocks_of, old_blocks_of, room_with};
ghost use Rattle.volume_cost.specs.Sizes.{AreSmall};
ghost use Rattle.volume_weights.specs.DataWeighing.{IsFileOfPut, are_usual, bytes_at, file_of_record, has_more, needs_put};
ghost use Rattle.volume_base.specs.Cutting.{fork_at, kind_of};
ghost use Rattle.volume_base.specs.DataWeighing.{data_as, data_weighed_in};
ghost use Rattle.volume_base.specs.Frame.{Looked, Serves};
ghost use Rattle.volume_base.specs.Reading.{HasFile};
ghost use Rattle.volume_base.specs.Room.{capacity_of, free_in};
ghost use Rattle.volume_base.specs.declared.room.FreeBlocks.TheVariants as blocks;

use crate::weighing::joined;
use cat_records::{CatRecord, FileRecord};
use fork_map::ExtentList;
use hfs_language::Refusal;
use hfs_volume::{Cost, Needs};
use hx_bytes::Trouble;
use sector_disk::SectorSpace;
use std::alloc::Global;
use tree_weights::trees_grow_by_enough;
use volume_base::{
    ForkKind, FreeBlocks, Put, Volume, Weight, count_extents, fork_of, is_measured, load_extents,
    number_of,
};
use volume_cost::{cost, count_blocks, count_extents_edits};

/// Whether blocks have a usual size, and the file and its data have sizes that files have.
pub(crate) fn are_usual(block: u32, put: Put) -> bool
    ensures { result ≡ are_usual block put }
{
    512 <= block && (put.old_size <= 281_474_976_710_656 && put.end <= 1_099_511_627_776)
}

/// How many new blocks data takes, and in place of how many old ones.
pub(crate) fn blocks_of_put(block: u32, put: Put) -> (u64, u64)
    requires usual { are_usual block put ≡ true }
    ensures new { result.0 ≡ new_blocks_of block (data_as put) }
    ensures old { result.1 ≡ old_blocks_of block (data_as put) }
    ensures few_new { result.0 < 2 ^ 32 }
    ensures few_old { result.1 < 2 ^ 32 }
{
    count_blocks(
        block,
        put.old_size,
        put.old_size.max(put.end),
        put.from,
        put.end,
    )
}

/// Whether the file grows and has more blocks than its size takes.
fn has_more(block: u32, blocks: u32, put: Put) -> bool
    requires usual { are_usual block put ≡ true }
    ensures { result ≡ has_more block blocks put }
{
    let taken = (put.old_size + block as u64 - 1) / block as u64;
    put.old_size < put.old_size.max(put.end) && taken < blocks as u64
}

/// The file whose record this is.
fn file_of_record(rec: &CatRecord) -> Option<FileRecord>
    ensures { result ≡ file_of_record rec.now }
{
    match rec {
        CatRecord::Folder(_) => None,
        CatRecord::File(file) => Some(*file),
        CatRecord::Thread(_) => None,
    }
}

/// What data needs that is put into a file whose fork has so many extents.
fn needs_put(volume: &Volume, free: FreeBlocks, extents: u32, put: Put) -> Needs
    requires usual { are_usual volume.now.header.block_size put ≡ true }
    ensures same { result ≡ needs_put (free_in free volume.now.map) volume.now.header.block_size extents (data_as put) }
    ensures small { AreSmall result }
{
    let (new_blocks, old_blocks) = blocks_of_put(volume.header.block_size, put);
    let runs = volume.fewest(free, new_blocks as u32) as u64;
    Needs {
        ids: 0,
        edits: [count_extents_edits(extents, runs, new_blocks), 0, 0],
        updates: 1,
        new_blocks,
        old_blocks,
        runs,
    }
}

/// What data costs that is put into a file whose fork has so many extents, where these blocks count as free.
fn cost_of_put<P: SectorSpace>(
    volume: &Volume,
    _space: &P,
    free: FreeBlocks,
    extents: u32,
    put: Put,
) -> Cost
    requires serves { Serves volume.now (P.SectorView.space _space.now) }
    requires usual { are_usual volume.now.header.block_size put ≡ true }
    ensures exact { IsTrue (P.SectorView.space _space.now).tells → result ≡ cost_of (needs_put (free_in free volume.now.map) volume.now.header.block_size extents (data_as put)) (room_with (capacity_of volume.now) (free_in free volume.now.map) (volume_of (P.SectorView.space _space.now).content)) }
{
    trees_grow_by_enough();
    let room = volume.room(free);
    // A space that tells its sectors has a volume with usual numbers.
    if !is_measured(&room) {
        return Cost::Refused(Refusal::NoSpace(0, 0));
    }
    cost(&needs_put(volume, free, extents, put), &room)
}

/// What data weighs that is put into a file whose fork has so many extents and blocks; nothing is told where it grows and has blocks past
/// its size.
fn weigh_fork<P: SectorSpace>(
    volume: &Volume,
    space: &P,
    _kind: ForkKind,
    extents: u32,
    held: u32,
    put: Put,
) -> Option<Weight>
    requires serves { Serves volume.now (P.SectorView.space space.now) }
    requires old { IsTrue (P.SectorView.space space.now).tells → put.old_size ≤ 2 ^ 48 }
    requires end { put.end ≤ 2 ^ 40 }
    requires extents { IsTrue (P.SectorView.space space.now).tells → extents ≡ min (length (file_extents (volume_of (P.SectorView.space space.now).content) put.id (kind_of _kind))) 4294967295 }
    requires held { IsTrue (P.SectorView.space space.now).tells → held ≡ length (file_blocks (volume_of (P.SectorView.space space.now).content) put.id (kind_of _kind)) }
    ensures answer { IsTrue (P.SectorView.space space.now).tells → IfSome result (λ weighs. weighs ≡ data_weighed_in (kind_of _kind) (capacity_of volume.now) (free_in blocks.Takable volume.now.map) (volume_of (P.SectorView.space space.now).content) (data_as put)) }
    ensures no_cut { IsTrue (P.SectorView.space space.now).tells → is_some result ≡ true → needs_cut_in (kind_of _kind) (volume_of (P.SectorView.space space.now).content) (Some (data_as put)) ≡ false }
    ensures waits { IsTrue (P.SectorView.space space.now).tells → is_some result ≡ false → needs_cut_in (kind_of _kind) (volume_of (P.SectorView.space space.now).content) (Some (data_as put)) ≡ true }
{
    // A space that tells its sectors has a volume with usual numbers.
    if !are_usual(volume.header.block_size, put) {
        return Some(Weight::Refused(Refusal::NoSpace(0, 0)));
    }
    if has_more(volume.header.block_size, held, put) {
        return None;
    }
    let all = cost_of_put(volume, space, FreeBlocks::All, extents, put);
    let takable = cost_of_put(volume, space, FreeBlocks::Takable, extents, put);
    Some(joined(all, takable))
}

/// The extents of a file's fork.
fn load_fork<P: SectorSpace>(
    volume: &mut Volume,
    alloc: Global,
    space: &mut P,
    file: &FileRecord,
    kind: ForkKind,
) -> Result<ExtentList, Trouble>
    requires serves { Serves volume.old (P.SectorView.space space.old) }
    requires there { IsTrue (P.SectorView.space space.old).tells → HasFile (records_of (volume_of (P.SectorView.space space.old).content)) file.now }
    ensures list { IsTrue (P.SectorView.space space.old).tells → IfOk result (λ list. list ≡ extents_of (overflow_in_volume (volume_of (P.SectorView.space space.old).content)) file.now.fields.id (kind_of kind) (fork_at (kind_of kind) file.now)) }
    ensures looked { Looked P.SectorView.space P.SectorView.follows volume.old volume.new space.old space.new result }
    ensures serves { Serves volume.new (P.SectorView.space space.new) }
{
    load_extents(
        alloc,
        &mut volume.extents.file,
        &mut volume.extents.desk,
        space,
        file.fields.id,
        number_of(kind),
        &fork_of(kind, file),
    )
}

/// What data weighs that is put into the file of this record; nothing is told where it grows and has blocks past its size.
fn weigh_file<P: SectorSpace>(
    volume: &mut Volume,
    alloc: Global,
    space: &mut P,
    file: &FileRecord,
    kind: ForkKind,
    put: Put,
) -> Result<Option<Weight>, Trouble>
    requires serves { Serves volume.old (P.SectorView.space space.old) }
    requires end { put.end ≤ 2 ^ 40 }
    requires there { IsTrue (P.SectorView.space space.old).tells → IsFileOfPut (kind_of kind) (volume_of (P.SectorView.space space.old).content) file.now put }
    ensures answer { IsTrue (P.SectorView.space space.old).tells → IfOk result (λ said. IfSome said (λ weighs. weighs ≡ data_weighed_in (kind_of kind) (capacity_of volume.old) (free_in blocks.Takable volume.old.map) (volume_of (P.SectorView.space space.old).content) (data_as put))) }
    ensures no_cut { IsTrue (P.SectorView.space space.old).tells → IfOk result (λ said. is_some said ≡ true → needs_cut_in (kind_of kind) (volume_of (P.SectorView.space space.old).content) (Some (data_as put)) ≡ false) }
    ensures waits { IsTrue (P.SectorView.space space.old).tells → IfOk result (λ said. is_some said ≡ false → needs_cut_in (kind_of kind) (volume_of (P.SectorView.space space.old).content) (Some (data_as put)) ≡ true) }
    ensures looked { Looked P.SectorView.space P.SectorView.follows volume.old volume.new space.old space.new result }
    ensures serves { Serves volume.new (P.SectorView.space space.new) }
{
    let list = load_fork(volume, alloc, space, file, kind)?;
    let extents = count_extents(&list);
    Ok(weigh_fork(
        volume,
        space,
        kind,
        extents,
        fork_of(kind, file).total_blocks,
        put,
    ))
}

/// The record of the file that data is put into.
fn file_of_put<P: SectorSpace>(
    volume: &mut Volume,
    alloc: Global,
    space: &mut P,
    kind: ForkKind,
    put: Put,
) -> Result<Option<FileRecord>, Trouble>
    requires serves { Serves volume.old (P.SectorView.space space.old) }
    requires there { IsTrue (P.SectorView.space space.old).tells → (node : PlainNode) × Contains (tree_of (P.SectorView.space space.old).content).nodes node × (node.folder ≡ false) × (node.id ≡ put.id) × (length (bytes_at (kind_of kind) node) ≡ put.old_size) }
    ensures found { IsTrue (P.SectorView.space space.old).tells → IfOk result (λ found. IfSome found (λ file. IsFileOfPut (kind_of kind) (volume_of (P.SectorView.space space.old).content) file put)) }
    ensures some { IsTrue (P.SectorView.space space.old).tells → IfOk result (λ found. is_some found ≡ true) }
    ensures looked { Looked P.SectorView.space P.SectorView.follows volume.old volume.new space.old space.new result }
    ensures serves { Serves volume.new (P.SectorView.space space.new) }
{
    match volume.entry(alloc, space, put.id)? {
        Some(entry) => Ok(file_of_record(&entry.rec)),
        None => Ok(None),
    }
}

/// What data weighs that is put into a fork of the file with a CNID; nothing is told where it grows and has blocks past its size.
pub fn weigh_put<P: SectorSpace>(
    volume: &mut Volume,
    alloc: Global,
    space: &mut P,
    kind: ForkKind,
    put: Put,
) -> Result<Option<Weight>, Trouble>
    requires serves { Serves volume.old (P.SectorView.space space.old) }
    requires end { put.end ≤ 2 ^ 40 }
    requires there { IsTrue (P.SectorView.space space.old).tells → (node : PlainNode) × Contains (tree_of (P.SectorView.space space.old).content).nodes node × (node.folder ≡ false) × (node.id ≡ put.id) × (length (bytes_at (kind_of kind) node) ≡ put.old_size) }
    ensures answer { IsTrue (P.SectorView.space space.old).tells → IfOk result (λ said. IfSome said (λ weighs. weighs ≡ data_weighed_in (kind_of kind) (capacity_of volume.old) (free_in blocks.Takable volume.old.map) (volume_of (P.SectorView.space space.old).content) (data_as put))) }
    ensures no_cut { IsTrue (P.SectorView.space space.old).tells → IfOk result (λ said. is_some said ≡ true → needs_cut_in (kind_of kind) (volume_of (P.SectorView.space space.old).content) (Some (data_as put)) ≡ false) }
    ensures waits { IsTrue (P.SectorView.space space.old).tells → IfOk result (λ said. is_some said ≡ false → needs_cut_in (kind_of kind) (volume_of (P.SectorView.space space.old).content) (Some (data_as put)) ≡ true) }
    ensures looked { Looked P.SectorView.space P.SectorView.follows volume.old volume.new space.old space.new result }
    ensures serves { Serves volume.new (P.SectorView.space space.new) }
{
    match file_of_put(volume, alloc, space, kind, put)? {
        Some(file) => weigh_file(volume, alloc, space, &file, kind, put),
        None => Ok(None),
    }
}
