//! A cut of blocks past the size of a file's fork, ahead of data that makes the fork longer.
ghost use Rattle.std.specs.Prelude.{◌≡◌, ◌≤◌, ◌<◌, nat_lt, Some, Ok, true, false, IsTrue, IfNone, IfOk, IfSome, OnOk, length};
ghost use Rattle.std.specs.List.{Contains};
ghost use Rattle.sector_disk.specs.Lists.{Content};
ghost use Rattle.cat_records.specs.Fits.{FitsRecord};
ghost use Rattle.cat_records.specs.declared.record.CatRecord.TheVariants.{File};
ghost use Rattle.cat_records.specs.declared.record.FileRecord.{FileRecord};
ghost use Rattle.catalog.specs.Pairs.{value_at};
ghost use Rattle.hfs_language.specs.Written.{FitsPath};
ghost use Rattle.hfs_language.specs.declared.command.Command.TheVariants as command;
ghost use Rattle.hfs_language.specs.declared.refusal.Refusal.{Refusal};
ghost use Rattle.hfs_model.specs.Step.{step_line};
ghost use Rattle.hfs_model.specs.declared.plain.PlainNode.{PlainNode};
ghost use Rattle.hfs_volume.specs.Content.{volume_of};
ghost use Rattle.hfs_volume.specs.Reclaim.{blocks_wanted};
ghost use Rattle.hfs_volume.specs.Records.{id_in, is_thread};
ghost use Rattle.hfs_volume.specs.TreeOf.{tree_of};
ghost use Rattle.hfs_volume.specs.Weight.{cut_cost, free_blocks, room_with};
ghost use Rattle.hfs_volume.specs.declared.cost.Cost.TheVariants as cost;
ghost use Rattle.volume_base.specs.Cutting.{fork_at, kind_of};
ghost use Rattle.volume_base.specs.Frame.{Frees, Serves};
ghost use Rattle.volume_base.specs.Lists.{lists_of};
ghost use Rattle.volume_base.specs.Refusing.{facts_or};
ghost use Rattle.volume_base.specs.Room.{capacity_of};
ghost use Rattle.volume_base.specs.Standing.{IsSettled};
ghost use Rattle.volume_space.specs.Cutting.{PutsCut, surplus_ahead};
ghost use Rattle.volume_space.specs.CuttingAhead.{CutsAhead, CutsAs, CutsNode, CutsSome, IsShortCut, TakesCutLoad, cuts_first};

use crate::tidying::Tidying;
use crate::trimming::{Surplus, count_wanted, is_exceeded, tidy_cut};
use cat_records::{CatRecord, FileRecord};
use hfs_language::{Facts, Path, Refusal};
use hfs_volume::Cost;
use hx_bytes::{ForkRecord, Trouble};
use sector_disk::SectorSpace;
use std::alloc::Global;
use volume_base::{Entry, ForkKind, FreeBlocks, Volume, fork_of};
use volume_cost::cut_cost;

/// What a cut came to, ahead of data that makes a file's fork longer.
#[derive(Clone, Copy)]
pub enum CutAhead {
    /// The fork doesn't get longer, or has no blocks past its size. Nothing was changed.
    NotNeeded,
    /// Blocks past its size were cut.
    Made,
    /// There is too little room for it. Nothing was changed.
    CommitFirst,
    /// The journal has no room for a cut. Nothing was changed.
    Refused(Refusal),
}

/// Whether data up to an end makes a fork of this size longer.
fn is_longer(size: u64, end: u128) -> bool
    ensures { result ≡ nat_lt size end }
{
    u128::from(size) < end
}

/// What a fork of this kind has past its size, where blocks have this size and data up to an end makes it longer.
fn surplus_ahead(kind: ForkKind, fork: ForkRecord, block: u32, end: u128) -> Option<Surplus>
    requires { 0 < block }
    ensures { result ≡ surplus_ahead kind block fork end }
{
    if !is_longer(fork.logical_size, end) {
        return None;
    }
    let keep = count_wanted(fork.logical_size, block);
    if !is_exceeded(keep, fork.total_blocks) {
        return None;
    }
    Some(Surplus { kind, keep })
}

/// The refusal that a cost is.
fn refusal_in(found: Cost) -> Option<Refusal>
    ensures some { IfSome result (λ why. found ≡ cost.Refused why) }
    ensures none { IfNone result ((why : Refusal) → found ≡ cost.Refused why → ⊥) }
{
    match found {
        Cost::Refused(why) => Some(why),
        Cost::Load { .. } => None,
    }
}

/// Why the journal has no room for a cut.
fn refused_cut(volume: &Volume) -> Option<Refusal>
    ensures some { (content : Content) → IsSettled volume.now content → IfSome result (λ why. cut_cost (room_with (capacity_of volume.now) (free_blocks (volume_of content)) (volume_of content)) ≡ cost.Refused why) }
    ensures none { (content : Content) → IsSettled volume.now content → IfNone result ((why : Refusal) → cut_cost (room_with (capacity_of volume.now) (free_blocks (volume_of content)) (volume_of content)) ≡ cost.Refused why → ⊥) }
{
    refusal_in(cut_cost(&volume.room(FreeBlocks::All)))
}

/// Cuts the blocks past the size of a fork of the file that stands there.
fn cut_past<P: SectorSpace>(
    volume: &mut Volume,
    alloc: Global,
    space: &mut P,
    entry: &Entry,
    surplus: Surplus,
) -> Result<CutAhead, Trouble>
    requires serves { Serves volume.old (P.SectorView.space space.old) }
    requires name { length entry.now.name ≤ 255 }
    requires there { IsTrue (P.SectorView.space space.old).tells → value_at (lists_of volume.old (P.SectorView.space space.old).content).catalog_pairs entry.now.parent entry.now.name ≡ Some entry.now.rec }
    requires fits { is_thread entry.now.rec ≡ false → FitsRecord entry.now.rec }
    requires least { IsTrue (P.SectorView.space space.old).tells → surplus.keep ≡ blocks_wanted (volume_of (P.SectorView.space space.old).content) (id_in entry.now.rec) (kind_of surplus.kind) }
    ensures came { IsTrue (P.SectorView.space space.old).tells → IfOk result (λ came. CutsSome came (capacity_of volume.old) (kind_of surplus.kind) (id_in entry.now.rec) (P.SectorView.space space.old).content (P.SectorView.space space.new).content) }
    ensures short { IsTrue (P.SectorView.space space.old).tells → IfOk result (λ came. IsShortCut came (capacity_of volume.old) (P.SectorView.space space.old).spare (volume_of (P.SectorView.space space.old).content)) }
    ensures spent { IsTrue (P.SectorView.space space.old).tells → PutsCut (capacity_of volume.old) (volume_of (P.SectorView.space space.old).content) (P.SectorView.space space.old).spare (P.SectorView.space space.new).spare }
    ensures frees { Frees P.SectorView.space P.SectorView.follows volume.old volume.new space.old space.new result }
    ensures serves { OnOk result (Serves volume.new (P.SectorView.space space.new)) }
{
    if let Some(why) = refused_cut(volume) {
        return Ok(CutAhead::Refused(why));
    }
    match tidy_cut(volume, alloc, space, entry, surplus)? {
        Tidying::Made => Ok(CutAhead::Made),
        Tidying::CommitFirst => Ok(CutAhead::CommitFirst),
        Tidying::Rest => Ok(CutAhead::CommitFirst),
    }
}

/// Cuts blocks of a fork of the file that stands there, where data up to an end makes it longer.
fn cut_file<P: SectorSpace>(
    volume: &mut Volume,
    alloc: Global,
    space: &mut P,
    entry: &Entry,
    file: &FileRecord,
    kind: ForkKind,
    end: u128,
) -> Result<CutAhead, Trouble>
    requires serves { Serves volume.old (P.SectorView.space space.old) }
    requires name { length entry.now.name ≤ 255 }
    requires there { IsTrue (P.SectorView.space space.old).tells → value_at (lists_of volume.old (P.SectorView.space space.old).content).catalog_pairs entry.now.parent entry.now.name ≡ Some entry.now.rec }
    requires fits { is_thread entry.now.rec ≡ false → FitsRecord entry.now.rec }
    requires is { entry.now.rec ≡ File file.now }
    ensures came { IsTrue (P.SectorView.space space.old).tells → IfOk result (λ came. CutsAs came (capacity_of volume.old) (kind_of kind) file.now.fields.id (cuts_first (kind_of kind) (volume_of (P.SectorView.space space.old).content) file.now.fields.id (fork_at (kind_of kind) file.now).logical_size end) (P.SectorView.space space.old).content (P.SectorView.space space.new).content) }
    ensures short { IsTrue (P.SectorView.space space.old).tells → IfOk result (λ came. IsShortCut came (capacity_of volume.old) (P.SectorView.space space.old).spare (volume_of (P.SectorView.space space.old).content)) }
    ensures spent { IsTrue (P.SectorView.space space.old).tells → PutsCut (capacity_of volume.old) (volume_of (P.SectorView.space space.old).content) (P.SectorView.space space.old).spare (P.SectorView.space space.new).spare }
    ensures frees { Frees P.SectorView.space P.SectorView.follows volume.old volume.new space.old space.new result }
    ensures serves { OnOk result (Serves volume.new (P.SectorView.space space.new)) }
{
    match surplus_ahead(kind, fork_of(kind, file), volume.header.block_size, end) {
        Some(surplus) => cut_past(volume, alloc, space, entry, surplus),
        None => Ok(CutAhead::NotNeeded),
    }
}

/// The same, of an entry that is to be a file's.
fn cut_entry<P: SectorSpace>(
    volume: &mut Volume,
    alloc: Global,
    space: &mut P,
    entry: &Entry,
    kind: ForkKind,
    end: u128,
) -> Result<CutAhead, Trouble>
    requires serves { Serves volume.old (P.SectorView.space space.old) }
    requires name { length entry.now.name ≤ 255 }
    requires there { IsTrue (P.SectorView.space space.old).tells → value_at (lists_of volume.old (P.SectorView.space space.old).content).catalog_pairs entry.now.parent entry.now.name ≡ Some entry.now.rec }
    requires fits { is_thread entry.now.rec ≡ false → FitsRecord entry.now.rec }
    ensures came { IsTrue (P.SectorView.space space.old).tells
        → (file : FileRecord) → entry.now.rec ≡ File file → IfOk result (λ came. CutsAs came (capacity_of volume.old) (kind_of kind) file.fields.id (cuts_first (kind_of kind) (volume_of (P.SectorView.space space.old).content) file.fields.id (fork_at (kind_of kind) file).logical_size end) (P.SectorView.space space.old).content (P.SectorView.space space.new).content) }
    ensures short { IsTrue (P.SectorView.space space.old).tells → IfOk result (λ came. IsShortCut came (capacity_of volume.old) (P.SectorView.space space.old).spare (volume_of (P.SectorView.space space.old).content)) }
    ensures spent { IsTrue (P.SectorView.space space.old).tells → PutsCut (capacity_of volume.old) (volume_of (P.SectorView.space space.old).content) (P.SectorView.space space.old).spare (P.SectorView.space space.new).spare }
    ensures frees { Frees P.SectorView.space P.SectorView.follows volume.old volume.new space.old space.new result }
    ensures serves { OnOk result (Serves volume.new (P.SectorView.space space.new)) }
{
    match &entry.rec {
        CatRecord::File(file) => cut_file(volume, alloc, space, entry, file, kind, end),
        CatRecord::Folder(_) | CatRecord::Thread(_) => Err(Trouble::Memory),
    }
}

/// The same, of the file with this CNID.
fn cut_found<P: SectorSpace>(
    volume: &mut Volume,
    alloc: Global,
    space: &mut P,
    id: u32,
    kind: ForkKind,
    end: u128,
) -> Result<CutAhead, Trouble>
    requires serves { Serves volume.old (P.SectorView.space space.old) }
    ensures came { IsTrue (P.SectorView.space space.old).tells
        → (node : PlainNode) → Contains (tree_of (P.SectorView.space space.old).content).nodes node → node.id ≡ id → node.folder ≡ false → IfOk result (λ came. CutsNode came (capacity_of volume.old) (kind_of kind) node end (P.SectorView.space space.old).content (P.SectorView.space space.new).content) }
    ensures short { IsTrue (P.SectorView.space space.old).tells → IfOk result (λ came. IsShortCut came (capacity_of volume.old) (P.SectorView.space space.old).spare (volume_of (P.SectorView.space space.old).content)) }
    ensures spent { IsTrue (P.SectorView.space space.old).tells → PutsCut (capacity_of volume.old) (volume_of (P.SectorView.space space.old).content) (P.SectorView.space space.old).spare (P.SectorView.space space.new).spare }
    ensures frees { Frees P.SectorView.space P.SectorView.follows volume.old volume.new space.old space.new result }
    ensures serves { OnOk result (Serves volume.new (P.SectorView.space space.new)) }
{
    match volume.entry(alloc, space, id)? {
        Some(entry) => cut_entry(volume, alloc, space, &entry, kind, end),
        None => Err(Trouble::Memory),
    }
}

/// The same, of the file of which this was told.
fn cut_told<P: SectorSpace>(
    volume: &mut Volume,
    alloc: Global,
    space: &mut P,
    _path: &Path,
    told: &Facts,
    kind: ForkKind,
    end: u128,
) -> Result<CutAhead, Trouble>
    requires serves { Serves volume.old (P.SectorView.space space.old) }
    requires told { IsTrue (P.SectorView.space space.old).tells → Ok told.now ≡ facts_or (step_line (tree_of (P.SectorView.space space.old).content) (Ok (command.Stat _path.now))).0 }
    ensures came { IsTrue (P.SectorView.space space.old).tells → IfOk result (λ came. CutsAhead came (capacity_of volume.old) (kind_of kind) _path.now end (P.SectorView.space space.old).content (P.SectorView.space space.new).content) }
    ensures short { IsTrue (P.SectorView.space space.old).tells → IfOk result (λ came. IsShortCut came (capacity_of volume.old) (P.SectorView.space space.old).spare (volume_of (P.SectorView.space space.old).content)) }
    ensures spent { IsTrue (P.SectorView.space space.old).tells → PutsCut (capacity_of volume.old) (volume_of (P.SectorView.space space.old).content) (P.SectorView.space space.old).spare (P.SectorView.space space.new).spare }
    ensures frees { Frees P.SectorView.space P.SectorView.follows volume.old volume.new space.old space.new result }
    ensures serves { OnOk result (Serves volume.new (P.SectorView.space space.new)) }
{
    if told.folder {
        return Err(Trouble::Memory);
    }
    cut_found(volume, alloc, space, told.id, kind, end)
}

/// Cuts blocks past the size of a fork of the file that a path stands for, where it has some and data up to an end makes it longer: one extent, or
/// its last 32,768 blocks. They go before data is put there, one cut after another. `Memory` comes where memory is wanting or the path stands for
/// no file, `Disk` where a read failed.
pub fn cut_fork_ahead<P: SectorSpace>(
    volume: &mut Volume,
    alloc: Global,
    space: &mut P,
    path: &Path,
    kind: ForkKind,
    end: u128,
) -> Result<CutAhead, Trouble>
    requires serves { Serves volume.old (P.SectorView.space space.old) }
    requires fits { FitsPath path.now }
    // Told, a cut was made where one goes first, or nothing was changed.
    ensures came { IsTrue (P.SectorView.space space.old).tells → IfOk result (λ came. CutsAhead came (capacity_of volume.old) (kind_of kind) path.now end (P.SectorView.space space.old).content (P.SectorView.space space.new).content) }
    // A commit comes first only where there is too little room for the cut.
    ensures short { IsTrue (P.SectorView.space space.old).tells → IfOk result (λ came. IsShortCut came (capacity_of volume.old) (P.SectorView.space space.old).spare (volume_of (P.SectorView.space space.old).content)) }
    // On a fault too, it puts no more sectors than a cut puts at most, and than its load.
    ensures spent { IsTrue (P.SectorView.space space.old).tells → PutsCut (capacity_of volume.old) (volume_of (P.SectorView.space space.old).content) (P.SectorView.space space.old).spare (P.SectorView.space space.new).spare }
    ensures loads { IsTrue (P.SectorView.space space.old).tells → TakesCutLoad (capacity_of volume.old) (volume_of (P.SectorView.space space.old).content) (P.SectorView.space space.old).spare (P.SectorView.space space.new).spare }
    ensures frees { Frees P.SectorView.space P.SectorView.follows volume.old volume.new space.old space.new result }
    ensures serves { OnOk result (Serves volume.new (P.SectorView.space space.new)) }
{
    match volume.facts(alloc, space, path)? {
        Ok(told) => cut_told(volume, alloc, space, path, &told, kind, end),
        Err(_why) => Err(Trouble::Memory),
    }
}
