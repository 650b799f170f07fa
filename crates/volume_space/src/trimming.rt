//! Housekeeping that cuts forks: of the file shrunk last, and of files that lost their last name.
ghost use Rattle.std.specs.Prelude.{◌≡◌, ◌<◌, ◌≤◌, ◌==◌, ◌&&◌, nat_lt, not, Some, false, true, IsTrue, IfOk, IfSome, OnOk, length};
ghost use Rattle.sector_disk.specs.Lists.{Content};
ghost use Rattle.alloc_bitmap.specs.Map.{free_of};
ghost use Rattle.cat_records.specs.Fits.{FitsFile, FitsRecord};
ghost use Rattle.cat_records.specs.declared.record.CatRecord.TheVariants.{File};
ghost use Rattle.catalog.specs.Pairs.{value_at};
ghost use Rattle.hfs_model.specs.Step.{is_private_name};
ghost use Rattle.hfs_volume.specs.Content.{records_of, volume_of};
ghost use Rattle.hfs_volume.specs.Forks.{parts_for};
ghost use Rattle.hfs_volume.specs.Links.{orphans_of};
ghost use Rattle.hfs_volume.specs.Reclaim.{has_surplus_left, least};
ghost use Rattle.hfs_volume.specs.Records.{id_in, is_link_type, is_thread};
ghost use Rattle.volume_space.specs.Cutting.{AffordsCut, CutsTo, IsForkOf, IsNextCut, MayCut, MayGive, PutsCut, RefusesCut, blocks_left, surplus_in};
ghost use Rattle.volume_base.specs.Cutting.{kind_of};
ghost use Rattle.volume_base.specs.Frame.{Serves};
ghost use Rattle.volume_base.specs.Cutting.{IsCutOf, fork_at};
ghost use Rattle.volume_base.specs.Keeping.{shrunk_of};
ghost use Rattle.volume_base.specs.Lists.{lists_of};
ghost use Rattle.volume_space.specs.Orphans.{TidiesAs, PutsNext};
ghost use Rattle.volume_base.specs.Frame.{Frees};
ghost use Rattle.volume_base.specs.Room.{capacity_of};
ghost use Rattle.volume_base.specs.Standing.{IsSettled};

use crate::cutting::{cut_fork, cut_of, fits_cut};
use crate::orphans::is_link;
use crate::storing::{fork_extents, is_user_id};
use crate::tidying::{Tidying, grows_none, tidy_unshrunk};
use cat_records::{CatRecord, FileRecord};
use fork_map::ExtentList;
use hx_bytes::Trouble;
use sector_disk::SectorSpace;
use std::alloc::Global;
use volume_base::{Cut, Entry, ForkKind, FreeBlocks, ROOT, Volume, fork_of, is_private_name};
use volume_cost::cut_cost;

/// A fork that is to be cut, and how many of its first blocks stay at least.
#[derive(Clone, Copy)]
pub(crate) struct Surplus {
    pub(crate) kind: ForkKind,
    pub(crate) keep: u128,
}

/// How many blocks so many bytes take.
pub(crate) fn count_wanted(size: u64, block: u32) -> u128
    requires { 0 < block }
    ensures { result ≡ parts_for size block }
{
    (u128::from(size) + u128::from(block) - 1) / u128::from(block)
}

/// Whether a fork of so many blocks has more than these.
pub(crate) fn is_exceeded(wanted: u128, total: u32) -> bool
    ensures { result ≡ nat_lt wanted total }
{
    wanted < u128::from(total)
}

/// What a file's data fork has past its size, where blocks have this size.
pub(crate) fn surplus_in(rec: &CatRecord, block: u32) -> Option<Surplus>
    requires { 0 < block }
    ensures { result ≡ surplus_in block rec.now }
{
    match rec {
        CatRecord::Folder(_folder) => None,
        CatRecord::File(file) => {
            let wanted = count_wanted(file.data_fork.logical_size, block);
            if is_exceeded(wanted, file.data_fork.total_blocks) {
                Some(Surplus {
                    kind: ForkKind::Data,
                    keep: wanted,
                })
            } else {
                None
            }
        }
        CatRecord::Thread(_thread) => None,
    }
}

/// Whether a fork of so many blocks has any.
fn has_any(total: u32) -> bool
    ensures { result ≡ not (total == 0) }
{
    total != 0
}

/// The fork of a file that has blocks, the data fork first.
fn blocks_left(rec: &CatRecord) -> Option<Surplus>
    ensures { result ≡ blocks_left rec.now }
{
    match rec {
        CatRecord::Folder(_folder) => None,
        CatRecord::File(file) => {
            if has_any(file.data_fork.total_blocks) {
                Some(Surplus {
                    kind: ForkKind::Data,
                    keep: 0,
                })
            } else if has_any(file.resource_fork.total_blocks) {
                Some(Surplus {
                    kind: ForkKind::Resource,
                    keep: 0,
                })
            } else {
                None
            }
        }
        CatRecord::Thread(_thread) => None,
    }
}

/// Whether an entry is one of the volume's own in the root.
fn is_own(entry: &Entry) -> bool
    ensures { result ≡ (entry.now.parent == 2) && is_private_name entry.now.name }
{
    entry.parent == ROOT && is_private_name(&entry.name)
}

/// Whether a record is that of the folder or file with this CNID.
pub(crate) fn has_id(rec: &CatRecord, id: u32) -> bool
    ensures number { IsTrue result → id_in rec.now ≡ id }
    ensures kind { IsTrue result → is_thread rec.now ≡ false }
{
    match rec {
        CatRecord::Folder(folder) => folder.fields.id == id,
        CatRecord::File(file) => file.fields.id == id,
        CatRecord::Thread(_thread) => false,
    }
}

/// Whether the journal has room for a cut.
fn affords_cut(volume: &Volume) -> bool
    ensures affords { (content : Content) → IsSettled volume.now content → IsTrue result → AffordsCut (capacity_of volume.now) (volume_of content) }
    ensures refused { (content : Content) → IsSettled volume.now content → result ≡ false → RefusesCut (capacity_of volume.now) (volume_of content) }
{
    grows_none(cut_cost(&volume.room(FreeBlocks::All)))
}

/// Cuts this of a file's fork, where nothing is missing for it.
fn tidy_part<P: SectorSpace>(
    volume: &mut Volume,
    alloc: Global,
    space: &mut P,
    entry: &Entry,
    file: &FileRecord,
    surplus: Surplus,
    list: &ExtentList,
    cut: &Cut,
) -> Result<Tidying, Trouble>
    requires serves { Serves volume.old (P.SectorView.space space.old) }
    requires name { length entry.now.name ≤ 255 }
    requires there { IsTrue (P.SectorView.space space.old).tells → value_at (lists_of volume.old (P.SectorView.space space.old).content).catalog_pairs entry.now.parent entry.now.name ≡ Some entry.now.rec }
    requires is { entry.now.rec ≡ File file.now }
    requires fits { FitsFile file.now }
    requires no_link { is_link_type file.now.fields ≡ false }
    requires user { (entry.now.parent ≡ 2) × (is_private_name entry.now.name ≡ true) → ⊥ }
    requires number { 16 ≤ file.now.fields.id }
    requires list { IsTrue (P.SectorView.space space.old).tells → IsForkOf list.now (kind_of surplus.kind) file.now (P.SectorView.space space.old).content }
    requires cut { IsCutOf list.now (fork_at (kind_of surplus.kind) file.now) surplus.keep cut.now }
    requires gives { MayGive cut.now.goes volume.old }
    requires may { IsTrue (P.SectorView.space space.old).tells → MayCut (P.SectorView.space space.old).content (id_in entry.now.rec) (kind_of surplus.kind) surplus.keep }
    ensures came { IsTrue (P.SectorView.space space.old).tells → IfOk result (λ came. CutsTo came (capacity_of volume.old) (P.SectorView.space space.old).spare (id_in entry.now.rec) (kind_of surplus.kind) surplus.keep (P.SectorView.space space.old).content (P.SectorView.space space.new).content) }
    ensures spent { IsTrue (P.SectorView.space space.old).tells → PutsCut (capacity_of volume.old) (volume_of (P.SectorView.space space.old).content) (P.SectorView.space space.old).spare (P.SectorView.space space.new).spare }
    ensures frees { Frees P.SectorView.space P.SectorView.follows volume.old volume.new space.old space.new result }
    ensures serves { OnOk result (Serves volume.new (P.SectorView.space space.new)) }
{
    if !affords_cut(volume) {
        return Ok(Tidying::Rest);
    }
    if !fits_cut(volume, space) {
        return Ok(Tidying::CommitFirst);
    }
    volume.keep();
    let kind = surplus.kind;
    cut_fork(
        volume,
        alloc,
        space,
        entry,
        file,
        kind,
        surplus.keep,
        list,
        cut,
    )?;
    Ok(Tidying::Made)
}

/// Cuts a file's fork that has these extents.
fn tidy_extents<P: SectorSpace>(
    volume: &mut Volume,
    alloc: Global,
    space: &mut P,
    entry: &Entry,
    file: &FileRecord,
    surplus: Surplus,
    list: &ExtentList,
) -> Result<Tidying, Trouble>
    requires serves { Serves volume.old (P.SectorView.space space.old) }
    requires name { length entry.now.name ≤ 255 }
    requires there { IsTrue (P.SectorView.space space.old).tells → value_at (lists_of volume.old (P.SectorView.space space.old).content).catalog_pairs entry.now.parent entry.now.name ≡ Some entry.now.rec }
    requires is { entry.now.rec ≡ File file.now }
    requires fits { FitsFile file.now }
    requires no_link { is_link_type file.now.fields ≡ false }
    requires user { (entry.now.parent ≡ 2) × (is_private_name entry.now.name ≡ true) → ⊥ }
    requires number { 16 ≤ file.now.fields.id }
    requires list { IsTrue (P.SectorView.space space.old).tells → IsForkOf list.now (kind_of surplus.kind) file.now (P.SectorView.space space.old).content }
    requires may { IsTrue (P.SectorView.space space.old).tells → MayCut (P.SectorView.space space.old).content (id_in entry.now.rec) (kind_of surplus.kind) surplus.keep }
    ensures came { IsTrue (P.SectorView.space space.old).tells → IfOk result (λ came. CutsTo came (capacity_of volume.old) (P.SectorView.space space.old).spare (id_in entry.now.rec) (kind_of surplus.kind) surplus.keep (P.SectorView.space space.old).content (P.SectorView.space space.new).content) }
    ensures spent { IsTrue (P.SectorView.space space.old).tells → PutsCut (capacity_of volume.old) (volume_of (P.SectorView.space space.old).content) (P.SectorView.space space.old).spare (P.SectorView.space space.new).spare }
    ensures frees { Frees P.SectorView.space P.SectorView.follows volume.old volume.new space.old space.new result }
    ensures serves { OnOk result (Serves volume.new (P.SectorView.space space.new)) }
{
    let fork = fork_of(surplus.kind, file);
    let cut = cut_of(volume, alloc, list, &fork, surplus.keep)?;
    tidy_part(volume, alloc, space, entry, file, surplus, list, &cut)
}

/// Cuts a file's fork.
fn tidy_fork<P: SectorSpace>(
    volume: &mut Volume,
    alloc: Global,
    space: &mut P,
    entry: &Entry,
    file: &FileRecord,
    surplus: Surplus,
) -> Result<Tidying, Trouble>
    requires serves { Serves volume.old (P.SectorView.space space.old) }
    requires name { length entry.now.name ≤ 255 }
    requires there { IsTrue (P.SectorView.space space.old).tells → value_at (lists_of volume.old (P.SectorView.space space.old).content).catalog_pairs entry.now.parent entry.now.name ≡ Some entry.now.rec }
    requires is { entry.now.rec ≡ File file.now }
    requires fits { FitsFile file.now }
    requires may { IsTrue (P.SectorView.space space.old).tells → MayCut (P.SectorView.space space.old).content (id_in entry.now.rec) (kind_of surplus.kind) surplus.keep }
    ensures came { IsTrue (P.SectorView.space space.old).tells → IfOk result (λ came. CutsTo came (capacity_of volume.old) (P.SectorView.space space.old).spare (id_in entry.now.rec) (kind_of surplus.kind) surplus.keep (P.SectorView.space space.old).content (P.SectorView.space space.new).content) }
    ensures spent { IsTrue (P.SectorView.space space.old).tells → PutsCut (capacity_of volume.old) (volume_of (P.SectorView.space space.old).content) (P.SectorView.space space.old).spare (P.SectorView.space space.new).spare }
    ensures frees { Frees P.SectorView.space P.SectorView.follows volume.old volume.new space.old space.new result }
    ensures serves { OnOk result (Serves volume.new (P.SectorView.space space.new)) }
{
    if is_link(&file.fields) {
        return Err(Trouble::Memory);
    }
    if is_own(entry) {
        return Err(Trouble::Memory);
    }
    if !is_user_id(file.fields.id) {
        return Err(Trouble::Memory);
    }
    let list = fork_extents(volume, alloc, space, file, surplus.kind)?;
    tidy_extents(volume, alloc, space, entry, file, surplus, &list)
}

/// Cuts a fork of the file that stands there.
pub(crate) fn tidy_cut<P: SectorSpace>(
    volume: &mut Volume,
    alloc: Global,
    space: &mut P,
    entry: &Entry,
    surplus: Surplus,
) -> Result<Tidying, Trouble>
    requires serves { Serves volume.old (P.SectorView.space space.old) }
    requires name { length entry.now.name ≤ 255 }
    requires there { IsTrue (P.SectorView.space space.old).tells → value_at (lists_of volume.old (P.SectorView.space space.old).content).catalog_pairs entry.now.parent entry.now.name ≡ Some entry.now.rec }
    requires fits { is_thread entry.now.rec ≡ false → FitsRecord entry.now.rec }
    requires may { IsTrue (P.SectorView.space space.old).tells → MayCut (P.SectorView.space space.old).content (id_in entry.now.rec) (kind_of surplus.kind) surplus.keep }
    ensures came { IsTrue (P.SectorView.space space.old).tells → IfOk result (λ came. CutsTo came (capacity_of volume.old) (P.SectorView.space space.old).spare (id_in entry.now.rec) (kind_of surplus.kind) surplus.keep (P.SectorView.space space.old).content (P.SectorView.space space.new).content) }
    ensures spent { IsTrue (P.SectorView.space space.old).tells → PutsCut (capacity_of volume.old) (volume_of (P.SectorView.space space.old).content) (P.SectorView.space space.old).spare (P.SectorView.space space.new).spare }
    ensures frees { Frees P.SectorView.space P.SectorView.follows volume.old volume.new space.old space.new result }
    ensures serves { OnOk result (Serves volume.new (P.SectorView.space space.new)) }
{
    match &entry.rec {
        CatRecord::Folder(_folder) => Err(Trouble::Memory),
        CatRecord::File(file) => tidy_fork(volume, alloc, space, entry, file, surplus),
        CatRecord::Thread(_thread) => Err(Trouble::Memory),
    }
}

/// Cuts the file that was shrunk last, where it has blocks past its size, or makes the next step behind that.
fn tidy_shrunk<P: SectorSpace>(
    volume: &mut Volume,
    alloc: Global,
    space: &mut P,
    id: u32,
    entry: &Entry,
) -> Result<Tidying, Trouble>
    requires serves { Serves volume.old (P.SectorView.space space.old) }
    requires name { length entry.now.name ≤ 255 }
    requires there { IsTrue (P.SectorView.space space.old).tells → value_at (lists_of volume.old (P.SectorView.space space.old).content).catalog_pairs entry.now.parent entry.now.name ≡ Some entry.now.rec }
    requires fits { is_thread entry.now.rec ≡ false → FitsRecord entry.now.rec }
    requires shrunk { shrunk_of volume.old ≡ Some id }
    ensures tidied { IsTrue (P.SectorView.space space.old).tells → IfOk result (λ came. TidiesAs came (capacity_of volume.old) (shrunk_of volume.old) (free_of volume.old.map) (P.SectorView.space space.old).spare (P.SectorView.space space.old).content (P.SectorView.space space.new).content) }
    ensures spent { IsTrue (P.SectorView.space space.old).tells → PutsNext (capacity_of volume.old) (shrunk_of volume.old) (volume_of (P.SectorView.space space.old).content) (P.SectorView.space space.old).spare (P.SectorView.space space.new).spare }
    ensures frees { Frees P.SectorView.space P.SectorView.follows volume.old volume.new space.old space.new result }
    ensures serves { OnOk result (Serves volume.new (P.SectorView.space space.new)) }
{
    if !has_id(&entry.rec, id) {
        return Err(Trouble::Memory);
    }
    match surplus_in(&entry.rec, volume.header.block_size) {
        Some(surplus) => tidy_cut(volume, alloc, space, entry, surplus),
        None => tidy_unshrunk(volume, alloc, space),
    }
}

/// The next step, where a file was shrunk.
pub(crate) fn tidy_surplus<P: SectorSpace>(
    volume: &mut Volume,
    alloc: Global,
    space: &mut P,
    id: u32,
) -> Result<Tidying, Trouble>
    requires serves { Serves volume.old (P.SectorView.space space.old) }
    requires shrunk { shrunk_of volume.old ≡ Some id }
    ensures tidied { IsTrue (P.SectorView.space space.old).tells → IfOk result (λ came. TidiesAs came (capacity_of volume.old) (shrunk_of volume.old) (free_of volume.old.map) (P.SectorView.space space.old).spare (P.SectorView.space space.old).content (P.SectorView.space space.new).content) }
    ensures spent { IsTrue (P.SectorView.space space.old).tells → PutsNext (capacity_of volume.old) (shrunk_of volume.old) (volume_of (P.SectorView.space space.old).content) (P.SectorView.space space.old).spare (P.SectorView.space space.new).spare }
    ensures frees { Frees P.SectorView.space P.SectorView.follows volume.old volume.new space.old space.new result }
    ensures serves { OnOk result (Serves volume.new (P.SectorView.space space.new)) }
{
    match volume.entry(alloc, space, id)? {
        Some(entry) => tidy_shrunk(volume, alloc, space, id, &entry),
        None => tidy_unshrunk(volume, alloc, space),
    }
}

/// Cuts the file that waits and stands there.
fn tidy_left<P: SectorSpace>(
    volume: &mut Volume,
    alloc: Global,
    space: &mut P,
    entry: &Entry,
) -> Result<Tidying, Trouble>
    requires serves { Serves volume.old (P.SectorView.space space.old) }
    requires name { length entry.now.name ≤ 255 }
    requires there { IsTrue (P.SectorView.space space.old).tells → value_at (lists_of volume.old (P.SectorView.space space.old).content).catalog_pairs entry.now.parent entry.now.name ≡ Some entry.now.rec }
    requires fits { is_thread entry.now.rec ≡ false → FitsRecord entry.now.rec }
    requires next { IsTrue (P.SectorView.space space.old).tells
        → IfSome (blocks_left entry.now.rec) (λ surplus. IsNextCut (shrunk_of volume.old) (P.SectorView.space space.old).content (id_in entry.now.rec) (kind_of surplus.kind) surplus.keep) }
    ensures tidied { IsTrue (P.SectorView.space space.old).tells → IfOk result (λ came. TidiesAs came (capacity_of volume.old) (shrunk_of volume.old) (free_of volume.old.map) (P.SectorView.space space.old).spare (P.SectorView.space space.old).content (P.SectorView.space space.new).content) }
    ensures spent { IsTrue (P.SectorView.space space.old).tells → PutsNext (capacity_of volume.old) (shrunk_of volume.old) (volume_of (P.SectorView.space space.old).content) (P.SectorView.space space.old).spare (P.SectorView.space space.new).spare }
    ensures frees { Frees P.SectorView.space P.SectorView.follows volume.old volume.new space.old space.new result }
    ensures serves { OnOk result (Serves volume.new (P.SectorView.space space.new)) }
{
    match blocks_left(&entry.rec) {
        Some(surplus) => tidy_cut(volume, alloc, space, entry, surplus),
        None => Err(Trouble::Memory),
    }
}

/// Cuts the file with the least CNID of those that wait.
pub(crate) fn tidy_blocks<P: SectorSpace>(
    volume: &mut Volume,
    alloc: Global,
    space: &mut P,
    id: u32,
) -> Result<Tidying, Trouble>
    requires serves { Serves volume.old (P.SectorView.space space.old) }
    requires lowest { IsTrue (P.SectorView.space space.old).tells → least (orphans_of (records_of (volume_of (P.SectorView.space space.old).content))) ≡ Some id }
    requires kept { IsTrue (P.SectorView.space space.old).tells → has_surplus_left (volume_of (P.SectorView.space space.old).content) (shrunk_of volume.old) ≡ false }
    ensures tidied { IsTrue (P.SectorView.space space.old).tells → IfOk result (λ came. TidiesAs came (capacity_of volume.old) (shrunk_of volume.old) (free_of volume.old.map) (P.SectorView.space space.old).spare (P.SectorView.space space.old).content (P.SectorView.space space.new).content) }
    ensures spent { IsTrue (P.SectorView.space space.old).tells → PutsNext (capacity_of volume.old) (shrunk_of volume.old) (volume_of (P.SectorView.space space.old).content) (P.SectorView.space space.old).spare (P.SectorView.space space.new).spare }
    ensures frees { Frees P.SectorView.space P.SectorView.follows volume.old volume.new space.old space.new result }
    ensures serves { OnOk result (Serves volume.new (P.SectorView.space space.new)) }
{
    match volume.entry(alloc, space, id)? {
        Some(entry) => tidy_left(volume, alloc, space, &entry),
        None => Err(Trouble::Memory),
    }
}
