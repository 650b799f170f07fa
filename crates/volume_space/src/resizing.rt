//! `trunc` where it puts no data: to the size that a file has, or to a smaller one.
ghost use Rattle.std.specs.Prelude.{◌≡◌, ◌<◌, ◌≤◌, ◌+◌, ℕ, List, None, Ok, Some, false, true, IsTrue, nat_lt, IfNone, IfOk, IfSome, length, OnOk, if◌then◌else◌};
ghost use Rattle.std.specs.List.{Contains};
ghost use Rattle.sector_disk.specs.Lists.{Content};
ghost use Rattle.btree_edit.specs.Causes.{HasTroubleCause};
ghost use Rattle.catalog.specs.Entries.{IsOfKind};
ghost use Rattle.cat_records.specs.Fits.{FitsEntry, FitsRecord};
ghost use Rattle.hfs_language.specs.Written.{FitsPath};
ghost use Rattle.hfs_language.specs.declared.command.Command.TheVariants as command;
ghost use Rattle.hfs_language.specs.declared.reply.Reply.TheVariants as reply;
ghost use Rattle.hfs_model.specs.Step.{is_refusal, step, step_line, to_trunc};
ghost use Rattle.hfs_model.specs.declared.plain.PlainNode.{PlainNode};
ghost use Rattle.hfs_volume.specs.Content.{volume_of};
ghost use Rattle.hfs_volume.specs.Records.{is_file, is_thread};
ghost use Rattle.hfs_volume.specs.TreeOf.{tree_of};
ghost use Rattle.hfs_volume.specs.Weight.{weight};
ghost use Rattle.hfs_volume.specs.declared.cost.Cost.TheVariants as cost;
ghost use Rattle.volume_base.specs.Frame.{Edits, MayUpdate, Serves};
ghost use Rattle.volume_base.specs.Changing.{HasRoomToUpdate, catalog_node};
ghost use Rattle.volume_base.specs.Refusing.{facts_or};
ghost use Rattle.volume_base.specs.Keeping.{shrunk_of};
ghost use Rattle.volume_base.specs.Looking.{ReadsVolume};
ghost use Rattle.volume_space.specs.Resizing.{IsShortened, SetsSize, puts_data, with_size};
ghost use Rattle.volume_base.specs.Resizing.{shrunk_then};
ghost use Rattle.volume_base.specs.Room.{capacity_of};
ghost use Rattle.volume_base.specs.Service.{IsInService};
ghost use Rattle.volume_base.specs.Standing.{IsSettled, StandsOver, own_sectors};
ghost use Rattle.volume_base.specs.Touching.{Touches};

use cat_records::{CatRecord, EntryFields, FileRecord};
use hfs_language::{Facts, Path, Reply};
use hfs_volume::{sound_has_plain_tree, trunc_does_its_step};
use hx_bytes::{ForkRecord, Trouble};
use sector_disk::SectorSpace;
use std::alloc::Global;
use volume_base::{Entry, Volume, against_trunc};

/// The fields of a file whose bytes changed at this moment.
pub(crate) fn with_change(moment: u32, fields: &EntryFields) -> EntryFields
    ensures same { result ≡ record fields.now { changed = moment; attribute = moment } }
    ensures fits { FitsEntry fields.now → FitsEntry result }
{
    let mut changed = *fields;
    changed.changed = moment;
    changed.attribute = moment;
    changed
}

/// The record of a file that got this size at this moment, in the blocks that it has; none of a folder or a thread.
fn with_size(moment: u32, size: u64, rec: &CatRecord) -> Option<CatRecord>
    ensures same { result ≡ with_size moment size rec.now }
    ensures alike { IfSome result (λ changed. IsOfKind changed rec.now) }
    ensures fits { (is_thread rec.now ≡ false → FitsRecord rec.now) → IfSome result (λ changed. FitsRecord changed) }
    ensures kind { IfSome result (λ changed. is_thread changed ≡ false) }
{
    match rec {
        CatRecord::Folder(_) => None,
        CatRecord::File(file) => Some(CatRecord::File(FileRecord {
            fields: with_change(moment, &file.fields),
            data_fork: ForkRecord {
                logical_size: size,
                clump_size: file.data_fork.clump_size,
                total_blocks: file.data_fork.total_blocks,
                extents: file.data_fork.extents,
            },
            resource_fork: file.resource_fork,
        })),
        CatRecord::Thread(_) => None,
    }
}

/// The file that was shrunk last, after a file got a size; it had another before.
fn shrunk_after(size: u64, old: u64, id: u32, before: Option<u32>) -> Option<u32>
    ensures { result ≡ (if nat_lt size old then Some id else before) }
{
    if size < old { Some(id) } else { before }
}

/// Gives a file another size, where it stands.
fn put_size<P: SectorSpace>(
    volume: &mut Volume,
    alloc: Global,
    space: &mut P,
    entry: &Entry,
    size: u64,
) -> Result<(), Trouble>
    requires ready { MayUpdate volume.old entry.now (P.SectorView.space space.old) }
    requires fits { is_thread entry.now.rec ≡ false → FitsRecord entry.now.rec }
    ensures rest { volume.new ≡ record volume.old { catalog = volume.new.catalog } }
    ensures sets { IsTrue (P.SectorView.space space.old).tells → is_file entry.now.rec ≡ true
        → OnOk result (SetsSize volume.old.header.modify_date size entry.now volume.old volume.new (P.SectorView.space space.old).content (P.SectorView.space space.new).content) }
    ensures edits { Edits P.SectorView.space P.SectorView.follows (catalog_node volume.old) volume.old volume.new space.old space.new result }
{
    let Some(rec) = with_size(volume.header.modify_date, size, &entry.rec) else {
        return Ok(());
    };
    volume.replace(alloc, space, entry, &rec)
}

/// Gives the file with a CNID another size, which isn't larger than its own.
fn set_size<P: SectorSpace>(
    volume: &mut Volume,
    alloc: Global,
    space: &mut P,
    id: u32,
    size: u64,
) -> Result<(), Trouble>
    requires serves { Serves volume.old (P.SectorView.space space.old) }
    requires there { IsTrue (P.SectorView.space space.old).tells → (node : PlainNode) × Contains (tree_of (P.SectorView.space space.old).content).nodes node × (node.id ≡ id) }
    requires room { HasRoomToUpdate volume.old (P.SectorView.space space.old) }
    ensures rest { volume.new ≡ record volume.old { catalog = volume.new.catalog } }
    ensures does { IsTrue (P.SectorView.space space.old).tells → (path : List (List ℕ)) (node : PlainNode) → to_trunc (tree_of (P.SectorView.space space.old).content) path size ≡ Ok node → node.id ≡ id → size ≤ length node.bytes
        → OnOk result (IsSettled volume.new (P.SectorView.space space.new).content × (tree_of (P.SectorView.space space.new).content ≡ (step (tree_of (P.SectorView.space space.old).content) (command.Trunc path size)).1)
        × IsShortened path size (P.SectorView.space space.old).content (P.SectorView.space space.new).content) }
    ensures edits { Edits P.SectorView.space P.SectorView.follows (catalog_node volume.old) volume.old volume.new space.old space.new result }
{
    trunc_does_its_step();
    match volume.entry(alloc, space, id)? {
        Some(entry) => put_size(volume, alloc, space, &entry, size),
        None => Ok(()),
    }
}

/// The same for the file of which this is told, or what stands against it.
fn shorten_told<P: SectorSpace>(
    volume: &mut Volume,
    alloc: Global,
    space: &mut P,
    _path: &Path,
    told: &Facts,
    size: u64,
) -> Result<Option<Reply>, Trouble>
    requires stands { StandsOver volume.old (P.SectorView.space space.old) }
    requires settled { IsTrue (P.SectorView.space space.old).tells → IsSettled volume.old (P.SectorView.space space.old).content }
    requires told { IsTrue (P.SectorView.space space.old).tells → Ok told.now ≡ facts_or (step_line (tree_of (P.SectorView.space space.old).content) (Ok (command.Stat _path.now))).0 }
    requires room { HasRoomToUpdate volume.old (P.SectorView.space space.old) }
    ensures reply { IsTrue (P.SectorView.space space.old).tells → IfOk result (λ said. IfSome said (λ reply. reply ≡ (step_line (tree_of (P.SectorView.space space.old).content) (Ok (command.Trunc _path.now size))).0)) }
    ensures tree { IsTrue (P.SectorView.space space.old).tells → IfOk result (λ said. IfSome said (λ reply. tree_of (P.SectorView.space space.new).content ≡ (step_line (tree_of (P.SectorView.space space.old).content) (Ok (command.Trunc _path.now size))).1)) }
    ensures refused { IsTrue (P.SectorView.space space.old).tells → IfOk result (λ said. IfSome said (λ reply. is_refusal reply ≡ true → (P.SectorView.space space.new).content ≡ (P.SectorView.space space.old).content)) }
    ensures lists { IsTrue (P.SectorView.space space.old).tells → IfOk result (λ said. said ≡ Some reply.Ok → IsShortened _path.now size (P.SectorView.space space.old).content (P.SectorView.space space.new).content) }
    ensures grows { IsTrue (P.SectorView.space space.old).tells → IfOk result (λ said. IfNone said ((puts_data (tree_of (P.SectorView.space space.old).content) _path.now size ≡ true) × ((P.SectorView.space space.new).content ≡ (P.SectorView.space space.old).content))) }
    ensures idle { IfOk result (λ said. IfNone said (ReadsVolume volume.old volume.new (P.SectorView.space space.old) (P.SectorView.space space.new))) }
    ensures shrunk { IsTrue (P.SectorView.space space.old).tells → IfOk result (λ said. shrunk_of volume.new ≡ shrunk_then (tree_of (P.SectorView.space space.old).content) _path.now size said (shrunk_of volume.old)) }
    ensures header { volume.new.header ≡ volume.old.header }
    ensures map { volume.new.map ≡ volume.old.map }
    ensures capacity { capacity_of volume.new ≡ capacity_of volume.old }
    ensures stands { OnOk result (StandsOver volume.new (P.SectorView.space space.new)) }
    ensures settled { IsTrue (P.SectorView.space space.old).tells → OnOk result (IsSettled volume.new (P.SectorView.space space.new).content) }
    ensures service { IsInService volume.new (P.SectorView.space space.new) }
    ensures touches { (committed : Content) → Touches committed (λ s. Contains (own_sectors volume.old) s) (P.SectorView.space space.old) (P.SectorView.space space.new) }
    ensures spent { IsTrue (P.SectorView.space space.old).tells → (P.SectorView.space space.old).spare ≤ (P.SectorView.space space.new).spare + catalog_node volume.old }
    ensures loads { IsTrue (P.SectorView.space space.old).tells → (n : ℕ) (grow : List ℕ) → weight (capacity_of volume.old) (volume_of (P.SectorView.space space.old).content) (tree_of (P.SectorView.space space.old).content) (command.Trunc _path.now size) ≡ cost.Load n grow
        → (P.SectorView.space space.old).spare ≤ (P.SectorView.space space.new).spare + n }
    ensures below { P.SectorView.follows space.old space.new }
    ensures cause { HasTroubleCause (P.SectorView.space space.old).faults (P.SectorView.space space.new).faults result }
{
    if let Some(why) = against_trunc(size, told) {
        return Ok(Some(Reply::No(why)));
    }
    if told.size < size {
        return Ok(None);
    }
    set_size(volume, alloc, space, told.id, size)?;
    volume.shrunk = shrunk_after(size, told.size, told.id, volume.shrunk);
    Ok(Some(Reply::Ok))
}

/// `trunc` to the size that a file has, or to a smaller one: the file that a path stands for has this size, in the blocks that
/// it has, and is dated by the volume's moment; or the first reason against it is told. Nothing is told and nothing done where
/// the file would grow. A path that begins with a name of the volume's own is refused. A refused command changes nothing.
/// `Memory` comes where memory is wanting, `Disk` where a read failed.
pub fn shorten<P: SectorSpace>(
    volume: &mut Volume,
    alloc: Global,
    space: &mut P,
    path: &Path,
    size: u64,
) -> Result<Option<Reply>, Trouble>
    requires stands { StandsOver volume.old (P.SectorView.space space.old) }
    requires settled { IsTrue (P.SectorView.space space.old).tells → IsSettled volume.old (P.SectorView.space space.old).content }
    requires fits { FitsPath path.now }
    // Its load is a node of the catalog.
    requires room { HasRoomToUpdate volume.old (P.SectorView.space space.old) }
    // Told, reply and tree are those of the plain tree's step.
    ensures reply { IsTrue (P.SectorView.space space.old).tells → IfOk result (λ said. IfSome said (λ reply. reply ≡ (step_line (tree_of (P.SectorView.space space.old).content) (Ok (command.Trunc path.now size))).0)) }
    ensures tree { IsTrue (P.SectorView.space space.old).tells → IfOk result (λ said. IfSome said (λ reply. tree_of (P.SectorView.space space.new).content ≡ (step_line (tree_of (P.SectorView.space space.old).content) (Ok (command.Trunc path.now size))).1)) }
    ensures refused { IsTrue (P.SectorView.space space.old).tells → IfOk result (λ said. IfSome said (λ reply. is_refusal reply ≡ true → (P.SectorView.space space.new).content ≡ (P.SectorView.space space.old).content)) }
    // Where it isn't refused, the file has this size in the content's lists, and nothing else of them is changed.
    ensures lists { IsTrue (P.SectorView.space space.old).tells → IfOk result (λ said. said ≡ Some reply.Ok → IsShortened path.now size (P.SectorView.space space.old).content (P.SectorView.space space.new).content) }
    // Nothing is answered exactly where the step doesn't refuse it and puts data.
    ensures grows { IsTrue (P.SectorView.space space.old).tells → IfOk result (λ said. IfNone said ((puts_data (tree_of (P.SectorView.space space.old).content) path.now size ≡ true) × ((P.SectorView.space space.new).content ≡ (P.SectorView.space space.old).content))) }
    // And then the volume was read alone.
    ensures idle { IfOk result (λ said. IfNone said (ReadsVolume volume.old volume.new (P.SectorView.space space.old) (P.SectorView.space space.new))) }
    // The file that was shrunk last is this one, where it was shrunk.
    ensures shrunk { IsTrue (P.SectorView.space space.old).tells → IfOk result (λ said. shrunk_of volume.new ≡ shrunk_then (tree_of (P.SectorView.space space.old).content) path.now size said (shrunk_of volume.old)) }
    // The header and the blocks in use are as they were.
    ensures header { volume.new.header ≡ volume.old.header }
    ensures map { volume.new.map ≡ volume.old.map }
    ensures capacity { capacity_of volume.new ≡ capacity_of volume.old }
    ensures stands { OnOk result (StandsOver volume.new (P.SectorView.space space.new)) }
    ensures settled { IsTrue (P.SectorView.space space.old).tells → OnOk result (IsSettled volume.new (P.SectorView.space space.new).content) }
    ensures service { IsInService volume.new (P.SectorView.space space.new) }
    // On a fault too, it puts sectors of its own alone, whatever was committed last.
    ensures touches { (committed : Content) → Touches committed (λ s. Contains (own_sectors volume.old) s) (P.SectorView.space space.old) (P.SectorView.space space.new) }
    ensures spent { IsTrue (P.SectorView.space space.old).tells → (P.SectorView.space space.old).spare ≤ (P.SectorView.space space.new).spare + catalog_node volume.old }
    // What its load names bounds the sectors that it puts.
    ensures loads { IsTrue (P.SectorView.space space.old).tells → (n : ℕ) (grow : List ℕ) → weight (capacity_of volume.old) (volume_of (P.SectorView.space space.old).content) (tree_of (P.SectorView.space space.old).content) (command.Trunc path.now size) ≡ cost.Load n grow
        → (P.SectorView.space space.old).spare ≤ (P.SectorView.space space.new).spare + n }
    ensures below { P.SectorView.follows space.old space.new }
    ensures cause { HasTroubleCause (P.SectorView.space space.old).faults (P.SectorView.space space.new).faults result }
{
    sound_has_plain_tree();
    match volume.facts(alloc, space, path)? {
        Ok(told) => shorten_told(volume, alloc, space, path, &told, size),
        Err(why) => Ok(Some(Reply::No(why))),
    }
}
