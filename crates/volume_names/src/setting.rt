//! `chmod`: the rights of a folder or file.
ghost use Rattle.std.specs.Prelude.{◌≡◌, ◌<◌, ◌≤◌, ◌+◌, ℕ, List, Ok, Some, false, true, IsTrue, IfOk, OnOk};
ghost use Rattle.std.specs.List.{Contains};
ghost use Rattle.cat_records.specs.Fits.{FitsRecord};
ghost use Rattle.hfs_language.specs.Written.{FitsPath};
ghost use Rattle.hfs_language.specs.declared.command.Command.TheVariants as command;
ghost use Rattle.hfs_language.specs.declared.reply.Reply.TheVariants as reply;
ghost use Rattle.hfs_model.specs.Step.{step, step_line, to_node, is_refusal};
ghost use Rattle.hfs_model.specs.declared.plain.PlainNode.{PlainNode};
ghost use Rattle.hfs_volume.specs.Commands.{ChangesMode};
ghost use Rattle.hfs_volume.specs.Content.{volume_of};
ghost use Rattle.hfs_volume.specs.Records.{is_thread};
ghost use Rattle.hfs_volume.specs.TreeOf.{tree_of};
ghost use Rattle.hfs_volume.specs.Weight.{weight};
ghost use Rattle.hfs_volume.specs.declared.cost.Cost.TheVariants as cost;
ghost use Rattle.volume_base.specs.Changing.{HasRoomToUpdate, catalog_node};
ghost use Rattle.volume_names.specs.Changing.{SetsRights};
ghost use Rattle.volume_base.specs.Frame.{Edits, MayUpdate, Serves};
ghost use Rattle.volume_base.specs.Room.{capacity_of};
ghost use Rattle.volume_base.specs.Standing.{IsSettled};

use crate::fields::with_mode;
use hfs_language::{Path, Refusal, Reply};
use hfs_volume::{chmod_does_its_step, sound_has_plain_tree, soundness_has_two_halves};
use hx_bytes::Trouble;
use sector_disk::SectorSpace;
use std::alloc::Global;
use volume_base::{Entry, Volume, is_private_path};

/// Gives a folder or file other rights, where it stands.
fn put_mode<P: SectorSpace>(
    volume: &mut Volume,
    alloc: Global,
    space: &mut P,
    entry: &Entry,
    rights: u16,
) -> Result<(), Trouble>
    requires ready { MayUpdate volume.old entry.now (P.SectorView.space space.old) }
    requires fits { is_thread entry.now.rec ≡ false → FitsRecord entry.now.rec }
    ensures rest { volume.new ≡ record volume.old { catalog = volume.new.catalog } }
    ensures sets { IsTrue (P.SectorView.space space.old).tells → is_thread entry.now.rec ≡ false
        → OnOk result (SetsRights volume.old.header.modify_date rights entry.now volume.old volume.new (P.SectorView.space space.old).content (P.SectorView.space space.new).content) }
    ensures edits { Edits P.SectorView.space P.SectorView.follows (catalog_node volume.old) volume.old volume.new space.old space.new result }
{
    let Some(rec) = with_mode(volume.header.modify_date, rights, &entry.rec) else {
        return Ok(());
    };
    volume.replace(alloc, space, entry, &rec)
}

/// Gives the folder or file with a CNID other rights.
fn set_mode<P: SectorSpace>(
    volume: &mut Volume,
    alloc: Global,
    space: &mut P,
    id: u32,
    rights: u16,
) -> Result<(), Trouble>
    requires serves { Serves volume.old (P.SectorView.space space.old) }
    requires rights { rights < 4096 }
    requires there { IsTrue (P.SectorView.space space.old).tells → (node : PlainNode) × Contains (tree_of (P.SectorView.space space.old).content).nodes node × (node.id ≡ id) }
    requires room { HasRoomToUpdate volume.old (P.SectorView.space space.old) }
    ensures rest { volume.new ≡ record volume.old { catalog = volume.new.catalog } }
    ensures does { IsTrue (P.SectorView.space space.old).tells → (path : List (List ℕ)) (node : PlainNode) → to_node (tree_of (P.SectorView.space space.old).content) path ≡ Ok node → node.id ≡ id
        → OnOk result (IsSettled volume.new (P.SectorView.space space.new).content × (tree_of (P.SectorView.space space.new).content ≡ (step (tree_of (P.SectorView.space space.old).content) (command.Chmod path rights)).1)
        × ChangesMode id rights (volume_of (P.SectorView.space space.old).content) (volume_of (P.SectorView.space space.new).content)) }
    ensures edits { Edits P.SectorView.space P.SectorView.follows (catalog_node volume.old) volume.old volume.new space.old space.new result }
{
    chmod_does_its_step();
    soundness_has_two_halves();
    match volume.entry(alloc, space, id)? {
        Some(entry) => put_mode(volume, alloc, space, &entry, rights),
        None => Ok(()),
    }
}

/// `chmod`: gives the folder or file that a path stands for other rights, and dates its attributes by the volume's
/// moment; or tells the first reason against it. A path that begins with a name of the volume's own is refused. A refused
/// command changes nothing. `Memory` comes where memory is wanting, `Disk` where a read failed.
pub fn chmod<P: SectorSpace>(
    volume: &mut Volume,
    alloc: Global,
    space: &mut P,
    path: &Path,
    rights: u16,
) -> Result<Reply, Trouble>
    requires serves { Serves volume.old (P.SectorView.space space.old) }
    requires fits { FitsPath path.now }
    requires rights { rights < 4096 }
    // Its load is a node of the catalog.
    requires room { HasRoomToUpdate volume.old (P.SectorView.space space.old) }
    // Told, reply and tree are those of the plain tree's step.
    ensures reply { IsTrue (P.SectorView.space space.old).tells → IfOk result (λ reply. reply ≡ (step_line (tree_of (P.SectorView.space space.old).content) (Ok (command.Chmod path.now rights))).0) }
    ensures tree { IsTrue (P.SectorView.space space.old).tells → OnOk result (tree_of (P.SectorView.space space.new).content ≡ (step_line (tree_of (P.SectorView.space space.old).content) (Ok (command.Chmod path.now rights))).1) }
    ensures refused { IsTrue (P.SectorView.space space.old).tells → IfOk result (λ reply. is_refusal reply ≡ true → (P.SectorView.space space.new).content ≡ (P.SectorView.space space.old).content) }
    // Where it isn't refused, the folder or file has these rights in the content's lists, and nothing else of them is changed.
    ensures lists { IsTrue (P.SectorView.space space.old).tells → IfOk result (λ said. said ≡ reply.Ok → (node : PlainNode) × (to_node (tree_of (P.SectorView.space space.old).content) path.now ≡ Ok node) × ChangesMode node.id rights (volume_of (P.SectorView.space space.old).content) (volume_of (P.SectorView.space space.new).content)) }
    // The header and the blocks in use are as they were.
    ensures header { volume.new.header ≡ volume.old.header }
    ensures serves { OnOk result (Serves volume.new (P.SectorView.space space.new)) }
    ensures edits { Edits P.SectorView.space P.SectorView.follows (catalog_node volume.old) volume.old volume.new space.old space.new result }
    // What its load names bounds the sectors that it puts.
    ensures loads { IsTrue (P.SectorView.space space.old).tells → (n : ℕ) (grow : List ℕ) → weight (capacity_of volume.old) (volume_of (P.SectorView.space space.old).content) (tree_of (P.SectorView.space space.old).content) (command.Chmod path.now rights) ≡ cost.Load n grow
        → (P.SectorView.space space.old).spare ≤ (P.SectorView.space space.new).spare + n }
{
    if is_private_path(path) {
        return Ok(Reply::No(Refusal::Private));
    }
    sound_has_plain_tree();
    match volume.owner(alloc, space, path)? {
        Ok(id) => {
            set_mode(volume, alloc, space, id, rights)?;
            Ok(Reply::Ok)
        }
        Err(why) => Ok(Reply::No(why)),
    }
}
