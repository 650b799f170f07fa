//! `rm`: a file loses its only name.
ghost use Rattle.std.specs.Prelude.{◌≡◌, ◌≤◌, ◌+◌, ◌*◌, ℕ, List, Ok, Some, false, true, IsTrue, IfOk, length, None, OnOk};
ghost use Rattle.std.specs.List.{All};
ghost use Rattle.btree_edit.specs.Causes.{HasTroubleCause};
ghost use Rattle.btree_file.specs.Standing.{numbers_of, pairs_in};
ghost use Rattle.btree_file.specs.State.{sectors_of_tree};
ghost use Rattle.hard_links.specs.Linking.{NamesLink};
ghost use Rattle.hfs_language.specs.Written.{FitsPath};
ghost use Rattle.hfs_language.specs.declared.command.Command.TheVariants as command;
ghost use Rattle.hfs_language.specs.declared.reply.Reply.TheVariants as reply;
ghost use Rattle.hfs_model.specs.Step.{is_private_path, is_refusal, step, step_line, then_};
ghost use Rattle.hfs_model.specs.declared.plain.PlainEntry.{PlainEntry};
ghost use Rattle.hfs_volume.specs.Records.{is_link_type};
ghost use Rattle.hfs_volume.specs.TreeOf.{tree_of};
ghost use Rattle.volume_base.specs.Changing.{HasRoomToUpdate, catalog_node};
ghost use Rattle.volume_base.specs.Frame.{Edits, Looked, Serves};
ghost use Rattle.volume_base.specs.Lists.{lists_of};
ghost use Rattle.volume_base.specs.Looking.{IsCatalogOver, ReadsTree};
ghost use Rattle.volume_names.specs.Losing.{Buries, HasLost, Hides, Loses, LosesName};
ghost use Rattle.volume_base.specs.Losing.{HasRoomToLose, IsLoss, IsOnlyName, losing_under, place_of, to_lose};
ghost use Rattle.volume_base.specs.Making.{HasRoomToMake, path_to};
ghost use Rattle.volume_base.specs.Moving.{leave_load};
ghost use Rattle.volume_names.specs.EditsLeft.{HasEditsLeft, LeavesBehind};
ghost use Rattle.volume_names.specs.LinkLoads.{PutsItsLoad};
ghost use Rattle.volume_names.specs.LossLoads.{LeavesLoss, LeavesOthers, LeavesShared, NoneOr, SpendsFor, SpendsLoss, SpendsShared, loss_edits};
ghost use Rattle.volume_base.specs.Removing.{HasRoomToRemove};
ghost use Rattle.volume_base.specs.Standing.{IsSettled};
ghost use Rattle.volume_names.specs.Unlinking.{LosesLink};

use crate::fitting::{fits_aside, fits_move};
use crate::orphaning::set_aside;
use crate::private_folder::open_private;
use crate::touching::touch;
use crate::unlinking::lose_one;
use btree_edit::Desk;
use btree_file::TreeFile;
use cat_records::EntryFields;
use hard_links::EntryAt;
use hfs_language::{Path, Refusal, Reply};
use hfs_volume::{header_may_change, rm_does_its_step, sound_has_plain_tree};
use hx_bytes::{OutOfMemory, Trouble, Units, read_be32};
use sector_disk::SectorSpace;
use std::alloc::Global;
use tree_weights::{edits_have_room, edits_take_their_load};
use volume_base::{
    Losing, Reached, Volume, copy_name, find_folder, is_private_path, lookup_record, named,
};

/// `hlnk`, the type of a link (TN1150, "Hard Links").
const LINK_TYPE: u32 = 0x686C_6E6B;

/// `hfs+`, its creator.
const LINK_CREATOR: u32 = 0x6866_732B;

/// Whether the fields are those of a link.
pub(crate) fn is_link(fields: &EntryFields) -> bool
    ensures { result ≡ is_link_type fields.now }
{
    read_be32(fields.finder.as_slice(), 0) == LINK_TYPE
        && read_be32(fields.finder.as_slice(), 4) == LINK_CREATOR
}

/// What was reached in a folder, if it is a file; or the first reason against its removal.
fn to_lose(parent: u32, there: Result<Reached, Refusal>) -> Result<Losing, Refusal>
    ensures { result ≡ then_ there (to_lose parent) }
{
    match there {
        Ok(Reached::Root) => Err(Refusal::Root),
        Ok(Reached::Folder(_folder)) => Err(Refusal::IsFolder),
        Ok(Reached::File(file)) => Ok(Losing {
            parent,
            link: is_link(&file.fields),
        }),
        Err(why) => Err(why),
    }
}

/// The file of this name in the folder that a path reaches, or the first reason against its removal.
fn find_losing<P: SectorSpace>(
    alloc: Global,
    tree: &mut TreeFile,
    desk: &mut Desk,
    space: &mut P,
    above: &[Units],
    name: &Units,
) -> Result<Result<Losing, Refusal>, Trouble>
    requires over { IsCatalogOver tree.old desk.old (P.SectorView.space space.old) }
    requires names { All (λ name. length name ≤ 255) above.now }
    requires name { length name.now ≤ 255 }
    ensures found { IsTrue (P.SectorView.space space.old).tells → IfOk result (λ said. said ≡ losing_under (pairs_in (sectors_of_tree tree.old) (P.SectorView.space space.old).content) above.now name.now) }
    ensures over { IsCatalogOver tree.new desk.new (P.SectorView.space space.new) }
    ensures reads { ReadsTree tree.old tree.new (P.SectorView.space space.old) (P.SectorView.space space.new) }
    ensures below { P.SectorView.follows space.old space.new }
    ensures cause { HasTroubleCause (P.SectorView.space space.old).faults (P.SectorView.space space.new).faults result }
{
    match find_folder(alloc, tree, desk, space, above)? {
        Ok(id) => {
            let found = lookup_record(alloc, tree, desk, space, id, name)?;
            Ok(to_lose(id, named(found)))
        }
        Err(why) => Ok(Err(why)),
    }
}

/// The place of a name in a folder.
fn place_of(alloc: Global, at: Losing, name: &Units) -> Result<EntryAt, OutOfMemory>
    ensures { IfOk result (λ place. place ≡ place_of at name.now) }
{
    Ok(EntryAt {
        parent: at.parent,
        name: copy_name(alloc, name)?,
    })
}

/// The file of this name in the folder that a path reaches, or the first reason against its removal.
pub(crate) fn losing<P: SectorSpace>(
    volume: &mut Volume,
    alloc: Global,
    space: &mut P,
    above: &[Units],
    name: &Units,
) -> Result<Result<Losing, Refusal>, Trouble>
    requires serves { Serves volume.old (P.SectorView.space space.old) }
    requires fits { FitsPath above.now }
    requires name { length name.now ≤ 255 }
    ensures found { IsTrue (P.SectorView.space space.old).tells → IfOk result (λ said. said ≡ losing_under (lists_of volume.old (P.SectorView.space space.old).content).catalog_pairs above.now name.now) }
    ensures looked { Looked P.SectorView.space P.SectorView.follows volume.old volume.new space.old space.new result }
    ensures serves { Serves volume.new (P.SectorView.space space.new) }
{
    find_losing(
        alloc,
        &mut volume.catalog.file,
        &mut volume.catalog.desk,
        space,
        above,
        name,
    )
}

/// Puts a file aside into the private folder, which counts it.
fn hide<P: SectorSpace>(
    volume: &mut Volume,
    alloc: Global,
    space: &mut P,
    private: u32,
    at: &EntryAt,
) -> Result<(), Trouble>
    requires serves { Serves volume.old (P.SectorView.space space.old) }
    requires size { 4096 ≤ (numbers_of volume.old.catalog.file).node_size }
    requires some { 1 ≤ length at.now.name }
    requires name { length at.now.name ≤ 255 }
    requires private { volume.old.private ≡ Some private }
    requires only { IsTrue (P.SectorView.space space.old).tells → IsOnlyName at.now (lists_of volume.old (P.SectorView.space space.old).content).catalog_pairs }
    requires loses { IsTrue (P.SectorView.space space.old).tells → (path : List (List ℕ)) × (entry : PlainEntry) × IsLoss (tree_of (P.SectorView.space space.old).content) path entry at.now }
    // The edits have room beside the two records that are updated behind them.
    requires left { HasEditsLeft 3 (2 * catalog_node volume.old) volume.old (P.SectorView.space space.old) }
    ensures hides { IsTrue (P.SectorView.space space.old).tells → OnOk result (Hides private at.now volume.old volume.new (P.SectorView.space space.old).content (P.SectorView.space space.new).content) }
    ensures edits { Edits P.SectorView.space P.SectorView.follows (leave_load volume.old) volume.old volume.new space.old space.new result }
    // There is room to update the folder that it was in.
    ensures room { OnOk result (HasRoomToUpdate volume.new (P.SectorView.space space.new)) }
    ensures size { OnOk result ((numbers_of volume.new.catalog.file).node_size ≡ (numbers_of volume.old.catalog.file).node_size) }
    // Sectors that its edits have room beside are left, on a fault too, but for those of an update.
    ensures leaves { IsTrue (P.SectorView.space space.old).tells → (beside : ℕ) → HasEditsLeft 3 beside volume.old (P.SectorView.space space.old) → beside ≤ (P.SectorView.space space.new).spare + catalog_node volume.old }
    ensures left { OnOk result (LeavesBehind 3 1 volume.old (P.SectorView.space space.old) volume.new (P.SectorView.space space.new)) }
{
    edits_take_their_load();
    set_aside(volume, alloc, space, private, at)?;
    touch(volume, alloc, space, private, 1, 0)
}

/// Removes the only name of a file, in a volume with a private folder: the file waits there to be removed. The volume is
/// settled again, and its tree is without the name.
fn bury<P: SectorSpace>(
    volume: &mut Volume,
    alloc: Global,
    space: &mut P,
    private: u32,
    at: &EntryAt,
) -> Result<(), Trouble>
    requires serves { Serves volume.old (P.SectorView.space space.old) }
    requires some { 1 ≤ length at.now.name }
    requires name { length at.now.name ≤ 255 }
    requires private { volume.old.private ≡ Some private }
    requires only { IsTrue (P.SectorView.space space.old).tells → IsOnlyName at.now (lists_of volume.old (P.SectorView.space space.old).content).catalog_pairs }
    requires loses { IsTrue (P.SectorView.space space.old).tells → (path : List (List ℕ)) × (entry : PlainEntry) × IsLoss (tree_of (P.SectorView.space space.old).content) path entry at.now }
    // The edits have room beside the two records that are updated behind them.
    requires left { HasEditsLeft 3 (2 * catalog_node volume.old) volume.old (P.SectorView.space space.old) }
    ensures does { IsTrue (P.SectorView.space space.old).tells → (path : List (List ℕ)) (entry : PlainEntry) → IsLoss (tree_of (P.SectorView.space space.old).content) path entry at.now
        → OnOk result (IsSettled volume.new (P.SectorView.space space.new).content × (tree_of (P.SectorView.space space.new).content ≡ (step (tree_of (P.SectorView.space space.old).content) (command.Rm path)).1)
        × Buries entry (P.SectorView.space space.old).content (P.SectorView.space space.new).content) }
    ensures edits { Edits P.SectorView.space P.SectorView.follows (leave_load volume.old + catalog_node volume.old) volume.old volume.new space.old space.new result }
    // Sectors that its edits have room beside are left, on a fault too, but for those of two updates.
    ensures leaves { IsTrue (P.SectorView.space space.old).tells → (beside : ℕ) → HasEditsLeft 3 beside volume.old (P.SectorView.space space.old) → beside ≤ (P.SectorView.space space.new).spare + 2 * catalog_node volume.old }
    ensures left { IsTrue (P.SectorView.space space.old).tells → OnOk result (LeavesBehind 3 2 volume.old (P.SectorView.space space.old) volume.new (P.SectorView.space space.new)) }
{
    rm_does_its_step();
    // The least node size that the format allows the catalog (TN1150, "Catalog File").
    if volume.catalog.file.shape().node_size < 4096 {
        return Ok(());
    }
    hide(volume, alloc, space, private, at)?;
    touch(volume, alloc, space, at.parent, 0, 1)
}

/// Makes the private folder in a volume that has none, and puts a file aside into it that loses its only name. `Memory` is
/// answered too where there is no room for the edits of both.
fn bury_first<P: SectorSpace>(
    volume: &mut Volume,
    alloc: Global,
    space: &mut P,
    at: &EntryAt,
) -> Result<(), Trouble>
    requires serves { Serves volume.old (P.SectorView.space space.old) }
    requires some { 1 ≤ length at.now.name }
    requires name { length at.now.name ≤ 255 }
    requires absent { volume.old.private ≡ None }
    requires only { IsTrue (P.SectorView.space space.old).tells → IsOnlyName at.now (lists_of volume.old (P.SectorView.space space.old).content).catalog_pairs }
    requires loses { IsTrue (P.SectorView.space space.old).tells → (path : List (List ℕ)) × (entry : PlainEntry) × IsLoss (tree_of (P.SectorView.space space.old).content) path entry at.now }
    requires room { HasRoomToMake volume.old (P.SectorView.space space.old) }
    ensures does { IsTrue (P.SectorView.space space.old).tells → (path : List (List ℕ)) (entry : PlainEntry) → IsLoss (tree_of (P.SectorView.space space.old).content) path entry at.now
        → OnOk result (IsSettled volume.new (P.SectorView.space space.new).content × (tree_of (P.SectorView.space space.new).content ≡ (step (tree_of (P.SectorView.space space.old).content) (command.Rm path)).1)
        × Loses entry (P.SectorView.space space.old).content (P.SectorView.space space.new).content) }
    ensures edits { Edits P.SectorView.space P.SectorView.follows (P.SectorView.space space.old).spare volume.old volume.new space.old space.new result }
    ensures spends { IsTrue (P.SectorView.space space.old).tells → NoneOr (SpendsFor 5 volume.old (P.SectorView.space space.old) (P.SectorView.space space.new)) (P.SectorView.space space.old) (P.SectorView.space space.new) }
    ensures leaves { IsTrue (P.SectorView.space space.old).tells → OnOk result (LeavesOthers 5 volume.old (P.SectorView.space space.old) volume.new (P.SectorView.space space.new)) }
{
    header_may_change();
    rm_does_its_step();
    if !fits_aside(volume, space) {
        return Err(Trouble::Memory);
    }
    open_private(volume, alloc, space)?;
    match volume.private {
        Some(private) => bury(volume, alloc, space, private, at),
        None => Err(Trouble::Memory),
    }
}

/// Removes a link at a path.
fn lose_link<P: SectorSpace>(
    volume: &mut Volume,
    alloc: Global,
    space: &mut P,
    path: &Path,
    at: Losing,
    name: &Units,
) -> Result<(), Trouble>
    requires serves { Serves volume.old (P.SectorView.space space.old) }
    requires some { 1 ≤ length name.now }
    requires name { length name.now ≤ 255 }
    requires fits { FitsPath path.now }
    requires not_own { is_private_path path.now ≡ false }
    requires link { IsTrue (P.SectorView.space space.old).tells → NamesLink (place_of at name.now) (lists_of volume.old (P.SectorView.space space.old).content).catalog_pairs }
    requires loses { IsTrue (P.SectorView.space space.old).tells → (entry : PlainEntry) × IsLoss (tree_of (P.SectorView.space space.old).content) path.now entry (place_of at name.now) }
    requires room { HasRoomToRemove volume.old (P.SectorView.space space.old) }
    ensures does { IsTrue (P.SectorView.space space.old).tells → (entry : PlainEntry) → IsLoss (tree_of (P.SectorView.space space.old).content) path.now entry (place_of at name.now)
        → OnOk result (IsSettled volume.new (P.SectorView.space space.new).content × (tree_of (P.SectorView.space space.new).content ≡ (step (tree_of (P.SectorView.space space.old).content) (command.Rm path.now)).1)
        × LosesLink entry (P.SectorView.space space.old).content (P.SectorView.space space.new).content) }
    ensures edits { Edits P.SectorView.space P.SectorView.follows (P.SectorView.space space.old).spare volume.old volume.new space.old space.new result }
    ensures spends { IsTrue (P.SectorView.space space.old).tells → (entry : PlainEntry) → IsLoss (tree_of (P.SectorView.space space.old).content) path.now entry (place_of at name.now) → NoneOr (SpendsShared entry.id volume.old (P.SectorView.space space.old) (P.SectorView.space space.new)) (P.SectorView.space space.old) (P.SectorView.space space.new) }
    ensures leaves { IsTrue (P.SectorView.space space.old).tells → (entry : PlainEntry) → IsLoss (tree_of (P.SectorView.space space.old).content) path.now entry (place_of at name.now) → OnOk result (LeavesShared entry.id volume.old (P.SectorView.space space.old) volume.new (P.SectorView.space space.new)) }
{
    sound_has_plain_tree();
    match volume.owner(alloc, space, path)? {
        Ok(id) => {
            let place = place_of(alloc, at, name)?;
            lose_one(volume, alloc, space, id, &place)
        }
        Err(_why) => Err(Trouble::Memory),
    }
}

/// Removes a name of a file at a path.
fn lose<P: SectorSpace>(
    volume: &mut Volume,
    alloc: Global,
    space: &mut P,
    path: &Path,
    at: Losing,
    name: &Units,
) -> Result<(), Trouble>
    requires serves { Serves volume.old (P.SectorView.space space.old) }
    requires some { 1 ≤ length name.now }
    requires name { length name.now ≤ 255 }
    requires fits { FitsPath path.now }
    requires not_own { is_private_path path.now ≡ false }
    requires link { IsTrue (P.SectorView.space space.old).tells → at.link ≡ true → NamesLink (place_of at name.now) (lists_of volume.old (P.SectorView.space space.old).content).catalog_pairs }
    requires only { IsTrue (P.SectorView.space space.old).tells → at.link ≡ false → IsOnlyName (place_of at name.now) (lists_of volume.old (P.SectorView.space space.old).content).catalog_pairs }
    requires loses { IsTrue (P.SectorView.space space.old).tells → (entry : PlainEntry) × IsLoss (tree_of (P.SectorView.space space.old).content) path.now entry (place_of at name.now) }
    requires room { HasRoomToLose volume.old (P.SectorView.space space.old) }
    ensures does { IsTrue (P.SectorView.space space.old).tells → (entry : PlainEntry) → IsLoss (tree_of (P.SectorView.space space.old).content) path.now entry (place_of at name.now)
        → OnOk result (IsSettled volume.new (P.SectorView.space space.new).content × (tree_of (P.SectorView.space space.new).content ≡ (step (tree_of (P.SectorView.space space.old).content) (command.Rm path.now)).1)
        × LosesName entry (P.SectorView.space space.old).content (P.SectorView.space space.new).content) }
    ensures edits { Edits P.SectorView.space P.SectorView.follows (P.SectorView.space space.old).spare volume.old volume.new space.old space.new result }
    ensures spends { IsTrue (P.SectorView.space space.old).tells → (entry : PlainEntry) → IsLoss (tree_of (P.SectorView.space space.old).content) path.now entry (place_of at name.now) → NoneOr (SpendsLoss at.link entry.id volume.old (P.SectorView.space space.old) (P.SectorView.space space.new)) (P.SectorView.space space.old) (P.SectorView.space space.new) }
    ensures leaves { IsTrue (P.SectorView.space space.old).tells → (entry : PlainEntry) → IsLoss (tree_of (P.SectorView.space space.old).content) path.now entry (place_of at name.now) → OnOk result (LeavesLoss at.link entry.id volume.old (P.SectorView.space space.old) volume.new (P.SectorView.space space.new)) }
{
    edits_have_room();
    if at.link {
        return lose_link(volume, alloc, space, path, at, name);
    }
    match volume.private {
        Some(private) => {
            if !fits_move(volume, space) {
                return Err(Trouble::Memory);
            }
            let place = place_of(alloc, at, name)?;
            bury(volume, alloc, space, private, &place)
        }
        None => {
            let place = place_of(alloc, at, name)?;
            bury_first(volume, alloc, space, &place)
        }
    }
}

/// Removes the file of a name under a path, or tells the first reason against it.
fn rm_under<P: SectorSpace>(
    volume: &mut Volume,
    alloc: Global,
    space: &mut P,
    path: &Path,
    above: &[Units],
    name: &Units,
) -> Result<Reply, Trouble>
    requires serves { Serves volume.old (P.SectorView.space space.old) }
    requires split { path.now ≡ path_to above.now name.now }
    requires fits { FitsPath (path_to above.now name.now) }
    requires not_own { is_private_path (path_to above.now name.now) ≡ false }
    requires room { HasRoomToLose volume.old (P.SectorView.space space.old) }
    ensures reply { IsTrue (P.SectorView.space space.old).tells → IfOk result (λ reply. reply ≡ (step_line (tree_of (P.SectorView.space space.old).content) (Ok (command.Rm (path_to above.now name.now)))).0) }
    ensures tree { IsTrue (P.SectorView.space space.old).tells → OnOk result (tree_of (P.SectorView.space space.new).content ≡ (step_line (tree_of (P.SectorView.space space.old).content) (Ok (command.Rm (path_to above.now name.now)))).1) }
    ensures refused { IsTrue (P.SectorView.space space.old).tells → IfOk result (λ reply. is_refusal reply ≡ true → (P.SectorView.space space.new).content ≡ (P.SectorView.space space.old).content) }
    ensures lists { IsTrue (P.SectorView.space space.old).tells → IfOk result (λ said. said ≡ reply.Ok → HasLost (path_to above.now name.now) (P.SectorView.space space.old).content (P.SectorView.space space.new).content) }
    ensures serves { OnOk result (Serves volume.new (P.SectorView.space space.new)) }
    ensures edits { Edits P.SectorView.space P.SectorView.follows (P.SectorView.space space.old).spare volume.old volume.new space.old space.new result }
    ensures loads { IsTrue (P.SectorView.space space.old).tells → PutsItsLoad (command.Rm (path_to above.now name.now)) volume.old (P.SectorView.space space.old) (P.SectorView.space space.new) }
    ensures spends { IsTrue (P.SectorView.space space.old).tells → NoneOr (SpendsFor (loss_edits (tree_of (P.SectorView.space space.old).content) (path_to above.now name.now)) volume.old (P.SectorView.space space.old) (P.SectorView.space space.new)) (P.SectorView.space space.old) (P.SectorView.space space.new) }
    ensures leaves { IsTrue (P.SectorView.space space.old).tells → IfOk result (λ said. said ≡ reply.Ok → LeavesOthers (loss_edits (tree_of (P.SectorView.space space.old).content) (path_to above.now name.now)) volume.old (P.SectorView.space space.old) volume.new (P.SectorView.space space.new)) }
{
    sound_has_plain_tree();
    match losing(volume, alloc, space, above, name)? {
        Ok(at) => {
            lose(volume, alloc, space, path, at, name)?;
            Ok(Reply::Ok)
        }
        Err(why) => Ok(Reply::No(why)),
    }
}

/// `rm`: removes a name of the file at a path. With its only name or its last link the file waits in the private folder to be
/// removed, which is made where there is none; with a link among others it says that it has one less. Or tells the first reason
/// against it. A path that begins with a name of the volume's own is refused. A refused command changes nothing. `Memory` comes
/// where memory is wanting, where the edits by which a file waits have no room, and where what is left of the room behind an
/// edit of a link doesn't suffice for the next; `Disk` where a read failed.
pub fn rm<P: SectorSpace>(
    volume: &mut Volume,
    alloc: Global,
    space: &mut P,
    path: &Path,
) -> Result<Reply, Trouble>
    requires serves { Serves volume.old (P.SectorView.space space.old) }
    requires fits { FitsPath path.now }
    // There is room for what it puts; the catalog needn't grow before.
    requires room { HasRoomToLose volume.old (P.SectorView.space space.old) }
    // Told, reply and tree are those of the plain tree's step.
    ensures reply { IsTrue (P.SectorView.space space.old).tells → IfOk result (λ reply. reply ≡ (step_line (tree_of (P.SectorView.space space.old).content) (Ok (command.Rm path.now))).0) }
    ensures tree { IsTrue (P.SectorView.space space.old).tells → OnOk result (tree_of (P.SectorView.space space.new).content ≡ (step_line (tree_of (P.SectorView.space space.old).content) (Ok (command.Rm path.now))).1) }
    ensures refused { IsTrue (P.SectorView.space space.old).tells → IfOk result (λ reply. is_refusal reply ≡ true → (P.SectorView.space space.new).content ≡ (P.SectorView.space space.old).content) }
    // The content's lists have the file in the private folder, which may be new, or a link less; and the folders' counts. Nothing else of them is changed.
    ensures lists { IsTrue (P.SectorView.space space.old).tells → IfOk result (λ said. said ≡ reply.Ok → HasLost path.now (P.SectorView.space space.old).content (P.SectorView.space space.new).content) }
    ensures serves { OnOk result (Serves volume.new (P.SectorView.space space.new)) }
    ensures edits { Edits P.SectorView.space P.SectorView.follows (P.SectorView.space space.old).spare volume.old volume.new space.old space.new result }
    // On a fault too, it puts no more sectors than its load names.
    ensures loads { IsTrue (P.SectorView.space space.old).tells → PutsItsLoad (command.Rm path.now) volume.old (P.SectorView.space space.old) (P.SectorView.space space.new) }
    // Nor more than its edits take, which it names; behind it other edits have the room that they had ahead of it with these.
    ensures spends { IsTrue (P.SectorView.space space.old).tells → NoneOr (SpendsFor (loss_edits (tree_of (P.SectorView.space space.old).content) path.now) volume.old (P.SectorView.space space.old) (P.SectorView.space space.new)) (P.SectorView.space space.old) (P.SectorView.space space.new) }
    ensures leaves { IsTrue (P.SectorView.space space.old).tells → IfOk result (λ said. said ≡ reply.Ok → LeavesOthers (loss_edits (tree_of (P.SectorView.space space.old).content) path.now) volume.old (P.SectorView.space space.old) volume.new (P.SectorView.space space.new)) }
{
    if is_private_path(path) {
        return Ok(Reply::No(Refusal::Private));
    }
    match path.as_slice().split_last() {
        Some((name, above)) => rm_under(volume, alloc, space, path, above, name),
        None => Ok(Reply::No(Refusal::Root)),
    }
}
