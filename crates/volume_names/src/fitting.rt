//! Whether there is room for a command now, by what its edits cost.
ghost use Rattle.std.specs.Prelude.{◌≡◌, ◌<◌, ◌+◌, ◌*◌, ◌^◌, ◌==◌, false, None, Ok, IfOk, IsTrue};
ghost use Rattle.hfs_language.specs.Written.{FitsPath};
ghost use Rattle.hfs_model.specs.Plain.{names_of};
ghost use Rattle.hfs_model.specs.Step.{is_private_path, reached};
ghost use Rattle.hfs_model.specs.declared.plain.PlainEntry.{PlainEntry};
ghost use Rattle.hfs_volume.specs.Content.{has_attributes};
ghost use Rattle.hfs_volume.specs.TreeOf.{tree_of};
ghost use Rattle.volume_base.specs.Fitting.{AreMet, AreMetValued, wants};
ghost use Rattle.volume_base.specs.Weighing.{AreUsual};
ghost use Rattle.volume_base.specs.Frame.{Looked, Serves};
ghost use Rattle.volume_base.specs.Losing.{HasRoomToLose};
ghost use Rattle.volume_base.specs.Making.{HasRoomToMake, path_to};
ghost use Rattle.volume_base.specs.Moving.{HasRoomToMove};
ghost use Rattle.volume_base.specs.Removing.{HasRoomToBare};
ghost use Rattle.volume_base.specs.Changing.{catalog_node};
ghost use Rattle.volume_names.specs.EditsLeft.{FirstLinkFits, HasLoadFor};
ghost use Rattle.volume_names.specs.LossLoads.{loss_edits};
ghost use Rattle.volume_names.specs.Moving.{replace_edits};
ghost use Rattle.volume_base.specs.Unlinking.{HasRoomToUnlinkLast};

use crate::losing::losing;
use hfs_language::Path;
use hfs_volume::sound_has_plain_tree;
use hx_bytes::{Trouble, Units};
use sector_disk::SectorSpace;
use std::alloc::Global;
use tree_weights::{a_load_is_of_parts, a_load_says_enough, edits_have_room};
use volume_base::{Edits, OwnedValues, Volume, has_sector, has_tree};

/// Whether there is a CNID behind this one.
fn leaves_id(next: u32) -> bool
    ensures fits { IsTrue result → next + 1 < 2 ^ 32 }
    ensures sure { next + 1 < 2 ^ 32 → IsTrue result }
{
    next < u32::MAX
}

/// Whether there is room to make a folder or file.
pub fn fits_make<P: SectorSpace>(volume: &Volume, space: &P) -> bool
    requires serves { Serves volume.now (P.SectorView.space space.now) }
    ensures room { IsTrue result → HasRoomToMake volume.now (P.SectorView.space space.now) }
    ensures met { IsTrue (P.SectorView.space space.now).tells → AreMet (wants 1 2 0 1) volume.now (P.SectorView.space space.now) → IsTrue result }
{
    a_load_says_enough();
    a_load_is_of_parts();
    if !leaves_id(volume.header.next_catalog_id) {
        return false;
    }
    if !has_sector(space.spare()) {
        return false;
    }
    let edits = Edits {
        ids: 1,
        catalog: 2,
        attributes: 0,
        updates: 1,
    };
    volume.can_edit(space, edits)
}

/// Whether there is room to remove a folder with these attributes, by what it costs.
pub fn fits_bare<P: SectorSpace>(volume: &Volume, space: &P, owned: OwnedValues) -> bool
    requires serves { Serves volume.now (P.SectorView.space space.now) }
    requires small { IsTrue (P.SectorView.space space.now).tells → AreUsual owned.count owned.change }
    // They go, and none comes.
    requires gone { owned.change.blocks ≡ 0 }
    ensures room { IsTrue result → HasRoomToBare owned volume.now (P.SectorView.space space.now) }
    ensures met { IsTrue (P.SectorView.space space.now).tells → (has_attributes volume.now.header ≡ false → owned.count ≡ 0) → AreMetValued (wants 0 2 owned.count 1) owned.change volume.now (P.SectorView.space space.now) → IsTrue result }
{
    a_load_says_enough();
    a_load_is_of_parts();
    if !has_tree(volume.header.attributes_fork.logical_size) {
        return owned.count == 0;
    }
    let edits = Edits {
        ids: 0,
        catalog: 2,
        attributes: owned.count,
        updates: 1,
    };
    volume.can_change_values(space, edits, owned.change)
}

/// The same of a folder that has some.
pub(crate) fn fits_owner<P: SectorSpace>(volume: &Volume, space: &P, owned: OwnedValues) -> bool
    requires serves { Serves volume.now (P.SectorView.space space.now) }
    requires small { IsTrue (P.SectorView.space space.now).tells → AreUsual owned.count owned.change }
    requires gone { owned.change.blocks ≡ 0 }
    ensures some { IsTrue result → 0 < owned.count }
    ensures room { IsTrue result → HasRoomToBare owned volume.now (P.SectorView.space space.now) }
{
    if owned.count == 0 {
        return false;
    }
    fits_bare(volume, space, owned)
}

/// Whether there is room to move a folder or file.
pub fn fits_move<P: SectorSpace>(volume: &Volume, space: &P) -> bool
    requires serves { Serves volume.now (P.SectorView.space space.now) }
    ensures room { IsTrue result → HasRoomToMove volume.now (P.SectorView.space space.now) }
    ensures met { IsTrue (P.SectorView.space space.now).tells → AreMet (wants 0 3 0 3) volume.now (P.SectorView.space space.now) → IsTrue result }
{
    a_load_says_enough();
    a_load_is_of_parts();
    let edits = Edits {
        ids: 0,
        catalog: 3,
        attributes: 0,
        updates: 3,
    };
    volume.can_edit(space, edits)
}

/// Whether there are CNIDs and room for a file's first link, where the private folder is there.
pub(crate) fn fits_share<P: SectorSpace>(volume: &Volume, space: &P) -> bool
    requires serves { Serves volume.now (P.SectorView.space space.now) }
    ensures ids { IsTrue result → IsTrue (P.SectorView.space space.now).tells → volume.now.header.next_catalog_id + 2 < 2 ^ 32 }
    ensures left { IsTrue result → FirstLinkFits volume.now (P.SectorView.space space.now) }
    ensures load { IsTrue result → HasLoadFor 7 (1 + 3 * catalog_node volume.now) volume.now (P.SectorView.space space.now) }
    ensures met { IsTrue (P.SectorView.space space.now).tells → AreMet (wants 2 7 0 4) volume.now (P.SectorView.space space.now) → IsTrue result }
{
    edits_have_room();
    a_load_says_enough();
    a_load_is_of_parts();
    let edits = Edits {
        ids: 2,
        catalog: 7,
        attributes: 0,
        updates: 4,
    };
    volume.can_edit(space, edits)
}

/// Whether there are CNIDs and room to make the private folder, and then for a file's first link.
pub(crate) fn fits_first<P: SectorSpace>(volume: &Volume, space: &P) -> bool
    requires serves { Serves volume.now (P.SectorView.space space.now) }
    ensures ids { IsTrue result → IsTrue (P.SectorView.space space.now).tells → volume.now.header.next_catalog_id + 3 < 2 ^ 32 }
    ensures load { IsTrue result → HasLoadFor 9 (1 + (catalog_node volume.now + 3 * catalog_node volume.now)) volume.now (P.SectorView.space space.now) }
    ensures met { IsTrue (P.SectorView.space space.now).tells → AreMet (wants 3 9 0 4) volume.now (P.SectorView.space space.now) → IsTrue result }
{
    a_load_says_enough();
    a_load_is_of_parts();
    let edits = Edits {
        ids: 3,
        catalog: 9,
        attributes: 0,
        updates: 4,
    };
    volume.can_edit(space, edits)
}

/// Whether there is room to make the private folder, and then to put a file aside into it.
pub(crate) fn fits_aside<P: SectorSpace>(volume: &Volume, space: &P) -> bool
    requires serves { Serves volume.now (P.SectorView.space space.now) }
    ensures load { IsTrue result → HasLoadFor 5 (1 + (catalog_node volume.now + 2 * catalog_node volume.now)) volume.now (P.SectorView.space space.now) }
    ensures met { IsTrue (P.SectorView.space space.now).tells → AreMet (wants 1 5 0 4) volume.now (P.SectorView.space space.now) → IsTrue result }
{
    a_load_says_enough();
    a_load_is_of_parts();
    let edits = Edits {
        ids: 1,
        catalog: 5,
        attributes: 0,
        updates: 4,
    };
    volume.can_edit(space, edits)
}

/// Whether there is room for the edits by which a file loses its last link.
pub(crate) fn fits_unlink_last<P: SectorSpace>(volume: &Volume, space: &P) -> bool
    requires serves { Serves volume.now (P.SectorView.space space.now) }
    ensures { IsTrue result → HasRoomToUnlinkLast volume.now (P.SectorView.space space.now) }
{
    a_load_says_enough();
    a_load_is_of_parts();
    if !has_sector(space.spare()) {
        return false;
    }
    let edits = Edits {
        ids: 0,
        catalog: 5,
        attributes: 0,
        updates: 4,
    };
    volume.can_edit(space, edits)
}

/// Whether there is room to make the private folder, and then to put a file aside into it.
fn fits_open<P: SectorSpace>(volume: &Volume, space: &P) -> bool
    requires serves { Serves volume.now (P.SectorView.space space.now) }
    ensures room { IsTrue result → HasRoomToMake volume.now (P.SectorView.space space.now) }
    ensures met { IsTrue (P.SectorView.space space.now).tells → volume.now.private ≡ None → AreMet (wants 1 2 0 1) volume.now (P.SectorView.space space.now) → AreMet (wants 1 5 0 4) volume.now (P.SectorView.space space.now) → IsTrue result }
{
    if !fits_make(volume, space) {
        return false;
    }
    let edits = volume.lose_edits();
    volume.can_edit(space, edits)
}

/// Whether there is room for a file to lose a name: where it is the only one and there is no private folder, it is made before.
pub fn fits_lose<P: SectorSpace>(volume: &Volume, space: &P) -> bool
    requires serves { Serves volume.now (P.SectorView.space space.now) }
    ensures room { IsTrue result → HasRoomToLose volume.now (P.SectorView.space space.now) }
    ensures met { IsTrue (P.SectorView.space space.now).tells → AreMet (wants 0 2 0 1) volume.now (P.SectorView.space space.now) → (volume.now.private ≡ None → AreMet (wants 1 2 0 1) volume.now (P.SectorView.space space.now) × AreMet (wants 1 5 0 4) volume.now (P.SectorView.space space.now)) → IsTrue result }
{
    if !volume.fits_remove(space) {
        return false;
    }
    match volume.private {
        Some(_private) => true,
        None => fits_open(volume, space),
    }
}

/// The edits of a `mv` over a file with so many names, where the name that goes is a link or isn't: those by which it goes, and those of
/// the move.
fn replace_edits(private: Option<u32>, link: bool, links: u32) -> Edits
    ensures same { result ≡ replace_edits private link links }
    ensures none { result.attributes ≡ 0 }
{
    if link {
        if links > 1 {
            return Edits {
                ids: 0,
                catalog: 5,
                attributes: 0,
                updates: 6,
            };
        }
        return Edits {
            ids: 0,
            catalog: 8,
            attributes: 0,
            updates: 6,
        };
    }
    match private {
        Some(_private) => Edits {
            ids: 0,
            catalog: 6,
            attributes: 0,
            updates: 6,
        },
        None => Edits {
            ids: 1,
            catalog: 8,
            attributes: 0,
            updates: 6,
        },
    }
}

/// Whether there is room for a `mv` over a file that has so many names.
pub(crate) fn fits_replace<P: SectorSpace>(
    volume: &mut Volume,
    alloc: Global,
    space: &mut P,
    to: &Path,
    under: &[Units],
    name: &Units,
    links: u32,
) -> Result<bool, Trouble>
    requires serves { Serves volume.old (P.SectorView.space space.old) }
    requires split { to.now ≡ path_to under.now name.now }
    requires fits { FitsPath to.now }
    requires not_own { is_private_path to.now ≡ false }
    requires counted { IsTrue (P.SectorView.space space.old).tells → (entry : PlainEntry) → reached (tree_of (P.SectorView.space space.old).content) to.now ≡ Ok entry → links ≡ names_of (tree_of (P.SectorView.space space.old).content) entry.id }
    ensures room { IfOk result (λ fits. IsTrue fits → IsTrue (P.SectorView.space space.old).tells
        → HasLoadFor (loss_edits (tree_of (P.SectorView.space space.old).content) to.now + 3) (1 + 6 * catalog_node volume.new) volume.new (P.SectorView.space space.new)) }
    ensures looked { Looked P.SectorView.space P.SectorView.follows volume.old volume.new space.old space.new result }
    ensures serves { Serves volume.new (P.SectorView.space space.new) }
{
    sound_has_plain_tree();
    a_load_says_enough();
    a_load_is_of_parts();
    match losing(volume, alloc, space, under, name)? {
        Ok(at) => {
            let edits = replace_edits(volume.private, at.link, links);
            Ok(volume.can_edit(space, edits))
        }
        Err(_why) => Ok(false),
    }
}
