//! `symlink`: a file with the type bits of a link, whose data fork holds its target.
ghost use Rattle.std.specs.Prelude.{◌≡◌, ◌≢◌, ◌<◌, ◌≤◌, ◌+◌, ◌^◌, ◌∷◌, ℕ, [], false, true, Ok, None, IsTrue, IfOk, IfSome, OnOk, length};
ghost use Rattle.std.specs.List.{Contains};
ghost use Rattle.alloc_bitmap.specs.Map.{none};
ghost use Rattle.flag_rows.specs.Bits.{sectors_for};
ghost use Rattle.hfs_language.specs.Written.{FitsPath};
ghost use Rattle.hfs_model.specs.Kinds.{made_link};
ghost use Rattle.hfs_model.specs.Targets.{is_target};
ghost use Rattle.hfs_model.specs.declared.kinds.KindEdit.TheVariants as edit;
ghost use Rattle.hfs_volume.specs.Aside.{IsJournalSector};
ghost use Rattle.hfs_volume.specs.Content.{volume_of};
ghost use Rattle.hfs_volume.specs.TreeOf.{tree_of};
ghost use Rattle.hx_bytes.specs.Fork.{FitsFork};
ghost use Rattle.volume_base.specs.Frame.{Serves, Spills};
ghost use Rattle.volume_base.specs.Keeping.{shrunk_of};
ghost use Rattle.volume_base.specs.Making.{IsSite, free_place, make_load, no_fork, path_to};
ghost use Rattle.volume_base.specs.Room.{capacity_of};
ghost use Rattle.volume_base.specs.Standing.{IsSettled, own_sectors};
ghost use Rattle.volume_space.specs.Writing.{fork_with};
ghost use Rattle.volume_space.specs.Zeroing.{HasFilled};
ghost use Rattle.volume_step.specs.Performing.{Performs};
ghost use Rattle.volume_step.specs.Steps.{KeepsJournal};
ghost use Rattle.volume_step.specs.declared.outcome.Outcome.TheVariants as outcome;
ghost use Rattle.volume_links.specs.Links.{HasRoomToLink, LeavesLink, link_bits};
ghost use Rattle.volume_links.specs.Steps.{KindAffords, KindStepsNow};
ghost use Rattle.volume_links.specs.Wanting.{KindFitsNow};

use crate::link_room::link_room;
use fork_map::ExtentList;
use hfs_language::{ChangeKind, Path, Reply};
use hfs_volume::{rewrite_puts_its_blocks_alone, sound_has_plain_tree, symlink_does_its_step};
use hx_bytes::{ForkRecord, Trouble, Units};
use sector_disk::SectorSpace;
use std::alloc::Global;
use volume_base::{Volume, one_change, put_map};
use volume_names::{add_record, new_link};
use volume_space::{first_eight, spill_value};
use volume_step::Outcome;

/// A fork of so many bytes in so many blocks, whose record has the first eight of these extents (TN1150, "Fork Data Structure").
fn fork_with(size: u64, blocks: u32, list: &ExtentList) -> ForkRecord
    ensures same { result ≡ fork_with size blocks list.now no_fork }
    ensures fits { FitsFork result }
{
    ForkRecord {
        logical_size: size,
        clump_size: 0,
        total_blocks: blocks,
        extents: first_eight(list.as_slice()),
    }
}

/// Makes a link of this name in the folder with this CNID. Its target is put into free blocks first, so that its record is written once.
fn link_in<P: SectorSpace>(
    volume: &mut Volume,
    alloc: Global,
    space: &mut P,
    id: u32,
    name: &Units,
    target: &[u8],
    blocks: u32,
) -> Result<(), Trouble>
    requires serves { Serves volume.old (P.SectorView.space space.old) }
    // Only the journal's sectors are closed.
    requires closed { IsTrue (P.SectorView.space space.old).tells → (at : ℕ) → (P.SectorView.space space.old).closed at → IsJournalSector (P.SectorView.space space.old).content at }
    requires unchanged { volume.old.map.changed ≡ none (sectors_for (length volume.old.map.used)) }
    requires some { 1 ≤ length name.now }
    requires name { length name.now ≤ 255 }
    requires site { IsTrue (P.SectorView.space space.old).tells → IsSite (tree_of (P.SectorView.space space.old).content) id name.now }
    requires good { IsTrue (P.SectorView.space space.old).tells → is_target target.now ≡ true }
    requires room { HasRoomToLink (length target.now) blocks volume.old (P.SectorView.space space.old) }
    ensures does { IsTrue (P.SectorView.space space.old).tells
        → OnOk result (IsSettled volume.new (P.SectorView.space space.new).content × (tree_of (P.SectorView.space space.new).content ≡ made_link (free_place id name.now) target.now (tree_of (P.SectorView.space space.old).content))
        × LeavesLink (length target.now) (volume_of (P.SectorView.space space.old).content) (volume_of (P.SectorView.space space.new).content)) }
    ensures spills { Spills P.SectorView.space P.SectorView.follows (make_load volume.old + link_bits blocks volume.old) volume.old volume.new space.old space.new result }
{
    symlink_does_its_step();
    rewrite_puts_its_blocks_alone();
    // The least node size that the format allows the catalog (TN1150, "Catalog File").
    if volume.catalog.file.shape().node_size < 4096 {
        return Ok(());
    }
    let free = volume.header.free_blocks.saturating_sub(blocks);
    let list = spill_value(volume, alloc, space, target)?;
    put_map(volume, space);
    let fork = fork_with(target.len() as u64, blocks, &list);
    volume.header.free_blocks = free;
    let link = new_link(
        volume.header.next_catalog_id,
        volume.header.modify_date,
        fork,
    );
    add_record(volume, alloc, space, id, name, false, &link)?;
    volume.touch(alloc, space, id, 1, 0)
}

/// Makes a link of this name in the folder that a path reaches, for which nothing is missing. Where the space tells, no commit comes first.
fn link_under<P: SectorSpace>(
    alloc: Global,
    volume: &mut Volume,
    space: &mut P,
    number: u64,
    above: &[Units],
    name: &Units,
    target: &[u8],
) -> Result<Outcome, Trouble>
    requires serves { Serves volume.old (P.SectorView.space space.old) }
    requires fits { FitsPath (path_to above.now name.now) }
    // Only the journal's sectors are closed.
    requires closed { IsTrue (P.SectorView.space space.old).tells → (at : ℕ) → (P.SectorView.space space.old).closed at → IsJournalSector (P.SectorView.space space.old).content at }
    requires affords { IsTrue (P.SectorView.space space.old).tells → KindAffords (capacity_of volume.old) (edit.Symlink (path_to above.now name.now) target.now) (P.SectorView.space space.old).content }
    // There is room for it.
    requires now { IsTrue (P.SectorView.space space.old).tells → KindFitsNow (0 ∷ 0 ∷ 0 ∷ []) volume.old (P.SectorView.space space.old) (edit.Symlink (path_to above.now name.now) target.now) }
    ensures answered { IsTrue (P.SectorView.space space.old).tells → IfOk result (λ outcome. KindStepsNow outcome (capacity_of volume.old) number (edit.Symlink (path_to above.now name.now) target.now) (P.SectorView.space space.old).content (P.SectorView.space space.new).content) }
    ensures done { IsTrue (P.SectorView.space space.old).tells → IfOk result (λ it. it ≢ outcome.CommitFirst) }
    ensures place { IsTrue (P.SectorView.space space.old).tells → OnOk result (KeepsJournal (P.SectorView.space space.old).content (P.SectorView.space space.new).content) }
    ensures serves { OnOk result (Serves volume.new (P.SectorView.space space.new)) }
    ensures spills { Spills P.SectorView.space P.SectorView.follows (P.SectorView.space space.old).spare volume.old volume.new space.old space.new result }
{
    sound_has_plain_tree();
    let next = volume.header.next_catalog_id;
    match volume.folder(alloc, space, above)? {
        Ok(id) => {
            let Some(blocks) = link_room(volume, space, target.len()) else {
                return Ok(Outcome::CommitFirst);
            };
            volume.keep();
            link_in(volume, alloc, space, id, name, target, blocks)?;
            let changes = one_change(alloc, number, ChangeKind::Made, next, id, name)?;
            Ok(Outcome::Answered {
                reply: Reply::Ok,
                changes,
            })
        }
        // Where the space tells, the folder is there.
        Err(_why) => Ok(Outcome::CommitFirst),
    }
}

/// Makes a link for which nothing is missing. Where the space tells, no commit comes first.
pub(crate) fn make_link<P: SectorSpace>(
    alloc: Global,
    volume: &mut Volume,
    space: &mut P,
    number: u64,
    path: &Path,
    target: &[u8],
) -> Result<Outcome, Trouble>
    requires serves { Serves volume.old (P.SectorView.space space.old) }
    requires fits { FitsPath path.now }
    // Only the journal's sectors are closed.
    requires closed { IsTrue (P.SectorView.space space.old).tells → (at : ℕ) → (P.SectorView.space space.old).closed at → IsJournalSector (P.SectorView.space space.old).content at }
    requires affords { IsTrue (P.SectorView.space space.old).tells → KindAffords (capacity_of volume.old) (edit.Symlink path.now target.now) (P.SectorView.space space.old).content }
    // There is room for it.
    requires now { IsTrue (P.SectorView.space space.old).tells → KindFitsNow (0 ∷ 0 ∷ 0 ∷ []) volume.old (P.SectorView.space space.old) (edit.Symlink path.now target.now) }
    ensures answered { IsTrue (P.SectorView.space space.old).tells → IfOk result (λ outcome. KindStepsNow outcome (capacity_of volume.old) number (edit.Symlink path.now target.now) (P.SectorView.space space.old).content (P.SectorView.space space.new).content) }
    ensures done { IsTrue (P.SectorView.space space.old).tells → IfOk result (λ it. it ≢ outcome.CommitFirst) }
    ensures place { IsTrue (P.SectorView.space space.old).tells → OnOk result (KeepsJournal (P.SectorView.space space.old).content (P.SectorView.space space.new).content) }
    ensures serves { OnOk result (Serves volume.new (P.SectorView.space space.new)) }
    ensures spills { Spills P.SectorView.space P.SectorView.follows (P.SectorView.space space.old).spare volume.old volume.new space.old space.new result }
{
    match path.as_slice().split_last() {
        Some((name, above)) => link_under(alloc, volume, space, number, above, name, target),
        // Where the space tells, the path has a name.
        None => Ok(Outcome::CommitFirst),
    }
}
