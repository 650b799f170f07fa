//! Changes of the catalog of a volume in service.
ghost use Rattle.std.specs.Prelude.{◌≡◌, ◌≤◌, ℕ, List, [], None, false, IsTrue, length, OnOk, IfOk};
ghost use Rattle.btree_edit.specs.Edits.{EditRoom, TakesAtMost, TakesEdits};
ghost use Rattle.btree_file.specs.Frame.{FollowsOn};
ghost use Rattle.btree_file.specs.Standing.{numbers_of, pairs_in};
ghost use Rattle.btree_file.specs.State.{sectors_of_tree, state_of};
ghost use Rattle.catalog.specs.Entries.{AnswersAdd, Adding};
ghost use Rattle.cat_records.specs.Fits.{FitsRecord};
ghost use Rattle.hfs_volume.specs.Records.{placed_in, record_at, id_in, is_thread};
ghost use Rattle.volume_base.specs.Frame.{Edits};
ghost use Rattle.volume_base.specs.Standing.{StandsOver};

use crate::editing::add_entry;
use btree_edit::Inserted;
use cat_records::CatRecord;
use hx_bytes::{Trouble, Units};
use sector_disk::SectorSpace;
use std::alloc::Global;
use volume_base::Volume;

/// Adds a folder or file to a folder. The volume stands as before, with this entry and its thread in its catalog.
pub(crate) fn add<P: SectorSpace>(
    volume: &mut Volume,
    alloc: Global,
    space: &mut P,
    parent: u32,
    name: &Units,
    rec: &CatRecord,
) -> Result<Inserted, Trouble>
    requires stands { StandsOver volume.old (P.SectorView.space space.old) }
    requires size { 4096 ≤ (numbers_of volume.old.catalog.file).node_size }
    requires some { 1 ≤ length name.now }
    requires name { length name.now ≤ 255 }
    requires kind { is_thread rec.now ≡ false }
    requires fits { FitsRecord rec.now }
    requires unused { IsTrue (P.SectorView.space space.old).tells → record_at (placed_in (pairs_in (sectors_of_tree volume.old.catalog.file) (P.SectorView.space space.old).content)) (id_in rec.now) [] ≡ None }
    requires room { (names : List ℕ) → IsTrue (P.SectorView.space space.old).tells → EditRoom 2 516 (state_of names volume.old.catalog.file (P.SectorView.space space.old)) }
    // Nothing else of it is changed.
    ensures rest { volume.new ≡ record volume.old { catalog = volume.new.catalog } }
    ensures answer { IsTrue (P.SectorView.space space.old).tells → IfOk result (λ answer. AnswersAdd (record_at (placed_in (pairs_in (sectors_of_tree volume.old.catalog.file) (P.SectorView.space space.old).content)) parent name.now) answer) }
    ensures added { IsTrue (P.SectorView.space space.old).tells → IfOk result (λ answer. Adding (record { parent = parent; name = name.now; value = rec.now }) (pairs_in (sectors_of_tree volume.old.catalog.file) (P.SectorView.space space.old).content) (pairs_in (sectors_of_tree volume.old.catalog.file) (P.SectorView.space space.new).content) answer) }
    ensures edits { Edits P.SectorView.space P.SectorView.follows (P.SectorView.space space.old).spare volume.old volume.new space.old space.new result }
    ensures frame { FollowsOn volume.old.catalog.file volume.new.catalog.file (P.SectorView.space space.old) (P.SectorView.space space.new) }
    ensures takes_edits { (names : List ℕ) → OnOk result (TakesEdits 2 516 (state_of names volume.old.catalog.file (P.SectorView.space space.old)) (state_of names volume.new.catalog.file (P.SectorView.space space.new))) }
    ensures takes { (names : List ℕ) → TakesAtMost 2 516 (state_of names volume.old.catalog.file (P.SectorView.space space.old)) (state_of names volume.new.catalog.file (P.SectorView.space space.new)) }
{
    add_entry(
        alloc,
        &mut volume.catalog.file,
        &mut volume.catalog.desk,
        space,
        parent,
        name,
        rec,
    )
}
