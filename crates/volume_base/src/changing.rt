//! Changes of the catalog of a volume in service.
ghost use Rattle.std.specs.Prelude.{◌≡◌, ◌≤◌, ℕ, List, Some, false, IsTrue, length, OnOk, IfOk};
ghost use Rattle.btree_node.specs.Store.{HasRoom};
ghost use Rattle.btree_edit.specs.Editing.{CostsAtMost};
ghost use Rattle.btree_edit.specs.Edits.{EditRoom, TakesAtMost, TakesEdits};
ghost use Rattle.btree_file.specs.Frame.{FollowsOn};
ghost use Rattle.btree_file.specs.Standing.{numbers_of, pairs_in};
ghost use Rattle.btree_file.specs.State.{sectors_of_tree, state_of};
ghost use Rattle.catalog.specs.Entries.{AnswersRemoval, Removing, Updating, IsOfKind};
ghost use Rattle.catalog.specs.Rooms.{TakesUpdates};
ghost use Rattle.cat_records.specs.Fits.{FitsRecord};
ghost use Rattle.hfs_volume.specs.Entries.{AreSpelled, AreThreaded};
ghost use Rattle.hfs_volume.specs.Records.{Placed, placed_in, record_at, is_thread};
ghost use Rattle.volume_base.specs.Frame.{Edits};
ghost use Rattle.volume_base.specs.Standing.{StandsOver};

use crate::editing::{remove_entry, update_entry};
use crate::volume::Volume;
use btree_edit::Removed;
use cat_records::CatRecord;
use hx_bytes::{Trouble, Units};
use sector_disk::SectorSpace;
use std::alloc::Global;

impl Volume {
    /// Gives a folder or file another record, of its kind and CNID. The volume stands as before, with this one change of its catalog.
    pub(crate) fn update<P: SectorSpace>(
        &mut self,
        alloc: Global,
        space: &mut P,
        parent: u32,
        name: &Units,
        rec: &CatRecord,
    ) -> Result<Removed, Trouble>
        requires stands { StandsOver self.old (P.SectorView.space space.old) }
        requires size { 4096 ≤ (numbers_of self.old.catalog.file).node_size }
        requires spelled { IsTrue (P.SectorView.space space.old).tells → AreSpelled (pairs_in (sectors_of_tree self.old.catalog.file) (P.SectorView.space space.old).content) }
        requires name { length name.now ≤ 255 }
        requires kind { is_thread rec.now ≡ false }
        requires fits { FitsRecord rec.now }
        requires same_kind { IsTrue (P.SectorView.space space.old).tells → (entry : Placed) → record_at (placed_in (pairs_in (sectors_of_tree self.old.catalog.file) (P.SectorView.space space.old).content)) parent name.now ≡ Some entry → IsOfKind rec.now entry.value }
        requires room { (names : List ℕ) → IsTrue (P.SectorView.space space.old).tells → HasRoom 1 (state_of names self.old.catalog.file (P.SectorView.space space.old)) }
        // Nothing else of it is changed.
        ensures rest { self.new ≡ record self.old { catalog = self.new.catalog } }
        ensures answer { IsTrue (P.SectorView.space space.old).tells → IfOk result (λ answer. AnswersRemoval (record_at (placed_in (pairs_in (sectors_of_tree self.old.catalog.file) (P.SectorView.space space.old).content)) parent name.now) answer) }
        ensures updated { IsTrue (P.SectorView.space space.old).tells → IfOk result (λ answer. Updating parent name.now rec.now (pairs_in (sectors_of_tree self.old.catalog.file) (P.SectorView.space space.old).content) (pairs_in (sectors_of_tree self.old.catalog.file) (P.SectorView.space space.new).content) answer) }
        ensures takes { (names : List ℕ) → IsTrue (P.SectorView.space space.old).tells → CostsAtMost 1 0 (state_of names self.old.catalog.file (P.SectorView.space space.old)) (state_of names self.new.catalog.file (P.SectorView.space space.new)) }
        ensures updates { (names : List ℕ) → OnOk result (TakesUpdates 0 1 516 (state_of names self.old.catalog.file (P.SectorView.space space.old)) (state_of names self.new.catalog.file (P.SectorView.space space.new))) }
        ensures edits { Edits P.SectorView.space P.SectorView.follows (P.SectorView.space space.old).spare self.old self.new space.old space.new result }
        ensures frame { FollowsOn self.old.catalog.file self.new.catalog.file (P.SectorView.space space.old) (P.SectorView.space space.new) }
    {
        update_entry(
            alloc,
            &mut self.catalog.file,
            &mut self.catalog.desk,
            space,
            parent,
            name,
            rec,
        )
    }

    /// Removes a folder or file from a folder. The volume stands as before, without this entry and its thread in its catalog.
    pub fn remove<P: SectorSpace>(
        &mut self,
        alloc: Global,
        space: &mut P,
        parent: u32,
        name: &Units,
    ) -> Result<Removed, Trouble>
        requires stands { StandsOver self.old (P.SectorView.space space.old) }
        requires size { 4096 ≤ (numbers_of self.old.catalog.file).node_size }
        requires threads { IsTrue (P.SectorView.space space.old).tells → AreThreaded (pairs_in (sectors_of_tree self.old.catalog.file) (P.SectorView.space space.old).content) }
        requires some { 1 ≤ length name.now }
        requires name { length name.now ≤ 255 }
        requires room { (names : List ℕ) → IsTrue (P.SectorView.space space.old).tells → EditRoom 2 516 (state_of names self.old.catalog.file (P.SectorView.space space.old)) }
        // Nothing else of it is changed.
        ensures rest { self.new ≡ record self.old { catalog = self.new.catalog } }
        ensures answer { IsTrue (P.SectorView.space space.old).tells → IfOk result (λ answer. AnswersRemoval (record_at (placed_in (pairs_in (sectors_of_tree self.old.catalog.file) (P.SectorView.space space.old).content)) parent name.now) answer) }
        ensures removed { IsTrue (P.SectorView.space space.old).tells → IfOk result (λ answer. Removing parent name.now (pairs_in (sectors_of_tree self.old.catalog.file) (P.SectorView.space space.old).content) (pairs_in (sectors_of_tree self.old.catalog.file) (P.SectorView.space space.new).content) answer) }
        ensures edits { Edits P.SectorView.space P.SectorView.follows (P.SectorView.space space.old).spare self.old self.new space.old space.new result }
        ensures frame { FollowsOn self.old.catalog.file self.new.catalog.file (P.SectorView.space space.old) (P.SectorView.space space.new) }
        ensures takes_edits { (names : List ℕ) → OnOk result (TakesEdits 2 516 (state_of names self.old.catalog.file (P.SectorView.space space.old)) (state_of names self.new.catalog.file (P.SectorView.space space.new))) }
        ensures takes { (names : List ℕ) → TakesAtMost 2 516 (state_of names self.old.catalog.file (P.SectorView.space space.old)) (state_of names self.new.catalog.file (P.SectorView.space space.new)) }
    {
        remove_entry(
            alloc,
            &mut self.catalog.file,
            &mut self.catalog.desk,
            space,
            parent,
            name,
        )
    }
}
