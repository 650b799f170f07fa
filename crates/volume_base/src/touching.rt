//! The folder above what a command makes, moves or removes.
ghost use Rattle.std.specs.Prelude.{ℕ, ◌≡◌, ◌<◌, ◌+◌, ◌^◌, List, Some, false, true, IsTrue, OnOk};
ghost use Rattle.btree_file.specs.Standing.{numbers_of};
ghost use Rattle.btree_file.specs.State.{state_of};
ghost use Rattle.catalog.specs.Rooms.{TakesUpdates};
ghost use Rattle.cat_records.specs.Fits.{FitsRecord};
ghost use Rattle.hfs_volume.specs.Entries.{AreThreaded};
ghost use Rattle.hfs_volume.specs.Records.{id_in, is_folder, is_thread, valence_in};
ghost use Rattle.volume_base.specs.Changing.{HasFolder, HasRoomToUpdate, HasRoomToUpdates, TouchesFolder, catalog_node};
ghost use Rattle.volume_base.specs.Frame.{Edits, MayUpdate};
ghost use Rattle.volume_base.specs.Lists.{lists_of};
ghost use Rattle.volume_base.specs.Standing.{StandsOver};

use crate::entries::Entry;
use crate::fields::touched;
use crate::volume::Volume;
use hx_bytes::Trouble;
use sector_disk::SectorSpace;
use std::alloc::Global;

impl Volume {
    /// Lets a folder that was found count so many entries more, and so many less, at the volume's moment. The volume stands as before, with
    /// this one change of its catalog.
    pub fn put_touched<P: SectorSpace>(
        &mut self,
        alloc: Global,
        space: &mut P,
        entry: &Entry,
        up: u32,
        down: u32,
    ) -> Result<(), Trouble>
        requires ready { MayUpdate self.old entry.now (P.SectorView.space space.old) }
        requires fits { is_thread entry.now.rec ≡ false → FitsRecord entry.now.rec }
        ensures counts { IsTrue (P.SectorView.space space.old).tells → is_folder entry.now.rec ≡ true → valence_in entry.now.rec + up < 2 ^ 32
            → OnOk result (TouchesFolder (id_in entry.now.rec) up down self.old self.new (P.SectorView.space space.old).content (P.SectorView.space space.new).content) }
        ensures edits { Edits P.SectorView.space P.SectorView.follows (catalog_node self.old) self.old self.new space.old space.new result }
        // It is one update of the catalog's tree.
        ensures updates { (names : List ℕ) → OnOk result (TakesUpdates 0 1 516 (state_of names self.old.catalog.file (P.SectorView.space space.old)) (state_of names self.new.catalog.file (P.SectorView.space space.new))) }
        // What is left of the room for so many updates suffices for the others.
        ensures room { (many : ℕ) → HasRoomToUpdates (many + 1) self.old (P.SectorView.space space.old) → OnOk result (HasRoomToUpdates many self.new (P.SectorView.space space.new)) }
        ensures size { (numbers_of self.new.catalog.file).node_size ≡ (numbers_of self.old.catalog.file).node_size }
    {
        let Some(rec) = touched(self.header.modify_date, up, down, &entry.rec) else {
            return Ok(());
        };
        self.replace(alloc, space, entry, &rec)
    }

    /// Lets the folder with a CNID count so many entries more, and so many less, at the volume's moment. The volume stands
    /// as before, with this one change of its catalog.
    pub fn touch<P: SectorSpace>(
        &mut self,
        alloc: Global,
        space: &mut P,
        id: u32,
        up: u32,
        down: u32,
    ) -> Result<(), Trouble>
        requires stands { StandsOver self.old (P.SectorView.space space.old) }
        requires threads { IsTrue (P.SectorView.space space.old).tells → AreThreaded (lists_of self.old (P.SectorView.space space.old).content).catalog_pairs }
        requires there { IsTrue (P.SectorView.space space.old).tells → HasFolder id up (lists_of self.old (P.SectorView.space space.old).content).catalog_pairs }
        requires room { HasRoomToUpdate self.old (P.SectorView.space space.old) }
        ensures counts { IsTrue (P.SectorView.space space.old).tells → OnOk result (TouchesFolder id up down self.old self.new (P.SectorView.space space.old).content (P.SectorView.space space.new).content) }
        ensures edits { Edits P.SectorView.space P.SectorView.follows (catalog_node self.old) self.old self.new space.old space.new result }
        // What is left of the room for so many updates suffices for the others.
        ensures room { (many : ℕ) → HasRoomToUpdates (many + 1) self.old (P.SectorView.space space.old) → OnOk result (HasRoomToUpdates many self.new (P.SectorView.space space.new)) }
        ensures size { (numbers_of self.new.catalog.file).node_size ≡ (numbers_of self.old.catalog.file).node_size }
    {
        match self.entry(alloc, space, id)? {
            Some(entry) => self.put_touched(alloc, space, &entry, up, down),
            None => Ok(()),
        }
    }
}
