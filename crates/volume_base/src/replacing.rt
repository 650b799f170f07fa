//! Another record of a folder or file, where it stands.
ghost use Rattle.std.specs.Prelude.{ℕ, ◌≡◌, ◌+◌, List, false, IsTrue, OnOk};
ghost use Rattle.catalog.specs.Entries.{IsOfKind};
ghost use Rattle.btree_file.specs.Standing.{numbers_of};
ghost use Rattle.btree_file.specs.State.{state_of};
ghost use Rattle.catalog.specs.Rooms.{TakesUpdates};
ghost use Rattle.cat_records.specs.Fits.{FitsRecord};
ghost use Rattle.hfs_volume.specs.Records.{is_thread};
ghost use Rattle.volume_base.specs.Changing.{HasRoomToUpdates, ReplacesRecord, catalog_node};
ghost use Rattle.volume_base.specs.Frame.{Edits, MayUpdate};

use crate::entries::Entry;
use crate::volume::Volume;
use cat_records::CatRecord;
use hx_bytes::Trouble;
use sector_disk::SectorSpace;
use std::alloc::Global;

impl Volume {
    /// Gives a folder or file another record of its kind and CNID, where it stands. The volume stands as before, with this
    /// one change of its catalog.
    pub fn replace<P: SectorSpace>(
        &mut self,
        alloc: Global,
        space: &mut P,
        entry: &Entry,
        rec: &CatRecord,
    ) -> Result<(), Trouble>
        requires ready { MayUpdate self.old entry.now (P.SectorView.space space.old) }
        requires kind { is_thread rec.now ≡ false }
        requires fits { FitsRecord rec.now }
        requires same_kind { IsOfKind rec.now entry.now.rec }
        // Nothing else of it is changed.
        ensures rest { self.new ≡ record self.old { catalog = self.new.catalog } }
        ensures replaces { IsTrue (P.SectorView.space space.old).tells → OnOk result (ReplacesRecord entry.now rec.now self.old self.new (P.SectorView.space space.old).content (P.SectorView.space space.new).content) }
        ensures edits { Edits P.SectorView.space P.SectorView.follows (catalog_node self.old) self.old self.new space.old space.new result }
        // It is one update of the catalog's tree.
        ensures updates { (names : List ℕ) → OnOk result (TakesUpdates 0 1 516 (state_of names self.old.catalog.file (P.SectorView.space space.old)) (state_of names self.new.catalog.file (P.SectorView.space space.new))) }
        // What is left of the room for so many updates suffices for the others.
        ensures room { (many : ℕ) → HasRoomToUpdates (many + 1) self.old (P.SectorView.space space.old) → OnOk result (HasRoomToUpdates many self.new (P.SectorView.space space.new)) }
        ensures size { (numbers_of self.new.catalog.file).node_size ≡ (numbers_of self.old.catalog.file).node_size }
    {
        // The least node size that the format allows the catalog (TN1150, "Catalog File").
        if self.catalog.file.shape().node_size < 4096 {
            return Ok(());
        }
        self.update(alloc, space, entry.parent, &entry.name, rec)?;
        Ok(())
    }
}
