//! Whether there is room for a command now, by what its edits cost.
ghost use Rattle.std.specs.Prelude.{◌≡◌, ◌<◌, ◌≤◌, ◌/◌, ◌==◌, false, not, IsTrue};
ghost use Rattle.hfs_volume.specs.Content.{volume_of, has_attributes};
ghost use Rattle.hfs_volume.specs.Cost.{cost_of};
ghost use Rattle.hfs_volume.specs.Weight.{room_with};
ghost use Rattle.volume_base.specs.Attributing.{HasRoomForValue};
ghost use Rattle.volume_base.specs.Changing.{HasRoomToUpdate};
ghost use Rattle.volume_base.specs.Fitting.{AreMet, AreMetValued, is_met, takable_of, wants};
ghost use Rattle.volume_base.specs.Frame.{Serves};
ghost use Rattle.volume_base.specs.Removing.{HasRoomToRemove};
ghost use Rattle.volume_base.specs.Room.{capacity_of, free_in};
ghost use Rattle.volume_base.specs.declared.room.FreeBlocks.TheVariants as blocks;
ghost use Rattle.volume_base.specs.Weighing.{AreUsual, needs_asked, needs_valued};

use crate::room::FreeBlocks;
use crate::volume::Volume;
use crate::weighing::Edits;
use btree_node::TreeShape;
use hfs_volume::{Cost, ValueChange};
use sector_disk::SectorSpace;
use tree_weights::{a_load_is_of_parts, a_load_says_enough};

/// Whether this is a load that so many sectors suffice for, without growth of the catalog or of the attributes file.
fn is_met(cost: Cost, spare: u64) -> bool
    ensures { result ≡ is_met cost spare }
{
    match cost {
        Cost::Refused(_) => false,
        Cost::Load { sectors, grow } => grow[1] == 0 && (grow[2] == 0 && sectors <= spare),
    }
}

/// Whether a node of a tree with these numbers may be put.
fn node_fits(shape: TreeShape, spare: u64) -> bool
    ensures fits { IsTrue result → shape.node_size / 512 ≤ spare }
    ensures sure { shape.node_size / 512 ≤ spare → IsTrue result }
{
    u64::from(shape.node_size / 512) <= spare
}

/// Whether a sector may be put.
pub fn has_sector(spare: u64) -> bool
    ensures fits { IsTrue result → 1 ≤ spare }
    ensures sure { 1 ≤ spare → IsTrue result }
{
    0 < spare
}

/// Whether an attributes file of this size is there.
pub fn has_tree(size: u64) -> bool
    ensures { result ≡ not (size == 0) }
{
    size != 0
}

impl Volume {
    /// Whether edits can be made now, by what they cost.
    pub fn can_edit<P: SectorSpace>(&self, space: &P, edits: Edits) -> bool
        requires serves { Serves self.now (P.SectorView.space space.now) }
        requires tree { IsTrue (P.SectorView.space space.now).tells → 0 < edits.attributes → IsTrue (has_attributes self.now.header) }
        ensures { IsTrue (P.SectorView.space space.now).tells
            → result ≡ is_met (cost_of (needs_asked edits) (room_with (capacity_of self.now) (free_in blocks.Takable self.now.map) (volume_of (P.SectorView.space space.now).content))) (P.SectorView.space space.now).spare }
    {
        let cost = self.cost_of_edits(space, FreeBlocks::Takable, edits);
        is_met(cost, space.spare())
    }

    /// Whether there is room to update a record of the catalog in place.
    pub fn fits_update<P: SectorSpace>(&self, space: &P) -> bool
        ensures room { IsTrue result → HasRoomToUpdate self.now (P.SectorView.space space.now) }
        ensures met { self.now.catalog.file.shape.node_size / 512 ≤ (P.SectorView.space space.now).spare → IsTrue result }
    {
        node_fits(self.catalog.file.shape(), space.spare())
    }

    /// Whether there is room to remove a folder without attributes.
    pub fn fits_remove<P: SectorSpace>(&self, space: &P) -> bool
        requires serves { Serves self.now (P.SectorView.space space.now) }
        ensures room { IsTrue result → HasRoomToRemove self.now (P.SectorView.space space.now) }
        ensures met { IsTrue (P.SectorView.space space.now).tells → AreMet (wants 0 2 0 1) self.now (P.SectorView.space space.now) → IsTrue result }
    {
        a_load_says_enough();
        a_load_is_of_parts();
        if !has_sector(space.spare()) {
            return false;
        }
        let edits = Edits {
            ids: 0,
            catalog: 2,
            attributes: 0,
            updates: 1,
        };
        self.can_edit(space, edits)
    }

    /// Whether edits that also change values can be made now, by what they cost.
    pub fn can_change_values<P: SectorSpace>(
        &self,
        space: &P,
        edits: Edits,
        change: ValueChange,
    ) -> bool
        requires serves { Serves self.now (P.SectorView.space space.now) }
        requires tree { IsTrue (P.SectorView.space space.now).tells → IsTrue (has_attributes self.now.header) }
        requires small { IsTrue (P.SectorView.space space.now).tells → AreUsual edits.attributes change }
        ensures { IsTrue (P.SectorView.space space.now).tells
            → result ≡ is_met (cost_of (needs_valued (takable_of self.now) edits change) (room_with (capacity_of self.now) (takable_of self.now) (volume_of (P.SectorView.space space.now).content))) (P.SectorView.space space.now).spare }
    {
        let cost = self.cost_of_values(space, FreeBlocks::Takable, edits, change);
        is_met(cost, space.spare())
    }

    /// Whether there is room for so many edits that set or delete an attribute with this change of its value, and to mark its owner.
    pub fn fits_value<P: SectorSpace>(&self, space: &P, edits: u32, change: ValueChange) -> bool
        requires serves { Serves self.now (P.SectorView.space space.now) }
        requires small { IsTrue (P.SectorView.space space.now).tells → AreUsual edits change }
        ensures room { IsTrue result → HasRoomForValue edits change self.now (P.SectorView.space space.now) }
        ensures met { IsTrue (P.SectorView.space space.now).tells → IsTrue (has_attributes self.now.header) → AreMetValued (wants 0 0 edits 1) change self.now (P.SectorView.space space.now) → IsTrue result }
    {
        a_load_says_enough();
        a_load_is_of_parts();
        if !has_tree(self.header.attributes_fork.logical_size) {
            return self.fits_update(space);
        }
        let edits = Edits {
            ids: 0,
            catalog: 0,
            attributes: edits,
            updates: 1,
        };
        self.can_change_values(space, edits, change)
    }
}
