//! What the edits of a command cost a volume.
ghost use Rattle.std.specs.Prelude.{◌≡◌, ◌<◌, IsTrue};
ghost use Rattle.hfs_volume.specs.Content.{volume_of, has_attributes};
ghost use Rattle.volume_base.specs.Frame.{Serves};
ghost use Rattle.volume_base.specs.Room.{capacity_of, free_in};
ghost use Rattle.volume_base.specs.declared.room.FreeBlocks.TheVariants as blocks;
ghost use Rattle.volume_base.specs.Weighing.{AreUsual, edits_weighed, joined, values_weighed};

use hfs_volume::{Cost, ValueChange};
use sector_disk::SectorSpace;
use volume_base::{Edits, FreeBlocks, Volume, Weight};

/// What all free blocks cost, and what those cost that may be taken, together.
pub(crate) fn joined(all: Cost, takable: Cost) -> Weight
    ensures { result ≡ joined all takable }
{
    match all {
        Cost::Refused(why) => Weight::Refused(why),
        Cost::Load { grow, .. } => match takable {
            Cost::Refused(_) => Weight::CommitFirst,
            Cost::Load {
                sectors,
                grow: more,
            } => {
                if grow[0] == more[0] && grow[2] == more[2] {
                    Weight::Load { sectors, grow }
                } else {
                    Weight::CommitFirst
                }
            }
        },
    }
}

/// What edits weigh: what all free blocks cost, and what those cost that may be taken.
pub fn weigh_edits<P: SectorSpace>(volume: &Volume, space: &P, edits: Edits) -> Weight
    requires serves { Serves volume.now (P.SectorView.space space.now) }
    requires tree { IsTrue (P.SectorView.space space.now).tells → 0 < edits.attributes → IsTrue (has_attributes volume.now.header) }
    ensures exact { IsTrue (P.SectorView.space space.now).tells → result ≡ edits_weighed (capacity_of volume.now) (free_in blocks.Takable volume.now.map) (volume_of (P.SectorView.space space.now).content) edits }
{
    let all = volume.cost_of_edits(space, FreeBlocks::All, edits);
    let takable = volume.cost_of_edits(space, FreeBlocks::Takable, edits);
    joined(all, takable)
}

/// What edits weigh that also change values: what all free blocks cost, and what those cost that may be taken.
pub(crate) fn weigh_values<P: SectorSpace>(
    volume: &Volume,
    space: &P,
    edits: Edits,
    change: ValueChange,
) -> Weight
    requires serves { Serves volume.now (P.SectorView.space space.now) }
    requires tree { IsTrue (P.SectorView.space space.now).tells → IsTrue (has_attributes volume.now.header) }
    requires small { IsTrue (P.SectorView.space space.now).tells → AreUsual edits.attributes change }
    ensures exact { IsTrue (P.SectorView.space space.now).tells → result ≡ values_weighed (capacity_of volume.now) (free_in blocks.Takable volume.now.map) (volume_of (P.SectorView.space space.now).content) edits change }
{
    let all = volume.cost_of_values(space, FreeBlocks::All, edits, change);
    let takable = volume.cost_of_values(space, FreeBlocks::Takable, edits, change);
    joined(all, takable)
}
