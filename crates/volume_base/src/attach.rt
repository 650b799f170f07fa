//! A volume that comes into service.
ghost use Rattle.std.specs.Prelude.{ℕ, IsTrue, IfOk, Contains};
ghost use Rattle.btree_edit.specs.Causes.{HasTroubleCause};
ghost use Rattle.hfs_volume.specs.Aside.{IsJournalSector};
ghost use Rattle.volume_base.specs.Opening.{IsFresh, IsServable};
ghost use Rattle.volume_base.specs.Standing.{IsSettled, StandsOver, own_sectors_in};
ghost use Rattle.volume_base.specs.Touching.{Looks};

use crate::beginning::{attach_front, attach_trees};
use crate::opening::{find_private, load_map};
use crate::volume::{Kept, Volume};
use hx_bytes::Trouble;
use sector_disk::SectorSpace;
use std::alloc::Global;

impl Volume {
    /// The volume that a space holds, over a journal whose transactions hold so many sectors. It reads the header, the three trees' headers and
    /// maps, and the bitmap.
    pub fn attach<P: SectorSpace>(
        alloc: Global,
        space: &mut P,
        capacity: u64,
    ) -> Result<Volume, Trouble>
        requires servable { IsTrue (P.SectorView.space space.old).tells → IsServable (P.SectorView.space space.old).content }
        // The sectors that no put and no spill may reach are the journal's, and those that puts or live lists name are the volume's own.
        requires closed { IsTrue (P.SectorView.space space.old).tells → (at : ℕ) → (P.SectorView.space space.old).closed at → IsJournalSector (P.SectorView.space space.old).content at }
        requires live { IsTrue (P.SectorView.space space.old).tells → (at : ℕ) → (P.SectorView.space space.old).live at → Contains (own_sectors_in (P.SectorView.space space.old).content) at }
        ensures stands { IfOk result (λ volume. StandsOver volume (P.SectorView.space space.new)) }
        ensures settled { IsTrue (P.SectorView.space space.old).tells → IfOk result (λ volume. IsSettled volume (P.SectorView.space space.new).content) }
        // No block is held, and an undo changes nothing.
        ensures fresh { IfOk result (λ volume. IsFresh capacity volume) }
        ensures looks { Looks (λ at. Contains (own_sectors_in (P.SectorView.space space.old).content) at) (P.SectorView.space space.old) (P.SectorView.space space.new) }
        ensures below { P.SectorView.follows space.old space.new }
        ensures cause { HasTroubleCause (P.SectorView.space space.old).faults (P.SectorView.space space.new).faults result }
    {
        let front = attach_front(alloc, space)?;
        let header = front.header;
        let mut extents = front.extents;
        let trees = attach_trees(alloc, space, &header, &mut extents)?;
        let mut catalog = trees.catalog;
        let map = load_map(alloc, space, &mut extents, &header)?;
        let private = find_private(alloc, space, &mut catalog)?;
        Ok(Volume {
            header,
            map,
            extents,
            catalog,
            attributes: trees.attributes,
            private,
            shrunk: None,
            capacity,
            kept: Kept {
                header,
                private,
                shrunk: None,
            },
            filling: None,
        })
    }
}
