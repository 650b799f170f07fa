//! Changes of the attributes of a volume in service.
ghost use Rattle.std.specs.Prelude.{◌≡◌, ◌≤◌, ℕ, List, IsTrue, length, IfOk, OnOk};
ghost use Rattle.attributes.specs.Values.{AreValued, extents_at, records_at};
ghost use Rattle.btree_edit.specs.Edits.{EditRoom, TakesAtMost};
ghost use Rattle.btree_file.specs.Frame.{FollowsOn};
ghost use Rattle.btree_file.specs.Standing.{numbers_of};
ghost use Rattle.btree_file.specs.State.{state_of};
ghost use Rattle.hfs_volume.specs.Changes.{DropsAttribute};
ghost use Rattle.hfs_volume.specs.Content.{has_attributes};
ghost use Rattle.volume_base.specs.Attributing.{ChangesAttributes};
ghost use Rattle.volume_base.specs.Frame.{Edits};
ghost use Rattle.volume_base.specs.Lists.{lists_of};
ghost use Rattle.volume_base.specs.Standing.{StandsOver};

use crate::valuing::delete_value;
use crate::volume::Volume;
use attributes::Deleted;
use fork_map::ExtentList;
use hx_bytes::{Trouble, Units};
use sector_disk::SectorSpace;
use std::alloc::Global;

impl Volume {
    /// Deletes an attribute of a folder or file, whose records are at most `most`, and answers the blocks that its value had, which aren't given
    /// back. The volume stands as before, with this one change of its attributes.
    pub fn delete<P: SectorSpace>(
        &mut self,
        alloc: Global,
        space: &mut P,
        id: u32,
        name: &Units,
        most: u32,
    ) -> Result<ExtentList, Trouble>
        requires stands { StandsOver self.old (P.SectorView.space space.old) }
        requires has { IsTrue (has_attributes self.old.header) }
        requires size { 4096 ≤ (numbers_of self.old.attributes.file).node_size }
        requires values { IsTrue (P.SectorView.space space.old).tells → AreValued (lists_of self.old (P.SectorView.space space.old).content).attribute_pairs }
        requires name { length name.now ≤ 127 }
        requires few { IsTrue (P.SectorView.space space.old).tells → records_at (lists_of self.old (P.SectorView.space space.old).content).attribute_pairs id name.now ≤ most }
        requires room { (names : List ℕ) → IsTrue (P.SectorView.space space.old).tells → EditRoom most 266 (state_of names self.old.attributes.file (P.SectorView.space space.old)) }
        ensures blocks { IsTrue (P.SectorView.space space.old).tells → IfOk result (λ blocks. blocks ≡ extents_at (lists_of self.old (P.SectorView.space space.old).content).attribute_pairs id name.now) }
        // Nothing else of it is changed.
        ensures rest { self.new ≡ record self.old { attributes = self.new.attributes } }
        ensures deletes { IsTrue (P.SectorView.space space.old).tells → OnOk result (ChangesAttributes (DropsAttribute id name.now) self.old self.new (P.SectorView.space space.old).content (P.SectorView.space space.new).content) }
        ensures edits { Edits P.SectorView.space P.SectorView.follows (P.SectorView.space space.old).spare self.old self.new space.old space.new result }
        ensures takes { (names : List ℕ) → TakesAtMost most 266 (state_of names self.old.attributes.file (P.SectorView.space space.old)) (state_of names self.new.attributes.file (P.SectorView.space space.new)) }
        ensures frame { FollowsOn self.old.attributes.file self.new.attributes.file (P.SectorView.space space.old) (P.SectorView.space space.new) }
    {
        let answer = delete_value(
            alloc,
            &mut self.attributes.file,
            &mut self.attributes.desk,
            space,
            id,
            name,
            most,
        )?;
        match answer {
            Deleted::Done(blocks) => Ok(blocks),
            Deleted::NoAttribute => Ok(ExtentList::new(alloc)),
        }
    }
}
