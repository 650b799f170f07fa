//! The attributes of a folder or file, removed.
ghost use Rattle.std.specs.Prelude.{◌≡◌, false, IsTrue, IfOk, length};
ghost use Rattle.attributes.specs.Owned.{names_of};
ghost use Rattle.hfs_volume.specs.Content.{has_attributes};
ghost use Rattle.volume_base.specs.Frame.{Looked, Serves};
ghost use Rattle.volume_base.specs.Lists.{lists_of};

use crate::owning::list_owned;
use crate::volume::Volume;
use hx_bytes::{Names, Trouble};
use sector_disk::SectorSpace;
use std::alloc::Global;

impl Volume {
    /// The names of the attributes of a folder or file; a volume without an attributes file has none.
    pub fn list_attributes<P: SectorSpace>(
        &mut self,
        alloc: Global,
        space: &mut P,
        id: u32,
    ) -> Result<Names, Trouble>
        requires serves { Serves self.old (P.SectorView.space space.old) }
        ensures listed { IsTrue (P.SectorView.space space.old).tells → IfOk result (λ owned. owned ≡ names_of id (lists_of self.old (P.SectorView.space space.old).content).attribute_pairs) }
        ensures none { has_attributes self.old.header ≡ false → IfOk result (λ owned. length owned ≡ 0) }
        ensures looked { Looked P.SectorView.space P.SectorView.follows self.old self.new space.old space.new result }
        ensures serves { Serves self.new (P.SectorView.space space.new) }
    {
        if self.header.attributes_fork.logical_size == 0 {
            return Ok(Names::new(alloc));
        }
        list_owned(
            alloc,
            &mut self.attributes.file,
            &mut self.attributes.desk,
            space,
            id,
        )
    }
}
