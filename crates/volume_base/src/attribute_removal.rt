//! `delattr`: an attribute of a folder or file, deleted.
ghost use Rattle.std.specs.Prelude.{◌≡◌, ◌≤◌, Ok, Some, nat_lt, IsTrue, IfOk, IfSome, length};
ghost use Rattle.attributes.specs.Owned.{names_of};
ghost use Rattle.btree_edit.specs.Causes.{HasTroubleCause};
ghost use Rattle.btree_file.specs.Standing.{pairs_in};
ghost use Rattle.btree_file.specs.State.{sectors_of_tree};
ghost use Rattle.hfs_volume.specs.Content.{has_attributes};
ghost use Rattle.volume_base.specs.Attributing.{others_owned};
ghost use Rattle.volume_base.specs.Frame.{Looked, Serves};
ghost use Rattle.volume_base.specs.Lists.{lists_of};
ghost use Rattle.volume_base.specs.Looking.{IsAttributesOver, ReadsTree};

use crate::owning::list_owned;
use crate::values::find_value;
use crate::volume::Volume;
use btree_edit::Desk;
use btree_file::TreeFile;
use hx_bytes::{Trouble, Units};
use sector_disk::SectorSpace;
use std::alloc::Global;

/// Whether a folder or file has more than one attribute.
fn count_owned<P: SectorSpace>(
    alloc: Global,
    tree: &mut TreeFile,
    desk: &mut Desk,
    space: &mut P,
    id: u32,
) -> Result<Option<bool>, Trouble>
    requires over { IsAttributesOver tree.old desk.old (P.SectorView.space space.old) }
    ensures counted { IsTrue (P.SectorView.space space.old).tells → IfOk result (λ said. said ≡ Some (nat_lt 1 (length (names_of id (pairs_in (sectors_of_tree tree.old) (P.SectorView.space space.old).content))))) }
    ensures over { IsAttributesOver tree.new desk.new (P.SectorView.space space.new) }
    ensures reads { ReadsTree tree.old tree.new (P.SectorView.space space.old) (P.SectorView.space space.new) }
    ensures below { P.SectorView.follows space.old space.new }
    ensures cause { HasTroubleCause (P.SectorView.space space.old).faults (P.SectorView.space space.new).faults result }
{
    let names = list_owned(alloc, tree, desk, space, id)?;
    Ok(Some(names.len() > 1))
}

/// Whether a folder or file has more than one attribute; none where it has none of the name.
fn find_owned<P: SectorSpace>(
    alloc: Global,
    tree: &mut TreeFile,
    desk: &mut Desk,
    space: &mut P,
    id: u32,
    name: &Units,
) -> Result<Option<bool>, Trouble>
    requires over { IsAttributesOver tree.old desk.old (P.SectorView.space space.old) }
    requires name { length name.now ≤ 127 }
    ensures found { IsTrue (P.SectorView.space space.old).tells → IfOk result (λ said. said ≡ others_owned (pairs_in (sectors_of_tree tree.old) (P.SectorView.space space.old).content) id name.now) }
    ensures over { IsAttributesOver tree.new desk.new (P.SectorView.space space.new) }
    ensures reads { ReadsTree tree.old tree.new (P.SectorView.space space.old) (P.SectorView.space space.new) }
    ensures below { P.SectorView.follows space.old space.new }
    ensures cause { HasTroubleCause (P.SectorView.space space.old).faults (P.SectorView.space space.new).faults result }
{
    match find_value(alloc, tree, desk, space, id, name)? {
        Some(_value) => count_owned(alloc, tree, desk, space, id),
        None => Ok(None),
    }
}

impl Volume {
    /// Whether a folder or file has more than one attribute; none where it has none of the name, as in a volume without an
    /// attributes file.
    pub fn owned<P: SectorSpace>(
        &mut self,
        alloc: Global,
        space: &mut P,
        id: u32,
        name: &Units,
    ) -> Result<Option<bool>, Trouble>
        requires serves { Serves self.old (P.SectorView.space space.old) }
        requires name { length name.now ≤ 127 }
        ensures found { IsTrue (P.SectorView.space space.old).tells → IfOk result (λ said. said ≡ others_owned (lists_of self.old (P.SectorView.space space.old).content).attribute_pairs id name.now) }
        ensures has { IfOk result (λ said. IfSome said (λ more. IsTrue (has_attributes self.old.header))) }
        ensures looked { Looked P.SectorView.space P.SectorView.follows self.old self.new space.old space.new result }
        ensures serves { Serves self.new (P.SectorView.space space.new) }
    {
        if self.header.attributes_fork.logical_size == 0 {
            return Ok(None);
        }
        find_owned(
            alloc,
            &mut self.attributes.file,
            &mut self.attributes.desk,
            space,
            id,
            name,
        )
    }
}
