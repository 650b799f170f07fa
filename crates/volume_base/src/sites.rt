//! The place of a new name.
ghost use Rattle.std.specs.Prelude.{◌≡◌, ◌≤◌, IsTrue, IfOk, length};
ghost use Rattle.std.specs.List.{All};
ghost use Rattle.btree_edit.specs.Causes.{HasTroubleCause};
ghost use Rattle.btree_file.specs.Standing.{pairs_in};
ghost use Rattle.btree_file.specs.State.{sectors_of_tree};
ghost use Rattle.hfs_language.specs.Written.{FitsPath};
ghost use Rattle.volume_base.specs.Frame.{Looked, Serves};
ghost use Rattle.volume_base.specs.Looking.{IsCatalogOver, ReadsTree};
ghost use Rattle.volume_base.specs.Lists.{lists_of};
ghost use Rattle.volume_base.specs.Making.{site_under, untaken};
ghost use Rattle.volume_base.specs.Reaching.{folder_in};

use crate::looking::lookup_record;
use crate::reaching::{Reached, find_folder, named};
use crate::volume::Volume;
use btree_edit::Desk;
use btree_file::TreeFile;
use hfs_language::Refusal;
use hx_bytes::{Trouble, Units};
use sector_disk::SectorSpace;
use std::alloc::Global;

/// The folder of a new name, unless the name is taken.
fn untaken(id: u32, there: Result<Reached, Refusal>) -> Result<u32, Refusal>
    ensures { result ≡ untaken id there }
{
    match there {
        Ok(_) => Err(Refusal::Exists),
        Err(_) => Ok(id),
    }
}

/// The folder that a path reaches, if this name may be made in it; or the first reason against it.
pub(crate) fn find_site<P: SectorSpace>(
    alloc: Global,
    tree: &mut TreeFile,
    desk: &mut Desk,
    space: &mut P,
    above: &[Units],
    name: &Units,
) -> Result<Result<u32, Refusal>, Trouble>
    requires over { IsCatalogOver tree.old desk.old (P.SectorView.space space.old) }
    requires names { All (λ name. length name ≤ 255) above.now }
    requires name { length name.now ≤ 255 }
    ensures found { IsTrue (P.SectorView.space space.old).tells → IfOk result (λ said. said ≡ site_under (pairs_in (sectors_of_tree tree.old) (P.SectorView.space space.old).content) above.now name.now) }
    ensures over { IsCatalogOver tree.new desk.new (P.SectorView.space space.new) }
    ensures reads { ReadsTree tree.old tree.new (P.SectorView.space space.old) (P.SectorView.space space.new) }
    ensures below { P.SectorView.follows space.old space.new }
    ensures cause { HasTroubleCause (P.SectorView.space space.old).faults (P.SectorView.space space.new).faults result }
{
    match find_folder(alloc, tree, desk, space, above)? {
        Ok(id) => {
            let found = lookup_record(alloc, tree, desk, space, id, name)?;
            Ok(untaken(id, named(found)))
        }
        Err(why) => Ok(Err(why)),
    }
}

impl Volume {
    /// The CNID of the folder that a path reaches, or the first reason against it. `Memory` comes where memory is wanting, `Disk` where
    /// a read failed.
    pub fn folder<P: SectorSpace>(
        &mut self,
        alloc: Global,
        space: &mut P,
        path: &[Units],
    ) -> Result<Result<u32, Refusal>, Trouble>
        requires serves { Serves self.old (P.SectorView.space space.old) }
        requires fits { FitsPath path.now }
        ensures found { IsTrue (P.SectorView.space space.old).tells → IfOk result (λ said. said ≡ folder_in (lists_of self.old (P.SectorView.space space.old).content).catalog_pairs path.now) }
        ensures looked { Looked P.SectorView.space P.SectorView.follows self.old self.new space.old space.new result }
        ensures serves { Serves self.new (P.SectorView.space space.new) }
    {
        find_folder(
            alloc,
            &mut self.catalog.file,
            &mut self.catalog.desk,
            space,
            path,
        )
    }

    /// The folder that a path reaches, if this name may be made in it; or the first reason against it.
    pub fn site<P: SectorSpace>(
        &mut self,
        alloc: Global,
        space: &mut P,
        above: &[Units],
        name: &Units,
    ) -> Result<Result<u32, Refusal>, Trouble>
        requires serves { Serves self.old (P.SectorView.space space.old) }
        requires fits { FitsPath above.now }
        requires name { length name.now ≤ 255 }
        ensures found { IsTrue (P.SectorView.space space.old).tells → IfOk result (λ said. said ≡ site_under (lists_of self.old (P.SectorView.space space.old).content).catalog_pairs above.now name.now) }
        ensures looked { Looked P.SectorView.space P.SectorView.follows self.old self.new space.old space.new result }
        ensures serves { Serves self.new (P.SectorView.space space.new) }
    {
        find_site(
            alloc,
            &mut self.catalog.file,
            &mut self.catalog.desk,
            space,
            above,
            name,
        )
    }
}
