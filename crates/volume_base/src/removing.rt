//! `rmdir`: a folder is removed.
ghost use Rattle.std.specs.Prelude.{◌≡◌, ◌≤◌, Ok, IsTrue, IfOk, length};
ghost use Rattle.std.specs.List.{All};
ghost use Rattle.btree_edit.specs.Causes.{HasTroubleCause};
ghost use Rattle.btree_file.specs.Standing.{pairs_in};
ghost use Rattle.btree_file.specs.State.{sectors_of_tree};
ghost use Rattle.hfs_language.specs.Written.{FitsPath};
ghost use Rattle.hfs_model.specs.Step.{then_};
ghost use Rattle.volume_base.specs.Frame.{Looked, Serves};
ghost use Rattle.volume_base.specs.Lists.{lists_of};
ghost use Rattle.volume_base.specs.Looking.{IsCatalogOver, ReadsTree};
ghost use Rattle.volume_base.specs.Removing.{leaving_under, to_leave};

use crate::looking::lookup_record;
use crate::reaching::{Reached, find_folder, named};
use crate::volume::Volume;
use btree_edit::Desk;
use btree_file::TreeFile;
use hfs_language::Refusal;
use hx_bytes::{Trouble, Units};
use sector_disk::SectorSpace;
use std::alloc::Global;

/// A folder that may be removed: the CNID of the folder that it stands in, and its own.
#[derive(Clone, Copy)]
pub struct Leaving {
    pub parent: u32,
    pub id: u32,
}

/// What was reached in a folder, if it is a folder without an entry; or the first reason against its removal.
fn to_leave(parent: u32, there: Result<Reached, Refusal>) -> Result<Leaving, Refusal>
    ensures { result ≡ then_ there (to_leave parent) }
{
    match there {
        Ok(Reached::Root) => Err(Refusal::Root),
        Ok(Reached::Folder(folder)) => {
            if folder.fields.count == 0 {
                Ok(Leaving {
                    parent,
                    id: folder.fields.id,
                })
            } else {
                Err(Refusal::NotEmpty)
            }
        }
        Ok(Reached::File(_)) => Err(Refusal::NotFolder),
        Err(why) => Err(why),
    }
}

/// The folder of this name in the folder that a path reaches, if it may be removed; or the first reason against it.
fn find_leaving<P: SectorSpace>(
    alloc: Global,
    tree: &mut TreeFile,
    desk: &mut Desk,
    space: &mut P,
    above: &[Units],
    name: &Units,
) -> Result<Result<Leaving, Refusal>, Trouble>
    requires over { IsCatalogOver tree.old desk.old (P.SectorView.space space.old) }
    requires names { All (λ name. length name ≤ 255) above.now }
    requires name { length name.now ≤ 255 }
    ensures found { IsTrue (P.SectorView.space space.old).tells → IfOk result (λ said. said ≡ leaving_under (pairs_in (sectors_of_tree tree.old) (P.SectorView.space space.old).content) above.now name.now) }
    ensures over { IsCatalogOver tree.new desk.new (P.SectorView.space space.new) }
    ensures reads { ReadsTree tree.old tree.new (P.SectorView.space space.old) (P.SectorView.space space.new) }
    ensures below { P.SectorView.follows space.old space.new }
    ensures cause { HasTroubleCause (P.SectorView.space space.old).faults (P.SectorView.space space.new).faults result }
{
    match find_folder(alloc, tree, desk, space, above)? {
        Ok(id) => {
            let found = lookup_record(alloc, tree, desk, space, id, name)?;
            Ok(to_leave(id, named(found)))
        }
        Err(why) => Ok(Err(why)),
    }
}

impl Volume {
    /// The folder of this name in the folder that a path reaches, if it may be removed; or the first reason against it.
    pub fn leaving<P: SectorSpace>(
        &mut self,
        alloc: Global,
        space: &mut P,
        above: &[Units],
        name: &Units,
    ) -> Result<Result<Leaving, Refusal>, Trouble>
        requires serves { Serves self.old (P.SectorView.space space.old) }
        requires fits { FitsPath above.now }
        requires name { length name.now ≤ 255 }
        ensures found { IsTrue (P.SectorView.space space.old).tells → IfOk result (λ said. said ≡ leaving_under (lists_of self.old (P.SectorView.space space.old).content).catalog_pairs above.now name.now) }
        ensures looked { Looked P.SectorView.space P.SectorView.follows self.old self.new space.old space.new result }
        ensures serves { Serves self.new (P.SectorView.space space.new) }
    {
        find_leaving(
            alloc,
            &mut self.catalog.file,
            &mut self.catalog.desk,
            space,
            above,
            name,
        )
    }
}
