//! `mv`: a folder or file under another name.
ghost use Rattle.std.specs.Prelude.{◌≡◌, ◌<◌, ◌≤◌, Ok, false, true, IsTrue, IfOk, length};
ghost use Rattle.std.specs.List.{All};
ghost use Rattle.btree_edit.specs.Causes.{HasTroubleCause};
ghost use Rattle.btree_file.specs.Standing.{pairs_in};
ghost use Rattle.btree_file.specs.State.{sectors_of_tree};
ghost use Rattle.hfs_language.specs.Written.{FitsPath};
ghost use Rattle.hfs_model.specs.Step.{is_below};
ghost use Rattle.volume_base.specs.Frame.{Looked, Serves};
ghost use Rattle.volume_base.specs.Lists.{lists_of};
ghost use Rattle.volume_base.specs.Looking.{IsCatalogOver, ReadsTree};
ghost use Rattle.volume_base.specs.Moving.{route_in};

use crate::owning::owner;
use crate::reaching::find_folder;
use crate::sites::find_site;
use crate::volume::Volume;
use btree_edit::Desk;
use btree_file::TreeFile;
use hfs_language::Refusal;
use hx_bytes::{Trouble, Units};
use sector_disk::SectorSpace;
use std::alloc::Global;

/// What is moved, by its CNID, from which folder, and to which.
#[derive(Clone, Copy)]
pub struct Route {
    pub id: u32,
    pub parent: u32,
    pub folder: u32,
}

/// What a path stands for, its folder, and the folder that another path reaches, if this name may be made in it; or the
/// first reason against it.
fn find_route<P: SectorSpace>(
    alloc: Global,
    tree: &mut TreeFile,
    desk: &mut Desk,
    space: &mut P,
    private: Option<u32>,
    from: &[Units],
    above: &[Units],
    under: &[Units],
    name: &Units,
) -> Result<Result<Route, Refusal>, Trouble>
    requires over { IsCatalogOver tree.old desk.old (P.SectorView.space space.old) }
    requires from_names { All (λ name. length name ≤ 255) from.now }
    requires above_names { All (λ name. length name ≤ 255) above.now }
    requires under_names { All (λ name. length name ≤ 255) under.now }
    requires name { length name.now ≤ 255 }
    ensures found { IsTrue (P.SectorView.space space.old).tells → IfOk result (λ said. said ≡ route_in (pairs_in (sectors_of_tree tree.old) (P.SectorView.space space.old).content) private from.now above.now under.now name.now) }
    ensures over { IsCatalogOver tree.new desk.new (P.SectorView.space space.new) }
    ensures reads { ReadsTree tree.old tree.new (P.SectorView.space space.old) (P.SectorView.space space.new) }
    ensures below { P.SectorView.follows space.old space.new }
    ensures cause { HasTroubleCause (P.SectorView.space space.old).faults (P.SectorView.space space.new).faults result }
{
    match owner(alloc, tree, desk, space, private, from)? {
        Ok(id) => match find_folder(alloc, tree, desk, space, above)? {
            Ok(parent) => match find_site(alloc, tree, desk, space, under, name)? {
                Ok(folder) => Ok(Ok(Route { id, parent, folder })),
                Err(why) => Ok(Err(why)),
            },
            Err(why) => Ok(Err(why)),
        },
        Err(why) => Ok(Err(why)),
    }
}

/// Whether a path goes on below another.
pub fn is_below(path: &[Units], top: &[Units]) -> bool
    ensures { result ≡ is_below path.now top.now }
{
    if path.len() <= top.len() {
        return false;
    }
    for (at, name) in top.iter().enumerate() {
        if path[at].as_slice() != name.as_slice() {
            return false;
        }
    }
    true
}

impl Volume {
    /// What a path stands for, its folder, and the folder that another path reaches, if this name may be made in it; or
    /// the first reason against it.
    pub fn route<P: SectorSpace>(
        &mut self,
        alloc: Global,
        space: &mut P,
        from: &[Units],
        above: &[Units],
        under: &[Units],
        name: &Units,
    ) -> Result<Result<Route, Refusal>, Trouble>
        requires serves { Serves self.old (P.SectorView.space space.old) }
        requires from_fits { FitsPath from.now }
        requires above_fits { FitsPath above.now }
        requires under_fits { FitsPath under.now }
        requires name { length name.now ≤ 255 }
        ensures found { IsTrue (P.SectorView.space space.old).tells → IfOk result (λ said. said ≡ route_in (lists_of self.old (P.SectorView.space space.old).content).catalog_pairs self.old.private from.now above.now under.now name.now) }
        ensures looked { Looked P.SectorView.space P.SectorView.follows self.old self.new space.old space.new result }
        ensures serves { Serves self.new (P.SectorView.space space.new) }
    {
        find_route(
            alloc,
            &mut self.catalog.file,
            &mut self.catalog.desk,
            space,
            self.private,
            from,
            above,
            under,
            name,
        )
    }
}
