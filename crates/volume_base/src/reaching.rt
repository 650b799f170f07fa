//! What a path reaches.
ghost use Rattle.std.specs.Prelude.{◌≡◌, ◌≤◌, IsTrue, IfOk, length};
ghost use Rattle.std.specs.List.{All};
ghost use Rattle.btree_edit.specs.Causes.{HasTroubleCause};
ghost use Rattle.btree_file.specs.Standing.{pairs_in};
ghost use Rattle.btree_file.specs.State.{sectors_of_tree};
ghost use Rattle.volume_base.specs.Looking.{IsCatalogOver, ReadsTree};
ghost use Rattle.volume_base.specs.Reaching.{named, folder_reached, child_in, walk_in, folder_in};
ghost use Rattle.volume_base.specs.declared.reaching.Reached.TheVariants as reached;

use crate::looking::lookup_record;
use crate::volume::ROOT;
use btree_edit::Desk;
use btree_file::TreeFile;
use cat_records::{CatRecord, FileRecord, FolderRecord};
use hfs_language::Refusal;
use hx_bytes::{Trouble, Units};
use sector_disk::SectorSpace;
use std::alloc::Global;

/// What a path reaches: the root, or a folder or file by its record, which may be a link.
#[derive(Clone, Copy)]
pub enum Reached {
    Root,
    Folder(FolderRecord),
    File(FileRecord),
}

/// The CNID of a folder that was reached.
fn folder_reached(at: &Reached) -> Result<u32, Refusal>
    ensures { result ≡ folder_reached at.now }
{
    match at {
        Reached::Root => Ok(ROOT),
        Reached::Folder(folder) => Ok(folder.fields.id),
        Reached::File(_) => Err(Refusal::NotFolder),
    }
}

/// What the record of a name stands for; a thread is no name's.
pub fn named(found: Option<CatRecord>) -> Result<Reached, Refusal>
    ensures { result ≡ named found }
{
    match found {
        Some(CatRecord::Folder(folder)) => Ok(Reached::Folder(folder)),
        Some(CatRecord::File(file)) => Ok(Reached::File(file)),
        Some(CatRecord::Thread(_)) => Err(Refusal::NotFound),
        None => Err(Refusal::NotFound),
    }
}

/// What a name stands for in what was reached, or why there is no such thing.
fn child<P: SectorSpace>(
    alloc: Global,
    tree: &mut TreeFile,
    desk: &mut Desk,
    space: &mut P,
    at: &Reached,
    name: &Units,
) -> Result<Result<Reached, Refusal>, Trouble>
    requires over { IsCatalogOver tree.old desk.old (P.SectorView.space space.old) }
    requires name { length name.now ≤ 255 }
    ensures found { IsTrue (P.SectorView.space space.old).tells → IfOk result (λ said. said ≡ child_in (pairs_in (sectors_of_tree tree.old) (P.SectorView.space space.old).content) at.now name.now) }
    ensures over { IsCatalogOver tree.new desk.new (P.SectorView.space space.new) }
    ensures reads { ReadsTree tree.old tree.new (P.SectorView.space space.old) (P.SectorView.space space.new) }
    ensures below { P.SectorView.follows space.old space.new }
    ensures cause { HasTroubleCause (P.SectorView.space space.old).faults (P.SectorView.space space.new).faults result }
{
    match folder_reached(at) {
        Ok(folder) => Ok(named(lookup_record(alloc, tree, desk, space, folder, name)?)),
        Err(why) => Ok(Err(why)),
    }
}

/// What a path reaches, or the first reason against it.
pub(crate) fn walk<P: SectorSpace>(
    alloc: Global,
    tree: &mut TreeFile,
    desk: &mut Desk,
    space: &mut P,
    path: &[Units],
) -> Result<Result<Reached, Refusal>, Trouble>
    requires over { IsCatalogOver tree.old desk.old (P.SectorView.space space.old) }
    requires names { All (λ name. length name ≤ 255) path.now }
    ensures found { IsTrue (P.SectorView.space space.old).tells → IfOk result (λ said. said ≡ walk_in (pairs_in (sectors_of_tree tree.old) (P.SectorView.space space.old).content) reached.Root path.now) }
    ensures over { IsCatalogOver tree.new desk.new (P.SectorView.space space.new) }
    ensures reads { ReadsTree tree.old tree.new (P.SectorView.space space.old) (P.SectorView.space space.new) }
    ensures below { P.SectorView.follows space.old space.new }
    ensures cause { HasTroubleCause (P.SectorView.space space.old).faults (P.SectorView.space space.new).faults result }
{
    let mut at = Reached::Root;
    for name in path {
        match child(alloc, tree, desk, space, &at, name)? {
            Ok(next) => at = next,
            Err(why) => return Ok(Err(why)),
        }
    }
    Ok(Ok(at))
}

/// The CNID of the folder that a path reaches, or the first reason against it.
pub fn find_folder<P: SectorSpace>(
    alloc: Global,
    tree: &mut TreeFile,
    desk: &mut Desk,
    space: &mut P,
    path: &[Units],
) -> Result<Result<u32, Refusal>, Trouble>
    requires over { IsCatalogOver tree.old desk.old (P.SectorView.space space.old) }
    requires names { All (λ name. length name ≤ 255) path.now }
    ensures found { IsTrue (P.SectorView.space space.old).tells → IfOk result (λ said. said ≡ folder_in (pairs_in (sectors_of_tree tree.old) (P.SectorView.space space.old).content) path.now) }
    ensures over { IsCatalogOver tree.new desk.new (P.SectorView.space space.new) }
    ensures reads { ReadsTree tree.old tree.new (P.SectorView.space space.old) (P.SectorView.space space.new) }
    ensures below { P.SectorView.follows space.old space.new }
    ensures cause { HasTroubleCause (P.SectorView.space space.old).faults (P.SectorView.space space.new).faults result }
{
    match walk(alloc, tree, desk, space, path)? {
        Ok(at) => Ok(folder_reached(&at)),
        Err(why) => Ok(Err(why)),
    }
}
