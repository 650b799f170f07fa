//! The folder or file that a path stands for.
ghost use Rattle.std.specs.Prelude.{◌≡◌, ◌==◌, ◌≤◌, not, IsTrue, IfOk, length};
ghost use Rattle.std.specs.List.{All};
ghost use Rattle.btree_edit.specs.Causes.{HasTroubleCause};
ghost use Rattle.btree_file.specs.Standing.{pairs_in};
ghost use Rattle.btree_file.specs.State.{sectors_of_tree};
ghost use Rattle.volume_base.specs.Looking.{IsCatalogOver, ReadsTree};
ghost use Rattle.volume_base.specs.Nodes.{folder_node, root_node, file_node, node_reached, node_in};

use crate::listing::list_children;
use crate::owning::resolve_over;
use crate::reaching::{Reached, walk};
use btree_edit::Desk;
use btree_file::TreeFile;
use cat_records::{CatRecord, FileRecord, FolderRecord};
use catalog::Child;
use hfs_language::Refusal;
use hx_bytes::{Trouble, Units};
use sector_disk::SectorSpace;
use std::alloc::Global;

/// The parent of the root folder (TN1150, "Catalog Node IDs").
const ROOT_PARENT: u32 = 1;

/// A folder or file by its record; of a file whether it was reached by one of several names.
#[derive(Clone, Copy)]
pub enum Node {
    Folder(FolderRecord),
    File(FileRecord, bool),
}

/// The folder in a record that is one's.
fn folder_node(rec: &CatRecord) -> Result<Node, Refusal>
    ensures { result ≡ folder_node rec.now }
{
    match rec {
        CatRecord::Folder(folder) => Ok(Node::Folder(*folder)),
        CatRecord::File(_) => Err(Refusal::NotFound),
        CatRecord::Thread(_) => Err(Refusal::NotFound),
    }
}

/// The root, where these are the entries that have its parent, of which it is the only one.
fn root_node(children: &[Child]) -> Result<Node, Refusal>
    ensures { result ≡ root_node children.now }
{
    match children.get(0) {
        Some(child) => folder_node(&child.rec),
        None => Err(Refusal::NotFound),
    }
}

/// Whether a file isn't that of a record.
fn is_other(own: &FileRecord, file: &FileRecord) -> bool
    ensures { result ≡ not (own.now.fields.id == file.now.fields.id) }
{
    !(own.fields.id == file.fields.id)
}

/// The file that a file's record stands for.
fn find_file<P: SectorSpace>(
    alloc: Global,
    tree: &mut TreeFile,
    desk: &mut Desk,
    space: &mut P,
    private: Option<u32>,
    file: &FileRecord,
) -> Result<Node, Trouble>
    requires over { IsCatalogOver tree.old desk.old (P.SectorView.space space.old) }
    ensures found { IsTrue (P.SectorView.space space.old).tells → IfOk result (λ found. found ≡ file_node (pairs_in (sectors_of_tree tree.old) (P.SectorView.space space.old).content) private file.now) }
    ensures over { IsCatalogOver tree.new desk.new (P.SectorView.space space.new) }
    ensures reads { ReadsTree tree.old tree.new (P.SectorView.space space.old) (P.SectorView.space space.new) }
    ensures below { P.SectorView.follows space.old space.new }
    ensures cause { HasTroubleCause (P.SectorView.space space.old).faults (P.SectorView.space space.new).faults result }
{
    match private {
        Some(private) => {
            let own = resolve_over(alloc, tree, desk, space, private, file)?;
            Ok(Node::File(own, is_other(&own, file)))
        }
        None => Ok(Node::File(*file, false)),
    }
}

/// The folder or file that was reached.
pub(crate) fn node_reached<P: SectorSpace>(
    alloc: Global,
    tree: &mut TreeFile,
    desk: &mut Desk,
    space: &mut P,
    private: Option<u32>,
    at: &Reached,
) -> Result<Result<Node, Refusal>, Trouble>
    requires over { IsCatalogOver tree.old desk.old (P.SectorView.space space.old) }
    ensures found { IsTrue (P.SectorView.space space.old).tells → IfOk result (λ said. said ≡ node_reached (pairs_in (sectors_of_tree tree.old) (P.SectorView.space space.old).content) private at.now) }
    ensures over { IsCatalogOver tree.new desk.new (P.SectorView.space space.new) }
    ensures reads { ReadsTree tree.old tree.new (P.SectorView.space space.old) (P.SectorView.space space.new) }
    ensures below { P.SectorView.follows space.old space.new }
    ensures cause { HasTroubleCause (P.SectorView.space space.old).faults (P.SectorView.space space.new).faults result }
{
    match at {
        Reached::Root => {
            let children = list_children(alloc, tree, desk, space, ROOT_PARENT)?;
            Ok(root_node(children.as_slice()))
        }
        Reached::Folder(folder) => Ok(Ok(Node::Folder(*folder))),
        Reached::File(file) => Ok(Ok(find_file(alloc, tree, desk, space, private, file)?)),
    }
}

/// The folder or file that a path stands for, or the first reason against it.
pub fn find_node<P: SectorSpace>(
    alloc: Global,
    tree: &mut TreeFile,
    desk: &mut Desk,
    space: &mut P,
    private: Option<u32>,
    path: &[Units],
) -> Result<Result<Node, Refusal>, Trouble>
    requires over { IsCatalogOver tree.old desk.old (P.SectorView.space space.old) }
    requires names { All (λ name. length name ≤ 255) path.now }
    ensures found { IsTrue (P.SectorView.space space.old).tells → IfOk result (λ said. said ≡ node_in (pairs_in (sectors_of_tree tree.old) (P.SectorView.space space.old).content) private path.now) }
    ensures over { IsCatalogOver tree.new desk.new (P.SectorView.space space.new) }
    ensures reads { ReadsTree tree.old tree.new (P.SectorView.space space.old) (P.SectorView.space space.new) }
    ensures below { P.SectorView.follows space.old space.new }
    ensures cause { HasTroubleCause (P.SectorView.space space.old).faults (P.SectorView.space space.new).faults result }
{
    match walk(alloc, tree, desk, space, path)? {
        Ok(at) => node_reached(alloc, tree, desk, space, private, &at),
        Err(why) => Ok(Err(why)),
    }
}
