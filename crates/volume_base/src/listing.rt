//! `ls`: the names in a folder.
ghost use Rattle.std.specs.Prelude.{◌≡◌, ◌≤◌, Ok, Err, IsTrue, IfOk, length};
ghost use Rattle.std.specs.List.{All};
ghost use Rattle.btree_edit.specs.Causes.{HasTroubleCause};
ghost use Rattle.btree_file.specs.Standing.{pairs_in};
ghost use Rattle.btree_file.specs.State.{sectors_of_tree};
ghost use Rattle.catalog.specs.Children.{children_in};
ghost use Rattle.hfs_language.specs.Written.{FitsPath};
ghost use Rattle.hfs_language.specs.declared.command.Command.TheVariants as command;
ghost use Rattle.hfs_model.specs.Step.{step_line};
ghost use Rattle.hfs_volume.specs.Records.{is_folder};
ghost use Rattle.hfs_volume.specs.TreeOf.{tree_of};
ghost use Rattle.volume_base.specs.Frame.{Looked, Serves};
ghost use Rattle.volume_base.specs.Listing.{is_shown, shown_in, names_in};
ghost use Rattle.volume_base.specs.Looking.{IsCatalogOver, ReadsTree};

use crate::names::{copy_name, is_private_name, is_private_path};
use crate::reaching::find_folder;
use crate::volume::{ROOT, Volume};
use btree_edit::Desk;
use btree_file::{TreeFile, TreeOn};
use cat_records::CatRecord;
use catalog::{Child, Children};
use hfs_language::{ListedName, Listing, Path, Refusal, Reply};
use hfs_volume::sound_has_plain_tree;
use hx_bytes::{OutOfMemory, Trouble, Units};
use sector_disk::SectorSpace;
use std::alloc::Global;

/// The entries of a folder with their records, in the order of their names.
pub(crate) fn list_children<P: SectorSpace>(
    alloc: Global,
    tree: &mut TreeFile,
    desk: &mut Desk,
    space: &mut P,
    folder: u32,
) -> Result<Children, Trouble>
    requires over { IsCatalogOver tree.old desk.old (P.SectorView.space space.old) }
    ensures listed { IsTrue (P.SectorView.space space.old).tells → IfOk result (λ list. list ≡ children_in folder (pairs_in (sectors_of_tree tree.old) (P.SectorView.space space.old).content)) }
    ensures over { IsCatalogOver tree.new desk.new (P.SectorView.space space.new) }
    ensures reads { ReadsTree tree.old tree.new (P.SectorView.space space.old) (P.SectorView.space space.new) }
    ensures below { P.SectorView.follows space.old space.new }
    ensures cause { HasTroubleCause (P.SectorView.space space.old).faults (P.SectorView.space space.new).faults result }
{
    let mut on = TreeOn { tree, space };
    catalog::children(alloc, &mut on, desk, folder)
}

/// Whether a record is a folder's.
fn is_folder(rec: &CatRecord) -> bool
    ensures { result ≡ is_folder rec.now }
{
    match rec {
        CatRecord::Folder(_) => true,
        CatRecord::File(_) => false,
        CatRecord::Thread(_) => false,
    }
}

/// Whether users see a child of a folder.
fn is_shown(folder: u32, child: &Child) -> bool
    ensures { result ≡ is_shown folder child.now }
{
    !(folder == ROOT && is_private_name(&child.name))
}

/// The names that users see of a folder with these children.
fn shown(alloc: Global, folder: u32, children: &[Child]) -> Result<Listing, OutOfMemory>
    ensures { IfOk result (λ names. names ≡ shown_in folder children.now) }
{
    let mut names = Listing::new(alloc);
    for child in children {
        if is_shown(folder, child) {
            names.push(ListedName {
                name: copy_name(alloc, &child.name)?,
                folder: is_folder(&child.rec),
            })?;
        }
    }
    Ok(names)
}

/// The names in the folder that a path reaches, or the first reason against it.
fn list_names<P: SectorSpace>(
    alloc: Global,
    tree: &mut TreeFile,
    desk: &mut Desk,
    space: &mut P,
    path: &[Units],
) -> Result<Reply, Trouble>
    requires over { IsCatalogOver tree.old desk.old (P.SectorView.space space.old) }
    requires names { All (λ name. length name ≤ 255) path.now }
    ensures reply { IsTrue (P.SectorView.space space.old).tells → IfOk result (λ reply. reply ≡ names_in (pairs_in (sectors_of_tree tree.old) (P.SectorView.space space.old).content) path.now) }
    ensures over { IsCatalogOver tree.new desk.new (P.SectorView.space space.new) }
    ensures reads { ReadsTree tree.old tree.new (P.SectorView.space space.old) (P.SectorView.space space.new) }
    ensures below { P.SectorView.follows space.old space.new }
    ensures cause { HasTroubleCause (P.SectorView.space space.old).faults (P.SectorView.space space.new).faults result }
{
    match find_folder(alloc, tree, desk, space, path)? {
        Ok(folder) => {
            let children = list_children(alloc, tree, desk, space, folder)?;
            let names = shown(alloc, folder, children.as_slice())?;
            Ok(Reply::Listing(names))
        }
        Err(why) => Ok(Reply::No(why)),
    }
}

impl Volume {
    /// The reply to `ls`: the names in the folder that a path reaches, in the order of their code units, without those that
    /// the volume keeps for itself; or the first reason against it. A path that begins with a name of the volume's own is
    /// refused. It changes nothing. `Memory` comes where memory is wanting, `Disk` where a read failed.
    pub fn ls<P: SectorSpace>(
        &mut self,
        alloc: Global,
        space: &mut P,
        path: &Path,
    ) -> Result<Reply, Trouble>
        requires serves { Serves self.old (P.SectorView.space space.old) }
        requires fits { FitsPath path.now }
        // Told, the reply is that of the plain tree's step.
        ensures reply { IsTrue (P.SectorView.space space.old).tells → IfOk result (λ reply. reply ≡ (step_line (tree_of (P.SectorView.space space.old).content) (Ok (command.Ls path.now))).0) }
        ensures looked { Looked P.SectorView.space P.SectorView.follows self.old self.new space.old space.new result }
        ensures serves { Serves self.new (P.SectorView.space space.new) }
    {
        if is_private_path(path) {
            return Ok(Reply::No(Refusal::Private));
        }
        sound_has_plain_tree();
        list_names(
            alloc,
            &mut self.catalog.file,
            &mut self.catalog.desk,
            space,
            path.as_slice(),
        )
    }
}
