//! What a command changes, for watchers.
ghost use Rattle.std.specs.Prelude.{◌≡◌, ◌<◌, ◌≤◌, [], ◌∷◌, false, Ok, IsTrue, IfOk, length};
ghost use Rattle.std.specs.List.{All};
ghost use Rattle.btree_edit.specs.Causes.{HasTroubleCause};
ghost use Rattle.btree_file.specs.Standing.{pairs_in};
ghost use Rattle.btree_file.specs.State.{sectors_of_tree};
ghost use Rattle.hfs_language.specs.Written.{FitsPath};
ghost use Rattle.hfs_model.specs.Step.{is_private_path, reached};
ghost use Rattle.hfs_model.specs.declared.plain.PlainEntry.{PlainEntry};
ghost use Rattle.volume_runs.specs.Told.{of_entry};
ghost use Rattle.hfs_volume.specs.TreeOf.{tree_of};
ghost use Rattle.volume_base.specs.Frame.{Looked, Serves};
ghost use Rattle.volume_base.specs.Lists.{lists_of};
ghost use Rattle.volume_base.specs.Looking.{IsCatalogOver, ReadsTree};
ghost use Rattle.volume_base.specs.Making.{path_to};
ghost use Rattle.volume_base.specs.Watching.{change_of, standing_in};

use crate::names::copy_name;
use crate::owning::owner;
use crate::reaching::find_folder;
use crate::volume::{ROOT, Volume};
use btree_edit::Desk;
use btree_file::TreeFile;
use hfs_language::{Change, ChangeKind, Changes, Path, Refusal};
use hfs_volume::sound_has_plain_tree;
use hx_bytes::{OutOfMemory, Trouble, Units};
use sector_disk::SectorSpace;
use std::alloc::Global;

/// A folder or file by its CNID, and the folder that its name stands in.
#[derive(Clone, Copy)]
pub struct Standing {
    pub id: u32,
    pub parent: u32,
}

/// One change, of a line with this number. `Err` comes where memory is wanting.
pub fn one_change(
    alloc: Global,
    line: u64,
    kind: ChangeKind,
    id: u32,
    parent: u32,
    name: &Units,
) -> Result<Changes, OutOfMemory>
    ensures { IfOk result (λ changes. changes ≡ change_of line kind id parent name.now ∷ []) }
{
    let mut changes = Changes::new(alloc);
    changes.push(Change {
        line,
        kind,
        id,
        parent,
        name: copy_name(alloc, name)?,
    })?;
    Ok(changes)
}

/// What a path stands for, and the folder that another path reaches; or the first reason against it.
fn find_standing<P: SectorSpace>(
    alloc: Global,
    tree: &mut TreeFile,
    desk: &mut Desk,
    space: &mut P,
    private: Option<u32>,
    path: &[Units],
    above: &[Units],
) -> Result<Result<Standing, Refusal>, Trouble>
    requires over { IsCatalogOver tree.old desk.old (P.SectorView.space space.old) }
    requires names { All (λ name. length name ≤ 255) path.now }
    requires above_names { All (λ name. length name ≤ 255) above.now }
    ensures found { IsTrue (P.SectorView.space space.old).tells → IfOk result (λ said. said ≡ standing_in (pairs_in (sectors_of_tree tree.old) (P.SectorView.space space.old).content) private path.now above.now) }
    ensures over { IsCatalogOver tree.new desk.new (P.SectorView.space space.new) }
    ensures reads { ReadsTree tree.old tree.new (P.SectorView.space space.old) (P.SectorView.space space.new) }
    ensures below { P.SectorView.follows space.old space.new }
    ensures cause { HasTroubleCause (P.SectorView.space space.old).faults (P.SectorView.space space.new).faults result }
{
    match owner(alloc, tree, desk, space, private, path)? {
        Ok(id) => match find_folder(alloc, tree, desk, space, above)? {
            Ok(parent) => Ok(Ok(Standing { id, parent })),
            Err(why) => Ok(Err(why)),
        },
        Err(why) => Ok(Err(why)),
    }
}

impl Volume {
    /// What a path stands for, and the folder that another path reaches; or the first reason against it.
    pub(crate) fn standing<P: SectorSpace>(
        &mut self,
        alloc: Global,
        space: &mut P,
        path: &[Units],
        above: &[Units],
    ) -> Result<Result<Standing, Refusal>, Trouble>
        requires serves { Serves self.old (P.SectorView.space space.old) }
        requires fits { FitsPath path.now }
        requires above_fits { FitsPath above.now }
        ensures found { IsTrue (P.SectorView.space space.old).tells → IfOk result (λ said. said ≡ standing_in (lists_of self.old (P.SectorView.space space.old).content).catalog_pairs self.old.private path.now above.now) }
        ensures looked { Looked P.SectorView.space P.SectorView.follows self.old self.new space.old space.new result }
        ensures serves { Serves self.new (P.SectorView.space space.new) }
    {
        find_standing(
            alloc,
            &mut self.catalog.file,
            &mut self.catalog.desk,
            space,
            self.private,
            path,
            above,
        )
    }

    /// A change of what a name under a path stands for.
    fn change_under<P: SectorSpace>(
        &mut self,
        alloc: Global,
        space: &mut P,
        line: u64,
        kind: ChangeKind,
        path: &Path,
        above: &[Units],
        name: &Units,
    ) -> Result<Changes, Trouble>
        requires serves { Serves self.old (P.SectorView.space space.old) }
        requires fits { FitsPath path.now }
        requires split { path.now ≡ path_to above.now name.now }
        ensures told { IsTrue (P.SectorView.space space.old).tells → is_private_path path.now ≡ false → (entry : PlainEntry) → reached (tree_of (P.SectorView.space space.old).content) path.now ≡ Ok entry
            → IfOk result (λ changes. changes ≡ of_entry line kind (Ok entry)) }
        ensures looked { Looked P.SectorView.space P.SectorView.follows self.old self.new space.old space.new result }
        ensures serves { Serves self.new (P.SectorView.space space.new) }
    {
        sound_has_plain_tree();
        match self.standing(alloc, space, path.as_slice(), above)? {
            Ok(at) => Ok(one_change(alloc, line, kind, at.id, at.parent, name)?),
            Err(_why) => Ok(Changes::new(alloc)),
        }
    }

    /// A change of the folder or file that a path reaches, at its place; for the root the parent is 1 and the name is empty.
    /// `Memory` comes where memory is wanting, `Disk` where a read failed.
    pub fn change_at<P: SectorSpace>(
        &mut self,
        alloc: Global,
        space: &mut P,
        line: u64,
        kind: ChangeKind,
        path: &Path,
    ) -> Result<Changes, Trouble>
        requires serves { Serves self.old (P.SectorView.space space.old) }
        requires fits { FitsPath path.now }
        // Where the path reaches something, it is what watchers are told of it.
        ensures told { IsTrue (P.SectorView.space space.old).tells → is_private_path path.now ≡ false → (entry : PlainEntry) → reached (tree_of (P.SectorView.space space.old).content) path.now ≡ Ok entry
            → IfOk result (λ changes. changes ≡ of_entry line kind (Ok entry)) }
        ensures looked { Looked P.SectorView.space P.SectorView.follows self.old self.new space.old space.new result }
        ensures serves { Serves self.new (P.SectorView.space space.new) }
    {
        match path.as_slice().split_last() {
            Some((name, above)) => self.change_under(alloc, space, line, kind, path, above, name),
            None => Ok(one_change(alloc, line, kind, ROOT, 1, &Units::new(alloc))?),
        }
    }
}
