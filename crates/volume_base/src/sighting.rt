//! What stands under a name in a folder, and the target of a symbolic link.
ghost use Rattle.std.specs.Prelude.{◌≡◌, ◌||◌, ◌&&◌, ◌==◌, ◌≤◌, false, IsTrue, IfOk, length};
ghost use Rattle.btree_edit.specs.Causes.{HasTroubleCause};
ghost use Rattle.btree_file.specs.Standing.{pairs_in};
ghost use Rattle.btree_file.specs.State.{sectors_of_tree};
ghost use Rattle.hfs_language.specs.Written.{FitsPath};
ghost use Rattle.hfs_model.specs.Extras.{sight_in};
ghost use Rattle.hfs_model.specs.Step.{is_private_name, is_private_path, to_read};
ghost use Rattle.hfs_volume.specs.Content.{records_of, volume_of};
ghost use Rattle.hfs_volume.specs.Records.{is_empty};
ghost use Rattle.hfs_volume.specs.TreeOf.{tree_of};
ghost use Rattle.volume_base.specs.Frame.{Looked, Serves};
ghost use Rattle.volume_base.specs.Lists.{lists_of};
ghost use Rattle.volume_base.specs.Looking.{IsCatalogOver, ReadsTree};
ghost use Rattle.volume_base.specs.Sighting.{HasFileOf, HasFolder, IsFoundAs, is_link_mode, link_told, node_under, sight_of};

use crate::forks::ForkKind;
use crate::looking::lookup_record;
use crate::names::{is_private_name, is_private_path};
use crate::nodes::{Node, node_reached};
use crate::reaching::named;
use crate::volume::{ROOT, Volume};
use btree_edit::Desk;
use btree_file::TreeFile;
use cat_records::FileRecord;
use hfs_language::{Path, Refusal};
use hfs_model::Sight;
use hfs_volume::sound_has_plain_tree;
use hx_bytes::{Bytes, Trouble, Units};
use sector_disk::SectorSpace;
use std::alloc::Global;

/// How many bytes of a link tell its target: a longer text is none.
const TARGET_FRONT: u64 = 1024;

/// The most bytes of a link that `readlink` tells.
const MOST_BYTES: u64 = 65_536;

/// The type bits of a symbolic link (TN1150, "HFS Plus Permissions").
const LINK: u16 = 0o120_000;

/// What `readlink` answers.
#[derive(Drop)]
pub enum LinkRead {
    /// The first 65,536 bytes of the link.
    Target(Bytes),
    /// The path stands for a file that isn't a symbolic link.
    NotLink,
    /// The path stands for no file.
    No(Refusal),
}

/// Whether a file is a symbolic link. A reader goes by the type bits alone.
fn is_link(file: &FileRecord) -> bool
    ensures { result ≡ is_link_mode file.now.fields.mode }
{
    file.fields.mode / 4096 * 4096 == LINK
}

/// Whether nothing is seen under a name of a folder: no name, or one of the volume's own.
fn is_unseen(parent: u32, name: &Units) -> bool
    ensures { result ≡ (is_empty name.now || ((parent == 2) && is_private_name name.now)) }
{
    name.is_empty() || parent == ROOT && is_private_name(name)
}

/// The folder or file under a name of a folder, by the catalog.
fn find_under<P: SectorSpace>(
    alloc: Global,
    tree: &mut TreeFile,
    desk: &mut Desk,
    space: &mut P,
    private: Option<u32>,
    parent: u32,
    name: &Units,
) -> Result<Result<Node, Refusal>, Trouble>
    requires over { IsCatalogOver tree.old desk.old (P.SectorView.space space.old) }
    requires name { length name.now ≤ 255 }
    ensures found { IsTrue (P.SectorView.space space.old).tells → IfOk result (λ said. said ≡ node_under (pairs_in (sectors_of_tree tree.old) (P.SectorView.space space.old).content) private parent name.now) }
    ensures over { IsCatalogOver tree.new desk.new (P.SectorView.space space.new) }
    ensures reads { ReadsTree tree.old tree.new (P.SectorView.space space.old) (P.SectorView.space space.new) }
    ensures below { P.SectorView.follows space.old space.new }
    ensures cause { HasTroubleCause (P.SectorView.space space.old).faults (P.SectorView.space space.new).faults result }
{
    match named(lookup_record(alloc, tree, desk, space, parent, name)?) {
        Ok(at) => node_reached(alloc, tree, desk, space, private, &at),
        Err(why) => Ok(Err(why)),
    }
}

impl Volume {
    /// The folder or file under a name of a folder.
    fn node_under<P: SectorSpace>(
        &mut self,
        alloc: Global,
        space: &mut P,
        parent: u32,
        name: &Units,
    ) -> Result<Result<Node, Refusal>, Trouble>
        requires serves { Serves self.old (P.SectorView.space space.old) }
        requires name { length name.now ≤ 255 }
        ensures found { IsTrue (P.SectorView.space space.old).tells → IfOk result (λ said. said ≡ node_under (lists_of self.old (P.SectorView.space space.old).content).catalog_pairs self.old.private parent name.now) }
        ensures looked { Looked P.SectorView.space P.SectorView.follows self.old self.new space.old space.new result }
        ensures serves { Serves self.new (P.SectorView.space space.new) }
    {
        find_under(
            alloc,
            &mut self.catalog.file,
            &mut self.catalog.desk,
            space,
            self.private,
            parent,
            name,
        )
    }

    /// What a folder or file is seen as.
    fn sight_of<P: SectorSpace>(
        &mut self,
        alloc: Global,
        space: &mut P,
        node: &Node,
    ) -> Result<Sight, Trouble>
        requires serves { Serves self.old (P.SectorView.space space.old) }
        requires there { IsTrue (P.SectorView.space space.old).tells → HasFileOf (records_of (volume_of (P.SectorView.space space.old).content)) node.now }
        ensures sight { IsTrue (P.SectorView.space space.old).tells → IfOk result (λ sight. sight ≡ sight_of (P.SectorView.space space.old).content node.now) }
        ensures looked { Looked P.SectorView.space P.SectorView.follows self.old self.new space.old space.new result }
        ensures serves { Serves self.new (P.SectorView.space space.new) }
    {
        match node {
            Node::Folder(folder) => Ok(Sight::Folder(folder.fields.id)),
            Node::File(file, _) => {
                if !is_link(file) {
                    return Ok(Sight::File);
                }
                let bytes = self.read_file(alloc, space, file, ForkKind::Data, 0, TARGET_FRONT)?;
                Ok(Sight::Link(bytes))
            }
        }
    }

    /// What stands under a name in a folder that users see: of a symbolic link its first 1,024 bytes. The volume's own names count as absent. It changes
    /// nothing. `Memory` comes where memory is wanting, `Disk` where a read failed.
    pub fn look<P: SectorSpace>(
        &mut self,
        alloc: Global,
        space: &mut P,
        parent: u32,
        name: &Units,
    ) -> Result<Sight, Trouble>
        requires serves { Serves self.old (P.SectorView.space space.old) }
        requires name { length name.now ≤ 255 }
        // Told, and where the folder is one of the tree, it is what stands there on the tree.
        ensures sight { IsTrue (P.SectorView.space space.old).tells → HasFolder (tree_of (P.SectorView.space space.old).content) parent → IfOk result (λ sight. sight ≡ sight_in (tree_of (P.SectorView.space space.old).content) parent name.now) }
        ensures looked { Looked P.SectorView.space P.SectorView.follows self.old self.new space.old space.new result }
        ensures serves { Serves self.new (P.SectorView.space space.new) }
    {
        sound_has_plain_tree();
        if is_unseen(parent, name) {
            return Ok(Sight::Absent);
        }
        match self.node_under(alloc, space, parent, name)? {
            Ok(node) => self.sight_of(alloc, space, &node),
            Err(_why) => Ok(Sight::Absent),
        }
    }

    /// The record of the file that a path stands for, of which so many bytes are asked, or the first reason against it. It changes nothing. `Memory`
    /// comes where memory is wanting, `Disk` where a read failed.
    pub fn file_at<P: SectorSpace>(
        &mut self,
        alloc: Global,
        space: &mut P,
        path: &Path,
        long: u64,
    ) -> Result<Result<FileRecord, Refusal>, Trouble>
        requires serves { Serves self.old (P.SectorView.space space.old) }
        requires fits { FitsPath path.now }
        requires not_own { is_private_path path.now ≡ false }
        // Told, it is the file of the tree.
        ensures found { IsTrue (P.SectorView.space space.old).tells → IfOk result (λ said. IsFoundAs (P.SectorView.space space.old).content said (to_read (tree_of (P.SectorView.space space.old).content) path.now long)) }
        ensures few { IfOk result (λ said. IfOk said (λ file. long ≤ 65536)) }
        ensures looked { Looked P.SectorView.space P.SectorView.follows self.old self.new space.old space.new result }
        ensures serves { Serves self.new (P.SectorView.space space.new) }
    {
        sound_has_plain_tree();
        self.file_to_read(alloc, space, path, long)
    }

    /// The target of the symbolic link that a path stands for, or why there is none. The volume's own names count as absent. It changes nothing.
    /// `Memory` comes where memory is wanting, `Disk` where a read failed.
    pub fn readlink<P: SectorSpace>(
        &mut self,
        alloc: Global,
        space: &mut P,
        path: &Path,
    ) -> Result<LinkRead, Trouble>
        requires serves { Serves self.old (P.SectorView.space space.old) }
        requires fits { FitsPath path.now }
        ensures link { IsTrue (P.SectorView.space space.old).tells → IfOk result (λ link. link ≡ link_told (tree_of (P.SectorView.space space.old).content) path.now) }
        ensures looked { Looked P.SectorView.space P.SectorView.follows self.old self.new space.old space.new result }
        ensures serves { Serves self.new (P.SectorView.space space.new) }
    {
        if is_private_path(path) {
            return Ok(LinkRead::No(Refusal::NotFound));
        }
        match self.file_at(alloc, space, path, 0)? {
            Ok(file) => {
                if !is_link(&file) {
                    return Ok(LinkRead::NotLink);
                }
                let bytes = self.read_file(alloc, space, &file, ForkKind::Data, 0, MOST_BYTES)?;
                Ok(LinkRead::Target(bytes))
            }
            Err(why) => Ok(LinkRead::No(why)),
        }
    }
}
