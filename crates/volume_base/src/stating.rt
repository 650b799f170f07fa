//! `stat`: what is told of a folder or file.
ghost use Rattle.std.specs.Prelude.{◌≡◌, ◌≤◌, Ok, IsTrue, IfOk, length};
ghost use Rattle.std.specs.List.{All};
ghost use Rattle.btree_edit.specs.Causes.{HasTroubleCause};
ghost use Rattle.btree_file.specs.Standing.{pairs_in};
ghost use Rattle.btree_file.specs.State.{sectors_of_tree};
ghost use Rattle.hfs_language.specs.Written.{FitsPath};
ghost use Rattle.hfs_language.specs.declared.command.Command.TheVariants as command;
ghost use Rattle.hfs_model.specs.Step.{step_line};
ghost use Rattle.hfs_volume.specs.TreeOf.{tree_of};
ghost use Rattle.volume_base.specs.Frame.{Looked, Serves};
ghost use Rattle.volume_base.specs.Stating.{own_entries, entries_told, names_told, facts_told, facts_in};
ghost use Rattle.volume_base.specs.Looking.{IsCatalogOver, ReadsTree};

use crate::names::is_private_path;
use crate::nodes::{Node, find_node};
use crate::volume::{ROOT, Volume};
use btree_edit::Desk;
use btree_file::TreeFile;
use cat_records::EntryFields;
use hfs_language::{Facts, Path, Refusal, Reply};
use hfs_volume::sound_has_plain_tree;
use hx_bytes::{Trouble, Units};
use sector_disk::SectorSpace;
use std::alloc::Global;

/// How many entries of the root are the volume's own: the journal's two files, and the private folder where there is one.
fn own_entries(private: Option<u32>) -> u32
    ensures { result ≡ own_entries private }
{
    match private {
        Some(_) => 3,
        None => 2,
    }
}

/// How many entries of a folder users see.
fn entries_told(own: u32, fields: &EntryFields) -> u32
    ensures { result ≡ entries_told own fields.now }
{
    if fields.id == ROOT {
        fields.count.saturating_sub(own)
    } else {
        fields.count
    }
}

/// How many names a file has.
fn names_told(fields: &EntryFields, linked: bool) -> u32
    ensures { result ≡ names_told fields.now linked }
{
    if linked { fields.special } else { 1 }
}

/// What is told of a folder or file.
fn facts_told(own: u32, node: &Node) -> Facts
    ensures { result ≡ facts_told own node.now }
{
    match node {
        Node::Folder(folder) => Facts {
            folder: true,
            id: folder.fields.id,
            size: u64::from(entries_told(own, &folder.fields)),
            links: 0,
            mode: folder.fields.mode % 4096,
            created: folder.fields.created,
            changed: folder.fields.changed,
            attribute: folder.fields.attribute,
        },
        Node::File(file, linked) => Facts {
            folder: false,
            id: file.fields.id,
            size: file.data_fork.logical_size,
            links: names_told(&file.fields, *linked),
            mode: file.fields.mode % 4096,
            created: file.fields.created,
            changed: file.fields.changed,
            attribute: file.fields.attribute,
        },
    }
}

/// The reply to `stat`, by the catalog.
fn tell_facts<P: SectorSpace>(
    alloc: Global,
    tree: &mut TreeFile,
    desk: &mut Desk,
    space: &mut P,
    private: Option<u32>,
    path: &[Units],
) -> Result<Reply, Trouble>
    requires over { IsCatalogOver tree.old desk.old (P.SectorView.space space.old) }
    requires names { All (λ name. length name ≤ 255) path.now }
    ensures reply { IsTrue (P.SectorView.space space.old).tells → IfOk result (λ reply. reply ≡ facts_in (pairs_in (sectors_of_tree tree.old) (P.SectorView.space space.old).content) private path.now) }
    ensures over { IsCatalogOver tree.new desk.new (P.SectorView.space space.new) }
    ensures reads { ReadsTree tree.old tree.new (P.SectorView.space space.old) (P.SectorView.space space.new) }
    ensures below { P.SectorView.follows space.old space.new }
    ensures cause { HasTroubleCause (P.SectorView.space space.old).faults (P.SectorView.space space.new).faults result }
{
    match find_node(alloc, tree, desk, space, private, path)? {
        Ok(node) => Ok(Reply::Facts(facts_told(own_entries(private), &node))),
        Err(why) => Ok(Reply::No(why)),
    }
}

impl Volume {
    /// The reply to `stat`: kind, CNID, size, number of names, mode and dates of the folder or file that a path stands for;
    /// or the first reason against it. A folder's size is the number of its entries, the volume's own in the root left out.
    /// A path that begins with a name of the volume's own is refused. It changes nothing. `Memory` comes where memory is
    /// wanting, `Disk` where a read failed.
    pub fn stat<P: SectorSpace>(
        &mut self,
        alloc: Global,
        space: &mut P,
        path: &Path,
    ) -> Result<Reply, Trouble>
        requires serves { Serves self.old (P.SectorView.space space.old) }
        requires fits { FitsPath path.now }
        // Told, the reply is that of the plain tree's step.
        ensures reply { IsTrue (P.SectorView.space space.old).tells → IfOk result (λ reply. reply ≡ (step_line (tree_of (P.SectorView.space space.old).content) (Ok (command.Stat path.now))).0) }
        ensures looked { Looked P.SectorView.space P.SectorView.follows self.old self.new space.old space.new result }
        ensures serves { Serves self.new (P.SectorView.space space.new) }
    {
        if is_private_path(path) {
            return Ok(Reply::No(Refusal::Private));
        }
        sound_has_plain_tree();
        tell_facts(
            alloc,
            &mut self.catalog.file,
            &mut self.catalog.desk,
            space,
            self.private,
            path.as_slice(),
        )
    }
}
