//! `lsattr`: the attributes of a folder or file.
ghost use Rattle.std.specs.Prelude.{◌≡◌, ◌≤◌, Ok, Err, IsTrue, IfOk, length, map};
ghost use Rattle.std.specs.List.{All};
ghost use Rattle.attributes.specs.Owned.{names_of};
ghost use Rattle.btree_edit.specs.Causes.{HasTroubleCause};
ghost use Rattle.btree_file.specs.Standing.{pairs_in};
ghost use Rattle.btree_file.specs.State.{sectors_of_tree};
ghost use Rattle.hard_links.specs.Identity.{identity_of};
ghost use Rattle.hfs_language.specs.Written.{FitsPath};
ghost use Rattle.hfs_language.specs.declared.command.Command.TheVariants as command;
ghost use Rattle.hfs_language.specs.declared.reply.Reply.TheVariants as reply;
ghost use Rattle.hfs_model.specs.Step.{step_line};
ghost use Rattle.hfs_volume.specs.TreeOf.{tree_of};
ghost use Rattle.volume_base.specs.Frame.{Looked, Serves};
ghost use Rattle.volume_base.specs.Lists.{lists_of};
ghost use Rattle.volume_base.specs.Looking.{IsCatalogOver, IsAttributesOver, ReadsTree};
ghost use Rattle.volume_base.specs.Owning.{id_reached, owner_in, listed_name, attributes_in};

use crate::names::{copy_name, is_private_path};
use crate::reaching::{Reached, walk};
use crate::volume::{ROOT, Volume};
use btree_edit::Desk;
use btree_file::{TreeFile, TreeOn};
use cat_records::FileRecord;
use hard_links::resolve;
use hfs_language::{ListedName, Listing, Path, Refusal, Reply};
use hfs_volume::sound_has_plain_tree;
use hx_bytes::{Names, OutOfMemory, Trouble, Units};
use sector_disk::SectorSpace;
use std::alloc::Global;

/// The file that a link stands for, and of another file its own record.
pub(crate) fn resolve_over<P: SectorSpace>(
    alloc: Global,
    tree: &mut TreeFile,
    desk: &mut Desk,
    space: &mut P,
    private: u32,
    file: &FileRecord,
) -> Result<FileRecord, Trouble>
    requires over { IsCatalogOver tree.old desk.old (P.SectorView.space space.old) }
    ensures identity { IsTrue (P.SectorView.space space.old).tells → IfOk result (λ own. own ≡ identity_of (pairs_in (sectors_of_tree tree.old) (P.SectorView.space space.old).content) private file.now) }
    ensures over { IsCatalogOver tree.new desk.new (P.SectorView.space space.new) }
    ensures reads { ReadsTree tree.old tree.new (P.SectorView.space space.old) (P.SectorView.space space.new) }
    ensures below { P.SectorView.follows space.old space.new }
    ensures cause { HasTroubleCause (P.SectorView.space space.old).faults (P.SectorView.space space.new).faults result }
{
    let mut on = TreeOn { tree, space };
    resolve(alloc, &mut on, desk, private, file)
}

/// The CNID of the folder or file that was reached.
fn id_reached<P: SectorSpace>(
    alloc: Global,
    tree: &mut TreeFile,
    desk: &mut Desk,
    space: &mut P,
    private: Option<u32>,
    at: &Reached,
) -> Result<u32, Trouble>
    requires over { IsCatalogOver tree.old desk.old (P.SectorView.space space.old) }
    ensures id { IsTrue (P.SectorView.space space.old).tells → IfOk result (λ id. id ≡ id_reached (pairs_in (sectors_of_tree tree.old) (P.SectorView.space space.old).content) private at.now) }
    ensures over { IsCatalogOver tree.new desk.new (P.SectorView.space space.new) }
    ensures reads { ReadsTree tree.old tree.new (P.SectorView.space space.old) (P.SectorView.space space.new) }
    ensures below { P.SectorView.follows space.old space.new }
    ensures cause { HasTroubleCause (P.SectorView.space space.old).faults (P.SectorView.space space.new).faults result }
{
    match at {
        Reached::Root => Ok(ROOT),
        Reached::Folder(folder) => Ok(folder.fields.id),
        Reached::File(file) => match private {
            Some(private) => {
                let own = resolve_over(alloc, tree, desk, space, private, file)?;
                Ok(own.fields.id)
            }
            None => Ok(file.fields.id),
        },
    }
}

/// The CNID of the folder or file that a path stands for, or the first reason against it.
pub(crate) fn owner<P: SectorSpace>(
    alloc: Global,
    tree: &mut TreeFile,
    desk: &mut Desk,
    space: &mut P,
    private: Option<u32>,
    path: &[Units],
) -> Result<Result<u32, Refusal>, Trouble>
    requires over { IsCatalogOver tree.old desk.old (P.SectorView.space space.old) }
    requires names { All (λ name. length name ≤ 255) path.now }
    ensures found { IsTrue (P.SectorView.space space.old).tells → IfOk result (λ said. said ≡ owner_in (pairs_in (sectors_of_tree tree.old) (P.SectorView.space space.old).content) private path.now) }
    ensures over { IsCatalogOver tree.new desk.new (P.SectorView.space space.new) }
    ensures reads { ReadsTree tree.old tree.new (P.SectorView.space space.old) (P.SectorView.space space.new) }
    ensures below { P.SectorView.follows space.old space.new }
    ensures cause { HasTroubleCause (P.SectorView.space space.old).faults (P.SectorView.space space.new).faults result }
{
    match walk(alloc, tree, desk, space, path)? {
        Ok(at) => Ok(Ok(id_reached(alloc, tree, desk, space, private, &at)?)),
        Err(why) => Ok(Err(why)),
    }
}

/// The names of the attributes of a folder or file, in their order.
pub(crate) fn list_owned<P: SectorSpace>(
    alloc: Global,
    tree: &mut TreeFile,
    desk: &mut Desk,
    space: &mut P,
    id: u32,
) -> Result<Names, Trouble>
    requires over { IsAttributesOver tree.old desk.old (P.SectorView.space space.old) }
    ensures listed { IsTrue (P.SectorView.space space.old).tells → IfOk result (λ names. names ≡ names_of id (pairs_in (sectors_of_tree tree.old) (P.SectorView.space space.old).content)) }
    ensures over { IsAttributesOver tree.new desk.new (P.SectorView.space space.new) }
    ensures reads { ReadsTree tree.old tree.new (P.SectorView.space space.old) (P.SectorView.space space.new) }
    ensures below { P.SectorView.follows space.old space.new }
    ensures cause { HasTroubleCause (P.SectorView.space space.old).faults (P.SectorView.space space.new).faults result }
{
    let mut on = TreeOn { tree, space };
    attributes::list(alloc, &mut on, desk, id)
}

/// Names of attributes, as they are told.
fn told(alloc: Global, names: &[Units]) -> Result<Listing, OutOfMemory>
    ensures { IfOk result (λ list. list ≡ map listed_name names.now) }
{
    let mut list = Listing::new(alloc);
    for name in names {
        list.push(ListedName {
            name: copy_name(alloc, name)?,
            folder: false,
        })?;
    }
    Ok(list)
}

/// The names of the attributes of a folder or file, as they are told.
fn tell_owned<P: SectorSpace>(
    alloc: Global,
    tree: &mut TreeFile,
    desk: &mut Desk,
    space: &mut P,
    id: u32,
) -> Result<Listing, Trouble>
    requires over { IsAttributesOver tree.old desk.old (P.SectorView.space space.old) }
    ensures listed { IsTrue (P.SectorView.space space.old).tells → IfOk result (λ list. list ≡ attributes_in (pairs_in (sectors_of_tree tree.old) (P.SectorView.space space.old).content) id) }
    ensures over { IsAttributesOver tree.new desk.new (P.SectorView.space space.new) }
    ensures reads { ReadsTree tree.old tree.new (P.SectorView.space space.old) (P.SectorView.space space.new) }
    ensures below { P.SectorView.follows space.old space.new }
    ensures cause { HasTroubleCause (P.SectorView.space space.old).faults (P.SectorView.space space.new).faults result }
{
    let names = list_owned(alloc, tree, desk, space, id)?;
    Ok(told(alloc, names.as_slice())?)
}

impl Volume {
    /// The CNID of the folder or file that a path stands for, or the first reason against it.
    pub fn owner<P: SectorSpace>(
        &mut self,
        alloc: Global,
        space: &mut P,
        path: &Path,
    ) -> Result<Result<u32, Refusal>, Trouble>
        requires serves { Serves self.old (P.SectorView.space space.old) }
        requires fits { FitsPath path.now }
        ensures found { IsTrue (P.SectorView.space space.old).tells → IfOk result (λ said. said ≡ owner_in (lists_of self.old (P.SectorView.space space.old).content).catalog_pairs self.old.private path.now) }
        ensures looked { Looked P.SectorView.space P.SectorView.follows self.old self.new space.old space.new result }
        ensures serves { Serves self.new (P.SectorView.space space.new) }
    {
        owner(
            alloc,
            &mut self.catalog.file,
            &mut self.catalog.desk,
            space,
            self.private,
            path.as_slice(),
        )
    }

    /// The names of the attributes of a folder or file; a volume without an attributes file has none.
    pub fn tell_attributes<P: SectorSpace>(
        &mut self,
        alloc: Global,
        space: &mut P,
        id: u32,
    ) -> Result<Listing, Trouble>
        requires serves { Serves self.old (P.SectorView.space space.old) }
        ensures listed { IsTrue (P.SectorView.space space.old).tells → IfOk result (λ list. list ≡ attributes_in (lists_of self.old (P.SectorView.space space.old).content).attribute_pairs id) }
        ensures looked { Looked P.SectorView.space P.SectorView.follows self.old self.new space.old space.new result }
        ensures serves { Serves self.new (P.SectorView.space space.new) }
    {
        if self.header.attributes_fork.logical_size == 0 {
            return Ok(Listing::new(alloc));
        }
        tell_owned(
            alloc,
            &mut self.attributes.file,
            &mut self.attributes.desk,
            space,
            id,
        )
    }

    /// The reply to `lsattr`: the names of the attributes of the folder or file that a path stands for, in the order of
    /// their code units; or the first reason against it. A path that begins with a name of the volume's own is refused. It
    /// changes nothing. `Memory` comes where memory is wanting, `Disk` where a read failed.
    pub fn lsattr<P: SectorSpace>(
        &mut self,
        alloc: Global,
        space: &mut P,
        path: &Path,
    ) -> Result<Reply, Trouble>
        requires serves { Serves self.old (P.SectorView.space space.old) }
        requires fits { FitsPath path.now }
        // Told, the reply is that of the plain tree's step.
        ensures reply { IsTrue (P.SectorView.space space.old).tells → IfOk result (λ reply. reply ≡ (step_line (tree_of (P.SectorView.space space.old).content) (Ok (command.LsAttr path.now))).0) }
        ensures looked { Looked P.SectorView.space P.SectorView.follows self.old self.new space.old space.new result }
        ensures serves { Serves self.new (P.SectorView.space space.new) }
    {
        if is_private_path(path) {
            return Ok(Reply::No(Refusal::Private));
        }
        sound_has_plain_tree();
        match self.owner(alloc, space, path)? {
            Ok(id) => Ok(Reply::Listing(self.tell_attributes(alloc, space, id)?)),
            Err(why) => Ok(Reply::No(why)),
        }
    }
}
