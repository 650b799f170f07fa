//! `getattr`: the value of an attribute, which stands in its record or in blocks.
ghost use Rattle.std.specs.Prelude.{◌≡◌, ◌≤◌, ◌*◌, ◌/◌, ◌%◌, true, false, Ok, Some, nat_lt, if◌then◌else◌, IsTrue, IfOk, IfSome, length};
ghost use Rattle.std.specs.List.{list_all};
ghost use Rattle.attributes.specs.Values.{value_at};
ghost use Rattle.btree_edit.specs.Causes.{HasTroubleCause};
ghost use Rattle.btree_file.specs.Frame.{ReadsSpace};
ghost use Rattle.btree_file.specs.Standing.{pairs_in};
ghost use Rattle.btree_file.specs.State.{sectors_of_tree};
ghost use Rattle.fork_map.specs.Blocks.{blocks_of};
ghost use Rattle.hfs_language.specs.Written.{FitsPath};
ghost use Rattle.hfs_language.specs.declared.command.Command.TheVariants as command;
ghost use Rattle.attributes.specs.declared.value.ValueAt.TheVariants as held;
ghost use Rattle.hfs_language.specs.declared.refusal.Refusal.TheVariants as refusal;
ghost use Rattle.hfs_language.specs.declared.reply.Reply.TheVariants as reply;
ghost use Rattle.hfs_model.specs.Step.{most_attribute, step_line};
ghost use Rattle.hfs_volume.specs.TreeOf.{tree_of};
ghost use Rattle.volume_base.specs.Frame.{Looked, Serves};
ghost use Rattle.volume_base.specs.Lists.{lists_of};
ghost use Rattle.volume_base.specs.Looking.{IsAttributesOver, ReadsTree};
ghost use Rattle.volume_base.specs.Opening.{ends_inside};
ghost use Rattle.volume_base.specs.Values.{IsHeldIn, value_told};

use crate::names::is_private_path;
use crate::reading::read_fork;
use crate::volume::Volume;
use attributes::ValueAt;
use btree_edit::Desk;
use btree_file::{TreeFile, TreeOn};
use fork_map::ExtentList;
use hfs_language::{Path, Refusal, Reply};
use hfs_volume::sound_has_plain_tree;
use hx_bytes::{Bytes, Trouble, Units};
use sector_disk::SectorSpace;
use std::alloc::Global;

/// The most bytes of an attribute's value.
const MOST_BYTES: u64 = 131_072;

/// The value of an attribute of a folder or file, in its record or in blocks; none where it has none of the name.
pub(crate) fn find_value<P: SectorSpace>(
    alloc: Global,
    tree: &mut TreeFile,
    desk: &mut Desk,
    space: &mut P,
    id: u32,
    name: &Units,
) -> Result<Option<ValueAt>, Trouble>
    requires over { IsAttributesOver tree.old desk.old (P.SectorView.space space.old) }
    requires name { length name.now ≤ 127 }
    ensures found { IsTrue (P.SectorView.space space.old).tells → IfOk result (λ found. found ≡ value_at (pairs_in (sectors_of_tree tree.old) (P.SectorView.space space.old).content) id name.now) }
    ensures over { IsAttributesOver tree.new desk.new (P.SectorView.space space.new) }
    ensures reads { ReadsTree tree.old tree.new (P.SectorView.space space.old) (P.SectorView.space space.new) }
    ensures below { P.SectorView.follows space.old space.new }
    ensures cause { HasTroubleCause (P.SectorView.space space.old).faults (P.SectorView.space space.new).faults result }
{
    let mut on = TreeOn { tree, space };
    attributes::value_of(alloc, &mut on, desk, id, name)
}

/// Whether a reply holds a value of so many bytes.
fn is_told(size: u64) -> bool
    ensures more { result ≡ false → nat_lt most_attribute size ≡ true }
    ensures most { IsTrue result → nat_lt most_attribute size ≡ false }
    ensures few { IsTrue result → size ≤ 131072 }
{
    if MOST_BYTES < size {
        return false;
    }
    true
}

/// The reply about a value that stands in its record.
fn told_inline(value: Bytes) -> Reply
    ensures { result ≡ (if nat_lt most_attribute (length value) then reply.No refusal.TooLarge else reply.Content value) }
{
    if !is_told(value.len() as u64) {
        return Reply::No(Refusal::TooLarge);
    }
    Reply::Content(value)
}

/// The reply about a value of so many bytes in the blocks of a fork, of which none is read where it is too large.
fn told_in_blocks<P: SectorSpace>(
    alloc: Global,
    space: &mut P,
    block: u32,
    size: u64,
    fork: ExtentList,
) -> Result<Reply, Trouble>
    requires least { 512 ≤ block }
    requires most { block ≤ 65536 }
    ensures reply { IsTrue (P.SectorView.space space.old).tells → block % 512 ≡ 0 → list_all (ends_inside (block / 512) (P.SectorView.space space.old).sectors) fork ≡ true → size ≤ length (blocks_of fork) * block
        → IfOk result (λ reply. reply ≡ value_told (P.SectorView.space space.old).content block (Some (held.Blocks size fork))) }
    ensures reads { ReadsSpace (P.SectorView.space space.old) (P.SectorView.space space.new) }
    ensures below { P.SectorView.follows space.old space.new }
    ensures cause { HasTroubleCause (P.SectorView.space space.old).faults (P.SectorView.space space.new).faults result }
{
    if !is_told(size) {
        return Ok(Reply::No(Refusal::TooLarge));
    }
    let value = read_fork(alloc, space, fork, block, size, 0, size as u32)?;
    Ok(Reply::Content(value))
}

/// The reply about an attribute's value, if there is one.
fn told_value<P: SectorSpace>(
    alloc: Global,
    space: &mut P,
    block: u32,
    found: Option<ValueAt>,
) -> Result<Reply, Trouble>
    requires least { 512 ≤ block }
    requires most { block ≤ 65536 }
    ensures reply { IsTrue (P.SectorView.space space.old).tells → block % 512 ≡ 0 → IfSome found (IsHeldIn block (P.SectorView.space space.old).sectors) → IfOk result (λ reply. reply ≡ value_told (P.SectorView.space space.old).content block found) }
    ensures reads { ReadsSpace (P.SectorView.space space.old) (P.SectorView.space space.new) }
    ensures below { P.SectorView.follows space.old space.new }
    ensures cause { HasTroubleCause (P.SectorView.space space.old).faults (P.SectorView.space space.new).faults result }
{
    match found {
        None => Ok(Reply::No(Refusal::NoAttribute)),
        Some(ValueAt::Inline(value)) => Ok(told_inline(value)),
        Some(ValueAt::Blocks { size, fork }) => told_in_blocks(alloc, space, block, size, fork),
    }
}

impl Volume {
    /// The value of an attribute of a folder or file; a volume without an attributes file has none.
    pub(crate) fn value<P: SectorSpace>(
        &mut self,
        alloc: Global,
        space: &mut P,
        id: u32,
        name: &Units,
    ) -> Result<Option<ValueAt>, Trouble>
        requires serves { Serves self.old (P.SectorView.space space.old) }
        requires name { length name.now ≤ 127 }
        ensures found { IsTrue (P.SectorView.space space.old).tells → IfOk result (λ found. found ≡ value_at (lists_of self.old (P.SectorView.space space.old).content).attribute_pairs id name.now) }
        ensures looked { Looked P.SectorView.space P.SectorView.follows self.old self.new space.old space.new result }
        ensures serves { Serves self.new (P.SectorView.space space.new) }
    {
        if self.header.attributes_fork.logical_size == 0 {
            return Ok(None);
        }
        find_value(
            alloc,
            &mut self.attributes.file,
            &mut self.attributes.desk,
            space,
            id,
            name,
        )
    }

    /// The reply about an attribute of a folder or file.
    fn tell_value<P: SectorSpace>(
        &mut self,
        alloc: Global,
        space: &mut P,
        id: u32,
        name: &Units,
    ) -> Result<Reply, Trouble>
        requires serves { Serves self.old (P.SectorView.space space.old) }
        requires name { length name.now ≤ 127 }
        ensures told { IsTrue (P.SectorView.space space.old).tells → IfOk result (λ reply. reply ≡ value_told (P.SectorView.space space.old).content self.old.header.block_size (value_at (lists_of self.old (P.SectorView.space space.old).content).attribute_pairs id name.now)) }
        ensures looked { Looked P.SectorView.space P.SectorView.follows self.old self.new space.old space.new result }
        ensures serves { Serves self.new (P.SectorView.space space.new) }
    {
        let found = self.value(alloc, space, id, name)?;
        told_value(alloc, space, self.header.block_size, found)
    }

    /// The reply to `getattr`: the value of the attribute of this name of the folder or file that a path stands for; or the
    /// first reason against it, of which `NoAttribute` comes before `TooLarge`, which comes where the value has more bytes than a
    /// `setattr` takes. A path that begins with a name of the volume's own is refused. It changes nothing. `Memory` comes where memory
    /// is wanting, `Disk` where a read failed.
    pub fn getattr<P: SectorSpace>(
        &mut self,
        alloc: Global,
        space: &mut P,
        path: &Path,
        name: &Units,
    ) -> Result<Reply, Trouble>
        requires serves { Serves self.old (P.SectorView.space space.old) }
        requires fits { FitsPath path.now }
        requires name { length name.now ≤ 127 }
        // Told, the reply is that of the plain tree's step.
        ensures reply { IsTrue (P.SectorView.space space.old).tells → IfOk result (λ reply. reply ≡ (step_line (tree_of (P.SectorView.space space.old).content) (Ok (command.GetAttr path.now name.now))).0) }
        ensures looked { Looked P.SectorView.space P.SectorView.follows self.old self.new space.old space.new result }
        ensures serves { Serves self.new (P.SectorView.space space.new) }
    {
        if is_private_path(path) {
            return Ok(Reply::No(Refusal::Private));
        }
        sound_has_plain_tree();
        match self.owner(alloc, space, path)? {
            Ok(id) => self.tell_value(alloc, space, id, name),
            Err(why) => Ok(Reply::No(why)),
        }
    }
}
