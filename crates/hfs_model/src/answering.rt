//! What a command is answered with on a plain tree, and the tree after it.
ghost use Rattle.std.specs.Prelude.{◌≡◌, ◌≤◌, ◌<◌, ◌+◌, ◌^◌, map, take, drop, IfOk, Some, None, option_copied};
ghost use Rattle.hfs_language.specs.declared.reply.Reply.TheVariants as reply;
ghost use Rattle.hfs_model.specs.Plain.{entries_in, with_changed, with_mode, with_attribute, without_attribute};
ghost use Rattle.hfs_model.specs.Change.{change_of};
ghost use Rattle.hfs_model.specs.Answers.{step_told};
ghost use Rattle.hfs_model.specs.Step.{on, to_make, to_rm, to_rmdir, to_mv, to_link, to_node, to_file, to_folder, to_write, to_read, to_trunc, to_set, to_attribute, made, removed, removed_folder, moved_over, is_same_file, vacated, linked, written, resized, with_bytes, marked, facts_of, listed, listed_attribute, to_value, moved};

use crate::bytes::{part, resized, written};
use crate::changing::NodeChange;
use crate::copying::{copy_list, copy_tree};
use crate::plain::{PlainEntry, PlainNode, PlainTree};
use hfs_language::{Facts, ListedName, Listing, Refusal, Reply};
use hx_bytes::{Bytes, Listed, OutOfMemory, Units};
use std::alloc::Global;

/// A reply, and the tree after it where it is another.
#[derive(Drop)]
pub(crate) struct Answer {
    pub reply: Reply,
    pub tree: Option<PlainTree>,
}

/// A reply that leaves the tree as it is.
pub(crate) fn told(words: Reply) -> Answer
    ensures { result ≡ record { reply = words; tree = None } }
{
    Answer {
        reply: words,
        tree: None,
    }
}

fn refused(why: Refusal) -> Answer
    ensures { result ≡ record { reply = reply.No why; tree = None } }
{
    told(Reply::No(why))
}

pub(crate) fn changed(tree: PlainTree) -> Answer
    ensures { result ≡ record { reply = reply.Ok; tree = Some tree } }
{
    Answer {
        reply: Reply::Ok,
        tree: Some(tree),
    }
}

impl PlainTree {
    /// The names in a folder.
    fn listing(&self, alloc: Global, folder: u32) -> Result<Listing, OutOfMemory>
        ensures { IfOk result (λ names. names ≡ map listed (entries_in self.now folder)) }
    {
        let mut names = Listed::new(alloc);
        for entry in self.entries.as_slice() {
            if entry.parent == folder {
                names.push(ListedName {
                    name: copy_list(alloc, &entry.name)?,
                    folder: entry.folder,
                })?;
            }
        }
        Ok(names)
    }

    /// What `stat` tells. More names than a `u32` counts take more memory than there is.
    fn facts(&self, node: &PlainNode) -> Result<Facts, OutOfMemory>
        ensures { IfOk result (λ facts. facts ≡ facts_of self.now node.now) }
    {
        let size = if node.folder {
            self.count_in(node.id)
        } else {
            node.bytes.len()
        };
        let links = if node.folder {
            0
        } else {
            self.names_of(node.id)
        };
        if links > u32::MAX as usize {
            return Err(OutOfMemory);
        }
        Ok(Facts {
            folder: node.folder,
            id: node.id,
            size: size as u64,
            links: links as u32,
            mode: node.mode,
            created: node.created,
            changed: node.changed,
            attribute: node.attribute,
        })
    }

    pub(crate) fn make(
        &self,
        alloc: Global,
        folder: bool,
        path: &[Units],
    ) -> Result<Answer, OutOfMemory>
        requires room { self.now.next_id ≤ 4294967292 }
        ensures { IfOk result (λ answer. step_told self.now answer ≡ on self.now (to_make self.now path.now) (λ at. (reply.Ok, made folder at self.now))) }
    {
        let root = PlainEntry::root(alloc);
        match self.to_make(&root, path) {
            Ok(site) => Ok(changed(copy_tree(alloc, self)?.made(alloc, folder, &site)?)),
            Err(why) => Ok(refused(why)),
        }
    }

    pub(crate) fn rm(&self, alloc: Global, path: &[Units]) -> Result<Answer, OutOfMemory>
        requires room { self.now.next_id ≤ 4294967292 }
        ensures { IfOk result (λ answer. step_told self.now answer ≡ on self.now (to_rm self.now path.now) (λ at. (reply.Ok, removed at self.now))) }
    {
        let root = PlainEntry::root(alloc);
        match self.to_rm(&root, path) {
            Ok(entry) => Ok(changed(copy_tree(alloc, self)?.removed(alloc, entry)?)),
            Err(why) => Ok(refused(why)),
        }
    }

    pub(crate) fn rmdir(&self, alloc: Global, path: &[Units]) -> Result<Answer, OutOfMemory>
        ensures { IfOk result (λ answer. step_told self.now answer ≡ on self.now (to_rmdir self.now path.now) (λ at. (reply.Ok, removed_folder at self.now))) }
    {
        let root = PlainEntry::root(alloc);
        match self.to_rmdir(&root, path) {
            Ok(entry) => Ok(changed(copy_tree(alloc, self)?.removed_folder(alloc, entry)?)),
            Err(why) => Ok(refused(why)),
        }
    }

    pub(crate) fn mv(
        &self,
        alloc: Global,
        from: &[Units],
        to: &[Units],
    ) -> Result<Answer, OutOfMemory>
        requires room { self.now.next_id ≤ 4294967292 }
        ensures { IfOk result (λ answer. step_told self.now answer ≡ on self.now (to_mv self.now from.now to.now) (λ pair. (reply.Ok, moved_over pair.0 pair.1 self.now))) }
    {
        let root = PlainEntry::root(alloc);
        match self.to_mv(&root, from, to) {
            Ok((entry, site)) => {
                if is_same_file(entry, site.found) {
                    return Ok(told(Reply::Ok));
                }
                let tree = copy_tree(alloc, self)?.vacated(alloc, site.found)?;
                Ok(changed(tree.moved(alloc, entry, &site)?))
            }
            Err(why) => Ok(refused(why)),
        }
    }

    pub(crate) fn ln(
        &self,
        alloc: Global,
        from: &[Units],
        to: &[Units],
    ) -> Result<Answer, OutOfMemory>
        requires room { self.now.next_id ≤ 4294967292 }
        ensures { IfOk result (λ answer. step_told self.now answer ≡ on self.now (to_link self.now from.now to.now) (λ pair. (reply.Ok, linked pair.0 pair.1 self.now))) }
    {
        let root = PlainEntry::root(alloc);
        match self.to_link(&root, from, to) {
            Ok((file, site)) => Ok(changed(copy_tree(alloc, self)?.linked(alloc, file, &site)?)),
            Err(why) => Ok(refused(why)),
        }
    }

    /// The tree with other bytes of a file.
    fn with_bytes(&self, alloc: Global, id: u32, bytes: &Bytes) -> Result<Answer, OutOfMemory>
        ensures { IfOk result (λ answer. step_told self.now answer ≡ (reply.Ok, with_bytes id bytes.now self.now)) }
    {
        let tree = copy_tree(alloc, self)?;
        Ok(changed(tree.changed(alloc, id, NodeChange::Bytes(bytes))?))
    }

    pub(crate) fn write(
        &self,
        alloc: Global,
        path: &[Units],
        from: u64,
        value: &[u8],
    ) -> Result<Answer, OutOfMemory>
        ensures { IfOk result (λ answer. step_told self.now answer ≡ on self.now (to_write self.now path.now from value.now) (λ file. (reply.Ok, written file from value.now self.now))) }
    {
        let root = PlainEntry::root(alloc);
        match self.to_write(&root, path, from, value) {
            Ok(_) if value.is_empty() => Ok(told(Reply::Ok)),
            Ok(file) => {
                let bytes = written(alloc, &file.bytes, from as usize, value)?;
                self.with_bytes(alloc, file.id, &bytes)
            }
            Err(why) => Ok(refused(why)),
        }
    }

    pub(crate) fn read(
        &self,
        alloc: Global,
        path: &[Units],
        from: u64,
        most: u64,
    ) -> Result<Answer, OutOfMemory>
        ensures { IfOk result (λ answer. step_told self.now answer ≡ on self.now (to_read self.now path.now most) (λ file. (reply.Content (take most (drop from file.bytes)), self.now))) }
    {
        let root = PlainEntry::root(alloc);
        match self.to_read(&root, path, most) {
            Ok(file) => Ok(told(Reply::Content(part(alloc, &file.bytes, from, most)?))),
            Err(why) => Ok(refused(why)),
        }
    }

    pub(crate) fn trunc(
        &self,
        alloc: Global,
        path: &[Units],
        size: u64,
    ) -> Result<Answer, OutOfMemory>
        ensures { IfOk result (λ answer. step_told self.now answer ≡ on self.now (to_trunc self.now path.now size) (λ file. (reply.Ok, resized file size self.now))) }
    {
        let root = PlainEntry::root(alloc);
        match self.to_trunc(&root, path, size) {
            Ok(file) => {
                let bytes = resized(alloc, &file.bytes, size as usize)?;
                self.with_bytes(alloc, file.id, &bytes)
            }
            Err(why) => Ok(refused(why)),
        }
    }

    pub(crate) fn ls(&self, alloc: Global, path: &[Units]) -> Result<Answer, OutOfMemory>
        ensures { IfOk result (λ answer. step_told self.now answer ≡ on self.now (to_folder self.now path.now) (λ folder. (reply.Listing (map listed (entries_in self.now folder.id)), self.now))) }
    {
        let root = PlainEntry::root(alloc);
        match self.to_folder(&root, path) {
            Ok(folder) => Ok(told(Reply::Listing(self.listing(alloc, folder.id)?))),
            Err(why) => Ok(refused(why)),
        }
    }

    pub(crate) fn stat(&self, alloc: Global, path: &[Units]) -> Result<Answer, OutOfMemory>
        ensures { IfOk result (λ answer. step_told self.now answer ≡ on self.now (to_node self.now path.now) (λ node. (reply.Facts (facts_of self.now node), self.now))) }
    {
        let root = PlainEntry::root(alloc);
        match self.to_node(&root, path) {
            Ok(node) => Ok(told(Reply::Facts(self.facts(node)?))),
            Err(why) => Ok(refused(why)),
        }
    }

    /// The tree with a change of a folder or file itself, which dates its attribute date.
    fn with_marked(&self, alloc: Global, id: u32, change: NodeChange) -> Result<Answer, OutOfMemory>
        ensures { IfOk result (λ answer. step_told self.now answer ≡ (reply.Ok, marked id (with_changed id (change_of self.now.moment change.entry) self.now))) }
    {
        let tree = copy_tree(alloc, self)?.changed(alloc, id, change)?;
        Ok(changed(tree.marked(alloc, id)?))
    }

    pub(crate) fn chmod(
        &self,
        alloc: Global,
        path: &[Units],
        mode: u16,
    ) -> Result<Answer, OutOfMemory>
        ensures { IfOk result (λ answer. step_told self.now answer ≡ on self.now (to_node self.now path.now) (λ node. (reply.Ok, marked node.id (with_changed node.id (with_mode mode) self.now)))) }
    {
        let root = PlainEntry::root(alloc);
        match self.to_node(&root, path) {
            Ok(node) => self.with_marked(alloc, node.id, NodeChange::Mode(mode)),
            Err(why) => Ok(refused(why)),
        }
    }

    pub(crate) fn setattr(
        &self,
        alloc: Global,
        path: &[Units],
        name: &Units,
        value: &Bytes,
    ) -> Result<Answer, OutOfMemory>
        ensures { IfOk result (λ answer. step_told self.now answer ≡ on self.now (to_set self.now path.now value.now) (λ node. (reply.Ok, marked node.id (with_changed node.id (with_attribute name.now value.now) self.now)))) }
    {
        let root = PlainEntry::root(alloc);
        match self.to_set(&root, path, value.as_slice()) {
            Ok(node) => self.with_marked(alloc, node.id, NodeChange::SetAttribute(name, value)),
            Err(why) => Ok(refused(why)),
        }
    }

    pub(crate) fn getattr(
        &self,
        alloc: Global,
        path: &[Units],
        name: &Units,
    ) -> Result<Answer, OutOfMemory>
        ensures { IfOk result (λ answer. step_told self.now answer ≡ on self.now (to_value self.now path.now name.now) (λ pair. (reply.Content pair.1.value, self.now))) }
    {
        let root = PlainEntry::root(alloc);
        match self.to_value(&root, path, name) {
            Ok((_, attribute)) => Ok(told(Reply::Content(copy_list(alloc, &attribute.value)?))),
            Err(why) => Ok(refused(why)),
        }
    }

    pub(crate) fn delattr(
        &self,
        alloc: Global,
        path: &[Units],
        name: &Units,
    ) -> Result<Answer, OutOfMemory>
        ensures { IfOk result (λ answer. step_told self.now answer ≡ on self.now (to_attribute self.now path.now name.now) (λ pair. (reply.Ok, marked pair.0.id (with_changed pair.0.id (without_attribute name.now) self.now)))) }
    {
        let root = PlainEntry::root(alloc);
        match self.to_attribute(&root, path, name) {
            Ok((node, _)) => self.with_marked(alloc, node.id, NodeChange::DropAttribute(name)),
            Err(why) => Ok(refused(why)),
        }
    }

    pub(crate) fn lsattr(&self, alloc: Global, path: &[Units]) -> Result<Answer, OutOfMemory>
        ensures { IfOk result (λ answer. step_told self.now answer ≡ on self.now (to_node self.now path.now) (λ node. (reply.Listing (map listed_attribute node.attributes), self.now))) }
    {
        let root = PlainEntry::root(alloc);
        match self.to_node(&root, path) {
            Ok(node) => Ok(told(Reply::Listing(attribute_names(alloc, node)?))),
            Err(why) => Ok(refused(why)),
        }
    }
}

/// Whether an entry that stands at the new place names the same file.
fn is_same_file(at: &PlainEntry, found: Option<&PlainEntry>) -> bool
    ensures { result ≡ is_same_file at.now (option_copied found.entry) }
{
    match found {
        Some(other) => other.id == at.id,
        None => false,
    }
}

/// The names of a folder's or file's attributes.
fn attribute_names(alloc: Global, node: &PlainNode) -> Result<Listing, OutOfMemory>
    ensures { IfOk result (λ names. names ≡ map listed_attribute node.now.attributes) }
{
    let mut names = Listed::new(alloc);
    for attribute in node.attributes.as_slice() {
        names.push(ListedName {
            name: copy_list(alloc, &attribute.name)?,
            folder: false,
        })?;
    }
    Ok(names)
}
