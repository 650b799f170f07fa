//! Changes of a plain tree. Each takes a tree and gives another, so that where memory is missing nothing else is lost.
ghost use Rattle.std.specs.Prelude.{◌≡◌, ◌+◌, ◌≤◌, ◌^◌, ◌<◌, map, IfOk, false, if◌then◌else◌, option_copied};
ghost use Rattle.hfs_model.specs.Plain.{is_node, with_entry, without_entry, with_node, without_node, with_changed};
ghost use Rattle.hfs_model.specs.Step.{touched, marked, drawn, with_private, made, unnamed, removed, vacated, removed_folder, moved, linked, link_ids};
ghost use Rattle.hfs_model.specs.Change.{change_of};
ghost use Rattle.hfs_model.specs.Refers.{place_at};

use crate::copying::copy_list;
use crate::ordering::{attributes_without, entries_without, nodes_without, put};
use crate::plain::{PlainAttribute, PlainEntry, PlainNode, PlainTree, type_bits_kept};
use crate::walking::Site;
use hx_bytes::{Bytes, Listed, OutOfMemory, Units};
use std::alloc::Global;

/// What a command changes in a folder or file.
#[derive(Clone, Copy)]
pub(crate) enum NodeChange<'a> {
    /// Its entries, or its bytes: both dates are the moment.
    Touched,
    /// Itself, and not what it holds: the attribute date is the moment.
    Marked,
    Mode(u16),
    /// A file got a second name.
    Linked,
    Bytes(&'a Bytes),
    SetAttribute(&'a Units, &'a Bytes),
    DropAttribute(&'a Units),
}

fn change_node(
    alloc: Global,
    node: PlainNode,
    change: NodeChange,
    moment: u32,
) -> Result<PlainNode, OutOfMemory>
    ensures { IfOk result (λ new. new ≡ change_of moment change.entry node) }
{
    let mut node = node;
    match change {
        NodeChange::Touched => {
            node.changed = moment;
            node.attribute = moment;
        }
        NodeChange::Marked => node.attribute = moment,
        NodeChange::Mode(mode) => {
            node.type_bits = type_bits_kept(node.folder, node.type_bits);
            node.mode = mode;
        }
        NodeChange::Linked => node.linked = true,
        NodeChange::Bytes(bytes) => {
            node.bytes = copy_list(alloc, bytes)?;
            node.changed = moment;
            node.attribute = moment;
        }
        NodeChange::SetAttribute(name, value) => {
            let attribute = PlainAttribute {
                name: copy_list(alloc, name)?,
                value: copy_list(alloc, value)?,
            };
            node.attributes = put(attributes_without(node.attributes, name), attribute)?;
        }
        NodeChange::DropAttribute(name) => {
            node.attributes = attributes_without(node.attributes, name);
        }
    }
    Ok(node)
}

fn change_if(
    alloc: Global,
    node: PlainNode,
    id: u32,
    change: NodeChange,
    moment: u32,
) -> Result<PlainNode, OutOfMemory>
    ensures { IfOk result (λ new. new ≡ (if is_node id node then change_of moment change.entry node else node)) }
{
    if node.id == id {
        change_node(alloc, node, change, moment)
    } else {
        Ok(node)
    }
}

fn change_nodes(
    alloc: Global,
    nodes: Listed<PlainNode>,
    id: u32,
    change: NodeChange,
    moment: u32,
) -> Result<Listed<PlainNode>, OutOfMemory>
    ensures { IfOk result (λ new. new ≡ map (λ node. if is_node id node then change_of moment change.entry node else node) nodes) }
{
    let mut changed = Listed::new(alloc);
    for node in nodes.into_vec() {
        changed.push(change_if(alloc, node, id, change, moment)?)?;
    }
    Ok(changed)
}

impl PlainTree {
    /// The tree with a folder or file changed so at its moment.
    pub(crate) fn changed(
        self,
        alloc: Global,
        id: u32,
        change: NodeChange,
    ) -> Result<PlainTree, OutOfMemory>
        ensures { IfOk result (λ tree. tree ≡ with_changed id (change_of self.moment change.entry) self) }
    {
        let PlainTree {
            entries,
            nodes,
            next_id,
            has_private,
            moment,
        } = self;
        Ok(PlainTree {
            entries,
            nodes: change_nodes(alloc, nodes, id, change, moment)?,
            next_id,
            has_private,
            moment,
        })
    }

    /// Entries of the folder changed at this moment.
    fn touched(self, alloc: Global, id: u32) -> Result<PlainTree, OutOfMemory>
        ensures { IfOk result (λ tree. tree ≡ touched id self) }
    {
        self.changed(alloc, id, NodeChange::Touched)
    }

    /// The folder or file itself did, but not what it holds.
    pub(crate) fn marked(self, alloc: Global, id: u32) -> Result<PlainTree, OutOfMemory>
        ensures { IfOk result (λ tree. tree ≡ marked id self) }
    {
        self.changed(alloc, id, NodeChange::Marked)
    }

    fn with_entry(self, entry: PlainEntry) -> Result<PlainTree, OutOfMemory>
        ensures { IfOk result (λ tree. tree ≡ with_entry entry self) }
    {
        let mut tree = self;
        tree.entries = put(tree.entries, entry)?;
        Ok(tree)
    }

    fn without_entry(self, parent: u32, name: &Units) -> PlainTree
        ensures { result ≡ without_entry parent name.now self }
    {
        let mut tree = self;
        tree.entries = entries_without(tree.entries, parent, name);
        tree
    }

    fn with_node(self, node: PlainNode) -> Result<PlainTree, OutOfMemory>
        ensures { IfOk result (λ tree. tree ≡ with_node node self) }
    {
        let mut tree = self;
        tree.nodes = put(tree.nodes, node)?;
        Ok(tree)
    }

    fn without_node(self, id: u32) -> PlainTree
        ensures { result ≡ without_node id self }
    {
        let mut tree = self;
        tree.nodes = nodes_without(tree.nodes, id);
        tree
    }

    /// The next ids went to something.
    fn drawn(self, ids: u32) -> PlainTree
        requires room { self.next_id + ids < 2 ^ 32 }
        ensures { result ≡ drawn ids self }
    {
        let mut tree = self;
        tree.next_id += ids;
        tree
    }

    /// The folder of files with several names is there from now on, and took an id where it wasn't.
    fn with_private(self) -> PlainTree
        requires room { self.next_id + 1 < 2 ^ 32 }
        ensures { result ≡ with_private self }
    {
        let ids = if self.has_private { 0 } else { 1 };
        let mut tree = self.drawn(ids);
        tree.has_private = true;
        tree
    }

    /// A new folder or file.
    pub(crate) fn made(
        self,
        alloc: Global,
        folder: bool,
        site: &Site,
    ) -> Result<PlainTree, OutOfMemory>
        requires room { self.next_id + 1 < 2 ^ 32 }
        ensures { IfOk result (λ tree. tree ≡ made folder (place_at site.now) self) }
    {
        let id = self.next_id;
        let node = PlainNode::new(alloc, folder, id, self.moment);
        let entry = PlainEntry {
            parent: site.folder,
            name: copy_list(alloc, site.name)?,
            folder,
            id,
        };
        self.drawn(1)
            .with_node(node)?
            .with_entry(entry)?
            .touched(alloc, site.folder)
    }

    /// A file that has lost a name; it goes with its last one, and then the folder of files with several names is there.
    fn unnamed(self, alloc: Global, id: u32) -> Result<PlainTree, OutOfMemory>
        requires room { self.next_id + 1 < 2 ^ 32 }
        ensures { IfOk result (λ tree. tree ≡ unnamed id self) }
    {
        if self.names_of(id) == 0 {
            Ok(self.without_node(id).with_private())
        } else {
            self.marked(alloc, id)
        }
    }

    pub(crate) fn removed(self, alloc: Global, entry: &PlainEntry) -> Result<PlainTree, OutOfMemory>
        requires room { self.next_id + 1 < 2 ^ 32 }
        ensures { IfOk result (λ tree. tree ≡ removed entry.now self) }
    {
        self.without_entry(entry.parent, &entry.name)
            .unnamed(alloc, entry.id)?
            .touched(alloc, entry.parent)
    }

    /// A file that stood at the new place has lost that name.
    pub(crate) fn vacated(
        self,
        alloc: Global,
        found: Option<&PlainEntry>,
    ) -> Result<PlainTree, OutOfMemory>
        requires room { self.next_id + 1 < 2 ^ 32 }
        ensures { IfOk result (λ tree. tree ≡ vacated (option_copied found.entry) self) }
    {
        match found {
            Some(other) => self.removed(alloc, other),
            None => Ok(self),
        }
    }

    pub(crate) fn removed_folder(
        self,
        alloc: Global,
        entry: &PlainEntry,
    ) -> Result<PlainTree, OutOfMemory>
        ensures { IfOk result (λ tree. tree ≡ removed_folder entry.now self) }
    {
        self.without_entry(entry.parent, &entry.name)
            .without_node(entry.id)
            .touched(alloc, entry.parent)
    }

    /// The entry stands at another place.
    fn placed(
        self,
        alloc: Global,
        entry: &PlainEntry,
        site: &Site,
    ) -> Result<PlainTree, OutOfMemory>
        ensures { IfOk result (λ tree. tree ≡ with_entry (record entry.now { parent = site.now.folder; name = site.now.name.now }) (without_entry entry.now.parent entry.now.name self)) }
    {
        let other = PlainEntry {
            parent: site.folder,
            name: copy_list(alloc, site.name)?,
            folder: entry.folder,
            id: entry.id,
        };
        self.without_entry(entry.parent, &entry.name)
            .with_entry(other)
    }

    pub(crate) fn moved(
        self,
        alloc: Global,
        entry: &PlainEntry,
        site: &Site,
    ) -> Result<PlainTree, OutOfMemory>
        ensures { IfOk result (λ tree. tree ≡ moved entry.now (place_at site.now) self) }
    {
        self.placed(alloc, entry, site)?
            .touched(alloc, entry.parent)?
            .touched(alloc, site.folder)?
            .marked(alloc, entry.id)
    }

    /// The file has a further name.
    fn named(self, alloc: Global, file: &PlainNode, site: &Site) -> Result<PlainTree, OutOfMemory>
        requires room { self.next_id + 3 < 2 ^ 32 }
        ensures { IfOk result (λ tree. tree ≡ with_entry (record { parent = site.now.folder; name = site.now.name.now; folder = false; id = file.now.id }) (drawn (link_ids file.now) (with_private self))) }
    {
        let ids = if file.linked { 1 } else { 2 };
        let entry = PlainEntry {
            parent: site.folder,
            name: copy_list(alloc, site.name)?,
            folder: false,
            id: file.id,
        };
        self.with_private().drawn(ids).with_entry(entry)
    }

    pub(crate) fn linked(
        self,
        alloc: Global,
        file: &PlainNode,
        site: &Site,
    ) -> Result<PlainTree, OutOfMemory>
        requires room { self.next_id + 3 < 2 ^ 32 }
        ensures { IfOk result (λ tree. tree ≡ linked file.now (place_at site.now) self) }
    {
        self.named(alloc, file, site)?
            .changed(alloc, file.id, NodeChange::Linked)?
            .marked(alloc, file.id)?
            .touched(alloc, site.folder)
    }
}
