//! The plain tree: a volume as its users see it, as sorted lists.

ghost use Rattle.std.specs.Prelude.{◌≡◌, IfOk};
ghost use Rattle.hfs_model.specs.Plain.{fresh_tree, new_node, is_at, is_named, type_bits_of, type_bits_kept};
ghost use Rattle.hfs_model.specs.Step.{root_entry};

use hx_bytes::{Bytes, Listed, OutOfMemory, Units};
use std::alloc::Global;

/// A name in a folder, and the folder or file that it names.
#[derive(Drop)]
pub struct PlainEntry {
    pub parent: u32,
    pub name: Units,
    pub folder: bool,
    pub id: u32,
}

impl PlainEntry {
    /// The root, as if it were named.
    pub(crate) fn root(alloc: Global) -> PlainEntry
        ensures { result ≡ root_entry }
    {
        PlainEntry {
            parent: 1,
            name: Listed::new(alloc),
            folder: true,
            id: 2,
        }
    }

    pub(crate) fn is_at(&self, parent: u32, name: &Units) -> bool
        ensures { result ≡ is_at parent name.now self.now }
    {
        self.parent == parent && self.name.as_slice() == name.as_slice()
    }
}

/// A named value of a folder or file.
#[derive(Drop)]
pub struct PlainAttribute {
    pub name: Units,
    pub value: Bytes,
}

impl PlainAttribute {
    pub(crate) fn is_named(&self, name: &Units) -> bool
        ensures { result ≡ is_named name.now self.now }
    {
        self.name.as_slice() == name.as_slice()
    }
}

/// A folder or a file. A folder has no bytes of its own nor a resource fork, and was never linked.
#[derive(Drop)]
pub struct PlainNode {
    pub id: u32,
    pub folder: bool,
    /// The bits of the mode that say what it is: 0040000 a folder, 0100000 a regular file, 0120000 a symbolic link (TN1150, "HFS Plus Permissions").
    pub type_bits: u16,
    /// The low twelve bits of the mode.
    pub mode: u16,
    pub created: u32,
    pub changed: u32,
    pub attribute: u32,
    /// In the order of their names.
    pub attributes: Listed<PlainAttribute>,
    pub bytes: Bytes,
    /// The bytes of its resource fork.
    pub resource: Bytes,
    /// Whether the file ever had a second name.
    pub linked: bool,
}

/// The type bits of a new folder, or of a new file.
fn type_bits_of(folder: bool) -> u16
    ensures { result ≡ type_bits_of folder }
{
    if folder { 0o040_000 } else { 0o100_000 }
}

/// The type bits of a folder or file whose mode is set: those that it has, or those of a new one where it has none.
pub(crate) fn type_bits_kept(folder: bool, bits: u16) -> u16
    ensures { result ≡ type_bits_kept folder bits }
{
    if bits == 0 {
        return type_bits_of(folder);
    }
    bits
}

impl PlainNode {
    /// A folder or file as it is made: with mode 0755 or 0644, and nothing in it.
    pub(crate) fn new(alloc: Global, folder: bool, id: u32, moment: u32) -> PlainNode
        ensures { result ≡ new_node folder id moment }
    {
        PlainNode {
            id,
            folder,
            type_bits: type_bits_of(folder),
            mode: if folder { 0o755 } else { 0o644 },
            created: moment,
            changed: moment,
            attribute: moment,
            attributes: Listed::new(alloc),
            bytes: Listed::new(alloc),
            resource: Listed::new(alloc),
            linked: false,
        }
    }
}

/// The whole tree.
#[derive(Drop)]
pub struct PlainTree {
    /// In the order of their parents' ids, then of their names.
    pub entries: Listed<PlainEntry>,
    /// In the order of their ids.
    pub nodes: Listed<PlainNode>,
    pub next_id: u32,
    /// Whether the folder of files with several names is there.
    pub has_private: bool,
    /// What changes are dated with.
    pub moment: u32,
}

impl PlainTree {
    /// The tree of a freshly formatted volume: the root alone.
    pub fn new(alloc: Global) -> Result<PlainTree, OutOfMemory>
        ensures { IfOk result (λ tree. tree ≡ fresh_tree) }
    {
        let mut nodes = Listed::new(alloc);
        nodes.push(PlainNode::new(alloc, true, 2, 0))?;
        Ok(PlainTree {
            entries: Listed::new(alloc),
            nodes,
            next_id: 18,
            has_private: false,
            moment: 0,
        })
    }
}
