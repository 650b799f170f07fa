//! What a path reaches in a plain tree.
ghost use Rattle.std.specs.Prelude.{◌≡◌, ◌<◌, length, option_copied};
ghost use Rattle.hfs_model.specs.Plain.{entry_at, node_at, attribute_at, entries_in, names_of};
ghost use Rattle.hfs_model.specs.Step.{root_entry, child, walk, place, is_below};
ghost use Rattle.hfs_model.specs.Refers.{pointed, site_told};

use crate::plain::{PlainAttribute, PlainEntry, PlainNode, PlainTree};
use hfs_language::Refusal;
use hx_bytes::Units;

/// A place for a name: its folder, and the entry that stands there, if one does.
#[derive(Clone, Copy)]
pub(crate) struct Site<'a> {
    pub folder: u32,
    pub name: &'a Units,
    pub found: Option<&'a PlainEntry>,
}

impl PlainTree {
    /// The entry of a name in a folder.
    fn entry_at(&self, parent: u32, name: &Units) -> Option<&PlainEntry>
        ensures { option_copied result ≡ entry_at self.now parent name.now }
    {
        self.entries
            .as_slice()
            .iter()
            .find(|entry| entry.is_at(parent, name))
    }

    /// The folder or file with this id.
    pub(crate) fn node_at(&self, id: u32) -> Option<&PlainNode>
        ensures { option_copied result ≡ node_at self.now id }
    {
        self.nodes.as_slice().iter().find(|node| node.id == id)
    }

    /// How many names a folder or file has.
    pub(crate) fn names_of(&self, id: u32) -> usize
        ensures { result ≡ names_of self.now id }
    {
        self.entries
            .as_slice()
            .iter()
            .filter(|entry| entry.id == id)
            .count()
    }

    /// How many entries a folder has.
    pub(crate) fn count_in(&self, parent: u32) -> usize
        ensures { result ≡ length (entries_in self.now parent) }
    {
        self.entries
            .as_slice()
            .iter()
            .filter(|entry| entry.parent == parent)
            .count()
    }

    /// The entry of a name in what was reached.
    fn child(&self, at: &PlainEntry, name: &Units) -> Result<&PlainEntry, Refusal>
        ensures { pointed result ≡ child self.now at.now name.now }
    {
        if !at.folder {
            return Err(Refusal::NotFolder);
        }
        match self.entry_at(at.id, name) {
            Some(entry) => Ok(entry),
            None => Err(Refusal::NotFound),
        }
    }

    /// What a path reaches from here.
    pub(crate) fn walk<'a>(
        &'a self,
        from: &'a PlainEntry,
        path: &[Units],
    ) -> Result<&'a PlainEntry, Refusal>
        ensures { pointed result ≡ walk self.now from.now path.now }
    {
        let mut at = from;
        for name in path {
            at = self.child(at, name)?;
        }
        Ok(at)
    }

    /// The place that a path names, whether anything stands there or not.
    pub(crate) fn place<'a>(
        &'a self,
        root: &'a PlainEntry,
        path: &'a [Units],
    ) -> Result<Site<'a>, Refusal>
        requires root { root.now ≡ root_entry }
        requires named { 0 < length path.now }
        ensures { site_told result ≡ place self.now path.now }
    {
        match path.split_last() {
            Some((name, above)) => {
                let at = self.walk(root, above)?;
                if !at.folder {
                    return Err(Refusal::NotFolder);
                }
                Ok(Site {
                    folder: at.id,
                    name,
                    found: self.entry_at(at.id, name),
                })
            }
            None => Err(Refusal::Root),
        }
    }
}

impl PlainNode {
    /// The attribute of this name.
    pub(crate) fn attribute_at(&self, name: &Units) -> Option<&PlainAttribute>
        ensures { option_copied result ≡ attribute_at self.now name.now }
    {
        self.attributes
            .as_slice()
            .iter()
            .find(|attribute| attribute.is_named(name))
    }
}

/// Whether a path goes on below another.
pub(crate) fn is_below(path: &[Units], top: &[Units]) -> bool
    ensures { result ≡ is_below path.now top.now }
{
    if path.len() <= top.len() {
        return false;
    }
    for (at, name) in top.iter().enumerate() {
        if path[at].as_slice() != name.as_slice() {
            return false;
        }
    }
    true
}
