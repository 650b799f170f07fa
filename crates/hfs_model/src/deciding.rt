//! What a command is about on a plain tree, or the first reason against it.
ghost use Rattle.std.specs.Prelude.{◌≡◌, option_copied};
ghost use Rattle.hfs_model.specs.Step.{root_entry, to_make, to_rm, to_rmdir, to_pair, stands_in_way, to_mv, to_ln, to_link, to_node, to_file, to_folder, to_write, to_read, to_trunc, to_set, to_attribute, to_value};
ghost use Rattle.hfs_model.specs.Refers.{pointed, site_told, pair_told, link_told, attribute_told};

use crate::plain::{PlainAttribute, PlainEntry, PlainNode, PlainTree};
use crate::walking::{Site, is_below};
use hfs_language::Refusal;
use hx_bytes::Units;

/// The most bytes of a file.
const MOST_SIZE: u128 = 1 << 40;

/// The most bytes of one `write`, or asked by one `read`.
const MOST_BYTES: u64 = 65_536;

/// The most names of a file.
const MOST_LINKS: usize = 32_767;

/// The most bytes of an attribute's value.
const MOST_ATTRIBUTE: usize = 131_072;

impl PlainTree {
    pub(crate) fn to_make<'a>(
        &'a self,
        root: &'a PlainEntry,
        path: &'a [Units],
    ) -> Result<Site<'a>, Refusal>
        requires root { root.now ≡ root_entry }
        ensures { site_told result ≡ to_make self.now path.now }
    {
        if path.is_empty() {
            return Err(Refusal::Root);
        }
        let site = self.place(root, path)?;
        if site.found.is_some() {
            return Err(Refusal::Exists);
        }
        Ok(site)
    }

    pub(crate) fn to_rm<'a>(
        &'a self,
        root: &'a PlainEntry,
        path: &[Units],
    ) -> Result<&'a PlainEntry, Refusal>
        requires root { root.now ≡ root_entry }
        ensures { pointed result ≡ to_rm self.now path.now }
    {
        if path.is_empty() {
            return Err(Refusal::Root);
        }
        let at = self.walk(root, path)?;
        if at.folder {
            return Err(Refusal::IsFolder);
        }
        Ok(at)
    }

    pub(crate) fn to_rmdir<'a>(
        &'a self,
        root: &'a PlainEntry,
        path: &[Units],
    ) -> Result<&'a PlainEntry, Refusal>
        requires root { root.now ≡ root_entry }
        ensures { pointed result ≡ to_rmdir self.now path.now }
    {
        if path.is_empty() {
            return Err(Refusal::Root);
        }
        let at = self.walk(root, path)?;
        if !at.folder {
            return Err(Refusal::NotFolder);
        }
        if self.count_in(at.id) != 0 {
            return Err(Refusal::NotEmpty);
        }
        Ok(at)
    }

    /// What is named by the first path, and the place that the second one names.
    fn to_pair<'a>(
        &'a self,
        root: &'a PlainEntry,
        from: &[Units],
        to: &'a [Units],
    ) -> Result<(&'a PlainEntry, Site<'a>), Refusal>
        requires root { root.now ≡ root_entry }
        ensures { pair_told result ≡ to_pair self.now from.now to.now }
    {
        if from.is_empty() || to.is_empty() {
            return Err(Refusal::Root);
        }
        let at = self.walk(root, from)?;
        let goal = self.place(root, to)?;
        Ok((at, goal))
    }

    pub(crate) fn to_mv<'a>(
        &'a self,
        root: &'a PlainEntry,
        from: &[Units],
        to: &'a [Units],
    ) -> Result<(&'a PlainEntry, Site<'a>), Refusal>
        requires root { root.now ≡ root_entry }
        ensures { pair_told result ≡ to_mv self.now from.now to.now }
    {
        let (at, goal) = self.to_pair(root, from, to)?;
        if stands_in_way(at, goal.found) {
            return Err(Refusal::Exists);
        }
        if is_below(to, from) {
            return Err(Refusal::Inside);
        }
        Ok((at, goal))
    }

    fn to_ln<'a>(
        &'a self,
        root: &'a PlainEntry,
        from: &[Units],
        to: &'a [Units],
    ) -> Result<(&'a PlainEntry, Site<'a>), Refusal>
        requires root { root.now ≡ root_entry }
        ensures { pair_told result ≡ to_ln self.now from.now to.now }
    {
        let (at, goal) = self.to_pair(root, from, to)?;
        if at.folder {
            return Err(Refusal::IsFolder);
        }
        if goal.found.is_some() {
            return Err(Refusal::Exists);
        }
        if self.names_of(at.id) >= MOST_LINKS {
            return Err(Refusal::TooManyLinks);
        }
        Ok((at, goal))
    }

    /// The file that gets a name more, and the place of that name.
    pub(crate) fn to_link<'a>(
        &'a self,
        root: &'a PlainEntry,
        from: &[Units],
        to: &'a [Units],
    ) -> Result<(&'a PlainNode, Site<'a>), Refusal>
        requires root { root.now ≡ root_entry }
        ensures { link_told result ≡ to_link self.now from.now to.now }
    {
        let (at, goal) = self.to_ln(root, from, to)?;
        match self.node_at(at.id) {
            Some(file) => Ok((file, goal)),
            None => Err(Refusal::NotFound),
        }
    }

    /// The folder or file that a path reaches.
    pub(crate) fn to_node(&self, root: &PlainEntry, path: &[Units]) -> Result<&PlainNode, Refusal>
        requires root { root.now ≡ root_entry }
        ensures { pointed result ≡ to_node self.now path.now }
    {
        let at = self.walk(root, path)?;
        match self.node_at(at.id) {
            Some(node) => Ok(node),
            None => Err(Refusal::NotFound),
        }
    }

    fn to_file(&self, root: &PlainEntry, path: &[Units]) -> Result<&PlainNode, Refusal>
        requires root { root.now ≡ root_entry }
        ensures { pointed result ≡ to_file self.now path.now }
    {
        let node = self.to_node(root, path)?;
        if node.folder {
            return Err(Refusal::IsFolder);
        }
        Ok(node)
    }

    pub(crate) fn to_folder(&self, root: &PlainEntry, path: &[Units]) -> Result<&PlainNode, Refusal>
        requires root { root.now ≡ root_entry }
        ensures { pointed result ≡ to_folder self.now path.now }
    {
        let node = self.to_node(root, path)?;
        if !node.folder {
            return Err(Refusal::NotFolder);
        }
        Ok(node)
    }

    pub(crate) fn to_write(
        &self,
        root: &PlainEntry,
        path: &[Units],
        from: u64,
        value: &[u8],
    ) -> Result<&PlainNode, Refusal>
        requires root { root.now ≡ root_entry }
        ensures { pointed result ≡ to_write self.now path.now from value.now }
    {
        let file = self.to_file(root, path)?;
        if from as u128 + value.len() as u128 > MOST_SIZE || value.len() > MOST_BYTES as usize {
            return Err(Refusal::TooLarge);
        }
        Ok(file)
    }

    pub(crate) fn to_read(
        &self,
        root: &PlainEntry,
        path: &[Units],
        length: u64,
    ) -> Result<&PlainNode, Refusal>
        requires root { root.now ≡ root_entry }
        ensures { pointed result ≡ to_read self.now path.now length }
    {
        let file = self.to_file(root, path)?;
        if length > MOST_BYTES {
            return Err(Refusal::TooLarge);
        }
        Ok(file)
    }

    pub(crate) fn to_trunc(
        &self,
        root: &PlainEntry,
        path: &[Units],
        size: u64,
    ) -> Result<&PlainNode, Refusal>
        requires root { root.now ≡ root_entry }
        ensures { pointed result ≡ to_trunc self.now path.now size }
    {
        let file = self.to_file(root, path)?;
        if size as u128 > MOST_SIZE {
            return Err(Refusal::TooLarge);
        }
        Ok(file)
    }

    pub(crate) fn to_set(
        &self,
        root: &PlainEntry,
        path: &[Units],
        value: &[u8],
    ) -> Result<&PlainNode, Refusal>
        requires root { root.now ≡ root_entry }
        ensures { pointed result ≡ to_set self.now path.now value.now }
    {
        let node = self.to_node(root, path)?;
        if value.len() > MOST_ATTRIBUTE {
            return Err(Refusal::AttributeTooLarge);
        }
        Ok(node)
    }

    /// The folder or file, and its attribute of this name.
    pub(crate) fn to_attribute(
        &self,
        root: &PlainEntry,
        path: &[Units],
        name: &Units,
    ) -> Result<(&PlainNode, &PlainAttribute), Refusal>
        requires root { root.now ≡ root_entry }
        ensures { attribute_told result ≡ to_attribute self.now path.now name.now }
    {
        let node = self.to_node(root, path)?;
        match node.attribute_at(name) {
            Some(attribute) => Ok((node, attribute)),
            None => Err(Refusal::NoAttribute),
        }
    }

    /// The same, of a value that a reply holds: another system may have written a longer one.
    pub(crate) fn to_value(
        &self,
        root: &PlainEntry,
        path: &[Units],
        name: &Units,
    ) -> Result<(&PlainNode, &PlainAttribute), Refusal>
        requires root { root.now ≡ root_entry }
        ensures { attribute_told result ≡ to_value self.now path.now name.now }
    {
        let (node, attribute) = self.to_attribute(root, path, name)?;
        if attribute.value.len() > MOST_ATTRIBUTE {
            return Err(Refusal::TooLarge);
        }
        Ok((node, attribute))
    }
}

/// Whether an entry stands at the new place that `mv` doesn't replace: it or the one that is moved is a folder.
fn stands_in_way(at: &PlainEntry, found: Option<&PlainEntry>) -> bool
    ensures { result ≡ stands_in_way at.now (option_copied found.entry) }
{
    match found {
        Some(other) => at.folder || other.folder,
        None => false,
    }
}
