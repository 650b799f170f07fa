//! Entries are looked at one by one, in the order of the volume.

use crate::listing::{facts_lines, list_line};
use crate::out::Out;
use crate::shown::{path_below, shown_path, word_of_name};
use crate::walk::{Next, Node};
use crate::wish::Wish;
use files_talk::{Facts, NameLack, child_of, name_of};
use hfs_language::{Command, ListedName, Listing};
use std::alloc::AllocError;
use std::collections::BTreeSet;

/// What is told of a file whose bytes are compressed.
const COMPRESSED: &str = "macOS keeps its bytes compressed, and they aren't unpacked here";

impl<'a> Out<'a> {
    /// Takes an entry whose facts are known, and answers what is asked for it, if anything is.
    pub(crate) fn take_entry(
        &mut self,
        node: Node,
        facts: Facts,
    ) -> Result<Option<Command>, AllocError> {
        if self.wish == Wish::Tar && !node.attributes.is_empty() {
            return self.ask_value(node, facts);
        }
        if facts.folder {
            return self.take_folder(node, facts);
        }
        self.take_file(node, facts)?;
        Ok(None)
    }

    // Takes a folder.
    fn take_folder(&mut self, node: Node, facts: Facts) -> Result<Option<Command>, AllocError> {
        let mut node = node;
        let goes_in = match self.wish {
            Wish::Get { .. } => {
                self.lose_attributes(&mut node)?;
                self.make_folder(&node, facts)?
            }
            Wish::Tar => self.put_folder(&node, facts)?,
            Wish::Cat => {
                self.lose_for(&node.path, "it is a folder")?;
                false
            }
            Wish::List { long, deep } => {
                if !node.top {
                    self.list(&node, &facts, long)?;
                }
                node.top || deep
            }
            Wish::Stat => {
                self.tell_facts(&node, &facts)?;
                false
            }
        };
        if !goes_in {
            return Ok(None);
        }
        Ok(self.ask_entries(node))
    }

    // Takes a file.
    fn take_file(&mut self, node: Node, facts: Facts) -> Result<(), AllocError> {
        match self.wish {
            Wish::List { long, .. } => self.list(&node, &facts, long),
            Wish::Stat => self.tell_facts(&node, &facts),
            _ => self.take_bytes(node, facts),
        }
    }

    // Takes a file of which the bytes are wanted.
    fn take_bytes(&mut self, node: Node, facts: Facts) -> Result<(), AllocError> {
        if self.extra_of(&facts).is_compressed {
            self.walk.values.clear();
            return self.lose_for(&node.path, COMPRESSED);
        }
        if self.wish == Wish::Cat {
            return self.start_file(node, facts);
        }
        self.take_out(node, facts)
    }

    // Takes a file out: its bytes are asked, or it becomes another name of one that was made.
    fn take_out(&mut self, node: Node, facts: Facts) -> Result<(), AllocError> {
        let mut node = node;
        if node.top && !self.name_file(&mut node)? {
            return Ok(());
        }
        if facts.links > 1 {
            if self.link(&node, facts)? {
                return Ok(());
            }
            let place = String::from_str(self.notes.rt().alloc(), node.place.as_str())?;
            self.made.insert(facts.id, place)?;
        }
        if self.is_there(&node, facts) {
            return Ok(());
        }
        self.lose_attributes(&mut node)?;
        self.lose_resources(&node, &facts)?;
        self.start_file(node, facts)
    }

    // Whether a file is there already. Of a symbolic link that is asked when its path is known.
    fn is_there(&self, node: &Node, facts: Facts) -> bool {
        let place = node.place.as_str();
        matches!(self.wish, Wish::Get { .. })
            && !self.extra_of(&facts).is_symlink
            && self.below.has_same(self.notes.rt(), place, facts)
    }

    // Gives a file that the user named its place in the folder, and answers whether it has one.
    fn name_file(&mut self, node: &mut Node) -> Result<bool, AllocError> {
        let alloc = self.notes.rt().alloc();
        let named = match node.path.as_slice().last() {
            Some(name) => name_of(alloc, name.as_slice())?,
            None => Err(NameLack::NoFile),
        };
        match named {
            Ok(name) => {
                if matches!(self.wish, Wish::Get { .. }) && !self.make_top(node.place.as_str())? {
                    return Ok(false);
                }
                node.place = place_of(self, node.place.as_str(), name.as_str())?;
                Ok(true)
            }
            Err(lack) => {
                let why = format!(in alloc; "{lack}")?;
                self.lose_for(&node.path, why.as_str())?;
                Ok(false)
            }
        }
    }

    // Lists an entry.
    fn list(&mut self, node: &Node, facts: &Facts, long: bool) -> Result<(), AllocError> {
        let alloc = self.notes.rt().alloc();
        let path = shown_path(alloc, &node.path)?;
        let extra = self.extra_of(facts);
        let line = list_line(alloc, path.as_str(), facts, &extra, long)?;
        self.output.put(line.as_bytes())
    }

    // Tells what is known of an entry.
    fn tell_facts(&mut self, node: &Node, facts: &Facts) -> Result<(), AllocError> {
        let alloc = self.notes.rt().alloc();
        let path = shown_path(alloc, &node.path)?;
        let mut attributes = Vec::new(alloc);
        for name in node.attributes.as_slice() {
            attributes.push(word_of_name(alloc, name)?)?;
        }
        let extra = self.extra_of(facts);
        let text = facts_lines(alloc, path.as_str(), facts, &extra, attributes.as_slice())?;
        self.output.put(text.as_bytes())
    }

    /// Finds the entries of a folder.
    pub(crate) fn find_entries(&mut self, node: &Node, listing: Listing) -> Result<(), AllocError> {
        let alloc = self.notes.rt().alloc();
        let mut composed = BTreeSet::new(alloc);
        for listed in listing.into_vec() {
            if self.wish.takes_out() {
                self.find_entry(&mut composed, node, listed)?;
            } else {
                let path = path_below(alloc, &node.path, listed.name)?;
                self.find(Node::new(alloc, path, String::new(alloc), false))?;
            }
        }
        Ok(())
    }

    // Finds an entry of a folder that is taken out, where it has a name there that none before it has.
    fn find_entry(
        &mut self,
        composed: &mut BTreeSet<String>,
        folder: &Node,
        listed: ListedName,
    ) -> Result<(), AllocError> {
        let alloc = self.notes.rt().alloc();
        let named = name_of(alloc, listed.name.as_slice())?;
        let path = path_below(alloc, &folder.path, listed.name)?;
        let name = match named {
            Ok(name) => name,
            Err(lack) => {
                let why = format!(in alloc; "{lack}")?;
                return self.lose_for(&path, why.as_str());
            }
        };
        let place = place_of(self, folder.place.as_str(), name.as_str())?;
        if !is_new(composed, name)? {
            return self.lose_for(&path, "its name in composed form is that of another entry");
        }
        self.find(Node::new(alloc, path, place, false))
    }

    /// Finds a node, of which it is asked first what the wish needs.
    pub(crate) fn find(&mut self, node: Node) -> Result<(), AllocError> {
        if self.wish.wants_attributes() {
            self.walk.find(Next::Names(node))
        } else {
            self.walk.find(Next::Facts(node))
        }
    }
}

// Whether a name isn't that of an entry before it. Names of ASCII alone differ anyway.
fn is_new(composed: &mut BTreeSet<String>, name: String) -> Result<bool, AllocError> {
    if name.as_str().is_ascii() {
        return Ok(true);
    }
    Ok(composed.insert(name)?)
}

// The place of an entry of a folder. An archive's members have no slash before them.
fn place_of(out: &Out<'_>, folder: &str, name: &str) -> Result<String, AllocError> {
    let alloc = out.notes.rt().alloc();
    if folder.is_empty() {
        return String::from_str(alloc, name);
    }
    child_of(alloc, folder, name)
}
