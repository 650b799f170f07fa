//! Files and folders are taken out: made below a folder, put into an archive, or told.

use crate::out::Out;
use crate::shown::word_of_name;
use crate::walk::{Current, Next, Node};
use crate::wish::Wish;
use files_talk::{Facts, name_of};
use hfs_language::{Command, Path, Reply};
use hx_bytes::Units;
use std::alloc::AllocError;
use std::fs::DirBuilder;
use std::io::ErrorKind;
use std::mem;
use tar_text::Attribute;

/// The space of names of the system's attributes in which those of a volume are written to an archive.
const USER: &[u8] = b"user.";

impl<'a> Out<'a> {
    /// Makes a folder, and answers whether it is there.
    pub(crate) fn make_folder(&mut self, node: &Node, facts: Facts) -> Result<bool, AllocError> {
        let place = node.place.as_str();
        if !self
            .below
            .make_folder(&mut self.notes, place, node.top, facts)?
        {
            return Ok(false);
        }
        if !node.top {
            count(&mut self.notes.counts.folders);
            self.notes.name(place);
        }
        Ok(true)
    }

    /// Makes the folder into which one file comes, where it is missing, and answers whether it is there.
    pub(crate) fn make_top(&mut self, place: &str) -> Result<bool, AllocError> {
        match DirBuilder::new().create(self.notes.rt(), place) {
            Ok(()) => Ok(true),
            Err(error) => {
                if error.kind() == ErrorKind::AlreadyExists {
                    return Ok(true);
                }
                let why = error.to_string(self.notes.rt().alloc())?;
                self.notes.leave_out(place, why.as_str());
                Ok(false)
            }
        }
    }

    /// Writes the header of a folder. That of the folder whose entries are wanted has none.
    pub(crate) fn put_folder(&mut self, node: &Node, facts: Facts) -> Result<bool, AllocError> {
        let alloc = self.notes.rt().alloc();
        let mut attributes = Vec::new(alloc);
        mem::swap(&mut attributes, &mut self.walk.values);
        if node.top {
            return Ok(true);
        }
        let place = node.place.as_str();
        self.tape
            .start(alloc, &mut self.output, place, facts, attributes)?;
        count(&mut self.notes.counts.folders);
        self.notes.name(place);
        Ok(true)
    }

    /// Gives a file that was made another name, and answers whether there was such a file.
    pub(crate) fn link(&mut self, node: &Node, facts: Facts) -> Result<bool, AllocError> {
        let alloc = self.notes.rt().alloc();
        let first = match self.made.get(&facts.id) {
            Some(first) => String::from_str(alloc, first.as_str())?,
            None => return Ok(false),
        };
        let place = node.place.as_str();
        if self.wish == Wish::Tar {
            self.tape
                .link(alloc, &mut self.output, first.as_str(), place, facts)?;
            self.walk.values.clear();
        } else if !self.below.link(&mut self.notes, first.as_str(), place)? {
            return Ok(true);
        }
        count(&mut self.notes.counts.links);
        self.notes.name(place);
        Ok(true)
    }

    /// Hears the value of an attribute of a node.
    pub(crate) fn hear_value(
        &mut self,
        node: Node,
        facts: Facts,
        command: Command,
        reply: Reply,
    ) -> Result<(), AllocError> {
        let mut node = node;
        let Some(lent) = lent_to(command) else {
            return self.walk.push(Next::Entry { node, facts });
        };
        let Lent { path, name } = lent;
        node.path = path;
        match reply {
            Reply::Content(value) => self.keep_value(&name, value.into_vec())?,
            other => self.lose_value(&node, &name, &other)?,
        }
        self.walk.push(Next::Entry { node, facts })
    }

    // Keeps an attribute for the archive.
    fn keep_value(&mut self, name: &Units, value: Vec<u8>) -> Result<(), AllocError> {
        let alloc = self.notes.rt().alloc();
        let text = match name_of(alloc, name.as_slice())? {
            Ok(text) => text,
            Err(_) => word_of_name(alloc, name)?,
        };
        let mut spelled = Vec::from_slice(alloc, USER)?;
        spelled.extend_from_slice(text.as_bytes())?;
        self.walk.values.push(Attribute {
            name: spelled,
            value,
        })?;
        Ok(())
    }

    /// Begins a file.
    pub(crate) fn start_file(&mut self, node: Node, facts: Facts) -> Result<(), AllocError> {
        if self.wish.takes_out() && self.extra_of(&facts).is_symlink {
            return self.start_link(node, facts);
        }
        let place = node.place.as_str();
        let whole = match self.wish {
            Wish::Get { .. } => self.below.start(&mut self.notes, place)?,
            Wish::Tar => {
                let alloc = self.notes.rt().alloc();
                let mut attributes = Vec::new(alloc);
                mem::swap(&mut attributes, &mut self.walk.values);
                self.tape
                    .start(alloc, &mut self.output, place, facts, attributes)?;
                true
            }
            _ => true,
        };
        self.walk.push(Next::Piece(Current {
            node,
            facts,
            whole,
            target: None,
            from: 0,
        }))
    }

    /// Writes a piece of a file, and answers whether it was written.
    pub(crate) fn put_piece(
        &mut self,
        current: &mut Current,
        bytes: &[u8],
    ) -> Result<bool, AllocError> {
        if let Some(target) = &mut current.target {
            target.extend_from_slice(bytes)?;
            return Ok(true);
        }
        let written = match self.wish {
            Wish::Get { .. } => self
                .below
                .write(&mut self.notes, current.node.place.as_str(), bytes)?,
            Wish::Tar => {
                self.tape.write(&mut self.output, bytes)?;
                true
            }
            _ => {
                self.output.put(bytes)?;
                true
            }
        };
        if written {
            self.notes.counts.bytes = self.notes.counts.bytes.saturating_add(bytes.len() as u64);
            self.notes.progress();
        }
        Ok(written)
    }

    /// Ends a file. One that isn't whole isn't kept, so that its other names don't lead to it; a header of an archive keeps its word.
    pub(crate) fn end_file(&mut self, current: Current) -> Result<(), AllocError> {
        let Current {
            node,
            facts,
            whole,
            target,
            ..
        } = current;
        if let Some(target) = target {
            return self.end_link(node, facts, whole, target.as_slice());
        }
        let place = node.place.as_str();
        if self.wish == Wish::Tar {
            self.tape.end(&mut self.output)?;
        }
        if !whole {
            self.below.give_up(&self.notes);
            let _ = self.made.remove(&facts.id);
            return Ok(());
        }
        if matches!(self.wish, Wish::Get { .. })
            && !self.below.end(&mut self.notes, place, facts)?
        {
            let _ = self.made.remove(&facts.id);
            return Ok(());
        }
        self.count_file(place);
        Ok(())
    }

    /// Counts a file that is there.
    pub(crate) fn count_file(&mut self, place: &str) {
        count(&mut self.notes.counts.files);
        if self.wish.takes_out() {
            self.notes.name(place);
        }
        self.notes.progress();
    }
}

// The path of a node and the name of its attribute, which were lent to a command.
#[derive(Drop)]
struct Lent {
    path: Path,
    name: Units,
}

fn lent_to(command: Command) -> Option<Lent> {
    match command {
        Command::GetAttr { path, name } => Some(Lent { path, name }),
        _other => None,
    }
}

// One more.
fn count(number: &mut u64) {
    *number = number.saturating_add(1);
}
