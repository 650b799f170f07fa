//! What the job asks, and how it hears the replies.

use crate::out::Out;
use crate::walk::{Asked, Current, Next, Node};
use files_talk::Facts;
use hfs_language::{Command, Facts as Told, Path, Reply};
use std::alloc::AllocError;
use std::mem;
use volume_look::Asker;

/// The most bytes that one command reads.
const PIECE: u64 = 65_536;

impl<'a> Asker for Out<'a> {
    ghost use Rattle.files_out.specs.Untold.{untold};

    ghost state = { λ _. untold };

    fn ask(&mut self) -> Result<Option<Command>, AllocError> {
        for _ in 0..u64::MAX {
            if self.output.has_failed() {
                break;
            }
            let Some(next) = self.walk.pop() else {
                break;
            };
            if let Some(command) = self.begin(next)? {
                return Ok(Some(command));
            }
        }
        Ok(None)
    }

    fn hear(&mut self, command: Command, reply: Reply) -> Result<(), AllocError> {
        match self.walk.answered() {
            Some(Asked::Names(node)) => self.hear_names(with_path(node, command), reply),
            Some(Asked::Facts(node)) => self.hear_facts(with_path(node, command), reply),
            Some(Asked::Value { node, facts }) => self.hear_value(node, facts, command, reply),
            Some(Asked::Entries(node)) => self.hear_entries(with_path(node, command), reply),
            Some(Asked::Piece(current)) => {
                let mut current = current;
                current.node = with_path(current.node, command);
                self.hear_piece(current, reply)
            }
            None => Ok(()),
        }
    }
}

// A node whose path was lent to a command.
fn with_path(node: Node, command: Command) -> Node {
    let mut node = node;
    if let Some(path) = lent_path(command) {
        node.path = path;
    }
    node
}

// The path that was lent to a command.
fn lent_path(command: Command) -> Option<Path> {
    match command {
        Command::Ls(path) => Some(path),
        Command::Stat(path) => Some(path),
        Command::LsAttr(path) => Some(path),
        Command::Read {
            path,
            from: _from,
            length: _length,
        } => Some(path),
        _other => None,
    }
}

impl<'a> Out<'a> {
    // Lends the path of a node to a command.
    fn lend(&self, node: &mut Node) -> Path {
        mem::replace(&mut node.path, Path::new(self.notes.rt().alloc()))
    }

    // Begins what is next, and answers what is asked for it, if anything is.
    fn begin(&mut self, next: Next) -> Result<Option<Command>, AllocError> {
        match next {
            Next::Names(node) => {
                let mut node = node;
                let path = self.lend(&mut node);
                self.walk.note(Asked::Names(node));
                Ok(Some(Command::LsAttr(path)))
            }
            Next::Facts(node) => {
                let mut node = node;
                let path = self.lend(&mut node);
                self.walk.note(Asked::Facts(node));
                Ok(Some(Command::Stat(path)))
            }
            Next::Entry { node, facts } => self.take_entry(node, facts),
            Next::Piece(current) => self.take_piece(current),
        }
    }

    // Asks the entries of a folder.
    pub(crate) fn ask_entries(&mut self, node: Node) -> Option<Command> {
        let mut node = node;
        let path = self.lend(&mut node);
        self.walk.note(Asked::Entries(node));
        Some(Command::Ls(path))
    }

    // Asks the value of the last of the attributes of a node.
    pub(crate) fn ask_value(
        &mut self,
        node: Node,
        facts: Facts,
    ) -> Result<Option<Command>, AllocError> {
        let mut node = node;
        let Some(name) = node.attributes.pop() else {
            self.walk.push(Next::Entry { node, facts })?;
            return Ok(None);
        };
        let path = self.lend(&mut node);
        self.walk.note(Asked::Value { node, facts });
        Ok(Some(Command::GetAttr { path, name }))
    }

    // Asks the next piece of a file, or ends it.
    fn take_piece(&mut self, current: Current) -> Result<Option<Command>, AllocError> {
        if current.from >= current.facts.size || !current.whole {
            self.end_file(current)?;
            return Ok(None);
        }
        let mut current = current;
        let path = self.lend(&mut current.node);
        let from = current.from;
        self.walk.note(Asked::Piece(current));
        Ok(Some(Command::Read {
            path,
            from,
            length: PIECE,
        }))
    }

    // Hears a piece of a file.
    fn hear_piece(&mut self, current: Current, reply: Reply) -> Result<(), AllocError> {
        let mut current = current;
        match reply {
            Reply::Content(bytes) => {
                if !self.put_piece(&mut current, bytes.as_slice())? {
                    current.whole = false;
                }
            }
            other => {
                self.lose(&current.node, &other)?;
                current.whole = false;
            }
        }
        current.from = current.from.saturating_add(PIECE);
        self.walk.push(Next::Piece(current))
    }

    // Hears the names of the attributes of a node.
    fn hear_names(&mut self, node: Node, reply: Reply) -> Result<(), AllocError> {
        let mut node = node;
        if let Reply::Listing(listing) = reply {
            for listed in listing.into_vec() {
                node.attributes.push(listed.name)?;
            }
        }
        self.walk.push(Next::Facts(node))
    }

    // Hears the facts of a node.
    fn hear_facts(&mut self, node: Node, reply: Reply) -> Result<(), AllocError> {
        match reply {
            Reply::Facts(told) => {
                let facts = facts_of(&told);
                self.walk.push(Next::Entry { node, facts })
            }
            other => self.lose(&node, &other),
        }
    }

    // Hears the entries of a folder.
    fn hear_entries(&mut self, node: Node, reply: Reply) -> Result<(), AllocError> {
        match reply {
            Reply::Listing(listing) => {
                self.find_entries(&node, listing)?;
                self.walk.settle()
            }
            other => self.lose(&node, &other),
        }
    }
}

// The facts that a reply tells.
fn facts_of(told: &Told) -> Facts {
    Facts {
        folder: told.folder,
        id: u64::from(told.id),
        size: told.size,
        links: u64::from(told.links),
        mode: u32::from(told.mode),
        created: told.created,
        changed: told.changed,
    }
}
