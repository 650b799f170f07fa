//! What of a volume is still to be asked, and what was asked and has no reply yet.

use files_talk::Facts;
use hfs_language::Path;
use hx_bytes::Units;
use std::alloc::{AllocError, Global};
use tar_text::Attribute;

/// A file or a folder.
#[derive(Drop)]
pub(crate) struct Node {
    /// Its path in the volume.
    pub(crate) path: Path,
    /// Where it goes: a path of the system, or a path in an archive.
    pub(crate) place: String,
    /// Whether the user named it.
    pub(crate) top: bool,
    /// Its attributes whose values weren't asked for yet.
    pub(crate) attributes: Vec<Units>,
}

impl Node {
    /// A node that the user named, or one below it.
    pub(crate) fn new(alloc: Global, path: Path, place: String, top: bool) -> Node {
        Node {
            path,
            place,
            top,
            attributes: Vec::new(alloc),
        }
    }
}

/// A file whose bytes are heard.
#[derive(Drop)]
pub(crate) struct Current {
    pub(crate) node: Node,
    pub(crate) facts: Facts,
    /// Whether its bytes are written; else they are passed over.
    pub(crate) whole: bool,
    /// Of a symbolic link that is taken out, as much as was heard of the path to which it leads.
    pub(crate) target: Option<Vec<u8>>,
    /// Where the next piece of it begins.
    pub(crate) from: u64,
}

/// What is still to be asked or made.
#[derive(Drop)]
pub(crate) enum Next {
    /// The names of the attributes of a node.
    Names(Node),
    /// What is known of it.
    Facts(Node),
    /// A node of which the facts are known.
    Entry { node: Node, facts: Facts },
    /// A file that was begun, of which the next piece is wanted.
    Piece(Current),
}

/// What the next reply is to.
#[derive(Drop)]
pub(crate) enum Asked {
    Names(Node),
    Facts(Node),
    /// The value of an attribute, for a node of which the facts are known.
    Value { node: Node, facts: Facts },
    Entries(Node),
    Piece(Current),
}

/// A stack of what is next, what was found for it, and what was asked.
#[derive(Drop)]
pub(crate) struct Walk {
    next: Vec<Next>,
    found: Vec<Next>,
    asked: Option<Asked>,
    /// The attributes of the node that is next.
    pub(crate) values: Vec<Attribute>,
}

impl Walk {
    /// Nothing is to be done.
    pub(crate) fn new(alloc: Global) -> Walk {
        Walk {
            next: Vec::new(alloc),
            found: Vec::new(alloc),
            asked: None,
            values: Vec::new(alloc),
        }
    }

    /// Puts something before all that is next.
    pub(crate) fn push(&mut self, next: Next) -> Result<(), AllocError> {
        self.next.push(next)?;
        Ok(())
    }

    /// Finds what is to be done behind what was found before, and before all that is next.
    pub(crate) fn find(&mut self, next: Next) -> Result<(), AllocError> {
        self.found.push(next)?;
        Ok(())
    }

    /// Puts what was found in front of what is next.
    pub(crate) fn settle(&mut self) -> Result<(), AllocError> {
        for _ in 0..u64::MAX {
            match self.found.pop() {
                Some(next) => self.next.push(next)?,
                None => break,
            }
        }
        Ok(())
    }

    /// Takes what is next.
    pub(crate) fn pop(&mut self) -> Option<Next> {
        self.next.pop()
    }

    /// Notes what was asked.
    pub(crate) fn note(&mut self, asked: Asked) {
        self.asked = Some(asked);
    }

    /// What the reply is to.
    pub(crate) fn answered(&mut self) -> Option<Asked> {
        self.asked.take()
    }
}
