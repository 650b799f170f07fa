//! Symbolic links are taken out: made below a folder, or put into an archive. Their bytes in the volume are the path to which they lead.

use crate::out::Out;
use crate::walk::{Current, Next, Node};
use crate::wish::Wish;
use files_talk::Facts;
use std::alloc::AllocError;
use std::mem;

/// The most bytes of a path of the system.
const MOST_PATH: u64 = 4_095;

/// Why a symbolic link can't be made.
const TOO_LONG: &str = "it is a symbolic link whose path has more than 4,095 bytes";

const NO_PATH: &str = "it is a symbolic link, and no path is where it leads";

impl<'a> Out<'a> {
    /// Begins a symbolic link: the path to which it leads is asked.
    pub(crate) fn start_link(&mut self, node: Node, facts: Facts) -> Result<(), AllocError> {
        let whole = facts.size <= MOST_PATH;
        if !whole {
            self.lose_for(&node.path, TOO_LONG)?;
        }
        let target = Some(Vec::new(self.notes.rt().alloc()));
        self.walk.push(Next::Piece(Current {
            node,
            facts,
            whole,
            target,
            from: 0,
        }))
    }

    /// Makes a symbolic link whose path was heard whole. One that can't be made is told.
    pub(crate) fn end_link(
        &mut self,
        node: Node,
        facts: Facts,
        whole: bool,
        target: &[u8],
    ) -> Result<(), AllocError> {
        let made = whole && self.make_link(&node, facts, target)?;
        self.walk.values.clear();
        if made {
            self.count_file(node.place.as_str());
        } else {
            let _ = self.made.remove(&facts.id);
        }
        Ok(())
    }

    // Makes a symbolic link, and answers whether it was made.
    fn make_link(&mut self, node: &Node, facts: Facts, target: &[u8]) -> Result<bool, AllocError> {
        let Some(path) = path_in(target) else {
            self.lose_for(&node.path, NO_PATH)?;
            return Ok(false);
        };
        let place = node.place.as_str();
        if self.wish != Wish::Tar {
            return self.below.make_symlink(&mut self.notes, place, path);
        }
        let alloc = self.notes.rt().alloc();
        let mut attributes = Vec::new(alloc);
        mem::swap(&mut attributes, &mut self.walk.values);
        self.tape
            .symlink(alloc, &mut self.output, place, path, facts, attributes)?;
        Ok(true)
    }
}

// The path that these bytes are, if they are one.
fn path_in(bytes: &[u8]) -> Option<&str> {
    match str::from_utf8(bytes) {
        Ok(path) => {
            if path.is_empty() || path.contains('\0') {
                return None;
            }
            Some(path)
        }
        Err(_) => None,
    }
}
