//! The job that takes files out of a volume: what it is to do, and where it is.

use crate::below::Below;
use crate::output::Output;
use crate::tape::Tape;
use crate::walk::{Node, Walk};
use crate::wish::Wish;
use files_talk::{Counts, Facts, Notes};
use hfs_language::Path;
use salvage_tree::{Extra, Extras};
use std::alloc::AllocError;
use std::collections::BTreeMap;

/// The status where all was served and something was left out, and where standard output failed.
const LEFT_OUT: u8 = 9;

const NO_OUTPUT: u8 = 5;

/// A job that takes files out of a volume.
#[derive(Drop)]
pub struct Out<'a> {
    pub(crate) notes: Notes<'a>,
    pub(crate) wish: Wish,
    pub(crate) walk: Walk,
    pub(crate) below: Below,
    pub(crate) tape: Tape,
    pub(crate) output: Output<'a>,
    /// Where the first name of each file with several names was made, by the number of the file.
    pub(crate) made: BTreeMap<u64, String>,
    /// The files that have something besides their bytes.
    extras: Extras,
}

impl<'a> Out<'a> {
    /// A job for the entries at these paths. For `Get` and `Tar` it is one, whose entries come into the folder, or one file, which comes into it
    /// under its name.
    pub fn new(
        notes: Notes<'a>,
        wish: Wish,
        paths: Vec<Path>,
        folder: &str,
    ) -> Result<Out<'a>, AllocError> {
        let rt = notes.rt();
        let mut out = Out {
            notes,
            wish,
            walk: Walk::new(rt.alloc()),
            below: Below::new(rt, matches!(wish, Wish::Get { over: true })),
            tape: Tape::new(),
            output: Output::new(rt),
            made: BTreeMap::new(rt.alloc()),
            extras: BTreeMap::new(rt.alloc()),
        };
        for path in paths {
            let place = String::from_str(rt.alloc(), folder)?;
            out.find(Node::new(rt.alloc(), path, place, true))?;
        }
        out.walk.settle()?;
        Ok(out)
    }

    /// Keeps what the volume's files have besides their bytes.
    pub fn know(&mut self, extras: Extras) {
        self.extras = extras;
    }

    /// What a file has besides its bytes.
    pub(crate) fn extra_of(&self, facts: &Facts) -> Extra {
        let found = match u32::try_from(facts.id) {
            Ok(id) => self.extras.get(&id),
            Err(_) => None,
        };
        match found {
            Some(extra) => *extra,
            None => Extra::none(),
        }
    }

    /// Ends the work: folders get their modes and dates, and standard output what is left for it. Where the volume was served to the end, an
    /// archive gets its end, and the sum is told: that of a `Get` on standard output, that of a `Tar` on standard error.
    pub fn finish(&mut self, served: bool) -> Result<(), AllocError> {
        self.below.finish(&mut self.notes)?;
        if served && self.wish == Wish::Tar {
            self.tape.finish(self.notes.rt().alloc(), &mut self.output)?;
        }
        self.output.flush();
        if let Some(error) = self.output.failure() {
            let why = error.to_string(self.notes.rt().alloc())?;
            self.notes.fail("standard output", why.as_str());
        }
        if served {
            self.tell_sum();
        } else {
            self.notes.end();
        }
        Ok(())
    }

    // Tells what was taken out.
    fn tell_sum(&mut self) {
        match self.wish {
            Wish::Get { .. } => {
                if !self.notes.sum() {
                    self.output.fail();
                }
            }
            Wish::Tar => {
                self.notes.end();
                let Counts {
                    files,
                    folders,
                    links,
                    bytes,
                } = self.notes.counts;
                let left_out = self.notes.left_out;
                let _ = eprintln!(self.notes.rt();
                    "got files {files} folders {folders} links {links} bytes {bytes} left-out {left_out}"
                );
            }
            _ => self.notes.end(),
        }
    }

    /// The status of the program, if the volume was served to the end: 5 where standard output failed, 9 where something was left out.
    pub fn status(&self) -> u8 {
        if self.output.has_failed() {
            return NO_OUTPUT;
        }
        if self.notes.has_lacks() { LEFT_OUT } else { 0 }
    }
}
