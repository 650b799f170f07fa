//! Files are gathered in a folder of their own, and moved to their places when they are whole: where a run is cut off, no part of a file
//! stands under its name.
use crate::asking::{Asked, Asking};
use crate::gathered::{Gathered, Identity, Wanted};
use files_talk::{LineList, child_of, is_ok, reason_of};
use itoa::Buffer;
use std::alloc::{AllocError, Global};
use std::mem;

/// The name of the folder in which files are gathered.
pub(crate) const STAGING: &str = ".hfsx-files-part";

/// The name of a file that is made and removed to date its folder.
pub(crate) const MARK: &str = ".hfsx-files";

/// The mode with which the volume makes a file.
const USUAL_MODE: u16 = 0o644;

/// The folder of gathered files, those that are in it, and those that are on their way to their places.
#[derive(Drop)]
pub(crate) struct Staging {
    alloc: Global,
    folder: String,
    is_made: bool,
    count: u64,
    gathered: Vec<Gathered>,
    moving: Vec<Gathered>,
}

impl Staging {
    /// The folder of gathered files below the folder of this path.
    pub(crate) fn new(alloc: Global, top: &str) -> Result<Staging, AllocError> {
        Ok(Staging {
            alloc,
            folder: child_of(alloc, top, STAGING)?,
            is_made: false,
            count: 0,
            gathered: Vec::new(alloc),
            moving: Vec::new(alloc),
        })
    }

    /// The path of the folder.
    pub(crate) fn folder(&self) -> &str {
        self.folder.as_str()
    }

    /// Whether the folder is there.
    pub(crate) fn is_made(&self) -> bool {
        self.is_made
    }

    /// The folder is there already.
    pub(crate) fn is_there(&mut self) {
        self.is_made = true;
    }

    /// Removes the folder, in which nothing is.
    pub(crate) fn remove(
        &mut self,
        asking: &mut Asking<'_>,
        lines: &mut LineList,
    ) -> Result<(), AllocError> {
        self.is_made = false;
        asking.path(lines, "rmdir", self.folder.as_str(), Asked::Other)
    }

    /// Whether nothing is gathered and nothing is moved.
    pub(crate) fn is_idle(&self) -> bool {
        self.gathered.is_empty() && self.moving.is_empty()
    }

    /// Whether a name of this file is gathered or moved, but isn't at its place yet.
    pub(crate) fn has(&self, identity: Identity) -> bool {
        has_file(self.gathered.as_slice(), identity) || has_file(self.moving.as_slice(), identity)
    }

    /// Makes an empty file that is gathered.
    pub(crate) fn begin(
        &mut self,
        asking: &mut Asking<'_>,
        lines: &mut LineList,
        wanted: Wanted,
    ) -> Result<(), AllocError> {
        asking.at(lines, wanted.date)?;
        if !self.is_made {
            self.is_made = true;
            asking.path(lines, "mkdir", self.folder.as_str(), Asked::Other)?;
        }
        self.count = self.count.saturating_add(1);
        let number = self.count;
        let part = self.part_of(number)?;
        asking.path(lines, "create", part.as_str(), Asked::Step(number))?;
        if wanted.mode != USUAL_MODE {
            asking.mode(lines, part.as_str(), wanted.mode, Asked::Step(number))?;
        }
        self.gathered.push(Gathered {
            number,
            part,
            wanted,
            bytes: 0,
            lack: None,
            is_whole: false,
        })?;
        Ok(())
    }

    // The path of a gathered file.
    fn part_of(&self, number: u64) -> Result<String, AllocError> {
        let mut buffer = Buffer::new();
        child_of(self.alloc, self.folder.as_str(), buffer.format(number))
    }

    /// The path of the file that was begun last.
    pub(crate) fn last_part(&self) -> Result<String, AllocError> {
        match self.gathered.last() {
            Some(file) => file.part.clone(),
            None => Ok(String::new(self.alloc)),
        }
    }

    /// Adds bytes at the end of the file that was begun last.
    pub(crate) fn add(
        &mut self,
        asking: &mut Asking<'_>,
        lines: &mut LineList,
        bytes: &[u8],
    ) -> Result<(), AllocError> {
        let Some(file) = self.gathered.last_mut() else {
            return Ok(());
        };
        asking.at(lines, file.wanted.date)?;
        let behind = file.bytes.saturating_add(bytes.len() as u64);
        let asked = Asked::Step(file.number);
        if are_zeros(bytes) {
            asking.size(lines, file.part.as_str(), behind, asked)?;
        } else {
            asking.write(lines, file.part.as_str(), file.bytes, bytes, asked)?;
        }
        file.bytes = behind;
        let counts = &mut asking.notes.counts;
        counts.bytes = counts.bytes.saturating_add(bytes.len() as u64);
        Ok(())
    }

    /// The file that was begun last has all its bytes, or isn't to be kept for a reason.
    pub(crate) fn end(&mut self, lack: Option<String>) {
        if let Some(file) = self.gathered.last_mut() {
            file.is_whole = true;
            if lack.is_some() {
                file.lack = lack;
            }
        }
    }

    /// Whether the file that was begun last can't be kept.
    pub(crate) fn is_lost(&self) -> bool {
        match self.gathered.last() {
            Some(file) => file.lack.is_some(),
            None => false,
        }
    }

    /// Moves the files that are whole to their places, and removes those that can't be kept. Each line before was answered.
    pub(crate) fn settle(
        &mut self,
        asking: &mut Asking<'_>,
        lines: &mut LineList,
    ) -> Result<(), AllocError> {
        let all = mem::replace(&mut self.gathered, Vec::new(self.alloc));
        for file in all {
            if !file.is_whole {
                self.gathered.push(file)?;
            } else {
                self.settle_one(asking, lines, file)?;
            }
        }
        Ok(())
    }

    fn settle_one(
        &mut self,
        asking: &mut Asking<'_>,
        lines: &mut LineList,
        file: Gathered,
    ) -> Result<(), AllocError> {
        if let Some(why) = &file.lack {
            asking
                .notes
                .leave_out(file.wanted.told.shown.as_str(), why.as_str());
            take_back(asking, file.bytes);
            return asking.path(lines, "rm", file.part.as_str(), Asked::Other);
        }
        let word = file.wanted.word.as_str();
        asking.at(lines, file.wanted.told.date)?;
        if file.wanted.replaces {
            asking.path(lines, "rm", word, Asked::Other)?;
        }
        asking.paths(
            lines,
            "mv",
            (file.part.as_str(), word),
            Asked::Move(file.number),
        )?;
        self.moving.push(file)?;
        Ok(())
    }

    /// Hears of a step of a file.
    pub(crate) fn hear_step(&mut self, number: u64, reply: &[u8]) -> Result<(), AllocError> {
        if is_ok(reply) {
            return Ok(());
        }
        for file in self.gathered.as_mut_slice() {
            if file.number == number && file.lack.is_none() {
                file.lack = Some(reason_of(self.alloc, reply)?);
            }
        }
        Ok(())
    }

    /// Hears of the move of a file, and gives the file back where it has come to its place.
    pub(crate) fn hear_move(
        &mut self,
        asking: &mut Asking<'_>,
        number: u64,
        reply: &[u8],
        over: bool,
    ) -> Result<Option<Gathered>, AllocError> {
        let Some(at) = self.moving.iter().position(|file| file.number == number) else {
            return Ok(None);
        };
        let mut file = self.moving.remove(at);
        if is_ok(reply) {
            asking.notes.counts.files = asking.notes.counts.files.saturating_add(1);
            asking.notes.name(file.wanted.told.shown.as_str());
            return Ok(Some(file));
        }
        if over && !file.wanted.replaces && reply == b"no Exists".as_slice() {
            file.wanted.replaces = true;
        } else {
            file.lack = Some(reason_of(self.alloc, reply)?);
        }
        self.gathered.insert(0, file)?;
        Ok(None)
    }
}

// Takes bytes out of the count of those that were put.
fn take_back(asking: &mut Asking<'_>, bytes: u64) {
    asking.notes.counts.bytes = asking.notes.counts.bytes.saturating_sub(bytes);
}

fn has_file(files: &[Gathered], identity: Identity) -> bool {
    files
        .iter()
        .any(|file| file.wanted.identity == Some(identity))
}

fn are_zeros(bytes: &[u8]) -> bool {
    bytes.iter().all(|byte| *byte == 0)
}
