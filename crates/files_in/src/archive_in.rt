//! The members of a tar archive are put into a volume, in the order in which they come.
use crate::ground::{Found, Ground, Wishes};
use files_talk::{Job, LineList, Notes, PIECE};
use std::alloc::AllocError;
use std::collections::BTreeSet;
use std::io::Read;
use tar_text::{Archive, Attribute, Kind, TarFault};

/// A member that is to be put.
#[derive(Drop)]
pub(crate) struct Item {
    pub(crate) shown: String,
    /// Its path in the volume, and that of its folder, as lines spell them.
    pub(crate) word: String,
    pub(crate) folder: String,
    pub(crate) kind: Kind,
    /// Where a further name leads.
    pub(crate) target: String,
    pub(crate) mode: u16,
    pub(crate) size: u64,
    pub(crate) date: u32,
    pub(crate) attributes: Vec<Attribute>,
}

/// A member of which it was asked whether it is there, and what was found where that is known.
#[derive(Drop)]
pub(crate) struct Waiting {
    pub(crate) item: Item,
    pub(crate) found: Option<Found>,
}

/// The work of putting an archive's members.
#[derive(Drop)]
pub struct ArchiveIn<'a, R: Read + Drop> {
    pub(crate) ground: Ground<'a>,
    pub(crate) archive: Archive<R>,
    pub(crate) waiting: Option<Waiting>,
    pub(crate) is_reading: bool,
    pub(crate) piece: Vec<u8>,
    /// The folders that are known to be there.
    pub(crate) folders: BTreeSet<String>,
    /// The members whose owner or group isn't the first one.
    pub(crate) owned: u64,
    pub(crate) is_broken: bool,
}

impl<'a, R: Read + Drop> ArchiveIn<'a, R> {
    /// Nothing was put yet.
    pub fn new(
        notes: Notes<'a>,
        input: R,
        wishes: Wishes<'_>,
    ) -> Result<ArchiveIn<'a, R>, AllocError> {
        let alloc = notes.rt().alloc();
        Ok(ArchiveIn {
            ground: Ground::new(notes, wishes, None)?,
            archive: Archive::new(alloc, input),
            waiting: None,
            is_reading: false,
            piece: vec![in alloc; 0u8; PIECE]?,
            folders: BTreeSet::new(alloc),
            owned: 0,
            is_broken: false,
        })
    }

    /// The notes.
    pub fn notes(&mut self) -> &mut Notes<'a> {
        &mut self.ground.asking.notes
    }

    /// Whether each member was put or told.
    pub fn has_ended(&self) -> bool {
        self.ground.has_ended() && !self.ground.has_failed()
    }

    /// Whether the archive couldn't be read to its end.
    pub fn is_broken(&self) -> bool {
        self.is_broken
    }

    // One step: some lines, or a step further. False means that it has to be heard first what came of those before, or that all is done.
    pub(crate) fn step(&mut self, lines: &mut LineList) -> Result<bool, AllocError> {
        if !self.ground.is_open() {
            return self.ground.step(lines);
        }
        if self.is_reading {
            self.read_on(lines)?;
            return Ok(true);
        }
        if let Some(waiting) = self.waiting.take() {
            return self.go_on(lines, waiting);
        }
        self.next_member(lines)
    }

    // Goes on with a member of which it was asked whether it is there.
    pub(crate) fn go_on(
        &mut self,
        lines: &mut LineList,
        waiting: Waiting,
    ) -> Result<bool, AllocError> {
        let Waiting { item, found } = waiting;
        let found = match found {
            Some(found) => found,
            None => self.ground.found()?,
        };
        self.put(lines, item, found)
    }

    // Takes the next member of the archive.
    pub(crate) fn next_member(&mut self, lines: &mut LineList) -> Result<bool, AllocError> {
        let alloc = self.ground.alloc();
        match self.archive.next_member(alloc) {
            Ok(Some(member)) => self.look_at(lines, member),
            Ok(None) => {
                self.close()?;
                Ok(true)
            }
            Err(fault) => {
                self.break_off(&fault)?;
                Ok(true)
            }
        }
    }

    // There are no more members.
    pub(crate) fn close(&mut self) -> Result<(), AllocError> {
        if self.owned > 0 {
            let owned = self.owned;
            let what = format!(in self.ground.alloc();
                "the owners of {owned} members aren't kept"
            )?;
            self.ground.asking.notes.remark("-", what.as_str());
        }
        self.ground.close();
        Ok(())
    }

    // The archive can't be read further.
    pub(crate) fn break_off(&mut self, fault: &TarFault) -> Result<(), AllocError> {
        self.is_broken = true;
        self.ground.asking.notes.fail("the archive", fault.reason());
        self.close()
    }
}

impl<'a, R: Read + Drop> Job for ArchiveIn<'a, R> {
    fn ask(&mut self, lines: &mut LineList) -> Result<(), AllocError> {
        self.ground.settle(lines)?;
        for _ in 0..u64::MAX {
            if self.ground.asking.is_full(lines) || !self.step(lines)? {
                break;
            }
        }
        Ok(())
    }

    fn hear(&mut self, reply: &[u8]) -> Result<(), AllocError> {
        let _ = self.ground.hear(reply)?;
        Ok(())
    }
}
