//! What every way of putting files shares: the folder of the volume to which they go, the lines, and the files that are gathered.
use crate::asking::{Asking, Told};
use crate::dates::Dates;
use crate::gathered::Wanted;
use crate::staging::Staging;
use files_talk::{Facts, LineList, Notes, facts_of};
use std::alloc::{AllocError, Global};

/// What is to be put where, and how.
#[derive(Clone, Copy)]
pub struct Wishes<'a> {
    /// The path of the folder of the volume to which all goes, as lines spell it; the root's is empty.
    pub to: &'a str,
    pub dates: Dates,
    /// Whether files that are there make way for others.
    pub over: bool,
    /// Whether the volume is new, so that nothing is there.
    pub fresh: bool,
}

/// What a volume has under a path.
#[derive(Drop)]
pub(crate) enum Found {
    Nothing,
    There(Facts),
    /// It can't be told, for a reason.
    Untold(String),
}

/// What is done before entries are put, and behind them.
#[derive(Clone, Copy, PartialEq, Eq)]
pub(crate) enum Stage {
    /// The folder to which all goes is made where it is missing.
    Making,
    /// It is seen whether that is a folder.
    Seeing,
    /// It is seen whether an earlier run left files that it gathered.
    Clearing,
    /// Entries are put.
    Putting,
    /// There are no more entries.
    Ending,
    Ended,
}

/// The folder of the volume to which files are put.
#[derive(Drop)]
pub(crate) struct Ground<'a> {
    pub(crate) asking: Asking<'a>,
    pub(crate) staging: Staging,
    pub(crate) dates: Dates,
    pub(crate) over: bool,
    pub(crate) fresh: bool,
    pub(crate) top: String,
    pub(crate) top_date: Option<u32>,
    /// The date that the folder has, as far as it is known.
    pub(crate) top_has: Option<u32>,
    pub(crate) stage: Stage,
    pub(crate) answer: Vec<u8>,
    /// The folders that are dated at the end.
    pub(crate) undated: Vec<Told>,
    pub(crate) failed: bool,
}

impl<'a> Ground<'a> {
    /// Nothing was asked yet. The date is the one that the folder is to have, where that is known.
    pub(crate) fn new(
        notes: Notes<'a>,
        wishes: Wishes<'_>,
        top_date: Option<u32>,
    ) -> Result<Ground<'a>, AllocError> {
        let alloc = notes.rt().alloc();
        let stage = if wishes.fresh {
            Stage::Putting
        } else {
            Stage::Making
        };
        Ok(Ground {
            asking: Asking::new(notes),
            staging: Staging::new(alloc, wishes.to)?,
            dates: wishes.dates,
            over: wishes.over,
            fresh: wishes.fresh,
            top: String::from_str(alloc, wishes.to)?,
            top_date,
            top_has: None,
            stage,
            answer: Vec::new(alloc),
            undated: Vec::new(alloc),
            failed: false,
        })
    }

    pub(crate) fn alloc(&self) -> Global {
        self.asking.rt().alloc()
    }

    /// The path of the folder.
    pub(crate) fn top(&self) -> &str {
        self.top.as_str()
    }

    /// Whether entries may be put.
    pub(crate) fn is_open(&self) -> bool {
        self.stage == Stage::Putting
    }

    /// Whether all was done.
    pub(crate) fn has_ended(&self) -> bool {
        self.stage == Stage::Ended
    }

    /// Whether nothing could be put.
    pub(crate) fn has_failed(&self) -> bool {
        self.failed
    }

    /// There are no more entries.
    pub(crate) fn close(&mut self) {
        self.stage = Stage::Ending;
    }

    /// What the last `stat` found.
    pub(crate) fn found(&self) -> Result<Found, AllocError> {
        if let Some(facts) = facts_of(self.answer.as_slice()) {
            return Ok(Found::There(facts));
        }
        if self.answer.as_slice() == b"no NotFound".as_slice() {
            return Ok(Found::Nothing);
        }
        Ok(Found::Untold(self.reason()?))
    }

    /// Whether a file that has the size and the date of another one may well differ from it, and is replaced.
    pub(crate) fn is_doubtful(&self) -> bool {
        self.over && matches!(self.dates, Dates::One(_))
    }

    /// Why what is there can't make way for a file.
    pub(crate) fn lack_there(&self, there: &Facts) -> Option<&'static str> {
        if there.folder {
            Some("a folder is in the way")
        } else if self.over {
            None
        } else {
            Some("another file is there, which only --over replaces")
        }
    }

    /// Moves the files that are whole to their places. Each line before was answered.
    pub(crate) fn settle(&mut self, lines: &mut LineList) -> Result<(), AllocError> {
        self.asking.notes.progress();
        self.staging.settle(&mut self.asking, lines)
    }

    /// Begins to gather a file.
    pub(crate) fn begin(&mut self, lines: &mut LineList, wanted: Wanted) -> Result<(), AllocError> {
        self.staging.begin(&mut self.asking, lines, wanted)
    }

    /// Adds bytes to the file that was begun last.
    pub(crate) fn add(&mut self, lines: &mut LineList, bytes: &[u8]) -> Result<(), AllocError> {
        self.staging.add(&mut self.asking, lines, bytes)
    }

    /// The folder of what is told is dated at the end.
    pub(crate) fn date_later(&mut self, told: Told) -> Result<(), AllocError> {
        self.undated.push(told)?;
        Ok(())
    }
}
