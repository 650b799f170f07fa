//! What is done before entries are put, and behind them.
use crate::asking::Asked;
use crate::ground::{Ground, Stage};
use crate::marks::date_folder;
use files_talk::{LineList, child_of, facts_of, reason_of};
use std::alloc::AllocError;

impl<'a> Ground<'a> {
    /// A step ahead of entries or behind them. False means that it has to be heard first what came of it, or that all is done.
    pub(crate) fn step(&mut self, lines: &mut LineList) -> Result<bool, AllocError> {
        match self.stage {
            Stage::Making => self.make_top(lines),
            Stage::Seeing => self.see_top(lines),
            Stage::Clearing => self.clear(lines),
            Stage::Putting => Ok(true),
            Stage::Ending => self.end(lines),
            Stage::Ended => Ok(false),
        }
    }

    // Sets the moment to the date of the folder.
    pub(crate) fn date_top(&mut self, lines: &mut LineList) -> Result<(), AllocError> {
        match self.top_date {
            Some(date) => self.asking.at(lines, date),
            None => Ok(()),
        }
    }

    // Makes each folder on the way that isn't there, and asks for the last one.
    pub(crate) fn make_top(&mut self, lines: &mut LineList) -> Result<bool, AllocError> {
        let alloc = self.alloc();
        let mut path = String::new(alloc);
        let top = self.top.clone()?;
        for name in top.as_str().split('/') {
            if !name.is_empty() {
                path.push('/')?;
                path.push_str(name)?;
                self.date_top(lines)?;
                self.asking
                    .path(lines, "mkdir", path.as_str(), Asked::Other)?;
            }
        }
        self.asking
            .path(lines, "stat", self.top.as_str(), Asked::Question)?;
        self.stage = Stage::Seeing;
        Ok(false)
    }

    // Sees whether the folder is one, and asks what an earlier run left.
    pub(crate) fn see_top(&mut self, lines: &mut LineList) -> Result<bool, AllocError> {
        let why = match facts_of(self.answer.as_slice()) {
            Some(facts) if facts.folder => {
                self.top_has = Some(facts.changed);
                self.asking
                    .path(lines, "ls", self.staging.folder(), Asked::Question)?;
                self.stage = Stage::Clearing;
                return Ok(false);
            }
            Some(_) => String::from_str(self.alloc(), "it is no folder")?,
            None => self.reason()?,
        };
        let top = String::from_str(self.alloc(), self.top.as_str())?;
        self.give_up(top.as_str(), why.as_str());
        Ok(false)
    }

    // Removes what an earlier run gathered.
    pub(crate) fn clear(&mut self, lines: &mut LineList) -> Result<bool, AllocError> {
        let alloc = self.alloc();
        self.stage = Stage::Putting;
        let answer = String::from_utf8_lossy(alloc, self.answer.as_slice())?;
        if answer.as_str() == "no NotFound" {
            return Ok(true);
        }
        let folder = String::from_str(alloc, self.staging.folder())?;
        let Some(names) = answer.as_str().strip_prefix("ok ") else {
            let why = self.reason()?;
            self.give_up(folder.as_str(), why.as_str());
            return Ok(false);
        };
        self.staging.is_there();
        for name in names.split(' ').skip(1) {
            let part = child_of(alloc, folder.as_str(), name)?;
            self.asking.path(lines, "rm", part.as_str(), Asked::Other)?;
        }
        Ok(true)
    }

    // Removes the folder of gathered files when none is in it, and dates the folders that are left.
    pub(crate) fn end(&mut self, lines: &mut LineList) -> Result<bool, AllocError> {
        if !self.staging.is_idle() {
            return Ok(false);
        }
        if self.staging.is_made() {
            self.date_top(lines)?;
            self.staging.remove(&mut self.asking, lines)?;
        }
        if let Some(told) = self.undated.pop() {
            let alloc = self.alloc();
            date_folder(
                &mut self.asking,
                lines,
                alloc,
                told.folder.as_str(),
                told.date,
            )?;
            return Ok(true);
        }
        self.stage = Stage::Ended;
        Ok(false)
    }

    // Nothing can be put, for a reason.
    pub(crate) fn give_up(&mut self, path: &str, why: &str) {
        self.asking.notes.fail(path, why);
        self.failed = true;
        self.stage = Stage::Ended;
    }

    /// The reason that the last answer gives.
    pub(crate) fn reason(&self) -> Result<String, AllocError> {
        reason_of(self.alloc(), self.answer.as_slice())
    }
}
