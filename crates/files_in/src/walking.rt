//! The way through a folder: its entries in the order of their names' bytes, then its folders.
use crate::asking::Asked;
use crate::entry::{Entry, Here, Open, Waiting};
use crate::folder::FolderIn;
use crate::ground::Found;
use crate::listing::{Attributes, Kind, attributes_of, list};
use crate::marks::date_folder;
use crate::staging::{MARK, STAGING};
use files_talk::{LineList, child_of, word_of};
use std::alloc::AllocError;
use std::fs;

impl<'a> FolderIn<'a> {
    // Ends the folder whose entries were put, and begins the next one.
    pub(crate) fn next_folder(&mut self, lines: &mut LineList) -> Result<bool, AllocError> {
        if let Some(here) = self.here.take() {
            self.end_folder(lines, here)?;
        }
        let Some(next) = self.open.pop() else {
            self.ground.close();
            return Ok(true);
        };
        self.begin_folder(lines, next)?;
        Ok(true)
    }

    // Dates a folder that has its entries, unless the last change in it did.
    pub(crate) fn end_folder(
        &mut self,
        lines: &mut LineList,
        here: Here,
    ) -> Result<(), AllocError> {
        let Here {
            open,
            folders,
            touched,
            ..
        } = here;
        if !touched && open.has != Some(open.date) {
            let alloc = self.ground.alloc();
            date_folder(
                &mut self.ground.asking,
                lines,
                alloc,
                open.word.as_str(),
                open.date,
            )?;
        }
        let mut rest = folders;
        for _ in 0..u64::MAX {
            match rest.pop() {
                Some(folder) => self.open.push(folder)?,
                None => break,
            }
        }
        Ok(())
    }

    // Begins with the entries of a folder.
    pub(crate) fn begin_folder(
        &mut self,
        lines: &mut LineList,
        open: Open,
    ) -> Result<(), AllocError> {
        let alloc = self.ground.alloc();
        if open.word.as_str() == self.ground.top() {
            let shown = String::from_str(alloc, open.shown.as_str())?;
            self.ground
                .asking
                .mode(lines, open.word.as_str(), open.mode, Asked::Change(shown))?;
        }
        let listing = list(self.ground.asking.rt(), open.shown.as_str())?;
        let names = listing.tell(&mut self.ground.asking.notes);
        self.here = Some(Here {
            open,
            names,
            folders: Vec::new(alloc),
            touched: false,
        });
        Ok(())
    }

    // Looks at an entry of the system, and asks whether it is there where it may be.
    pub(crate) fn look_at(&mut self, lines: &mut LineList, name: &str) -> Result<bool, AllocError> {
        let Some(entry) = self.entry(name)? else {
            return Ok(true);
        };
        if self.is_fresh() {
            return self.put(lines, entry, Found::Nothing);
        }
        self.ground
            .asking
            .path(lines, "stat", entry.word.as_str(), Asked::Question)?;
        self.waiting = Some(Waiting { entry, found: None });
        Ok(false)
    }

    // Whether nothing was in the folder that is put when this run began.
    pub(crate) fn is_fresh(&self) -> bool {
        match &self.here {
            Some(here) => here.open.fresh,
            None => false,
        }
    }

    // The entry of a name, or none where it is left out, which is told.
    pub(crate) fn entry(&mut self, name: &str) -> Result<Option<Entry>, AllocError> {
        let Some(here) = &self.here else {
            return Ok(None);
        };
        let rt = self.ground.asking.rt();
        let alloc = rt.alloc();
        let shown = child_of(alloc, here.open.shown.as_str(), name)?;
        let attributes = match fs::symlink_metadata(rt, shown.as_str()) {
            Ok(found) => attributes_of(&found),
            Err(error) => {
                self.ground.asking.notes.leave_out(shown.as_str(), error);
                return Ok(None);
            }
        };
        if self.image == Some(attributes.identity) {
            self.ground
                .asking
                .notes
                .leave_out(shown.as_str(), "it is the image itself");
            return Ok(None);
        }
        if let Some(why) = lack_of(name, &attributes) {
            self.ground.asking.notes.leave_out(shown.as_str(), why);
            return Ok(None);
        }
        match word_of(alloc, name)? {
            Ok(component) => {
                let word = child_of(alloc, here.open.word.as_str(), component.as_str())?;
                Ok(Some(Entry {
                    shown,
                    word,
                    attributes,
                }))
            }
            Err(why) => {
                self.ground.asking.notes.leave_out(shown.as_str(), why);
                Ok(None)
            }
        }
    }

    // Goes on with an entry of which it was asked whether it is there.
    pub(crate) fn go_on(
        &mut self,
        lines: &mut LineList,
        waiting: Waiting,
    ) -> Result<bool, AllocError> {
        let Waiting { entry, found } = waiting;
        let found = match found {
            Some(found) => found,
            None => self.ground.found()?,
        };
        self.put(lines, entry, found)
    }
}

// Why an entry of this name isn't put.
fn lack_of(name: &str, attributes: &Attributes) -> Option<&'static str> {
    if name == STAGING || name == MARK {
        return Some("its name is one of those that this program gives to files of its own");
    }
    match attributes.kind {
        Kind::Other(why) => Some(why),
        Kind::Folder | Kind::File => None,
    }
}
