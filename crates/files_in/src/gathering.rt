//! The bytes of a file are put.
use crate::entry::Entry;
use crate::folder::FolderIn;
use crate::gathered::{Identity, Wanted};
use crate::listing::Attributes;
use crate::reading::Reading;
use files_talk::{LineList, PIECE};
use std::alloc::AllocError;

impl<'a> FolderIn<'a> {
    // Begins to gather a file.
    pub(crate) fn gather(
        &mut self,
        lines: &mut LineList,
        entry: Entry,
        replaces: bool,
    ) -> Result<(), AllocError> {
        let rt = self.ground.asking.rt();
        let shown = String::from_str(rt.alloc(), entry.shown.as_str())?;
        match Reading::open(rt, shown, &entry.attributes) {
            Ok(Some(reading)) => self.reading = Some(reading),
            Ok(None) => {
                self.lose(&entry, "another file took its name while it was put");
                return Ok(());
            }
            Err(error) => {
                self.ground
                    .asking
                    .notes
                    .leave_out(entry.shown.as_str(), error);
                return Ok(());
            }
        }
        let told = self.told(&entry)?;
        let date = self.date(&entry);
        let Attributes {
            mode,
            identity,
            names,
            ..
        } = entry.attributes;
        self.touch();
        self.ground.begin(
            lines,
            Wanted {
                word: entry.word,
                told,
                mode,
                date,
                replaces,
                identity: further_names(identity, names),
            },
        )
    }

    // Puts the next bytes of the file that is read.
    pub(crate) fn read_on(&mut self, lines: &mut LineList) -> Result<bool, AllocError> {
        let Some(mut reading) = self.reading.take() else {
            return Ok(true);
        };
        if self.ground.staging.is_lost() {
            self.ground.staging.end(None);
            return Ok(true);
        }
        let count = match reading.read(self.piece.as_mut_slice()) {
            Ok(count) => count,
            Err(error) => {
                let why = error.to_string(self.ground.alloc())?;
                self.ground.staging.end(Some(why));
                return Ok(true);
            }
        };
        if count > 0 {
            self.add(lines, count)?;
        }
        if count < PIECE {
            self.end_file(&reading);
        } else {
            self.reading = Some(reading);
        }
        Ok(true)
    }

    // Puts so many of the bytes that were read.
    pub(crate) fn add(&mut self, lines: &mut LineList, count: usize) -> Result<(), AllocError> {
        let Some(bytes) = self.piece.as_slice().get(..count) else {
            return Ok(());
        };
        self.ground.add(lines, bytes)
    }

    // The file that is read has all its bytes.
    pub(crate) fn end_file(&mut self, reading: &Reading) {
        self.ground.staging.end(None);
        if reading.is_changed() {
            let notes = &mut self.ground.asking.notes;
            notes.doubt(reading.shown.as_str(), "it was changed while it was read");
        }
    }
}

// The identity of a file that has further names.
fn further_names(identity: Identity, names: u64) -> Option<Identity> {
    if names > 1 { Some(identity) } else { None }
}
