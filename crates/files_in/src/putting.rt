//! An entry of a folder is put where it isn't there.
use crate::asking::{Asked, Told};
use crate::entry::{Entry, Open, Waiting};
use crate::folder::{CLAMPED, First, FolderIn, USUAL_MODE};
use crate::ground::Found;
use crate::listing::Kind;
use files_talk::{Facts, LineList};
use std::alloc::AllocError;

impl<'a> FolderIn<'a> {
    // Puts an entry.
    pub(crate) fn put(
        &mut self,
        lines: &mut LineList,
        entry: Entry,
        found: Found,
    ) -> Result<bool, AllocError> {
        if let Found::Untold(why) = &found {
            self.lose(&entry, why.as_str());
            return Ok(true);
        }
        if entry.attributes.kind == Kind::Folder {
            self.put_folder(lines, entry, found)?;
            return Ok(true);
        }
        self.put_file(lines, entry, found)
    }

    pub(crate) fn lose(&mut self, entry: &Entry, why: &str) {
        self.ground
            .asking
            .notes
            .leave_out(entry.shown.as_str(), why);
    }

    // What is told of an entry that is made in the folder whose entries are put.
    pub(crate) fn told(&self, entry: &Entry) -> Result<Told, AllocError> {
        let alloc = self.ground.alloc();
        let shown = String::from_str(alloc, entry.shown.as_str())?;
        let (folder, date) = match &self.here {
            Some(here) => (here.open.word.as_str(), here.open.date),
            None => ("", 0),
        };
        Ok(Told {
            shown,
            folder: String::from_str(alloc, folder)?,
            date,
        })
    }

    // The folder whose entries are put gets its date with the next change.
    pub(crate) fn touch(&mut self) {
        if let Some(here) = &mut self.here {
            here.touched = true;
        }
    }

    // The date of an entry. One that is moved is told.
    pub(crate) fn date(&mut self, entry: &Entry) -> u32 {
        let date = self.ground.dates.date(entry.attributes.changed);
        if date.clamped {
            self.ground
                .asking
                .notes
                .remark(entry.shown.as_str(), CLAMPED);
        }
        date.date
    }

    // Makes a folder where it isn't there, and keeps it for later.
    pub(crate) fn put_folder(
        &mut self,
        lines: &mut LineList,
        entry: Entry,
        found: Found,
    ) -> Result<(), AllocError> {
        let (fresh, mode, has) = match found {
            Found::There(facts) => {
                if !facts.folder {
                    self.lose(&entry, "a file is in the way");
                    return Ok(());
                }
                (false, facts.mode, Some(facts.changed))
            }
            _ => {
                let told = self.told(&entry)?;
                self.touch();
                self.ground.asking.at(lines, told.date)?;
                self.ground
                    .asking
                    .path(lines, "mkdir", entry.word.as_str(), Asked::Folder(told))?;
                (true, u32::from(USUAL_MODE), None)
            }
        };
        let date = self.date(&entry);
        let Entry {
            shown,
            word,
            attributes,
        } = entry;
        if u32::from(attributes.mode) != mode {
            let alloc = self.ground.alloc();
            let change = Asked::Change(String::from_str(alloc, shown.as_str())?);
            self.ground
                .asking
                .mode(lines, word.as_str(), attributes.mode, change)?;
        }
        let Some(here) = &mut self.here else {
            return Ok(());
        };
        here.folders.push(Open {
            shown,
            word,
            date,
            mode: attributes.mode,
            has,
            fresh,
        })?;
        Ok(())
    }

    // Puts a file, or a further name of one that was put.
    pub(crate) fn put_file(
        &mut self,
        lines: &mut LineList,
        entry: Entry,
        found: Found,
    ) -> Result<bool, AllocError> {
        if entry.attributes.names > 1 {
            if self.ground.staging.has(entry.attributes.identity) {
                self.waiting = Some(Waiting {
                    entry,
                    found: Some(found),
                });
                return Ok(false);
            }
            if self.seen.get(&entry.attributes.identity.key()).is_some() {
                self.put_link(lines, entry, found)?;
                return Ok(true);
            }
        }
        self.put_first(lines, entry, found)?;
        Ok(true)
    }

    // Puts a further name of a file.
    pub(crate) fn put_link(
        &mut self,
        lines: &mut LineList,
        entry: Entry,
        found: Found,
    ) -> Result<(), AllocError> {
        let Some(first) = self.seen.get(&entry.attributes.identity.key()) else {
            return Ok(());
        };
        let alloc = self.ground.alloc();
        let id = first.id;
        let word = String::from_str(alloc, first.word.as_str())?;
        let told = self.told(&entry)?;
        if let Found::There(facts) = found {
            if !facts.folder && id == Some(facts.id) {
                return Ok(());
            }
            if let Some(why) = self.ground.lack_there(&facts) {
                self.lose(&entry, why);
                return Ok(());
            }
            self.ground.asking.at(lines, told.date)?;
            self.ground
                .asking
                .path(lines, "rm", entry.word.as_str(), Asked::Other)?;
        }
        self.touch();
        self.ground.asking.at(lines, told.date)?;
        let words = (word.as_str(), entry.word.as_str());
        self.ground
            .asking
            .paths(lines, "ln", words, Asked::Link(told))
    }

    // Puts a file, unless it is there already.
    pub(crate) fn put_first(
        &mut self,
        lines: &mut LineList,
        entry: Entry,
        found: Found,
    ) -> Result<(), AllocError> {
        let Found::There(facts) = found else {
            return self.gather(lines, entry, false);
        };
        let date = self.ground.dates.date(entry.attributes.changed).date;
        let is_same = facts.size == entry.attributes.size && facts.changed == date;
        if facts.folder || !is_same || self.ground.is_doubtful() {
            if let Some(why) = self.ground.lack_there(&facts) {
                self.lose(&entry, why);
                return Ok(());
            }
            return self.gather(lines, entry, true);
        }
        self.keep(lines, entry, &facts)
    }

    // The file is there already: it may want its mode.
    pub(crate) fn keep(
        &mut self,
        lines: &mut LineList,
        entry: Entry,
        facts: &Facts,
    ) -> Result<(), AllocError> {
        let Entry {
            shown,
            word,
            attributes,
        } = entry;
        if u32::from(attributes.mode) != facts.mode {
            self.ground.asking.mode(lines, word.as_str(), attributes.mode, Asked::Change(shown))?;
        }
        if attributes.names > 1 {
            let id = Some(facts.id);
            self.seen
                .insert(attributes.identity.key(), First { word, id })?;
        }
        Ok(())
    }
}
