//! A member of an archive is put where it isn't there.
use crate::archive_in::{ArchiveIn, Item, Waiting};
use crate::asking::{Asked, Told};
use crate::folder::USUAL_MODE;
use crate::gathered::Wanted;
use crate::ground::Found;
use crate::marks::push_attribute;
use files_talk::{Facts, LineList, PIECE};
use std::alloc::AllocError;
use std::io::Read;
use tar_text::Kind;

impl<'a, R: Read + Drop> ArchiveIn<'a, R> {
    // Puts a member.
    pub(crate) fn put(
        &mut self,
        lines: &mut LineList,
        item: Item,
        found: Found,
    ) -> Result<bool, AllocError> {
        if let Found::Untold(why) = &found {
            self.lose(&item, why.as_str());
            return Ok(true);
        }
        match item.kind {
            Kind::Folder => {
                self.put_folder(lines, item, found)?;
                Ok(true)
            }
            Kind::HardLink => self.put_link(lines, item, found),
            _ => {
                self.put_file(lines, item, found)?;
                Ok(true)
            }
        }
    }

    pub(crate) fn lose(&mut self, item: &Item, why: &str) {
        self.ground.asking.notes.leave_out(item.shown.as_str(), why);
    }

    pub(crate) fn told(&self, item: &Item) -> Result<Told, AllocError> {
        let alloc = self.ground.alloc();
        Ok(Told {
            shown: String::from_str(alloc, item.shown.as_str())?,
            folder: String::from_str(alloc, item.folder.as_str())?,
            date: item.date,
        })
    }

    // Makes a folder where it isn't there. It is dated at the end.
    pub(crate) fn put_folder(
        &mut self,
        lines: &mut LineList,
        item: Item,
        found: Found,
    ) -> Result<(), AllocError> {
        let mut mode = None;
        if let Found::There(facts) = found {
            if !facts.folder {
                self.lose(&item, "a file is in the way");
                return Ok(());
            }
            mode = Some(facts.mode);
        } else if self.is_missing(item.word.as_str()) {
            let told = self.told(&item)?;
            self.ground.asking.at(lines, item.date)?;
            self.ground
                .asking
                .path(lines, "mkdir", item.word.as_str(), Asked::Folder(told))?;
            mode = Some(u32::from(USUAL_MODE));
        }
        if mode != Some(u32::from(item.mode)) {
            let alloc = self.ground.alloc();
            let change = Asked::Change(String::from_str(alloc, item.shown.as_str())?);
            self.ground
                .asking
                .mode(lines, item.word.as_str(), item.mode, change)?;
        }
        self.set_attributes(lines, item.word.as_str(), &item)?;
        let Item {
            shown,
            word,
            date,
            ..
        } = item;
        self.folders.insert(word.clone()?)?;
        self.ground.date_later(Told {
            shown,
            folder: word,
            date,
        })
    }

    // Whether a folder isn't known to be there.
    pub(crate) fn is_missing(&self, word: &str) -> bool {
        word != self.ground.top() && !self.folders.contains(word)
    }

    // Puts a further name of a file.
    pub(crate) fn put_link(
        &mut self,
        lines: &mut LineList,
        item: Item,
        found: Found,
    ) -> Result<bool, AllocError> {
        if !self.ground.staging.is_idle() {
            self.waiting = Some(Waiting {
                item,
                found: Some(found),
            });
            return Ok(false);
        }
        let told = self.told(&item)?;
        self.ground.asking.at(lines, item.date)?;
        if let Found::There(facts) = found {
            if let Some(why) = self.ground.lack_there(&facts) {
                self.lose(&item, why);
                return Ok(true);
            }
            if item.target.as_str() == item.word.as_str() {
                return Ok(true);
            }
            self.ground
                .asking
                .path(lines, "rm", item.word.as_str(), Asked::Other)?;
        }
        let words = (item.target.as_str(), item.word.as_str());
        self.ground
            .asking
            .paths(lines, "ln", words, Asked::Link(told))?;
        Ok(true)
    }

    // Puts a file, unless it is there already.
    pub(crate) fn put_file(
        &mut self,
        lines: &mut LineList,
        item: Item,
        found: Found,
    ) -> Result<(), AllocError> {
        let mut replaces = false;
        if let Found::There(facts) = found {
            let is_same = facts.size == item.size && facts.changed == item.date;
            if !facts.folder && is_same && !self.ground.is_doubtful() {
                return self.keep(lines, item, &facts);
            }
            if let Some(why) = self.ground.lack_there(&facts) {
                self.lose(&item, why);
                return Ok(());
            }
            replaces = true;
        }
        let told = self.told(&item)?;
        let word = item.word.clone()?;
        let wanted = Wanted {
            word,
            told,
            mode: item.mode,
            date: item.date,
            replaces,
            identity: None,
        };
        self.ground.begin(lines, wanted)?;
        let part = self.ground.staging.last_part()?;
        self.set_attributes(lines, part.as_str(), &item)?;
        self.is_reading = true;
        Ok(())
    }

    // The file is there already: it may want its mode.
    pub(crate) fn keep(
        &mut self,
        lines: &mut LineList,
        item: Item,
        facts: &Facts,
    ) -> Result<(), AllocError> {
        let Item {
            shown,
            word,
            mode,
            ..
        } = item;
        if u32::from(mode) != facts.mode {
            self.ground
                .asking
                .mode(lines, word.as_str(), mode, Asked::Change(shown))?;
        }
        Ok(())
    }

    // Gives an entry the attributes of a member.
    pub(crate) fn set_attributes(
        &mut self,
        lines: &mut LineList,
        word: &str,
        item: &Item,
    ) -> Result<(), AllocError> {
        let alloc = self.ground.alloc();
        for attribute in item.attributes.as_slice() {
            let asked = Asked::Change(String::from_str(alloc, item.shown.as_str())?);
            let value = attribute.value.as_slice();
            if !push_attribute(
                &mut self.ground.asking,
                lines,
                word,
                attribute.name.as_slice(),
                value,
                asked,
            )? {
                let name = String::from_utf8_lossy(alloc, attribute.name.as_slice())?;
                let what = format!(in alloc; "its attribute {name} isn't kept")?;
                self.ground
                    .asking
                    .notes
                    .doubt(item.shown.as_str(), what.as_str());
            }
        }
        Ok(())
    }

    // Puts the next bytes of the file that is read.
    pub(crate) fn read_on(&mut self, lines: &mut LineList) -> Result<(), AllocError> {
        let count = match self.archive.read(self.piece.as_mut_slice()) {
            Ok(count) => count,
            Err(fault) => {
                self.is_reading = false;
                let why = String::from_str(self.ground.alloc(), fault.reason())?;
                self.ground.staging.end(Some(why));
                return self.break_off(&fault);
            }
        };
        if let Some(bytes) = self.piece.as_slice().get(..count) {
            if count > 0 && !self.ground.staging.is_lost() {
                self.ground.add(lines, bytes)?;
            }
        }
        if count < PIECE {
            self.is_reading = false;
            self.ground.staging.end(None);
        }
        Ok(())
    }
}
