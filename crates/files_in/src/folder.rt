//! A folder of the system is put into a volume: its entries in the order of their names' bytes, then those of its folders. One file is put alone.
use crate::entry::{Here, Open, Waiting};
use crate::gathered::{Identity, Wanted};
use crate::ground::{Ground, Wishes};
use crate::listing::{Kind, attributes_of};
use crate::reading::Reading;
use files_talk::{Job, LineList, Notes, PIECE};
use std::alloc::{AllocError, Global};
use std::collections::BTreeMap;
use std::{fs, io};

/// The mode with which the volume makes a folder.
pub(crate) const USUAL_MODE: u16 = 0o755;

/// A file that has further names: where the first one was put, and the file's number in the volume, where that is known.
#[derive(Drop)]
pub(crate) struct First {
    pub(crate) word: String,
    pub(crate) id: Option<u64>,
}

/// The work of putting a folder.
#[derive(Drop)]
pub struct FolderIn<'a> {
    pub(crate) ground: Ground<'a>,
    /// The folders whose entries are still to be put, the next one last.
    pub(crate) open: Vec<Open>,
    pub(crate) here: Option<Here>,
    /// An entry of which it was asked whether it is there.
    pub(crate) waiting: Option<Waiting>,
    pub(crate) reading: Option<Reading>,
    pub(crate) piece: Vec<u8>,
    /// Where the files are that have further names, by device and number.
    pub(crate) seen: BTreeMap<(u64, u64), First>,
    /// The image itself, where it is a file.
    pub(crate) image: Option<Identity>,
}

/// What is told of a date that no volume has.
pub(crate) const CLAMPED: &str =
    "its date is outside of 1904 to 2040, and is kept as the nearest that a volume has";

impl<'a> FolderIn<'a> {
    /// Nothing was put yet. Of a folder all that is in it is to be put, and a file under its name. It is an error where there is neither.
    pub fn new(notes: Notes<'a>, from: &str, wishes: Wishes<'_>) -> io::Result<FolderIn<'a>> {
        let rt = notes.rt();
        let alloc = rt.alloc();
        let attributes = attributes_of(&fs::metadata(rt, from)?);
        let date = wishes.dates.date(attributes.changed).date;
        let mut job = FolderIn {
            ground: Ground::new(notes, wishes, Some(date))?,
            open: Vec::new(alloc),
            here: None,
            waiting: None,
            reading: None,
            piece: vec![in alloc; 0u8; PIECE]?,
            seen: BTreeMap::new(alloc),
            image: None,
        };
        let mut top = Open {
            shown: String::from_str(alloc, from)?,
            word: String::from_str(alloc, wishes.to)?,
            date,
            mode: attributes.mode,
            has: None,
            fresh: wishes.fresh,
        };
        match attributes.kind {
            Kind::Folder => job.open.push(top)?,
            Kind::File => {
                let (folder, name) = parts_of(from);
                top.shown = String::from_str(alloc, folder)?;
                job.here = Some(alone(alloc, top, name)?);
            }
            Kind::Other(_) => return Err(io::Error::from(io::ErrorKind::NotADirectory)),
        }
        Ok(job)
    }

    /// This file is the image itself, and isn't put.
    pub fn pass_over(&mut self, image: Option<Identity>) {
        self.image = image;
    }

    /// The notes.
    pub fn notes(&mut self) -> &mut Notes<'a> {
        &mut self.ground.asking.notes
    }

    /// Whether each entry was put or told.
    pub fn has_ended(&self) -> bool {
        self.ground.has_ended() && !self.ground.has_failed()
    }

    // One step: some lines, or a step further. False means that it has to be heard first what came of those before, or that all is done.
    pub(crate) fn step(&mut self, lines: &mut LineList) -> Result<bool, AllocError> {
        if !self.ground.is_open() {
            return self.ground.step(lines);
        }
        if self.reading.is_some() {
            return self.read_on(lines);
        }
        if let Some(waiting) = self.waiting.take() {
            return self.go_on(lines, waiting);
        }
        match self.next_name() {
            Some(name) => self.look_at(lines, name.as_str()),
            None => self.next_folder(lines),
        }
    }

    // The next name of the folder whose entries are put.
    pub(crate) fn next_name(&mut self) -> Option<String> {
        match &mut self.here {
            Some(here) => here.names.pop(),
            None => None,
        }
    }
}

impl<'a> Job for FolderIn<'a> {
    fn ask(&mut self, lines: &mut LineList) -> Result<(), AllocError> {
        self.ground.settle(lines)?;
        for _ in 0..u64::MAX {
            if self.ground.asking.is_full(lines) || !self.step(lines)? {
                break;
            }
        }
        Ok(())
    }

    fn hear(&mut self, reply: &[u8]) -> Result<(), AllocError> {
        let Some(file) = self.ground.hear(reply)? else {
            return Ok(());
        };
        let Wanted { word, identity, .. } = file.into_wanted();
        if let Some(identity) = identity {
            self.seen.insert(identity.key(), First { word, id: None })?;
        }
        Ok(())
    }
}

// The folder of a file's path, and the file's name.
fn parts_of(path: &str) -> (&str, &str) {
    match path.rsplit_once('/') {
        Some((folder, name)) => (if folder.is_empty() { "/" } else { folder }, name),
        None => (".", path),
    }
}

// A folder of which one entry alone is put, and which keeps its date and its mode otherwise.
fn alone(alloc: Global, folder: Open, name: &str) -> Result<Here, AllocError> {
    let mut names = Vec::new(alloc);
    names.push(String::from_str(alloc, name)?)?;
    let mut open = folder;
    open.has = Some(open.date);
    Ok(Here {
        open,
        names,
        folders: Vec::new(alloc),
        touched: false,
    })
}
