//! What is to be written: one file for each name, one more for a resource fork, and the folders.

use crate::folder::Facts;
use cat_records::EntryFields;
use salvage_tree::{
    Base, Catalog, Extra, Fork, ForkKind, FoundFile, Links, Path, Survey, file_path, folder_path,
    is_link,
};
use std::alloc::{AllocError, Global};
use std::collections::BTreeSet;

/// A file to be written.
#[derive(Drop)]
pub(crate) struct Item {
    /// Its path below the folder.
    pub(crate) path: String,
    /// The file of the catalog that has its bytes.
    pub(crate) source: usize,
    pub(crate) kind: ForkKind,
    /// Its id.
    pub(crate) id: u32,
    pub(crate) facts: Facts,
    /// Whether it may have other names.
    pub(crate) is_linked: bool,
    pub(crate) is_symlink: bool,
    /// Whether its bytes stand elsewhere, compressed.
    pub(crate) is_compressed: bool,
}

/// Why a file of the catalog isn't written.
#[derive(Clone, Copy)]
pub(crate) enum Reason {
    /// The file that it is a link to wasn't found.
    NoTarget,
    /// It is no file of bytes.
    Special,
}

impl Reason {
    pub(crate) fn text(self) -> &'static str {
        match self {
            Reason::NoTarget => "the file that it is a link to is lost",
            Reason::Special => "it is a device, a pipe or a socket",
        }
    }
}

/// A file that isn't written.
#[derive(Drop)]
pub(crate) struct LeftOut {
    pub(crate) path: String,
    pub(crate) reason: Reason,
}

/// A folder to be made.
#[derive(Drop)]
pub(crate) struct FolderItem {
    pub(crate) path: String,
    pub(crate) facts: Facts,
}

/// All that is to be written.
#[derive(Drop)]
pub(crate) struct Plan {
    pub(crate) folders: Vec<FolderItem>,
    pub(crate) items: Vec<Item>,
    pub(crate) left_out: Vec<LeftOut>,
}

const ROOT: u32 = 2;

/// `.journal`.
const JOURNAL: [u16; 8] = [0x2E, 0x6A, 0x6F, 0x75, 0x72, 0x6E, 0x61, 0x6C];

/// `.journal_info_block`.
const INFO_BLOCK: [u16; 19] = [
    0x2E, 0x6A, 0x6F, 0x75, 0x72, 0x6E, 0x61, 0x6C, 0x5F, 0x69, 0x6E, 0x66, 0x6F, 0x5F, 0x62, 0x6C,
    0x6F, 0x63, 0x6B,
];

/// A path as text.
pub(crate) fn path_text(alloc: Global, path: &Path) -> Result<String, AllocError> {
    let mut text = String::new(alloc);
    if let Base::Lost(id) = path.base {
        text.push_str("lost/")?;
        text.push_str(id.to_string(alloc)?.as_str())?;
    }
    for name in path.names.as_slice() {
        if !text.is_empty() {
            text.push('/')?;
        }
        text.push_str(name.as_str())?;
    }
    Ok(text)
}

// Whether a file is one that keeps the journal.
fn is_of_journal(survey: &Survey, file: &FoundFile) -> bool {
    let name = file.placed.name.as_slice();
    file.placed.parent == ROOT
        && survey.volume.head.journal_info_block != 0
        && (name == JOURNAL.as_slice() || name == INFO_BLOCK.as_slice())
}

// Whether a file has bytes: it is a file or a symbolic link, or says nothing of its kind.
fn has_bytes(file: &FoundFile) -> bool {
    matches!(
        file.record.fields.mode & 0xF000,
        0 | 0x4000 | 0x8000 | 0xA000
    )
}

// The files that links stand for.
fn targets(alloc: Global, catalog: &Catalog, links: &Links) -> Result<BTreeSet<usize>, AllocError> {
    let mut targets = BTreeSet::new(alloc);
    for file in catalog.files.as_slice() {
        if is_link(file) {
            if let Some(target) = links.target(file) {
                targets.insert(target)?;
            }
        }
    }
    Ok(targets)
}

impl Plan {
    /// The plan for all files and folders that were found.
    pub(crate) fn new(alloc: Global, survey: &Survey, links: &Links) -> Result<Plan, AllocError> {
        let mut plan = Plan {
            folders: Vec::new(alloc),
            items: Vec::new(alloc),
            left_out: Vec::new(alloc),
        };
        for (id, folder) in survey.catalog.folders.iter() {
            if *id != ROOT && Some(*id) != links.folder {
                plan.add_folder(alloc, survey, *id, facts_of(&folder.fields))?;
            }
        }
        let targets = targets(alloc, &survey.catalog, links)?;
        for (at, file) in survey.catalog.files.iter().enumerate() {
            if !is_of_journal(survey, file) && !targets.contains(&at) {
                plan.add_name(alloc, survey, links, at, file)?;
            }
        }
        Ok(plan)
    }

    fn add_folder(
        &mut self,
        alloc: Global,
        survey: &Survey,
        id: u32,
        facts: Facts,
    ) -> Result<(), AllocError> {
        let path = folder_path(alloc, &survey.catalog, id)?;
        self.folders.push(FolderItem {
            path: path_text(alloc, &path)?,
            facts,
        })?;
        Ok(())
    }

    /// Brings all into the order of their paths.
    pub(crate) fn sort(&mut self) {
        self.folders
            .sort_unstable_by(|a, b| a.path.as_str().cmp(b.path.as_str()));
        self.items
            .sort_unstable_by(|a, b| a.path.as_str().cmp(b.path.as_str()));
    }

    // Adds the files of a name.
    fn add_name(
        &mut self,
        alloc: Global,
        survey: &Survey,
        links: &Links,
        at: usize,
        file: &FoundFile,
    ) -> Result<(), AllocError> {
        let text = name_text(alloc, survey, links, file)?;
        if is_link(file) {
            return match links.target(file) {
                Some(target) => self.add_files(alloc, survey, target, text, true),
                None => self.leave_out(text, Reason::NoTarget),
            };
        }
        if !has_bytes(file) {
            return self.leave_out(text, Reason::Special);
        }
        self.add_files(alloc, survey, at, text, false)
    }

    fn leave_out(&mut self, path: String, reason: Reason) -> Result<(), AllocError> {
        self.left_out.push(LeftOut { path, reason })?;
        Ok(())
    }

    // Adds the files for the forks of one of the catalog's files.
    fn add_files(
        &mut self,
        alloc: Global,
        survey: &Survey,
        source: usize,
        path: String,
        is_linked: bool,
    ) -> Result<(), AllocError> {
        let Some(file) = survey.catalog.files.get(source) else {
            return Ok(());
        };
        let fields = &file.record.fields;
        let extra = Extra::of(&file.record);
        if extra.resources > 0 {
            let mut beside = String::from_str(alloc, path.as_str())?;
            beside.push_str(".rsrc")?;
            self.items.push(Item {
                path: beside,
                source,
                kind: ForkKind::Resource,
                id: fields.id,
                facts: facts_of(fields),
                is_linked: false,
                is_symlink: false,
                is_compressed: false,
            })?;
        }
        self.items.push(Item {
            path,
            source,
            kind: ForkKind::Data,
            id: fields.id,
            facts: facts_of(fields),
            is_linked,
            is_symlink: extra.is_symlink,
            is_compressed: extra.is_compressed,
        })?;
        Ok(())
    }
}

fn facts_of(fields: &EntryFields) -> Facts {
    Facts {
        mode: fields.mode,
        changed: fields.changed,
    }
}

// The path of a name. A file that only links have names for has none of its own.
fn name_text(
    alloc: Global,
    survey: &Survey,
    links: &Links,
    file: &FoundFile,
) -> Result<String, AllocError> {
    let path = if Some(file.placed.parent) == links.folder {
        Path {
            base: Base::Lost(file.record.fields.id),
            names: Vec::new(alloc),
        }
    } else {
        file_path(alloc, &survey.catalog, file)?
    };
    path_text(alloc, &path)
}

/// The fork of an item, with all of its extents.
pub(crate) fn fork_of(alloc: Global, survey: &Survey, item: &Item) -> Result<Fork, AllocError> {
    match survey.catalog.files.get(item.source) {
        Some(file) => survey.fork(alloc, file, item.kind),
        None => Ok(Fork::empty(alloc)),
    }
}
