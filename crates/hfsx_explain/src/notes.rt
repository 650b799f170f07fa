//! What of a sound volume macOS shows otherwise than lines do: further names of folders, symbolic links, resource forks, compressed bytes;
//! and free nodes of the catalog that aren't zero, though the header says so.

use crate::names::shown;
use salvage_tree::{
    Catalog, Extra, FoundFile, FoundFolder, Placed, Survey, file_path, folder_path,
};
use std::alloc::{AllocError, Global};

/// Something that is worth a note, and its path where it has one.
#[derive(Drop)]
pub(crate) struct Note {
    /// A word for programs.
    pub(crate) kind: &'static str,
    pub(crate) path: Option<String>,
    pub(crate) text: String,
}

/// How many files there are of each kind.
#[derive(Clone, Copy)]
struct Counts {
    symlinks: u64,
    compressed: u64,
    with_resources: u64,
}

const ROOT: u32 = 2;

/// `.HFS+ Private Directory Data` and a carriage return: the folder in which macOS keeps the folders that have several names.
const FOLDERS: [u16; 29] = [
    0x2E, 0x48, 0x46, 0x53, 0x2B, 0x20, 0x50, 0x72, 0x69, 0x76, 0x61, 0x74, 0x65, 0x20, 0x44, 0x69,
    0x72, 0x65, 0x63, 0x74, 0x6F, 0x72, 0x79, 0x20, 0x44, 0x61, 0x74, 0x61, 0x0D,
];

/// The notes on a volume with so many free nodes of its catalog that aren't zero, though its header says so.
pub(crate) fn notes_of(
    alloc: Global,
    survey: &Survey,
    unerased: u64,
) -> Result<Vec<Note>, AllocError> {
    let mut notes = Vec::new(alloc);
    let catalog = &survey.catalog;
    for (id, folder) in catalog.folders.iter() {
        if is_private(&folder.placed) {
            notes.push(private_note(alloc, catalog, *id)?)?;
        }
    }
    let mut counts = Counts {
        symlinks: 0,
        compressed: 0,
        with_resources: 0,
    };
    for file in catalog.files.as_slice() {
        if is_folder_link(file) {
            notes.push(link_note(alloc, catalog, file)?)?;
        } else {
            counts.add(file);
        }
    }
    counts.tell(alloc, &mut notes)?;
    if unerased > 0 {
        let text = format!(in alloc;
            "the header says that free nodes of the catalog are zero, and {unerased} aren't; the next run clears what it says"
        )?;
        notes.push(without_path("free nodes", text))?;
    }
    Ok(notes)
}

// Whether a folder is the one in which macOS keeps the folders that have several names.
fn is_private(placed: &Placed) -> bool {
    placed.parent == ROOT && placed.name.as_slice() == FOLDERS.as_slice()
}

// Whether a file is a further name of a folder: its type is `fdrp` and its creator `MACS`.
fn is_folder_link(file: &FoundFile) -> bool {
    match file.record.fields.finder.get(..8) {
        Some(kind) => kind == b"fdrpMACS".as_slice(),
        None => false,
    }
}

// The note on the folder in which macOS keeps the folders that have several names.
fn private_note(alloc: Global, catalog: &Catalog, id: u32) -> Result<Note, AllocError> {
    let mut folders: u64 = 0;
    for (_, folder) in catalog.folders.iter() {
        let FoundFolder { placed, .. } = folder;
        if placed.parent == id {
            folders = folders.saturating_add(1);
        }
    }
    let path = shown(alloc, &folder_path(alloc, catalog, id)?)?;
    let text = format!(in alloc;
        "{}: macOS keeps here the folders that have several names: {folders}",
        or_none(&path)
    )?;
    Ok(Note {
        kind: "private folder",
        path,
        text,
    })
}

// The note on a further name of a folder.
fn link_note(alloc: Global, catalog: &Catalog, file: &FoundFile) -> Result<Note, AllocError> {
    let path = shown(alloc, &file_path(alloc, catalog, file)?)?;
    let id = file.record.fields.special;
    let target = if catalog.folders.contains_key(&id) {
        shown(alloc, &folder_path(alloc, catalog, id)?)?
    } else {
        None
    };
    let text = match &target {
        Some(target) => format!(in alloc;
            "{}: a name of the folder {target}, which macOS shows there; here it is a file",
            or_none(&path)
        )?,
        None => format!(in alloc;
            "{}: a name of the folder of id {id}, which isn't there",
            or_none(&path)
        )?,
    };
    Ok(Note {
        kind: "folder link",
        path,
        text,
    })
}

// A path, or what stands for one that can't be told.
fn or_none(path: &Option<String>) -> &str {
    match path {
        Some(path) => path.as_str(),
        None => "a file or folder without a path",
    }
}

impl Counts {
    fn add(&mut self, file: &FoundFile) {
        let extra = Extra::of(&file.record);
        if extra.is_symlink {
            self.symlinks = self.symlinks.saturating_add(1);
        }
        if extra.is_compressed {
            self.compressed = self.compressed.saturating_add(1);
        } else if extra.resources > 0 {
            self.with_resources = self.with_resources.saturating_add(1);
        }
    }

    // Adds the notes on what there is.
    fn tell(&self, alloc: Global, notes: &mut Vec<Note>) -> Result<(), AllocError> {
        let Counts {
            symlinks,
            compressed,
            with_resources,
        } = *self;
        if symlinks > 0 {
            let text = format!(in alloc;
                "symbolic links: {symlinks}; lines see files, whose bytes are the paths to which they lead"
            )?;
            notes.push(without_path("symbolic links", text))?;
        }
        if with_resources > 0 {
            let text = format!(in alloc;
                "files with a resource fork: {with_resources}; lines see their data forks alone"
            )?;
            notes.push(without_path("resource forks", text))?;
        }
        if compressed > 0 {
            let text = format!(in alloc;
                "files that macOS keeps compressed: {compressed}; lines see empty files"
            )?;
            notes.push(without_path("compressed files", text))?;
        }
        Ok(())
    }
}

fn without_path(kind: &'static str, text: String) -> Note {
    Note {
        kind,
        path: None,
        text,
    }
}
