//! Paths, told by the parents of names.

use crate::catalog::{Catalog, FoundFile, Placed};
use crate::names::file_name;
use std::alloc::{AllocError, Global};

/// Where a path begins.
#[derive(Clone, Copy, Debug, PartialEq, Eq)]
pub enum Base {
    /// The volume's root.
    Root,
    /// A file or folder of this id, whose own place isn't known.
    Lost(u32),
}

/// A path: where it begins, and the names from there on.
#[derive(Drop)]
pub struct Path {
    pub base: Base,
    pub names: Vec<String>,
}

/// The id of the root.
const ROOT: u32 = 2;

/// The most folders that a path goes through.
const MOST_DEPTH: usize = 512;

fn same_place(one: &Placed, other: &Placed) -> bool {
    one.parent == other.parent && one.name.as_slice() == other.name.as_slice()
}

// Where a folder is, if that is told and nothing contradicts it. A folder whose record is lost is where its thread says.
fn folder_place(catalog: &Catalog, id: u32) -> Option<&Placed> {
    match (catalog.folders.get(&id), catalog.threads.get(&id)) {
        (Some(folder), Some(thread)) => {
            if same_place(&folder.placed, thread) {
                Some(&folder.placed)
            } else {
                None
            }
        }
        (Some(folder), None) => Some(&folder.placed),
        (None, Some(thread)) => Some(thread),
        (None, None) => None,
    }
}

// Whether a file's record is where its thread says, or has none.
fn is_placed(catalog: &Catalog, file: &FoundFile) -> bool {
    match catalog.threads.get(&file.record.fields.id) {
        Some(thread) => same_place(&file.placed, thread),
        None => true,
    }
}

// Adds the names of a folder and of those above it, the innermost first, and says where the path begins.
fn climb(
    alloc: Global,
    catalog: &Catalog,
    from: u32,
    names: &mut Vec<String>,
) -> Result<Base, AllocError> {
    let mut folder = from;
    for _ in 0..MOST_DEPTH {
        if folder == ROOT {
            return Ok(Base::Root);
        }
        let Some(placed) = folder_place(catalog, folder) else {
            return Ok(Base::Lost(folder));
        };
        match file_name(alloc, placed.name.as_slice())? {
            Some(name) => names.push(name)?,
            None => return Ok(Base::Lost(folder)),
        }
        folder = placed.parent;
    }
    // The parents lead nowhere.
    names.clear();
    Ok(Base::Lost(from))
}

/// The path of a folder.
pub fn folder_path(alloc: Global, catalog: &Catalog, id: u32) -> Result<Path, AllocError> {
    let mut names = Vec::new(alloc);
    let base = climb(alloc, catalog, id, &mut names)?;
    names.reverse();
    Ok(Path { base, names })
}

/// The path of a file. Where the file's thread says that it is elsewhere, or there can't be a file of its name, it has none.
pub fn file_path(alloc: Global, catalog: &Catalog, file: &FoundFile) -> Result<Path, AllocError> {
    if is_placed(catalog, file) {
        if let Some(name) = file_name(alloc, file.placed.name.as_slice())? {
            let mut path = folder_path(alloc, catalog, file.placed.parent)?;
            path.names.push(name)?;
            return Ok(path);
        }
    }
    Ok(Path {
        base: Base::Lost(file.record.fields.id),
        names: Vec::new(alloc),
    })
}
