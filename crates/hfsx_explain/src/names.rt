//! The paths of ids, and the files that use a block, as far as the catalog's records tell.

use crate::notes::{Note, notes_of};
use salvage_tree::{Base, ForkKind, Path, Survey, file_path, folder_path, push_shown};
use std::alloc::{AllocError, Global};
use std::collections::BTreeMap;

/// The blocks of a file.
#[derive(Clone, Copy)]
struct Used {
    start: u64,
    end: u64,
    id: u32,
}

/// What is known of a volume's names, if anything is.
#[derive(Drop)]
pub(crate) struct Names {
    alloc: Global,
    survey: Option<Survey>,
    /// Free nodes of the catalog that aren't zero, though the header says so.
    unerased: u64,
    files: BTreeMap<u32, usize>,
    used: Vec<Used>,
}

const ROOT: u64 = 2;

impl Names {
    /// The names that a survey tells, of a volume with so many free nodes of its catalog that aren't zero, though its header says so.
    pub(crate) fn new(
        alloc: Global,
        survey: Option<Survey>,
        unerased: u64,
    ) -> Result<Names, AllocError> {
        let mut files = BTreeMap::new(alloc);
        let mut used = Vec::new(alloc);
        if let Some(found) = &survey {
            for (at, file) in found.catalog.files.iter().enumerate() {
                let id = file.record.fields.id;
                files.insert(id, at)?;
                for kind in [ForkKind::Data, ForkKind::Resource] {
                    let fork = found.fork(alloc, file, kind)?;
                    for extent in fork.extents.as_slice() {
                        let start = u64::from(extent.start);
                        let end = start.saturating_add(u64::from(extent.count));
                        used.push(Used { start, end, id })?;
                    }
                }
            }
        }
        Ok(Names {
            alloc,
            survey,
            unerased,
            files,
            used,
        })
    }

    /// The notes on what macOS shows otherwise than lines do, and on free nodes that aren't zero.
    pub(crate) fn notes(&self) -> Result<Vec<Note>, AllocError> {
        match &self.survey {
            Some(survey) => notes_of(self.alloc, survey, self.unerased),
            None => Ok(Vec::new(self.alloc)),
        }
    }

    /// The path of a file or folder, if one can be told.
    pub(crate) fn path(&self, id: u64) -> Result<Option<String>, AllocError> {
        if id == ROOT {
            return Ok(Some(String::from_str(self.alloc, "/")?));
        }
        let (Some(survey), Ok(id)) = (&self.survey, u32::try_from(id)) else {
            return Ok(None);
        };
        let file = match self.files.get(&id) {
            Some(at) => survey.catalog.files.get(*at),
            None => None,
        };
        match file {
            Some(file) => shown(self.alloc, &file_path(self.alloc, &survey.catalog, file)?),
            None => shown(self.alloc, &folder_path(self.alloc, &survey.catalog, id)?),
        }
    }

    /// The path of a file that uses one of the blocks from `first` to `last`, if there is one.
    pub(crate) fn user(&self, first: u64, last: u64) -> Result<Option<String>, AllocError> {
        for used in self.used.as_slice() {
            if used.start <= last && first < used.end {
                return self.path(u64::from(used.id));
            }
        }
        Ok(None)
    }
}

/// A path as text, if it begins at the root.
pub(crate) fn shown(alloc: Global, path: &Path) -> Result<Option<String>, AllocError> {
    if path.base != Base::Root || path.names.is_empty() {
        return Ok(None);
    }
    let mut text = String::new(alloc);
    for name in path.names.as_slice() {
        text.push('/')?;
        push_shown(&mut text, name.as_str())?;
    }
    Ok(Some(text))
}
