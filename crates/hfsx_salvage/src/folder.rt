//! The folder that files are saved into. Nothing is written outside it, and nothing that is there is changed.

use std::alloc::AllocError;
use std::collections::BTreeSet;
use std::fs::{self, File, FileTimes, OpenOptions, Permissions};
use std::io::{self, ErrorKind};
use std::os::unix::fs::PermissionsExt;
use std::time::{Duration, UNIX_EPOCH};

/// Seconds from 1904 to 1970.
const EPOCH: u64 = 2_082_844_800;

/// The folder, and what was made in it.
#[derive(Drop)]
pub(crate) struct Target<'a> {
    rt: &'a HostRuntime,
    root: &'a str,
    // The folders below it that were made, or were there.
    folders: BTreeSet<String>,
    // The files that were made.
    files: BTreeSet<String>,
}

/// The mode and the date of a file or folder.
#[derive(Clone, Copy)]
pub(crate) struct Facts {
    pub(crate) mode: u16,
    /// Seconds since 1904.
    pub(crate) changed: u32,
}

impl<'a> Target<'a> {
    /// Makes the folder, or takes one that is there.
    pub(crate) fn open(rt: &'a HostRuntime, root: &'a str) -> io::Result<Target<'a>> {
        match fs::create_dir(rt, root) {
            Ok(()) => {}
            Err(error) => {
                if error.kind() != ErrorKind::AlreadyExists {
                    return Err(error);
                }
                if !fs::metadata(rt, root)?.is_dir() {
                    return Err(io::Error::new(ErrorKind::NotADirectory, "it is no folder"));
                }
            }
        }
        Ok(Target {
            rt,
            root,
            folders: BTreeSet::new(rt.alloc()),
            files: BTreeSet::new(rt.alloc()),
        })
    }

    /// The path of something in the folder.
    pub(crate) fn path(&self, below: &str) -> Result<String, AllocError> {
        let mut path = String::from_str(self.rt.alloc(), self.root)?;
        path.push('/')?;
        path.push_str(below)?;
        Ok(path)
    }

    /// Whether a file of this path was made in this run.
    pub(crate) fn has_made(&self, below: &str) -> bool {
        self.files.contains(below)
    }

    /// Makes a folder and those above it. One that is there must be a folder itself, and no link to one.
    pub(crate) fn make_folder(&mut self, below: &str) -> io::Result<()> {
        let mut path = String::new(self.rt.alloc());
        for name in below.split('/') {
            if !path.is_empty() {
                path.push('/')?;
            }
            path.push_str(name)?;
            self.make_one(path.as_str())?;
        }
        Ok(())
    }

    fn make_one(&mut self, below: &str) -> io::Result<()> {
        if self.folders.contains(below) {
            return Ok(());
        }
        let path = self.path(below)?;
        match fs::symlink_metadata(self.rt, path.as_str()) {
            Ok(found) => {
                if !found.is_dir() {
                    return Err(io::Error::new(
                        ErrorKind::NotADirectory,
                        "what is there is no folder",
                    ));
                }
            }
            Err(error) => {
                if error.kind() != ErrorKind::NotFound {
                    return Err(error);
                }
                fs::create_dir(self.rt, path.as_str())?;
            }
        }
        self.folders
            .insert(String::from_str(self.rt.alloc(), below)?)?;
        Ok(())
    }

    // Makes the folders above a file.
    fn make_parents(&mut self, below: &str) -> io::Result<()> {
        match below.rsplit_once('/') {
            Some((folder, _)) => self.make_folder(folder),
            None => Ok(()),
        }
    }

    fn note(&mut self, below: &str) -> Result<(), AllocError> {
        self.files
            .insert(String::from_str(self.rt.alloc(), below)?)?;
        Ok(())
    }

    /// Makes a file that isn't there.
    pub(crate) fn make_file(&mut self, below: &str) -> io::Result<File> {
        self.make_parents(below)?;
        let path = self.path(below)?;
        let file = OpenOptions::new()
            .write(true)
            .create_new(true)
            .open(self.rt, path.as_str())?;
        self.note(below)?;
        Ok(file)
    }

    /// Makes one more name of a file that was made.
    pub(crate) fn link(&mut self, first: &str, below: &str) -> io::Result<()> {
        self.make_parents(below)?;
        let path = self.path(below)?;
        let first = self.path(first)?;
        fs::hard_link(self.rt, first.as_str(), path.as_str())?;
        self.note(below)?;
        Ok(())
    }

    /// Makes a symbolic link. No file may be made after it, since its path could lead through it.
    pub(crate) fn make_symlink(&mut self, below: &str, to: &str) -> io::Result<()> {
        self.make_parents(below)?;
        let path = self.path(below)?;
        std::os::unix::fs::symlink(self.rt, to, path.as_str())?;
        self.note(below)?;
        Ok(())
    }

    /// Gives a folder that was made its mode and date.
    pub(crate) fn settle_folder(&self, below: &str, facts: Facts) -> io::Result<()> {
        if !self.folders.contains(below) {
            return Ok(());
        }
        let path = self.path(below)?;
        let file = File::open(self.rt, path.as_str())?;
        settle(&file, facts, 0o755, 0o700)
    }
}

/// Gives a file its mode and date.
pub(crate) fn settle_file(file: &File, facts: Facts) -> io::Result<()> {
    settle(file, facts, 0o644, 0)
}

// The bits of the mode that give more rights than those of the user who saves the files are left out.
fn settle(file: &File, facts: Facts, usual: u16, least: u16) -> io::Result<()> {
    if let Some(since) = u64::from(facts.changed).checked_sub(EPOCH) {
        if let Some(time) = UNIX_EPOCH.checked_add(Duration::from_secs(since)) {
            file.set_times(FileTimes::new().set_accessed(time).set_modified(time))?;
        }
    }
    let mode = if facts.mode == 0 {
        usual
    } else {
        facts.mode & 0o777 | least
    };
    file.set_permissions(Permissions::from_mode(u32::from(mode)))
}
