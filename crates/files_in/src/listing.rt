//! The entries of a folder of the system.
use crate::gathered::Identity;
use files_talk::{Notes, child_of};
use std::alloc::{AllocError, Global};
use std::fs::{self, FileType, Metadata};
use std::io::{self, Read};
use std::os::unix::fs::{FileTypeExt, MetadataExt};
use std::rt::Files;

/// The bytes of names that are read at once.
const ROOM: usize = 32_768;

/// What an entry of a folder is.
#[derive(Clone, Copy, Debug, PartialEq, Eq)]
pub(crate) enum Kind {
    Folder,
    File,
    /// Something that a volume doesn't keep.
    Other(&'static str),
}

/// What the system tells of an entry.
#[derive(Clone, Copy)]
pub(crate) struct Attributes {
    pub(crate) kind: Kind,
    pub(crate) size: u64,
    pub(crate) mode: u16,
    /// Seconds since 1970.
    pub(crate) changed: i64,
    pub(crate) identity: Identity,
    /// How many names it has.
    pub(crate) names: u64,
}

/// Which file has this name, where there is one.
pub fn identity_of(rt: &HostRuntime, path: &str) -> Option<Identity> {
    match fs::metadata(rt, path) {
        Ok(found) => Some(attributes_of(&found).identity),
        Err(_) => None,
    }
}

/// What the system's record of an entry tells.
pub(crate) fn attributes_of(found: &Metadata) -> Attributes {
    Attributes {
        kind: kind_of(found.file_type()),
        size: found.len(),
        mode: (found.mode() % 4096) as u16,
        changed: found.mtime(),
        identity: Identity {
            device: found.dev(),
            number: found.ino(),
        },
        names: found.nlink(),
    }
}

fn kind_of(of: FileType) -> Kind {
    if of.is_dir() {
        Kind::Folder
    } else if of.is_file() {
        Kind::File
    } else if of.is_symlink() {
        Kind::Other("volumes keep no symbolic links yet")
    } else if of.is_fifo() {
        Kind::Other("it is a pipe")
    } else if of.is_socket() {
        Kind::Other("it is a socket")
    } else {
        Kind::Other("it is a device")
    }
}

/// The entries of a folder.
#[derive(Drop)]
pub(crate) struct Listing {
    /// Their names, the last in the order of bytes first.
    pub(crate) names: Vec<String>,
    /// Those that can't be listed.
    lacks: Vec<Lack>,
}

// What can't be listed, and why.
#[derive(Drop)]
struct Lack {
    shown: String,
    why: String,
}

impl Listing {
    /// Tells what can't be listed, counts it, and gives the names.
    pub(crate) fn tell(self, notes: &mut Notes<'_>) -> Vec<String> {
        let Listing { names, lacks } = self;
        for lack in lacks.as_slice() {
            notes.leave_out(lack.shown.as_str(), lack.why.as_str());
        }
        names
    }

    // Adds a name that was read.
    fn add(&mut self, alloc: Global, path: &str, name: &[u8]) -> Result<(), AllocError> {
        match str::from_utf8(name) {
            Ok("" | "." | "..") => Ok(()),
            Ok(name) => {
                self.names.push(String::from_str(alloc, name)?)?;
                Ok(())
            }
            Err(_) => {
                let name = String::from_utf8_lossy(alloc, name)?;
                self.lacks.push(Lack {
                    shown: child_of(alloc, path, name.as_str())?,
                    why: String::from_str(alloc, "its name isn't UTF-8")?,
                })?;
                Ok(())
            }
        }
    }
}

/// Lists a folder.
pub(crate) fn list(rt: &HostRuntime, path: &str) -> Result<Listing, AllocError> {
    let alloc = rt.alloc();
    let mut listing = Listing {
        names: Vec::new(alloc),
        lacks: Vec::new(alloc),
    };
    match read_names(rt, path) {
        Ok(bytes) => {
            for name in bytes.as_slice().split(|byte| *byte == 0) {
                listing.add(alloc, path, name)?;
            }
        }
        Err(error) => listing.lacks.push(Lack {
            shown: String::from_str(alloc, path)?,
            why: error.to_string(alloc)?,
        })?,
    }
    listing.names.sort_unstable();
    listing.names.as_mut_slice().reverse();
    Ok(listing)
}

// The names of a folder, with a zero behind each.
fn read_names(rt: &HostRuntime, path: &str) -> io::Result<Vec<u8>> {
    let mut folder = String::from_str(rt.alloc(), path)?;
    if !path.ends_with('/') {
        folder.push('/')?;
    }
    let mut dir = rt.open_dir(folder.as_str())?;
    let mut room = vec![in rt.alloc(); 0u8; ROOM]?;
    let mut names = Vec::new(rt.alloc());
    for _ in 0..u64::MAX {
        let count = dir.read(room.as_mut_slice())?;
        if count == 0 {
            break;
        }
        names.extend_from_slice(&room[..count])?;
    }
    Ok(names)
}
