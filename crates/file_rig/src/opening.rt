//! A file or a block device that becomes an image: what it is and who uses it, and the locks that keep others off.

use crate::device::{layers_below, user_of};
use crate::failure::{Act, Failure};
use crate::identity::Identity;
use crate::streams::{STREAMS, Stream};
use std::fs::{self, File, Metadata, OpenOptions, TryLockError};
use std::io::{self, ErrorKind};
use std::os::unix::fs::FileTypeExt;

/// What an image is opened for.
#[derive(Clone, Copy, PartialEq, Eq)]
pub(crate) enum Purpose {
    /// It is read alone. Others may read it at the same time.
    Reading,
    /// It is read and written.
    Writing,
    /// It is made if it is missing, read and written.
    Making,
}

/// A file or a block device that is open and locked, and the locks on what it stands on.
#[derive(Drop)]
pub(crate) struct Opened {
    pub(crate) file: File,
    pub(crate) identity: Identity,
    /// They are held as long as these are open.
    pub(crate) below: Vec<File>,
}

/// Opens and locks a file or a block device: for this process alone, or where it is read alone for all that do no more. The file behind a
/// loop device is locked too. What is to be written mustn't be in use.
pub(crate) fn open(rt: &HostRuntime, name: &str, purpose: Purpose) -> Result<Opened, Failure> {
    match fs::metadata(rt, name) {
        Ok(found) => may_be_image(rt, &found)?,
        Err(error) => {
            if purpose != Purpose::Making || error.kind() != ErrorKind::NotFound {
                return Err(Act::Opening.failed(error));
            }
        }
    }
    let file = match ways(purpose).open(rt, name) {
        Ok(file) => file,
        Err(error) => return Err(Act::Opening.failed(error)),
    };
    let found = match file.metadata() {
        Ok(found) => found,
        Err(error) => return Err(Act::Measuring.failed(error)),
    };
    may_be_image(rt, &found)?;
    let identity = Identity::of(&found);
    lock(&file, purpose)?;
    let below = lock_below(rt, identity, purpose)?;
    if purpose != Purpose::Reading {
        is_free(rt, identity)?;
    }
    Ok(Opened {
        file,
        identity,
        below,
    })
}

/// Whether this may be opened as an image: it is a file or a block device, and no standard stream of this program. Anything else may wait for
/// others when it is opened.
pub(crate) fn may_be_image(rt: &HostRuntime, found: &Metadata) -> Result<(), Failure> {
    if !found.is_file() && !found.file_type().is_block_device() {
        return Err(unfit("it is neither a file nor a block device"));
    }
    for stream in STREAMS {
        if is_stream(rt, stream, Identity::of(found)) {
            return Err(unfit("it is a standard stream of this program"));
        }
    }
    Ok(())
}

/// Whether a standard stream is an image, or what the image stands on.
pub(crate) fn is_stream(rt: &HostRuntime, stream: Stream, image: Identity) -> bool {
    let Some(stream) = stream.identity(rt) else {
        return false;
    };
    if stream == image {
        return true;
    }
    if let Ok(layers) = layers_below(rt, image) {
        for layer in layers.iter() {
            if stream == layer.identity {
                return true;
            }
        }
    }
    false
}

fn unfit(why: &str) -> Failure {
    Act::Opening.failed(io::Error::new(ErrorKind::InvalidInput, why))
}

// Whether nothing else uses what is to be written.
fn is_free(rt: &HostRuntime, image: Identity) -> Result<(), Failure> {
    match user_of(rt, image) {
        Ok(None) => Ok(()),
        Ok(Some(user)) => Err(Act::Opening.failed(io::Error::new(ErrorKind::ResourceBusy, user))),
        Err(error) => Err(Act::Opening.failed(error)),
    }
}

// Takes the lock on a file.
fn lock(file: &File, purpose: Purpose) -> Result<(), Failure> {
    let lock = match purpose {
        Purpose::Reading => file.try_lock_shared(),
        Purpose::Writing | Purpose::Making => file.try_lock(),
    };
    match lock {
        Ok(()) => Ok(()),
        Err(TryLockError::WouldBlock) => {
            let busy = io::Error::new(ErrorKind::ResourceBusy, "another process uses it");
            Err(Act::Locking.failed(busy))
        }
        Err(TryLockError::Error(error)) => Err(Act::Locking.failed(error)),
    }
}

// Takes the locks on what a device stands on.
fn lock_below(rt: &HostRuntime, image: Identity, purpose: Purpose) -> Result<Vec<File>, Failure> {
    let layers = match layers_below(rt, image) {
        Ok(layers) => layers,
        Err(error) => return Err(Act::Locking.failed(error)),
    };
    let mut below = Vec::new(rt.alloc());
    for layer in layers.iter() {
        let file = match File::open(rt, layer.path.as_str()) {
            Ok(file) => file,
            Err(error) => return Err(Act::Locking.failed(error)),
        };
        lock(&file, purpose)?;
        if let Err(error) = below.push(file) {
            return Err(Act::Locking.failed(io::Error::from(error)));
        }
    }
    Ok(below)
}

// How a file is opened for this.
fn ways(purpose: Purpose) -> OpenOptions {
    let mut how = OpenOptions::new();
    how.read(true);
    match purpose {
        Purpose::Reading => {}
        Purpose::Writing => {
            how.write(true);
        }
        Purpose::Making => {
            how.write(true).create(true);
        }
    }
    how
}
