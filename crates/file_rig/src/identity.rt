//! What the system knows a file or a block device by, whatever its names are.

use std::fs::Metadata;
use std::os::unix::fs::{FileTypeExt, MetadataExt};

/// Two names with one identity name the same bytes.
#[derive(Clone, Copy, PartialEq, Eq, Debug)]
pub(crate) enum Identity {
    /// A file, by its file system's device and its number there.
    File { device: u64, number: u64 },
    /// A block device, by its number.
    Device { number: u64 },
}

impl Identity {
    /// The identity of what the system found.
    pub(crate) fn of(found: &Metadata) -> Identity {
        if found.file_type().is_block_device() {
            Identity::Device {
                number: found.rdev(),
            }
        } else {
            Identity::File {
                device: found.dev(),
                number: found.ino(),
            }
        }
    }
}
