//! The three standard streams.

use crate::identity::Identity;
use std::fs::{self, File};
use std::io;
use std::os::fd::{AsRawFd, IntoRawFd};

/// The descriptors of the standard streams are those up to this.
const LAST: i32 = 2;

/// The bit of an open file's flags that says that each write goes behind its last byte.
const APPENDS: u32 = 0o2000;

/// A standard stream.
#[derive(Clone, Copy, Debug, PartialEq, Eq)]
pub enum Stream {
    Input,
    Output,
    Error,
}

/// All three.
pub(crate) const STREAMS: [Stream; 3] = [Stream::Input, Stream::Output, Stream::Error];

impl Stream {
    /// What the stream is, if the system tells it.
    pub(crate) fn identity(&self, rt: &HostRuntime) -> Option<Identity> {
        let found = fs::metadata(rt, self.link()).ok()?;
        Some(Identity::of(&found))
    }

    // A path that leads to what is open as the stream.
    fn link(&self) -> &'static str {
        match self {
            Stream::Input => "/proc/self/fd/0",
            Stream::Output => "/proc/self/fd/1",
            Stream::Error => "/proc/self/fd/2",
        }
    }

    // A file in which the system tells the place and the flags of the stream.
    fn table(&self) -> &'static str {
        match self {
            Stream::Input => "/proc/self/fdinfo/0",
            Stream::Output => "/proc/self/fdinfo/1",
            Stream::Error => "/proc/self/fdinfo/2",
        }
    }

    /// Where the next byte that is written goes, if the stream is a file.
    pub(crate) fn place(&self, rt: &HostRuntime) -> Option<u64> {
        let found = fs::metadata(rt, self.link()).ok()?;
        if !found.is_file() {
            return None;
        }
        let table = fs::read_to_string(rt, self.table()).ok()?;
        place_in(table.as_str(), found.len())
    }
}

// The place in the system's table of an open file of this length: that of its position, or its end where it appends.
pub(crate) fn place_in(table: &str, length: u64) -> Option<u64> {
    let flags = field(table, "flags:")?;
    if u32::from_str_radix(flags, 8).ok()? & APPENDS != 0 {
        return Some(length);
    }
    field(table, "pos:")?.parse::<u64>().ok()
}

// What stands behind a name in a table of one line a field.
fn field<'a>(table: &'a str, name: &str) -> Option<&'a str> {
    for line in table.lines() {
        if let Some(value) = line.strip_prefix(name) {
            return Some(value.trim());
        }
    }
    None
}

/// Takes the descriptors of the standard streams that were closed, so that no image gets one of them.
///
/// A file that is opened gets the lowest descriptor that is free. What takes the place of an input has no bytes, and
/// what takes the place of an output can't be written.
pub fn take_closed(rt: &HostRuntime) -> io::Result<()> {
    for _ in 0..=LAST {
        let file = File::open(rt, "/dev/null")?;
        if file.as_raw_fd() > LAST {
            return Ok(());
        }
        // It stays open until the program ends.
        let _ = file.into_raw_fd();
    }
    Ok(())
}
