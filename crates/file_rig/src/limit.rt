//! The length that the system lets this process give a file, asked for before a write: past it the system doesn't answer,
//! but ends the process by a signal.
ghost use Rattle.std.specs.Io.{WritesAtMost};

use crate::streams::Stream;
use std::fs;
use std::io::{self, Write};

/// The system's number for "File too large".
const TOO_LARGE: i32 = 27;

/// The greatest length of a file, if there is one.
#[derive(Clone, Copy, Debug, PartialEq, Eq)]
pub struct FileLimit {
    most: Option<u64>,
}

impl FileLimit {
    /// The limit of this process, as it is now.
    pub fn of_process(rt: &HostRuntime) -> FileLimit {
        let most = match fs::read_to_string(rt, "/proc/self/limits") {
            Ok(limits) => most_of(limits.as_str()),
            Err(_) => None,
        };
        FileLimit { most }
    }

    /// Fails as the system would, where a file may not have so many bytes.
    pub fn allows(&self, bytes: u64) -> io::Result<()> {
        match self.most {
            Some(most) if bytes > most => Err(io::Error::from_raw_os_error(TOO_LARGE)),
            _ => Ok(()),
        }
    }
}

// The limit in the system's table, of which each line is a name, the limit, and how far it may be raised.
pub(crate) fn most_of(limits: &str) -> Option<u64> {
    for line in limits.lines() {
        if let Some(words) = line.strip_prefix("Max file size") {
            let word = words.split_whitespace().next()?;
            return word.parse::<u64>().ok();
        }
    }
    None
}

/// A standard stream that is written, which may be a file that the limit holds for.
#[derive(Drop)]
pub struct Limited<'a, K: Write + Drop> {
    rt: &'a HostRuntime,
    limit: FileLimit,
    stream: Stream,
    sink: K,
}

impl<'a, K: Write + Drop> Limited<'a, K> {
    /// The sink that writes this stream, under the limit.
    pub fn new(rt: &'a HostRuntime, limit: FileLimit, stream: Stream, sink: K) -> Limited<'a, K> {
        Limited {
            rt,
            limit,
            stream,
            sink,
        }
    }
}

impl<'a, K: Write + Drop> Write for Limited<'a, K> {
    fn write(&mut self, bytes: &[u8]) -> io::Result<usize> {
        if self.limit.most.is_some() {
            if let Some(place) = self.stream.place(self.rt) {
                self.limit.allows(place.saturating_add(bytes.len() as u64))?;
            }
        }
        self.sink.write(bytes)
    }

    fn flush(&mut self) -> io::Result<()> {
        self.sink.flush()
    }
}
