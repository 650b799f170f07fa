//! What a user is told on standard error: entries that are left out, with the reason, and on a terminal how far the work is.
use std::fmt::Display;
use std::io::{IsTerminal, Write};
use std::time::{Duration, Instant};

/// The milliseconds between two lines of progress.
const STEP: u64 = 200;

/// What was put or got.
#[derive(Clone, Copy, Debug, PartialEq, Eq)]
pub struct Counts {
    pub files: u64,
    pub folders: u64,
    pub links: u64,
    pub bytes: u64,
}

impl Counts {
    /// Nothing yet.
    pub fn new() -> Counts {
        Counts {
            files: 0,
            folders: 0,
            links: 0,
            bytes: 0,
        }
    }
}

/// The notes of one run.
#[derive(Drop)]
pub struct Notes<'a> {
    rt: &'a HostRuntime,
    verb: &'static str,
    pub counts: Counts,
    /// The entries that were left out.
    pub left_out: u64,
    /// The entries that were kept, but not as they are.
    pub doubtful: u64,
    verbose: bool,
    terminal: bool,
    begun: Option<Instant>,
    told: Duration,
    shown: bool,
}

impl<'a> Notes<'a> {
    /// Nothing was told yet. The verb is what was done to the files that are counted, as `put` or `got`.
    pub fn new(rt: &'a HostRuntime, verb: &'static str, verbose: bool) -> Notes<'a> {
        Notes {
            rt,
            verb,
            counts: Counts::new(),
            left_out: 0,
            doubtful: 0,
            verbose,
            terminal: rt.stderr().is_terminal(),
            begun: Instant::now(rt).ok(),
            told: Duration::from_millis(0),
            shown: false,
        }
    }

    /// The runtime.
    pub fn rt(&self) -> &'a HostRuntime {
        self.rt
    }

    /// Tells that an entry is left out, and counts it.
    pub fn leave_out<W: Display + Drop>(&mut self, path: &str, why: W) {
        self.left_out = self.left_out.saturating_add(1);
        self.clear();
        let _ = eprintln!(self.rt; "hfsx-files: left out: {path:?}: {why}");
    }

    /// Tells something of an entry that is kept.
    pub fn remark<W: Display + Drop>(&mut self, path: &str, what: W) {
        self.clear();
        let _ = eprintln!(self.rt; "hfsx-files: note: {path:?}: {what}");
    }

    /// Tells that an entry is kept, though not surely as it is, and counts it.
    pub fn doubt<W: Display + Drop>(&mut self, path: &str, what: W) {
        self.doubtful = self.doubtful.saturating_add(1);
        self.remark(path, what);
    }

    /// Tells what failed.
    pub fn fail<W: Display + Drop>(&mut self, path: &str, why: W) {
        self.clear();
        let _ = eprintln!(self.rt; "hfsx-files: {path}: {why}");
    }

    /// Tells an entry's path, where each is to be told.
    pub fn name(&mut self, path: &str) {
        if self.verbose {
            self.clear();
            let _ = eprintln!(self.rt; "{path}");
        }
    }

    /// Tells how far the work is, at most five times a second, on a terminal alone.
    pub fn progress(&mut self) {
        if !self.terminal {
            return;
        }
        let Some(begun) = self.begun else {
            return;
        };
        let Ok(passed) = begun.elapsed(self.rt) else {
            return;
        };
        if passed < self.told.saturating_add(Duration::from_millis(STEP)) {
            return;
        }
        self.told = passed;
        self.shown = true;
        let verb = self.verb;
        let files = self.counts.files;
        let megabytes = self.counts.bytes / 1_000_000;
        let rate = rate_of(self.counts.bytes, passed.as_millis());
        let _ = eprint!(self.rt; "\r{verb} {files} files, {megabytes} MB, {rate} MB/s\x1b[K");
    }

    // Takes a line of progress away.
    fn clear(&mut self) {
        if self.shown {
            self.shown = false;
            let _ = eprint!(self.rt; "\r\x1b[K");
        }
    }

    /// Takes the last line of progress away, and tells the sum on standard output. False means that this failed.
    pub fn sum(&mut self) -> bool {
        self.clear();
        let verb = self.verb;
        let Counts {
            files,
            folders,
            links,
            bytes,
        } = self.counts;
        let left_out = self.left_out;
        println!(self.rt;
            "{verb} files {files} folders {folders} links {links} bytes {bytes} left-out {left_out}"
        ).is_ok()
    }

    /// Takes the last line of progress away.
    pub fn end(&mut self) {
        self.clear();
    }

    /// Whether anything was left out or kept in doubt.
    pub fn has_lacks(&self) -> bool {
        self.left_out > 0 || self.doubtful > 0
    }
}

// The megabytes a second.
fn rate_of(bytes: u64, milliseconds: u128) -> u128 {
    u128::from(bytes / 1000) / milliseconds.max(1)
}
