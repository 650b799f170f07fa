//! The lines that are told: one for each file, and the counts at the end.

use crate::verdict::Verdict;
use salvage_tree::{ForkKind, push_json, push_shown};
use std::alloc::AllocError;

/// How many files there were of each kind.
#[derive(Clone, Copy)]
pub(crate) struct Counts {
    pub(crate) files: u64,
    pub(crate) whole: u64,
    pub(crate) cut: u64,
    pub(crate) overlaps: u64,
    pub(crate) unsure: u64,
    pub(crate) folders: u64,
    pub(crate) bytes: u64,
    pub(crate) left_out: u64,
}

/// What is told of one file.
#[derive(Clone, Copy)]
pub(crate) struct Told<'a> {
    pub(crate) verdict: Verdict,
    /// The bytes that were read.
    pub(crate) bytes: u64,
    /// The bytes that it has.
    pub(crate) size: u64,
    pub(crate) id: u32,
    pub(crate) kind: ForkKind,
    pub(crate) path: &'a str,
}

/// Standard output, and what was told.
#[derive(Drop)]
pub(crate) struct Report<'a> {
    rt: &'a HostRuntime,
    json: bool,
    pub(crate) counts: Counts,
    /// Whether standard output failed.
    pub(crate) failed: bool,
}

const NONE: Counts = Counts {
    files: 0,
    whole: 0,
    cut: 0,
    overlaps: 0,
    unsure: 0,
    folders: 0,
    bytes: 0,
    left_out: 0,
};

impl Counts {
    fn add(&mut self, verdict: Verdict, bytes: u64) {
        self.files = self.files.saturating_add(1);
        self.bytes = self.bytes.saturating_add(bytes);
        match verdict {
            Verdict::Whole => self.whole = self.whole.saturating_add(1),
            Verdict::Cut => self.cut = self.cut.saturating_add(1),
            Verdict::Overlaps => self.overlaps = self.overlaps.saturating_add(1),
            Verdict::Unsure => self.unsure = self.unsure.saturating_add(1),
        }
    }

    /// Whether every file is whole, and nothing is left out.
    pub(crate) fn are_all_whole(&self) -> bool {
        self.whole == self.files && self.left_out == 0
    }
}

fn fork_word(kind: ForkKind) -> &'static str {
    match kind {
        ForkKind::Data => "data",
        ForkKind::Resource => "resource",
    }
}

impl<'a> Report<'a> {
    pub(crate) fn new(rt: &'a HostRuntime, json: bool) -> Report<'a> {
        Report {
            rt,
            json,
            counts: NONE,
            failed: false,
        }
    }

    fn print(&mut self, line: &str) {
        if !self.failed && println!(self.rt; "{line}").is_err() {
            self.failed = true;
        }
    }

    /// Tells of a file that was saved.
    pub(crate) fn tell(&mut self, told: &Told<'_>) -> Result<(), AllocError> {
        self.counts.add(told.verdict, told.bytes);
        let word = told.verdict.word();
        let Told {
            bytes,
            size,
            id,
            ..
        } = *told;
        let mut line = String::new(self.rt.alloc());
        if self.json {
            let fork = fork_word(told.kind);
            line.push_str(format!(in self.rt.alloc();
                "{{\"file\":\"{word}\",\"bytes\":{bytes},\"size\":{size},\"id\":{id},\"fork\":\"{fork}\",\"path\":"
            )?.as_str())?;
            push_json(&mut line, told.path)?;
            line.push('}')?;
        } else {
            line.push_str(format!(in self.rt.alloc(); "{word} {bytes} {size} ")?.as_str())?;
            push_shown(&mut line, told.path)?;
        }
        self.print(line.as_str());
        Ok(())
    }

    /// Tells the counts.
    pub(crate) fn tell_counts(&mut self) -> Result<(), AllocError> {
        let Counts {
            files,
            whole,
            cut,
            overlaps,
            unsure,
            folders,
            bytes,
            left_out,
        } = self.counts;
        let line = if self.json {
            format!(in self.rt.alloc();
                "{{\"files\":{files},\"whole\":{whole},\"cut\":{cut},\"overlaps\":{overlaps},\"unsure\":{unsure},\"folders\":{folders},\"bytes\":{bytes},\"left_out\":{left_out}}}"
            )?
        } else {
            format!(in self.rt.alloc();
                "salvaged files {files} whole {whole} cut {cut} overlaps {overlaps} unsure {unsure} folders {folders} bytes {bytes} left-out {left_out}"
            )?
        };
        self.print(line.as_str());
        Ok(())
    }

    /// Tells on standard error what is left out, and why.
    pub(crate) fn leave_out(&mut self, path: &str, why: &str) {
        self.counts.left_out = self.counts.left_out.saturating_add(1);
        let _ = eprintln!(self.rt; "hfsx-files: left out: {path:?}: {why}");
    }
}
