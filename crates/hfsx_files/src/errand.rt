//! The one job of a run, so that the server is compiled once, and what the server tells before it takes a line.
use file_rig::Waiting;
use files_in::{ArchiveIn, FolderIn};
use files_talk::{Job, LineList};
use std::alloc::{AllocError, Global};
use std::rt::Stdin;

/// The most bytes that are kept of what the server tells unasked.
const MOST_UNASKED: usize = 4_096;

/// What is done.
#[derive(Drop)]
pub(crate) enum Task<'a> {
    /// Nothing: a volume is made, or looked at.
    Make,
    Folder(FolderIn<'a>),
    Archive(ArchiveIn<'a, Waiting<'a, HostRuntime, Stdin>>),
}

/// A task, and what the server told before it took a line.
#[derive(Drop)]
pub(crate) struct Errand<'a> {
    pub(crate) task: Task<'a>,
    has_begun: bool,
    pub(crate) unasked: Vec<u8>,
}

impl<'a> Errand<'a> {
    /// Nothing was asked and told yet.
    pub(crate) fn new(alloc: Global, task: Task<'a>) -> Errand<'a> {
        Errand {
            task,
            has_begun: false,
            unasked: Vec::new(alloc),
        }
    }
}

impl<'a> Job for Errand<'a> {
    fn ask(&mut self, lines: &mut LineList) -> Result<(), AllocError> {
        self.has_begun = true;
        match &mut self.task {
            Task::Make => Ok(()),
            Task::Folder(job) => job.ask(lines),
            Task::Archive(job) => job.ask(lines),
        }
    }

    fn hear(&mut self, reply: &[u8]) -> Result<(), AllocError> {
        if !self.has_begun {
            if self.unasked.len() < MOST_UNASKED {
                self.unasked.extend_from_slice(reply)?;
                self.unasked.push(b'\n')?;
            }
            return Ok(());
        }
        match &mut self.task {
            Task::Make => Ok(()),
            Task::Folder(job) => job.hear(reply),
            Task::Archive(job) => job.hear(reply),
        }
    }
}
