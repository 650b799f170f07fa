//! The two ends of a run: a source of the lines that a job asks, and a writer that gives the job their replies.
//!
//! Both lend one job to each other by a cell, on one thread: the server tells the replies of all lines that it took before it
//! takes more, so the source asks for the next lines when the job has heard of those before.
ghost use Rattle.std.specs.Prelude.{◌≤◌, length, IfOk};
ghost use Rattle.line_source.specs.Handed.{AreLines, bytes_of};

use crate::list::LineList;
use hx_bytes::Failed;
use line_source::{Line, LineSource};
use memchr::memchr;
use sector_disk::Source;
use std::alloc::{AllocError, Global};
use std::cell::RefCell;
use std::io::{self, ErrorKind, Write};

/// The most times that lines are handed over.
const MOST_TAKES: u64 = 9_223_372_036_854_775_807;

/// Something that asks lines and hears replies.
pub trait Job {
    /// Adds the next lines. None is the end.
    fn ask(&mut self, lines: &mut LineList) -> Result<(), AllocError>;

    /// Hears the reply to the first line that has none yet, without its newline.
    fn hear(&mut self, reply: &[u8]) -> Result<(), AllocError>;
}

/// A job, the lines that it asked and that weren't taken, and the front of a reply.
#[derive(Drop)]
pub struct Talk<J: Job + Drop> {
    job: J,
    lines: LineList,
    reply: Vec<u8>,
}

impl<J: Job + Drop> Talk<J> {
    /// Nothing was asked yet. The lists are those in which lines and replies are kept.
    pub fn new(job: J, lines: LineList, reply: Vec<u8>) -> RefCell<Talk<J>> {
        RefCell::new(Talk { job, lines, reply })
    }

    /// The job.
    pub fn job(&mut self) -> &mut J {
        &mut self.job
    }

    // Gives the next lines, for which the job is asked once those before were given.
    fn give(&mut self) -> Result<Vec<Line>, Failed>
        ensures { IfOk result (λ lines. AreLines lines.items × (length (bytes_of lines.items) ≤ 4194304)) }
    {
        if self.lines.is_empty() {
            match self.job.ask(&mut self.lines) {
                Ok(()) => {}
                Err(AllocError) => return Err(Failed),
            }
        }
        self.lines.hand_over()
    }

    // Takes bytes of replies.
    fn take(&mut self, bytes: &[u8]) -> Result<(), AllocError> {
        let mut rest = bytes;
        for _ in 0..bytes.len() {
            match first_line(rest) {
                Some((line, behind)) => {
                    self.end_reply(line)?;
                    rest = behind;
                }
                None => break,
            }
        }
        self.reply.extend_from_slice(rest)
    }

    // Takes the last bytes of a reply.
    fn end_reply(&mut self, end: &[u8]) -> Result<(), AllocError> {
        if self.reply.is_empty() {
            return self.job.hear(end);
        }
        self.reply.extend_from_slice(end)?;
        self.job.hear(self.reply.as_slice())?;
        self.reply.clear();
        Ok(())
    }
}

// The bytes before the first newline, and those behind it.
fn first_line(bytes: &[u8]) -> Option<(&[u8], &[u8])> {
    let at = memchr(b'\n', bytes)?;
    Some((&bytes[..at], &bytes[at + 1..]))
}

/// The lines of a job.
#[derive(Drop)]
pub struct Lines<'a, J: Job + Drop> {
    talk: &'a RefCell<Talk<J>>,
    faults: u64,
    takes: u64,
}

impl<'a, J: Job + Drop> Lines<'a, J> {
    /// No line was handed over yet.
    pub fn new(talk: &'a RefCell<Talk<J>>) -> Lines<'a, J> {
        Lines {
            talk,
            faults: 0,
            takes: MOST_TAKES,
        }
    }
}

// The next lines of a job.
fn lines_of<J: Job + Drop>(talk: &RefCell<Talk<J>>) -> Result<Vec<Line>, Failed>
    ensures { IfOk result (λ lines. AreLines lines.items × (length (bytes_of lines.items) ≤ 4194304)) }
{
    match talk.try_borrow_mut() {
        Ok(mut talk) => talk.give(),
        Err(_) => Err(Failed),
    }
}

/// The ear of a job.
#[derive(Drop)]
pub struct Replies<'a, J: Job + Drop>(pub &'a RefCell<Talk<J>>);

fn in_use() -> io::Error {
    io::Error::new(ErrorKind::Other, "the job is in use")
}

fn no_memory() -> io::Error {
    io::Error::from(ErrorKind::OutOfMemory)
}

impl<'a, J: Job + Drop> Source for Lines<'a, J> {
    ghost use Rattle.files_talk.specs.Untold.{untold_source};

    ghost stream = { λ source. untold_source source.faults source.takes };

    ghost enough = { λ source tells. absurd (Prim.cc tells) };

    // All that it has are lines: where none was handed over there is no byte.
    fn take(&mut self, _into: &mut [u8]) -> Result<usize, Failed> {
        Ok(0)
    }
}

impl<'a, J: Job + Drop> LineSource for Lines<'a, J> {
    fn take_lines(&mut self, _alloc: Global) -> Result<Vec<Line>, Failed> {
        if self.takes == 0 {
            self.faults = self.faults.saturating_add(1);
            return Err(Failed);
        }
        match lines_of(self.talk) {
            Ok(lines) => {
                self.takes -= 1;
                Ok(lines)
            }
            Err(Failed) => {
                self.faults = self.faults.saturating_add(1);
                Err(Failed)
            }
        }
    }
}

impl<'a, J: Job + Drop> Write for Replies<'a, J> {
    fn write(&mut self, buf: &[u8]) -> io::Result<usize> {
        match self.0.try_borrow_mut() {
            Ok(mut talk) => match talk.take(buf) {
                Ok(()) => Ok(buf.len()),
                Err(AllocError) => Err(no_memory()),
            },
            Err(_) => Err(in_use()),
        }
    }

    fn flush(&mut self) -> io::Result<()> {
        Ok(())
    }
}
