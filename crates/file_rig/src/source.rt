//! A source of bytes that is a reader. It doesn't tell the bytes that are left.
use crate::again::read_again;
use hx_bytes::Failed;
use line_source::{Line, LineSource};
use sector_disk::Source;
use std::alloc::Global;
use std::io::{self, ErrorKind, Read};

/// The most takes that give bytes.
const MOST_TAKES: u64 = 9_223_372_036_854_775_807;

/// The bytes of a reader, and what failed last.
#[derive(Drop)]
pub struct StdinSource<I: Read + Drop> {
    input: I,
    faults: u64,
    takes: u64,
    failure: Option<io::Error>,
}

impl<I: Read + Drop> StdinSource<I> {
    /// A source at the reader's first byte.
    pub fn new(input: I) -> StdinSource<I> {
        StdinSource {
            input,
            faults: 0,
            takes: MOST_TAKES,
            failure: None,
        }
    }

    /// The last failure.
    pub fn failure(&self) -> Option<io::Error> {
        self.failure
    }
}

impl<I: Read + Drop> Source for StdinSource<I> {
    ghost use Rattle.file_rig.specs.Untold.{untold_source};

    ghost stream = { λ source. untold_source source.faults source.takes };

    ghost enough = { λ source tells. absurd (Prim.cc tells) };

    fn take(&mut self, into: &mut [u8]) -> Result<usize, Failed> {
        if self.takes == 0 {
            self.failure = Some(io::Error::new(ErrorKind::FileTooLarge, "it has too many bytes"));
            self.faults = self.faults.saturating_add(1);
            return Err(Failed);
        }
        match read_again(&mut self.input, into) {
            Ok(count) => {
                if count > 0 {
                    self.takes -= 1;
                }
                Ok(count)
            }
            Err(error) => {
                self.failure = Some(error);
                self.faults = self.faults.saturating_add(1);
                Err(Failed)
            }
        }
    }
}

impl<I: Read + Drop> LineSource for StdinSource<I> {
    // A reader gives bytes alone.
    fn take_lines(&mut self, alloc: Global) -> Result<Vec<Line>, Failed> {
        Ok(Vec::new(alloc))
    }
}
