//! Streams that answer at once where they have nothing to give or no room, and are waited for.
ghost use Rattle.std.specs.Io.{ReadsAtMost, WritesAtMost};

use std::io::{self, ErrorKind, Read, Write};
use std::thread;
use std::time::{Clock, Duration};

/// The first pause before a stream is asked again, in microseconds, and the longest.
const FIRST_PAUSE: u64 = 50;

const LONGEST_PAUSE: u64 = 10_000;

/// A stream that is asked again, after a pause, where it would block. So it is as one that blocks.
#[derive(Drop)]
pub struct Waiting<'a, C: Clock, T: Drop> {
    clock: &'a C,
    stream: T,
}

impl<'a, C: Clock, T: Drop> Waiting<'a, C, T> {
    /// The stream, with the clock by which it is waited for.
    pub fn new(clock: &'a C, stream: T) -> Waiting<'a, C, T> {
        Waiting { clock, stream }
    }
}

impl<'a, C: Clock, I: Read + Drop> Read for Waiting<'a, C, I> {
    fn read(&mut self, into: &mut [u8]) -> io::Result<usize> {
        let mut pause = FIRST_PAUSE;
        for _ in 0..u64::MAX {
            match self.stream.read(into) {
                Ok(count) => return Ok(count),
                Err(error) => {
                    if error.kind() != ErrorKind::WouldBlock {
                        return Err(error);
                    }
                }
            }
            pause = wait(self.clock, pause);
        }
        Err(io::Error::from(ErrorKind::WouldBlock))
    }
}

impl<'a, C: Clock, K: Write + Drop> Write for Waiting<'a, C, K> {
    fn write(&mut self, bytes: &[u8]) -> io::Result<usize> {
        let mut pause = FIRST_PAUSE;
        for _ in 0..u64::MAX {
            match self.stream.write(bytes) {
                Ok(count) => return Ok(count),
                Err(error) => {
                    if error.kind() != ErrorKind::WouldBlock {
                        return Err(error);
                    }
                }
            }
            pause = wait(self.clock, pause);
        }
        Err(io::Error::from(ErrorKind::WouldBlock))
    }

    fn flush(&mut self) -> io::Result<()> {
        self.stream.flush()
    }
}

// Waits so many microseconds, and gives the next pause.
fn wait<C: Clock>(clock: &C, pause: u64) -> u64 {
    thread::sleep(clock, Duration::from_micros(pause));
    pause.saturating_mul(2).min(LONGEST_PAUSE)
}
