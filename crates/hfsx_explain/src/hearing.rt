//! What the check tells, kept instead of printed.

use std::cell::RefCell;
use std::io::{self, ErrorKind, Write};

/// A sink that keeps what is told.
#[derive(Drop)]
pub(crate) struct Ear<'a>(pub(crate) &'a RefCell<Vec<u8>>);

impl<'a> Write for Ear<'a> {
    fn write(&mut self, buf: &[u8]) -> io::Result<usize> {
        match self.0.try_borrow_mut() {
            Ok(mut kept) => {
                if kept.extend_from_slice(buf).is_err() {
                    return Err(io::Error::from(ErrorKind::OutOfMemory));
                }
                Ok(buf.len())
            }
            Err(_) => Err(io::Error::new(ErrorKind::Other, "the sink is in use")),
        }
    }

    fn flush(&mut self) -> io::Result<()> {
        Ok(())
    }
}
