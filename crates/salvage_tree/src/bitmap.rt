//! A row of bits, of which the first is the highest bit of the first byte.

use std::alloc::{AllocError, Global};

/// Bits that were read. Those behind the last are clear.
#[derive(Drop)]
pub struct Bits {
    bytes: Vec<u8>,
}

impl Bits {
    pub(crate) fn new(alloc: Global) -> Bits {
        Bits {
            bytes: Vec::new(alloc),
        }
    }

    pub(crate) fn append(&mut self, bytes: &[u8]) -> Result<(), AllocError> {
        self.bytes.extend_from_slice(bytes)?;
        Ok(())
    }

    /// How many bits there are.
    pub fn count(&self) -> u64 {
        (self.bytes.len() as u64).saturating_mul(8)
    }

    /// Whether a bit is set.
    pub fn is_set(&self, at: u64) -> bool {
        let Ok(place) = usize::try_from(at / 8) else {
            return false;
        };
        match self.bytes.get(place) {
            Some(byte) => (*byte >> (7 - (at % 8) as u32)) & 1 == 1,
            None => false,
        }
    }

    /// Whether a bit from `from` to before `to` is clear, or isn't there.
    pub fn has_clear(&self, from: u64, to: u64) -> bool {
        if from >= to {
            return false;
        }
        if to > self.count() {
            return true;
        }
        for at in from..to {
            if !self.is_set(at) {
                return true;
            }
        }
        false
    }
}
