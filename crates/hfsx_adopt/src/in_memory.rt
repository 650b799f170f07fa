//! An image of which what is written stays in memory.

use file_rig::{Act, Failure, Image, Place};
use hx_bytes::Sector;
use std::alloc::{AllocError, Global};
use std::collections::BTreeMap;
use std::io::{self, ErrorKind};

/// The sectors of an image that is only read, and those that were written, which stand in memory in their place.
#[derive(Drop)]
pub struct InMemory<'a> {
    image: Image<'a>,
    /// Where the value of each sector that was written stands.
    places: BTreeMap<u64, usize>,
    values: Vec<Sector>,
}

impl<'a> InMemory<'a> {
    /// The image as it is.
    pub fn new(alloc: Global, image: Image<'a>) -> InMemory<'a> {
        InMemory {
            image,
            places: BTreeMap::new(alloc),
            values: Vec::new(alloc),
        }
    }

    // What was written to a sector.
    fn written(&self, at: u64) -> Option<&Sector> {
        match self.places.get(&at) {
            Some(place) => self.values.get(*place),
            None => None,
        }
    }

    // Keeps what is written to a sector.
    fn keep(&mut self, at: u64, value: &Sector) -> Result<(), AllocError> {
        if let Some(place) = self.places.get(&at) {
            if let Some(kept) = self.values.get_mut(*place) {
                *kept = *value;
            }
            return Ok(());
        }
        let place = self.values.len();
        self.values.push(*value)?;
        self.places.insert(at, place)?;
        Ok(())
    }
}

impl<'a> Place for InMemory<'a> {
    ghost use Rattle.file_rig.specs.Untold.{untold_place};

    ghost state = { λ _. untold_place };

    fn read_run(&mut self, first: u64, into: &mut [Sector]) -> Result<(), Failure> {
        self.image.read_run(first, into)?;
        if self.values.is_empty() {
            return Ok(());
        }
        for k in 0..into.len() {
            if let Some(value) = self.written(first.saturating_add(k as u64)) {
                into[k] = *value;
            }
        }
        Ok(())
    }

    fn write_run(&mut self, first: u64, run: &[Sector]) -> Result<(), Failure> {
        for k in 0..run.len() {
            let at = first.saturating_add(k as u64);
            if let Err(AllocError) = self.keep(at, &run[k]) {
                let count = run.len() as u64;
                let error = io::Error::from(ErrorKind::OutOfMemory);
                return Err(Act::Writing { first, count }.failed(error));
            }
        }
        Ok(())
    }

    fn flush(&mut self) -> Result<(), Failure> {
        Ok(())
    }
}
