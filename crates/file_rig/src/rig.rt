//! A disk that is a place, with a writer as its sink. It tells no content.
use crate::again::write_again;
use crate::failure::Failure;
use crate::place::Place;
use crate::store::Store;
use hx_bytes::{Failed, Sector};
use sector_disk::{Rig, SectorDisk};
use std::io::{self, ErrorKind, Write};

/// The sectors of a place, a sink, and what failed last of each.
#[derive(Drop)]
pub struct FileRig<P: Place + Drop, K: Write + Drop> {
    store: Store<P>,
    sink: K,
    faults: u64,
    sink_faults: u64,
    barriers: u64,
    failure: Option<Failure>,
    sink_failure: Option<io::Error>,
}

impl<P: Place + Drop, K: Write + Drop> FileRig<P, K> {
    /// Nothing was read, written or told yet.
    pub fn new(store: Store<P>, sink: K) -> FileRig<P, K> {
        FileRig {
            store,
            sink,
            faults: 0,
            sink_faults: 0,
            barriers: 0,
            failure: None,
            sink_failure: None,
        }
    }

    /// The last failure of the place.
    pub fn failure(&self) -> Option<Failure> {
        self.failure
    }

    /// The last failure of the sink.
    pub fn sink_failure(&self) -> Option<io::Error> {
        self.sink_failure
    }
}

impl<P: Place + Drop, K: Write + Drop> SectorDisk for FileRig<P, K> {
    ghost use Rattle.file_rig.specs.Untold.{untold, untold_is_disk};

    ghost state = { λ rig. untold rig.store.sectors rig.faults rig.sink_faults rig.barriers };

    ghost well_formed = { λ rig. untold_is_disk rig.store.sectors rig.faults rig.sink_faults rig.barriers };

    ghost only_now = { λ rig image told left. absurd left };

    ghost counts_now = { λ rig t image tells. absurd (Prim.cc tells) };

    fn sectors(&self) -> u64 {
        self.store.sectors()
    }

    fn read(&mut self, at: u64, into: &mut Sector) -> Result<(), Failed> {
        match self.store.read(at, into) {
            Ok(()) => Ok(()),
            Err(failure) => {
                self.failure = Some(failure);
                self.faults = self.faults.saturating_add(1);
                Err(Failed)
            }
        }
    }

    fn write(&mut self, at: u64, from: &Sector) -> Result<(), Failed> {
        match self.store.write(at, from) {
            Ok(()) => Ok(()),
            Err(failure) => {
                self.failure = Some(failure);
                self.faults = self.faults.saturating_add(1);
                Err(Failed)
            }
        }
    }

    fn barrier(&mut self) -> Result<(), Failed> {
        match self.store.flush() {
            Ok(()) => {
                self.barriers = self.barriers.saturating_add(1);
                Ok(())
            }
            Err(failure) => {
                self.failure = Some(failure);
                self.faults = self.faults.saturating_add(1);
                Err(Failed)
            }
        }
    }

    fn fail(&mut self) -> Failed {
        self.faults = self.faults.saturating_add(1);
        Failed
    }
}

impl<P: Place + Drop, K: Write + Drop> Rig for FileRig<P, K> {
    fn tell(&mut self, bytes: &[u8]) -> Result<usize, Failed> {
        match write_again(&mut self.sink, bytes) {
            Ok(count) => {
                if count == 0 && !bytes.is_empty() {
                    self.sink_failure = Some(io::Error::new(
                        ErrorKind::WriteZero,
                        "it takes no more",
                    ));
                    self.sink_faults = self.sink_faults.saturating_add(1);
                }
                Ok(count)
            }
            Err(error) => {
                self.sink_failure = Some(error);
                self.sink_faults = self.sink_faults.saturating_add(1);
                Err(Failed)
            }
        }
    }
}
