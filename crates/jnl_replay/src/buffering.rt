//! The calls of a disk with the two sectors that were read last.
ghost use Rattle.std.specs.Prelude.{◌≡◌, ◌<◌, IsTrue, OnOk, IfSome};
ghost use Rattle.sector_disk.specs.Cause.{HasCause};
ghost use Rattle.sector_disk.specs.Disk.{OnlyReads, content};
ghost use Rattle.sector_disk.specs.Lists.{Content, sector};
ghost use Rattle.jnl_replay.specs.Buffered.{IsCopy, IsCopyOfOther};

use crate::buffered::{BufferedDisk, Copied};
use hx_bytes::{Failed, Sector};
use sector_disk::SectorDisk;

impl<D: SectorDisk> SectorDisk for BufferedDisk<'_, D> {
    ghost use Rattle.jnl_replay.specs.Buffered.{behind, behind_is_disk};

    ghost state = { λ buffered. behind buffered.disk.ghost_name (D.state buffered.disk.now) };

    ghost well_formed = { λ buffered. behind_is_disk buffered.disk.ghost_name (D.state buffered.disk.now) (D.well_formed buffered.disk.now) };

    ghost only_now = { λ buffered. D.only_now buffered.disk.now };

    ghost counts_now = { λ buffered. D.counts_now buffered.disk.now };

    fn sectors(&self) -> u64 {
        self.disk.sectors()
    }

    fn read(&mut self, at: u64, into: &mut Sector) -> Result<(), Failed> {
        fetch(self.disk, &self.last, &self.before, at, into)?;
        if is_of(&self.last, at) {
            return Ok(());
        }
        self.before = self.last;
        self.last = Some(Copied { at, bytes: *into });
        Ok(())
    }

    fn write(&mut self, at: u64, from: &Sector) -> Result<(), Failed> {
        self.last = unless_of(self.last, at);
        self.before = unless_of(self.before, at);
        self.disk.write(at, from)
    }

    fn barrier(&mut self) -> Result<(), Failed> {
        self.disk.barrier()
    }

    fn fail(&mut self) -> Failed {
        self.disk.fail()
    }
}

// Reads a sector, without the disk where it is one of these.
fn fetch<D: SectorDisk>(
    disk: &mut D,
    last: &Option<Copied>,
    before: &Option<Copied>,
    at: u64,
    into: &mut Sector,
) -> Result<(), Failed>
    requires inside { at < (D.state disk.old).sectors }
    requires fresh { IsTrue (D.state disk.old).tells → IsCopy (content (D.state disk.old)) last.now × IsCopy (content (D.state disk.old)) before.now }
    ensures value { IsTrue (D.state disk.old).tells → OnOk result (into.new ≡ sector (content (D.state disk.old)) at) }
    ensures reads { OnlyReads (D.state disk.old) (D.state disk.new) }
    ensures cause { HasCause (D.state disk.old).faults (D.state disk.new).faults result }
{
    if let Some(bytes) = bytes_of(last, at) {
        *into = bytes;
        return Ok(());
    }
    if let Some(bytes) = bytes_of(before, at) {
        *into = bytes;
        return Ok(());
    }
    disk.read(at, into)
}

// The bytes, where they are this sector's.
fn bytes_of(copied: &Option<Copied>, at: u64) -> Option<Sector>
    ensures { (content : Content) → IsCopy content copied.now → IfSome result (λ bytes. bytes ≡ sector content at) }
{
    match copied {
        Some(copied) => {
            if copied.at == at {
                Some(copied.bytes)
            } else {
                None
            }
        }
        None => None,
    }
}

fn is_of(copied: &Option<Copied>, at: u64) -> bool {
    match copied {
        Some(copied) => copied.at == at,
        None => false,
    }
}

// Nothing, where they are this sector's.
fn unless_of(copied: Option<Copied>, at: u64) -> Option<Copied>
    ensures { (content : Content) → IsCopy content copied → IsCopyOfOther at content result }
{
    match copied {
        Some(copied) => { if copied.at == at { None } else { Some(copied) } }
        None => None,
    }
}
