//! The calls of a space that is only read.

ghost use Rattle.std.specs.Prelude.{◌≡◌, ◌<◌, IsTrue, OnOk};
ghost use Rattle.sector_disk.specs.Cause.{HasCause};
ghost use Rattle.sector_disk.specs.Disk.{OnlyReads, content};
ghost use Rattle.sector_disk.specs.Lists.{sector};
ghost use Rattle.jnl_replay.specs.Viewing.{shown};
ghost use Rattle.volume_look.specs.Slots.{AreCopies};

use crate::read_only::ReadOnly;
use crate::slots::{Copied, is_put, keep, read_put, recall};
use hx_bytes::{Failed, Sector};
use jnl_replay::Peek;
use sector_disk::{SectorDisk, SectorSpace, SectorView};

impl<D: SectorDisk> SectorView for ReadOnly<'_, '_, '_, D> {
    ghost use Rattle.std.specs.Prelude.{◌∷◌, []};
    ghost use Rattle.jnl_replay.specs.Viewing.{view_of, view_size};
    ghost use Rattle.volume_look.specs.Slots.{with_put, put_size};
    ghost use Rattle.jnl_replay.specs.Peeked.{PeeksOn, peeks_none, peeks_both};

    ghost space = { λ s. with_put s.put (view_of (s.disk.ghost_name ∷ []) s.peek.now (D.state s.disk.now)) };

    ghost follows = { λ a b. PeeksOn a.peek.now b.peek.now (D.state a.disk.now) (D.state b.disk.now) };

    ghost follows_refl = { λ view. peeks_none view.peek.now (D.state view.disk.now) };

    ghost follows_trans = { λ a b c first second. peeks_both a.peek.now b.peek.now c.peek.now (D.state a.disk.now) (D.state b.disk.now) (D.state c.disk.now) first second };

    ghost well_formed = { λ view tells. put_size view.put (view_of (view.disk.ghost_name ∷ []) view.peek.now (D.state view.disk.now)) (view_size (view.disk.ghost_name ∷ []) view.peek.now (D.state view.disk.now) (D.well_formed view.disk.now) tells) };

    fn sectors(&self) -> u64 {
        self.disk.sectors()
    }

    fn get(&mut self, at: u64, into: &mut Sector) -> Result<(), Failed> {
        if read_put(&self.put, at, into) {
            return Ok(());
        }
        fetch(self.peek, self.disk, self.slots, at, into)
    }
}

impl<D: SectorDisk> SectorSpace for ReadOnly<'_, '_, '_, D> {
    fn spare(&self) -> u64 {
        match self.put {
            None => 1,
            Some(_) => 0,
        }
    }

    fn is_put(&self, at: u64) -> bool {
        is_put(&self.put, at)
    }

    /// It stays in memory.
    fn put(&mut self, at: u64, from: &Sector) {
        self.put = Some(Copied { at, bytes: *from });
    }

    /// It fails.
    fn spill(&mut self, _at: u64, _from: &Sector) -> Result<(), Failed> {
        Err(self.disk.fail())
    }

    fn fail(&mut self) -> Failed {
        self.disk.fail()
    }
}

// Reads a sector from its slot, or else through the peek, and keeps it.
fn fetch<D: SectorDisk>(
    peek: &Peek,
    disk: &mut D,
    slots: &mut [Option<Copied>],
    at: u64,
    into: &mut Sector,
) -> Result<(), Failed>
    requires inside { at < (D.state disk.old).sectors }
    requires fresh { IsTrue (D.state disk.old).tells → AreCopies (shown peek.now (D.state disk.old).sectors (content (D.state disk.old))) slots.old }
    ensures value { IsTrue (D.state disk.old).tells → OnOk result (into.new ≡ sector (shown peek.now (D.state disk.old).sectors (content (D.state disk.old))) at) }
    ensures fresh { IsTrue (D.state disk.old).tells → AreCopies (shown peek.now (D.state disk.new).sectors (content (D.state disk.new))) slots.new }
    ensures reads { OnlyReads (D.state disk.old) (D.state disk.new) }
    ensures cause { HasCause (D.state disk.old).faults (D.state disk.new).faults result }
{
    if let Some(bytes) = recall(slots, at) {
        *into = *bytes;
        return Ok(());
    }
    peek.read(disk, at, into)?;
    keep(slots, at, into);
    Ok(())
}
