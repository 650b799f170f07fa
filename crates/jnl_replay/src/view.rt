//! A view of what a volume stands for.
ghost use Rattle.std.specs.Prelude.{◌≡◌, ◌+◌, ◌≤◌, ◌<◌, IsTrue, IfSome, OnOk, None, if◌then◌else◌, ◌==◌};
ghost use Rattle.sector_disk.specs.Cause.{HasCause};
ghost use Rattle.sector_disk.specs.Disk.{content};
ghost use Rattle.sector_disk.specs.Lists.{sector};
ghost use Rattle.jnl_replay.specs.Peeking.{place_in};
ghost use Rattle.sector_disk.specs.Disk.{OnlyReads};
ghost use Rattle.jnl_replay.specs.Viewing.{shown};

use crate::index::Peek;
use crate::text::read_text;
use hx_bytes::{Failed, Sector};
use sector_disk::{SectorDisk, SectorView};

/// What a disk stands for, by a peek that was made of it. The disk must read as it did then, and isn't
/// written.
#[derive(Drop)]
pub struct PeekView<'a, 'b, D: SectorDisk> {
    pub peek: &'a Peek,
    pub disk: &'b mut D,
}

impl Peek {
    // The place of a sector's bytes in the text, on a disk of so many sectors.
    fn place_of(&self, at: u64, sectors: u64) -> Option<u64>
        ensures place { result ≡ (if sectors == self.now.sectors then place_in self.now at else None) }
        ensures placed { IfSome result (λ place. place + 512 ≤ self.now.text.length) }
    {
        if sectors != self.sectors {
            return None;
        }
        self.index.find(at)
    }

    /// Reads a sector of what a disk stands for, of which the peek was made. It writes nothing.
    pub fn read<D: SectorDisk>(
        &self,
        disk: &mut D,
        at: u64,
        into: &mut Sector,
    ) -> Result<(), Failed>
        requires { at < (D.state disk.old).sectors }
        ensures value { IsTrue (D.state disk.old).tells → OnOk result (into.new ≡ sector (shown self.now (D.state disk.old).sectors (content (D.state disk.old))) at) }
        ensures reads { OnlyReads (D.state disk.old) (D.state disk.new) }
        ensures cause { HasCause (D.state disk.old).faults (D.state disk.new).faults result }
    {
        let sectors = disk.sectors();
        match self.place_of(at, sectors) {
            Some(place) => read_text(disk, &self.text, place, into),
            None => disk.read(at, into),
        }
    }
}

impl<D: SectorDisk> SectorView for PeekView<'_, '_, D> {
    ghost use Rattle.std.specs.Prelude.{◌∷◌, []};
    ghost use Rattle.jnl_replay.specs.Viewing.{view_of, view_size};
    ghost use Rattle.jnl_replay.specs.Peeked.{PeeksOn, peeks_none, peeks_both};

    ghost space = { λ s. view_of (s.disk.ghost_name ∷ []) s.peek.now (D.state s.disk.now) };

    ghost follows = { λ a b. PeeksOn a.peek.now b.peek.now (D.state a.disk.now) (D.state b.disk.now) };

    ghost follows_refl = { λ view. peeks_none view.peek.now (D.state view.disk.now) };

    ghost follows_trans = { λ a b c first second. peeks_both a.peek.now b.peek.now c.peek.now (D.state a.disk.now) (D.state b.disk.now) (D.state c.disk.now) first second };

    ghost well_formed = { λ view tells. view_size (view.disk.ghost_name ∷ []) view.peek.now (D.state view.disk.now) (D.well_formed view.disk.now) tells };

    fn sectors(&self) -> u64 {
        self.disk.sectors()
    }

    fn get(&mut self, at: u64, into: &mut Sector) -> Result<(), Failed> {
        self.peek.read(self.disk, at, into)
    }
}
