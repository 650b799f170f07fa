//! The blocks of a journal written home.
ghost use Rattle.std.specs.Prelude.{◌≡◌, ◌≤◌, ◌<◌, ◌+◌, IsTrue, OnOk, List, [], ◌∷◌};
ghost use Rattle.sector_disk.specs.Cause.{HasCause};
ghost use Rattle.sector_disk.specs.Disk.{content, CrashesLeave, SameDisk, SameSink};
ghost use Rattle.jnl_format.specs.Recovery.{with_home, with_homes};
ghost use Rattle.jnl_format.specs.declared.blocks.Home.{Home};
ghost use Rattle.jnl_format.specs.declared.blocks.Volume.{Volume};
ghost use Rattle.jnl_replay.specs.Homing.{AreHomesOf, GrowsHomes, IsHomeMix};
ghost use Rattle.jnl_replay.specs.Text.{words, IsText};

use crate::buffered::BufferedDisk;
use crate::homes::Homes;
use crate::text::{Text, read_text};
use hx_bytes::Failed;
use jnl_format::Home;
use sector_disk::SectorDisk;

/// Writes each block of each list to its sectors, in order. Each sector of a list's header is read once.
pub fn write_homes<D: SectorDisk>(disk: &mut D, text: &Text) -> Result<(), Failed>
    requires text { IsText (D.state disk.old).sectors text.now }
    ensures written { IsTrue (D.state disk.old).tells → (volume : Volume) (homes : List Home) → AreHomesOf (D.state disk.old).sectors text.now (words text.now (content (D.state disk.old))) volume homes
        → OnOk result (content (D.state disk.new) ≡ with_homes (words text.now (content (D.state disk.old))) homes (content (D.state disk.old))) }
    ensures crash { IsTrue (D.state disk.old).tells → (volume : Volume) (homes : List Home) → AreHomesOf (D.state disk.old).sectors text.now (words text.now (content (D.state disk.old))) volume homes
        → CrashesLeave (D.state disk.old) (D.state disk.new) (IsHomeMix (words text.now (content (D.state disk.old))) homes (D.state disk.old).candidates) }
    ensures barriers { (D.state disk.new).barriers ≡ (D.state disk.old).barriers }
    ensures same { SameDisk (D.state disk.old) (D.state disk.new) }
    ensures sink { SameSink (D.state disk.old) (D.state disk.new) }
    ensures cause { HasCause (D.state disk.old).faults (D.state disk.new).faults result }
{
    let mut buffered = BufferedDisk {
        disk,
        last: None,
        before: None,
    };
    write_each(&mut buffered, text)
}

// The same over a disk whose last sectors are at hand.
fn write_each<D: SectorDisk>(disk: &mut D, text: &Text) -> Result<(), Failed>
    requires text { IsText (D.state disk.old).sectors text.now }
    ensures written { IsTrue (D.state disk.old).tells → (volume : Volume) (homes : List Home) → AreHomesOf (D.state disk.old).sectors text.now (words text.now (content (D.state disk.old))) volume homes
        → OnOk result (content (D.state disk.new) ≡ with_homes (words text.now (content (D.state disk.old))) homes (content (D.state disk.old))) }
    ensures crash { IsTrue (D.state disk.old).tells → (volume : Volume) (homes : List Home) → AreHomesOf (D.state disk.old).sectors text.now (words text.now (content (D.state disk.old))) volume homes
        → CrashesLeave (D.state disk.old) (D.state disk.new) (IsHomeMix (words text.now (content (D.state disk.old))) homes (D.state disk.old).candidates) }
    ensures barriers { (D.state disk.new).barriers ≡ (D.state disk.old).barriers }
    ensures same { SameDisk (D.state disk.old) (D.state disk.new) }
    ensures sink { SameSink (D.state disk.old) (D.state disk.new) }
    ensures cause { HasCause (D.state disk.old).faults (D.state disk.new).faults result }
{
    let sectors = disk.sectors();
    let mut homes = Homes::new(text, sectors);
    while let Some(home) = homes.next(disk)? {
        write_home(disk, text, &home)?;
    }
    Ok(())
}

fn write_home<D: SectorDisk>(disk: &mut D, text: &Text, home: &Home) -> Result<(), Failed>
    requires text { IsText (D.state disk.old).sectors text.now }
    requires on_disk { home.now.sector < (D.state disk.old).sectors }
    requires placed { home.now.place + 512 ≤ text.now.length }
    ensures written { IsTrue (D.state disk.old).tells → OnOk result (content (D.state disk.new) ≡ with_home (words text.now (content (D.state disk.old))) (content (D.state disk.old)) home.now) }
    ensures grows { IsTrue (D.state disk.old).tells → GrowsHomes (words text.now (content (D.state disk.old))) (home.now ∷ []) (D.state disk.old).candidates (D.state disk.new).candidates }
    ensures crash { IsTrue (D.state disk.old).tells → CrashesLeave (D.state disk.old) (D.state disk.new) (IsHomeMix (words text.now (content (D.state disk.old))) (home.now ∷ []) (D.state disk.old).candidates) }
    ensures barriers { (D.state disk.new).barriers ≡ (D.state disk.old).barriers }
    ensures same { SameDisk (D.state disk.old) (D.state disk.new) }
    ensures sink { SameSink (D.state disk.old) (D.state disk.new) }
    ensures cause { HasCause (D.state disk.old).faults (D.state disk.new).faults result }
{
    let mut sector = [0; 512];
    read_text(disk, text, home.place, &mut sector)?;
    disk.write(home.sector, &sector)
}
