//! A bitmap read from its file.
ghost use Rattle.std.specs.Prelude.{◌≡◌, ◌≤◌, ◌<◌, ◌+◌, ◌*◌, ◌/◌, ◌^◌, ℕ, false, IsTrue, length, slice_get, slice_index_or, OnOk, IfOk, OnErr, [], ◌++◌};
ghost use Rattle.std.specs.Result.{IsErrOf};
ghost use Rattle.hx_bytes.specs.declared.faults.Trouble.TheVariants.{Disk};
ghost use Rattle.sector_disk.specs.Cause.{Rose, HasCause};
ghost use Rattle.sector_disk.specs.Clock.{TimePasses};
ghost use Rattle.sector_disk.specs.Space.{SameSpace, SameRoom, SameSectors, LeavesDurable};
ghost use Rattle.flag_rows.specs.Bits.{bit_of, sectors_for};
ghost use Rattle.alloc_bitmap.specs.Fork.{fork_bit, HoldsBits, sector_or_none};
ghost use Rattle.fork_map.specs.Blocks.{fork_sectors};
ghost use Rattle.alloc_bitmap.specs.Map.{BlockMap, none};

use crate::Bitmap;
use flag_rows::Bits;
use fork_map::{ExtentList, SummedFork};
use hx_bytes::{Failed, OutOfMemory, Sector, Trouble};
use sector_disk::SectorView;
use std::alloc::Global;

/// Reads the sector at a place of a fork: zeros where the fork has no such sector, or the view.
fn read_sector<V: SectorView>(
    view: &mut V,
    fork: &SummedFork,
    per_block: u32,
    place: u64,
    into: &mut Sector,
) -> Result<(), Failed>
    requires { per_block ≤ 2 ^ 23 }
    ensures value { IsTrue (V.space view.old).tells → OnOk result ((k : ℕ) → k < 4096 → bit_of into.new k ≡ bit_of (sector_or_none (V.space view.old).content (slice_get (fork_sectors fork.now per_block) place)) k) }
    ensures sectors { IsTrue (V.space view.old).tells → SameSectors (V.space view.old) (V.space view.new) }
    ensures time { IsTrue (V.space view.old).tells → TimePasses (V.space view.old).clock (V.space view.new).clock (LeavesDurable (V.space view.new)) }
    ensures room { SameRoom (V.space view.old) (V.space view.new) }
    ensures same { SameSpace (V.space view.old) (V.space view.new) }
    ensures below { V.follows view.old view.new }
    ensures cause { HasCause (V.space view.old).faults (V.space view.new).faults result }
{
    let sectors = view.sectors();
    let at = match fork.sector_at(per_block, place) {
        Some(at) => at,
        None => {
            clear(into);
            return Ok(());
        }
    };
    if at < sectors {
        view.get(at, into)
    } else {
        clear(into);
        Ok(())
    }
}

fn clear(into: &mut Sector)
    ensures { (k : ℕ) → bit_of into.new k ≡ false }
{
    *into = [0; 512];
}

fn room_for(alloc: Global, size: usize) -> Result<Vec<u8>, OutOfMemory>
    ensures { IfOk result (λ bytes. bytes.items ≡ []) }
{
    Ok(Vec::with_capacity(alloc, size)?)
}

fn push_sector(bytes: &mut Vec<u8>, sector: &Sector) -> Result<(), OutOfMemory>
    ensures { OnOk result (bytes.new.items ≡ bytes.old.items ++ sector.now) }
{
    bytes.extend_from_slice(sector)?;
    Ok(())
}

/// The bytes of the first sectors of a fork.
fn read_bytes<V: SectorView>(
    alloc: Global,
    view: &mut V,
    fork: &SummedFork,
    per_block: u32,
    count: usize,
) -> Result<Vec<u8>, Trouble>
    requires small { count < 2 ^ 32 }
    requires per_block { per_block ≤ 2 ^ 23 }
    ensures size { IfOk result (λ bytes. length bytes.items ≡ count * 512) }
    ensures bits { IsTrue (V.space view.old).tells → IfOk result (λ bytes. (k : ℕ) → k < count * 4096 → bit_of bytes.items k ≡ fork_bit (V.space view.old).content (fork_sectors fork.now per_block) k) }
    ensures sectors { IsTrue (V.space view.old).tells → SameSectors (V.space view.old) (V.space view.new) }
    ensures time { IsTrue (V.space view.old).tells → TimePasses (V.space view.old).clock (V.space view.new).clock (LeavesDurable (V.space view.new)) }
    ensures room { SameRoom (V.space view.old) (V.space view.new) }
    ensures same { SameSpace (V.space view.old) (V.space view.new) }
    ensures below { V.follows view.old view.new }
    ensures later { (V.space view.old).faults ≤ (V.space view.new).faults }
    ensures disk { IsErrOf result Disk → Rose (V.space view.old).faults (V.space view.new).faults }
{
    let mut bytes = room_for(alloc, count * 512)?;
    let mut sector = [0; 512];
    for at in 0..count {
        read_sector(view, fork, per_block, at as u64, &mut sector)?;
        push_sector(&mut bytes, &sector)?;
    }
    Ok(bytes)
}

impl Bitmap {
    /// Reads the bitmap of a volume with so many blocks of so many bytes. A bit that the fork doesn't have counts as clear.
    pub fn load<V: SectorView>(
        alloc: Global,
        view: &mut V,
        fork: &ExtentList,
        total: u32,
        block: u32,
    ) -> Result<Bitmap, Trouble>
        ensures size { IfOk result (λ map. length map.used ≡ total) }
        ensures bits { IsTrue (V.space view.old).tells → IfOk result (λ map. HoldsBits (V.space view.old).content (fork_sectors fork.now (block / 512)) map.used) }
        // No block is held, and nothing is changed.
        ensures rest { IfOk result (λ map. map ≡ record { used = map.used; held = none total; changed = none (sectors_for total); kept_used = map.used; kept_held = none total; fork = fork.now; per_block = block / 512 }) }
        ensures sectors { IsTrue (V.space view.old).tells → SameSectors (V.space view.old) (V.space view.new) }
        ensures time { IsTrue (V.space view.old).tells → TimePasses (V.space view.old).clock (V.space view.new).clock (LeavesDurable (V.space view.new)) }
        ensures room { SameRoom (V.space view.old) (V.space view.new) }
        ensures same { SameSpace (V.space view.old) (V.space view.new) }
        ensures below { V.follows view.old view.new }
        ensures later { (V.space view.old).faults ≤ (V.space view.new).faults }
        ensures disk { IsErrOf result Disk → Rose (V.space view.old).faults (V.space view.new).faults }
    {
        let fork = SummedFork::copy_of(alloc, fork)?;
        let sectors = (total as usize + 4095) / 4096;
        let bytes = read_bytes(alloc, view, &fork, block / 512, sectors)?;
        let bits = Bits::of_bytes(bytes, total as usize);
        Ok(Bitmap::of_bits(alloc, bits, fork, block)?)
    }
}
