//! The bytes of a file read.
ghost use Rattle.std.specs.Prelude.{◌≡◌, ◌<◌, ◌≤◌, ◌+◌, ◌-◌, ◌*◌, ◌/◌, ◌^◌, ℕ, List, [], IsTrue, length, take, drop, min, slice_index, IfOk, OnOk};
ghost use Rattle.std.specs.Result.{IsErrOf};
ghost use Rattle.std.specs.List.{All};
ghost use Rattle.hx_bytes.specs.declared.faults.Trouble.TheVariants.{Disk};
ghost use Rattle.sector_disk.specs.Cause.{Rose};
ghost use Rattle.sector_disk.specs.Clock.{TimePasses};
ghost use Rattle.sector_disk.specs.Space.{SameSpace, SameRoom, SameSectors, LeavesDurable};
ghost use Rattle.fork_map.specs.Blocks.{blocks_of, sectors_of};
ghost use Rattle.file_io.specs.Bytes.{fork_bytes, sectors_in, bytes_in, IsBlockSize};

use crate::parts::push_part;
use crate::walk::Walk;
use fork_map::ExtentList;
use hx_bytes::{Bytes, Listed, Trouble};
use sector_disk::SectorSpace;
use std::alloc::Global;

/// So many bytes of a file from a place on, or fewer where the file ends. The file has `size` bytes in the blocks of a fork.
pub fn read<P: SectorSpace>(
    alloc: Global,
    space: &mut P,
    fork: &ExtentList,
    block: u32,
    size: u64,
    from: u64,
    count: u32,
) -> Result<Bytes, Trouble>
    requires block { IsBlockSize block }
    requires inside { All (λ sector. sector < (P.SectorView.space space.old).sectors) (sectors_in block fork.now) }
    requires holds_size { size ≤ length (blocks_of fork.now) * block }
    ensures bytes { IsTrue (P.SectorView.space space.old).tells → IfOk result (λ bytes. bytes ≡ take count (drop from (take size (fork_bytes (P.SectorView.space space.old).content block fork.now)))) }

    ensures sectors { IsTrue (P.SectorView.space space.old).tells → SameSectors (P.SectorView.space space.old) (P.SectorView.space space.new) }
    ensures time { IsTrue (P.SectorView.space space.old).tells → TimePasses (P.SectorView.space space.old).clock (P.SectorView.space space.new).clock (LeavesDurable (P.SectorView.space space.new)) }
    ensures room { SameRoom (P.SectorView.space space.old) (P.SectorView.space space.new) }
    ensures same { SameSpace (P.SectorView.space space.old) (P.SectorView.space space.new) }
    ensures below { P.SectorView.follows space.old space.new }

    ensures later { (P.SectorView.space space.old).faults ≤ (P.SectorView.space space.new).faults }
    ensures disk { IsErrOf result Disk → Rose (P.SectorView.space space.old).faults (P.SectorView.space space.new).faults }
{
    let end = size.min(from.saturating_add(count as u64));
    if end <= from {
        return Ok(Listed::new(alloc));
    }
    let bytes = read_part(alloc, space, fork, block / 512, from, end)?;
    Ok(Listed::from_vec(bytes))
}

/// The bytes of a fork from one place up to another.
fn read_part<P: SectorSpace>(
    alloc: Global,
    space: &mut P,
    fork: &ExtentList,
    per_block: u32,
    from: u64,
    end: u64,
) -> Result<Vec<u8>, Trouble>
    requires some { 0 < per_block }
    requires few { per_block ≤ 128 }
    requires order { from < end }
    requires inside { All (λ sector. sector < (P.SectorView.space space.old).sectors) (sectors_of per_block (blocks_of fork.now)) }
    requires holds { end ≤ length (sectors_of per_block (blocks_of fork.now)) * 512 }
    ensures bytes { IsTrue (P.SectorView.space space.old).tells → IfOk result (λ bytes. bytes.items ≡ take (end - from) (drop from (bytes_in (P.SectorView.space space.old).content (sectors_of per_block (blocks_of fork.now))))) }
    ensures sectors { IsTrue (P.SectorView.space space.old).tells → SameSectors (P.SectorView.space space.old) (P.SectorView.space space.new) }
    ensures time { IsTrue (P.SectorView.space space.old).tells → TimePasses (P.SectorView.space space.old).clock (P.SectorView.space space.new).clock (LeavesDurable (P.SectorView.space space.new)) }
    ensures room { SameRoom (P.SectorView.space space.old) (P.SectorView.space space.new) }
    ensures same { SameSpace (P.SectorView.space space.old) (P.SectorView.space space.new) }
    ensures below { P.SectorView.follows space.old space.new }
    ensures later { (P.SectorView.space space.old).faults ≤ (P.SectorView.space space.new).faults }
    ensures disk { IsErrOf result Disk → Rose (P.SectorView.space space.old).faults (P.SectorView.space space.new).faults }
{
    let mut bytes = Vec::new(alloc);
    let mut sector = [0; 512];
    let first = from / 512;
    let behind = (end - 1) / 512 + 1;
    let mut walk = Walk::before(fork, per_block, first);
    for n in first..behind {
        match walk.next(fork, per_block) {
            Some(at) => space.get(at, &mut sector)?,
            None => return Ok(bytes),
        }
        let start = n * 512;
        let low = (from.max(start) - start) as usize;
        let high = (end - start).min(512) as usize;
        push_part(&mut bytes, &sector, low, high)?;
    }
    Ok(bytes)
}
