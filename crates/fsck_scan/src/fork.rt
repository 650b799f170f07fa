//! Sectors and nodes of a fork, read through a view.
ghost use Rattle.std.specs.Prelude.{◌≡◌, ◌<◌, ◌≤◌, ◌+◌, ◌*◌, ◌/◌, ◌^◌, ℕ, IsTrue, length, replicate, slice_get, OnOk};
ghost use Rattle.sector_disk.specs.Cause.{HasCause};
ghost use Rattle.btree_file.specs.Frame.{ReadsSpace};
ghost use Rattle.fork_map.specs.Blocks.{fork_sectors};
ghost use Rattle.hfs_volume.specs.Content.{node_of_fork};
ghost use Rattle.fsck_scan.specs.Read.{sector_or_zeros, IsWhole};

use btree_node::Node;
use fork_map::SummedFork;
use hx_bytes::{Failed, Sector};
use sector_disk::SectorView;

/// Where a fork lies: its extents in blocks of so many sectors, of which those below a limit belong to the volume.
#[derive(Clone, Copy)]
pub struct Fork<'a> {
    pub extents: &'a SummedFork,
    pub per_block: u32,
    pub limit: u64,
}

fn clear(into: &mut Sector)
    ensures { into.new ≡ replicate 512 0 }
{
    *into = [0; 512];
}

/// Reads the sector at a place of a fork: zeros where the fork has no such sector, or the volume.
pub fn read_sector<V: SectorView>(
    view: &mut V,
    fork: &Fork,
    place: u64,
    into: &mut Sector,
) -> Result<(), Failed>
    requires { fork.now.per_block ≤ 2 ^ 23 }
    ensures value { IsTrue (V.space view.old).tells → OnOk result (into.new ≡ sector_or_zeros (V.space view.old).content fork.now.limit (slice_get (fork_sectors fork.now.extents.now fork.now.per_block) place)) }
    // The sectors that are read have 512 bytes.
    ensures whole { IsTrue (V.space view.old).tells → OnOk result (IsWhole (V.space view.old).content (V.space view.old).sectors fork.now.limit (slice_get (fork_sectors fork.now.extents.now fork.now.per_block) place)) }
    ensures reads { ReadsSpace (V.space view.old) (V.space view.new) }
    ensures below { V.follows view.old view.new }
    ensures cause { HasCause (V.space view.old).faults (V.space view.new).faults result }
{
    let Some(at) = fork.extents.sector_at(fork.per_block, place) else {
        clear(into);
        return Ok(());
    };
    if at >= fork.limit {
        clear(into);
        return Ok(());
    }
    if at >= view.sectors() {
        clear(into);
        return Ok(());
    }
    view.get(at, into)
}

/// Reads a node of a fork, of the length of the buffer.
pub fn read_node<V: SectorView>(
    view: &mut V,
    fork: &Fork,
    node: u32,
    into: &mut Node,
) -> Result<(), Failed>
    requires { fork.now.per_block ≤ 2 ^ 23 }
    ensures value { IsTrue (V.space view.old).tells → OnOk result (into.new ≡ node_of_fork (V.space view.old).content fork.now.limit (fork_sectors fork.now.extents.now fork.now.per_block) (length into.old) node) }
    ensures whole { IsTrue (V.space view.old).tells → OnOk result ((k : ℕ) → k < length into.old / 512 → IsWhole (V.space view.old).content (V.space view.old).sectors fork.now.limit (slice_get (fork_sectors fork.now.extents.now fork.now.per_block) (node * (length into.old / 512) + k))) }
    ensures length { length into.new ≡ length into.old }
    ensures reads { ReadsSpace (V.space view.old) (V.space view.new) }
    ensures below { V.follows view.old view.new }
    ensures cause { HasCause (V.space view.old).faults (V.space view.new).faults result }
{
    let per = into.bytes().len() as u32 / 512;
    let mut sector = [0; 512];
    for k in 0..per {
        read_sector(view, fork, node as u64 * per as u64 + k as u64, &mut sector)?;
        into.fill(k, &sector);
    }
    Ok(())
}
