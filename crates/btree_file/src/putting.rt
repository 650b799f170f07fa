//! One node of a fork, read and put.
ghost use Rattle.std.specs.Prelude.{◌≡◌, ◌<◌, ◌≤◌, ◌+◌, ◌*◌, ◌/◌, IsTrue, length, slice_range, IfSome, OnOk};
ghost use Rattle.sector_disk.specs.Cause.{HasCause};
ghost use Rattle.sector_disk.specs.Clock.{TimePasses};
ghost use Rattle.sector_disk.specs.Space.{SameSpace, LeavesDurable};
ghost use Rattle.fork_map.specs.Nodes.{node_of};
ghost use Rattle.btree_file.specs.Place.{IsInside, IsOpen, AreApart, sectors_at};
ghost use Rattle.fork_map.specs.Blocks.{fork_sectors};
ghost use Rattle.btree_file.specs.Frame.{ReadsSpace};
ghost use Rattle.btree_file.specs.Putting.{unput, PutsNode, TakesRoomFor};

use crate::counted::{counted_sector, first_in_block};
use btree_node::Node;
use fork_map::SummedFork;
use hx_bytes::{Failed, Sector};
use sector_disk::{SectorSpace, SectorView};

/// Reads a node: by one copy where the view holds its sectors side by side, or else sector by sector.
pub(crate) fn get_node<V: SectorView>(
    space: &mut V,
    fork: &SummedFork,
    per_block: u32,
    node: u32,
    into: &mut Node,
) -> Result<(), Failed>
    requires blocks { per_block ≤ 128 }
    requires inside { IsInside fork.now per_block (V.space space.old) }
    requires whole { (node + 1) * (length into.old / 512) ≤ length (fork_sectors fork.now per_block) }
    ensures value { IsTrue (V.space space.old).tells → OnOk result (into.new ≡ node_of (V.space space.old).content (fork_sectors fork.now per_block) (length into.old / 512) node) }
    ensures length { length into.new ≡ length into.old }
    ensures reads { ReadsSpace (V.space space.old) (V.space space.new) }
    ensures below { V.follows space.old space.new }
    ensures cause { HasCause (V.space space.old).faults (V.space space.new).faults result }
{
    if take_held(space, fork, per_block, node, into) {
        return Ok(());
    }
    get_sectors(space, fork, per_block, node, into)
}

/// Whether the view held a node's sectors side by side: then they were copied.
fn take_held<V: SectorView>(
    space: &V,
    fork: &SummedFork,
    per_block: u32,
    node: u32,
    into: &mut Node,
) -> bool
    requires blocks { per_block ≤ 128 }
    requires whole { (node + 1) * (length into.old / 512) ≤ length (fork_sectors fork.now per_block) }
    ensures value { IsTrue result → IsTrue (V.space space.now).tells → into.new ≡ node_of (V.space space.now).content (fork_sectors fork.now per_block) (length into.old / 512) node }
    ensures length { length into.new ≡ length into.old }
{
    let size = into.bytes().len() as u32;
    let Some(bytes) = held_node(space, fork, per_block, node, size) else {
        return false;
    };
    into.take_over(bytes);
    true
}

/// The bytes of a node of so many, where the view holds its sectors side by side.
pub(crate) fn held_node<'a, V: SectorView>(
    space: &'a V,
    fork: &SummedFork,
    per_block: u32,
    node: u32,
    size: u32,
) -> Option<&'a [u8]>
    requires blocks { per_block ≤ 128 }
    requires whole { (node + 1) * (size / 512) ≤ length (fork_sectors fork.now per_block) }
    ensures value { IsTrue (V.space space.now).tells → IfSome result (λ bytes. bytes.now ≡ node_of (V.space space.now).content (fork_sectors fork.now per_block) (size / 512) node) }
    ensures size { IfSome result (λ bytes. length bytes.now ≡ size) }
{
    let per = size / 512;
    let Some(first) = first_in_block(fork, per_block, node as u64 * per as u64, per) else {
        return None;
    };
    let Some(bytes) = space.held(first, per) else {
        return None;
    };
    if bytes.len() != size as usize {
        return None;
    }
    Some(bytes)
}

/// Reads a node sector by sector.
fn get_sectors<V: SectorView>(
    space: &mut V,
    fork: &SummedFork,
    per_block: u32,
    node: u32,
    into: &mut Node,
) -> Result<(), Failed>
    requires blocks { per_block ≤ 128 }
    requires inside { IsInside fork.now per_block (V.space space.old) }
    requires whole { (node + 1) * (length into.old / 512) ≤ length (fork_sectors fork.now per_block) }
    ensures value { IsTrue (V.space space.old).tells → OnOk result (into.new ≡ node_of (V.space space.old).content (fork_sectors fork.now per_block) (length into.old / 512) node) }
    ensures length { length into.new ≡ length into.old }
    ensures reads { ReadsSpace (V.space space.old) (V.space space.new) }
    ensures below { V.follows space.old space.new }
    ensures cause { HasCause (V.space space.old).faults (V.space space.new).faults result }
{
    let per = into.bytes().len() as u32 / 512;
    let first = first_in_block(fork, per_block, node as u64 * per as u64, per);
    let mut sector = [0; 512];
    for k in 0..per {
        let place = node as u64 * per as u64 + k as u64;
        if let Some(at) = counted_sector(fork, per_block, place, first, k) {
            space.get(at, &mut sector)?;
            into.fill(k, &sector);
        }
    }
    Ok(())
}

/// One sector of a node.
pub(crate) fn sector_of(from: &Node, k: u32) -> &Sector
    requires { k < length from.now / 512 }
    ensures { result.now ≡ slice_range from.now (k * 512) (k * 512 + 512) }
{
    let (sectors, _rest) = from.bytes().as_chunks::<512>();
    &sectors[k as usize]
}

/// Puts a node.
pub(crate) fn put_node<P: SectorSpace>(
    space: &mut P,
    fork: &SummedFork,
    per_block: u32,
    node: u32,
    from: &Node,
)
    requires blocks { per_block ≤ 128 }
    requires apart { AreApart (fork_sectors fork.now per_block) }
    requires inside { IsInside fork.now per_block (P.SectorView.space space.old) }
    requires open { IsOpen fork.now per_block (P.SectorView.space space.old) }
    requires whole { (node + 1) * (length from.now / 512) ≤ length (fork_sectors fork.now per_block) }
    requires room { unput (P.SectorView.space space.old).put (sectors_at (fork_sectors fork.now per_block) (length from.now / 512) node) ≤ (P.SectorView.space space.old).spare }
    ensures puts { IsTrue (P.SectorView.space space.old).tells → PutsNode (sectors_at (fork_sectors fork.now per_block) (length from.now / 512) node) from.now (P.SectorView.space space.old) (P.SectorView.space space.new) }
    ensures time { IsTrue (P.SectorView.space space.old).tells → TimePasses (P.SectorView.space space.old).clock (P.SectorView.space space.new).clock (LeavesDurable (P.SectorView.space space.new)) }
    ensures room { TakesRoomFor (sectors_at (fork_sectors fork.now per_block) (length from.now / 512) node) (P.SectorView.space space.old) (P.SectorView.space space.new) }
    ensures same { SameSpace (P.SectorView.space space.old) (P.SectorView.space space.new) }
    ensures below { P.SectorView.follows space.old space.new }
    ensures faults { (P.SectorView.space space.new).faults ≡ (P.SectorView.space space.old).faults }
{
    let per = from.bytes().len() as u32 / 512;
    let first = first_in_block(fork, per_block, node as u64 * per as u64, per);
    for k in 0..per {
        let place = node as u64 * per as u64 + k as u64;
        if let Some(at) = counted_sector(fork, per_block, place, first, k) {
            space.put(at, sector_of(from, k));
        }
    }
}
