//! The header node of a tree, put again.
ghost use Rattle.std.specs.Prelude.{◌≡◌, ◌≢◌, ◌≤◌, ◌/◌, ℕ, Some, IsTrue, IfSome, true, length, drop, slice_get};
ghost use Rattle.sector_disk.specs.Lists.{sector};
ghost use Rattle.fork_map.specs.Blocks.{fork_sectors};
ghost use Rattle.fork_map.specs.Nodes.{node_of};
ghost use Rattle.btree_file.specs.Frame.{PutsWithin};
ghost use Rattle.btree_file.specs.Place.{IsInside, IsOpen, AreApart, sectors_at};
ghost use Rattle.btree_file.specs.Putting.{unput, TakesRoomFor};
ghost use Rattle.btree_file.specs.State.{all_put};

use crate::putting::{put_node, sector_of};
use crate::written::is_written;
use btree_node::Node;
use fork_map::SummedFork;
use sector_disk::{SectorSpace, SectorView};

/// Puts the header node, whose bytes behind the first sector are those that the space has: the first sector alone, where
/// each of the node's was put before.
pub(crate) fn put_header<P: SectorSpace>(
    space: &mut P,
    fork: &SummedFork,
    per_block: u32,
    header: &Node,
)
    requires blocks { per_block ≤ 128 }
    requires apart { AreApart (fork_sectors fork.now per_block) }
    requires inside { IsInside fork.now per_block (P.SectorView.space space.old) }
    requires open { IsOpen fork.now per_block (P.SectorView.space space.old) }
    requires whole { length header.now / 512 ≤ length (fork_sectors fork.now per_block) }
    requires room { unput (P.SectorView.space space.old).put (sectors_at (fork_sectors fork.now per_block) (length header.now / 512) 0) ≤ (P.SectorView.space space.old).spare }
    requires rest { IsTrue (P.SectorView.space space.old).tells → drop 512 (node_of (P.SectorView.space space.old).content (fork_sectors fork.now per_block) (length header.now / 512) 0) ≡ drop 512 header.now }
    ensures node { IsTrue (P.SectorView.space space.old).tells → node_of (P.SectorView.space space.new).content (fork_sectors fork.now per_block) (length header.now / 512) 0 ≡ header.now }
    ensures others { IsTrue (P.SectorView.space space.old).tells → (n : ℕ) → n ≢ 0 → node_of (P.SectorView.space space.new).content (fork_sectors fork.now per_block) (length header.now / 512) n ≡ node_of (P.SectorView.space space.old).content (fork_sectors fork.now per_block) (length header.now / 512) n }
    ensures within { PutsWithin (fork_sectors fork.now per_block) (P.SectorView.space space.old) (P.SectorView.space space.new) }
    ensures room { TakesRoomFor (sectors_at (fork_sectors fork.now per_block) (length header.now / 512) 0) (P.SectorView.space space.old) (P.SectorView.space space.new) }
    ensures below { P.SectorView.follows space.old space.new }
    ensures faults { (P.SectorView.space space.new).faults ≡ (P.SectorView.space space.old).faults }
{
    let per = header.bytes().len() as u32 / 512;
    if let Some(first) = first_put(space, fork, per_block, per) {
        space.put(first, sector_of(header, 0));
        return;
    }
    put_node(space, fork, per_block, 0, header);
}

/// The first sector of the header node, where each of the node's was put, and the view holds the first.
fn first_put<P: SectorSpace>(space: &P, fork: &SummedFork, per_block: u32, per: u32) -> Option<u64>
    requires blocks { per_block ≤ 128 }
    ensures first { IfSome result (λ first. slice_get (fork_sectors fork.now per_block) 0 ≡ Some first) }
    ensures put { IfSome result (λ _. all_put (P.SectorView.space space.now).put (sectors_at (fork_sectors fork.now per_block) per 0) ≡ true) }
    ensures size { IsTrue (P.SectorView.space space.now).tells → IfSome result (λ first. length (sector (P.SectorView.space space.now).content first) ≡ 512) }
{
    if !is_written(space, fork, per_block, per, 0) {
        return None;
    }
    let Some(first) = fork.sector_at(per_block, 0) else {
        return None;
    };
    let Some(bytes) = space.held(first, 1) else {
        return None;
    };
    if bytes.len() != 512 {
        return None;
    }
    Some(first)
}
