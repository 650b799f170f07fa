//! Bits of the map: the first that is clear, where a node's bit stands, and one bit set or cleared.
ghost use Rattle.std.specs.Prelude.{◌≡◌, ◌≢◌, ◌<◌, ◌≤◌, ◌+◌, ◌*◌, ◌/◌, ◌==◌, ℕ, IsTrue, None, true, false, length, IfSome, IfOk, IsSome, ◌↔◌};
ghost use Rattle.std.specs.List.{All, list_any};
ghost use Rattle.flag_rows.specs.Bits.{bit_of};
ghost use Rattle.fork_map.specs.Nodes.{node_of};
ghost use Rattle.sector_disk.specs.Cause.{HasCause};
ghost use Rattle.sector_disk.specs.Clock.{TimePasses};
ghost use Rattle.sector_disk.specs.Space.{SameSpace, LeavesDurable};
ghost use Rattle.btree_node.specs.TreeFile.{SetsBit};
ghost use Rattle.btree_file.specs.Place.{IsInside, IsOpen, AreApart, sectors_at};
ghost use Rattle.fork_map.specs.Blocks.{fork_sectors};
ghost use Rattle.btree_file.specs.Map.{used_in, is_reserved, bits_of};
ghost use Rattle.btree_file.specs.Frame.{ReadsSpace};
ghost use Rattle.btree_file.specs.Spots.{IsSpot};
ghost use Rattle.btree_file.specs.Putting.{unput, PutsNode, TakesRoomFor};

use crate::putting::{get_node, put_node};
use crate::tree::Stretch;
use btree_node::Node;
use fork_map::SummedFork;
use hx_bytes::Failed;
use sector_disk::{SectorSpace, SectorView};

/// Where the bit of a node stands: a stretch by its place in the map, and the number of the bit in it.
#[derive(Clone, Copy)]
pub(crate) struct Spot {
    pub(crate) place: usize,
    pub(crate) stretch: Stretch,
    pub(crate) bit: u32,
    pub(crate) node: u32,
}

/// Whether a stretch of the map stands in a node.
fn has_stretch(map: &[Stretch], node: u32) -> bool
    ensures { result ≡ list_any (λ stretch. stretch.node == node) map.now }
{
    map.iter().any(|stretch| stretch.node == node)
}

/// Whether a node is the header node or a map node.
pub(crate) fn is_reserved(map: &[Stretch], node: u32) -> bool
    ensures { result ≡ is_reserved map.now node }
{
    node == 0 || has_stretch(map, node)
}

/// The first of so many nodes without its bit; the node of that stretch is then on the page.
pub(crate) fn find_clear<V: SectorView>(
    space: &mut V,
    fork: &SummedFork,
    per_block: u32,
    map: &[Stretch],
    total: u32,
    page: &mut Node,
) -> Result<Option<Spot>, Failed>
    requires blocks { per_block ≤ 128 }
    requires inside { IsInside fork.now per_block (V.space space.old) }
    requires whole { total * (length page.old / 512) ≤ length (fork_sectors fork.now per_block) }
    requires nodes { All (λ stretch. stretch.node < total) map.now }
    requires low { All (λ stretch. stretch.at + stretch.len ≤ length page.old) map.now }
    ensures spot { IfOk result (λ found. IfSome found (λ spot. IsSpot map.now total spot)) }
    ensures page { IsTrue (V.space space.old).tells → IfOk result (λ found. IfSome found (λ spot. page.new ≡ node_of (V.space space.old).content (fork_sectors fork.now per_block) (length page.old / 512) spot.stretch.node)) }
    ensures clear { IfOk result (λ found. IfSome found (λ spot. bit_of page.new (8 * spot.stretch.at + spot.bit) ≡ false)) }
    ensures none { IsTrue (V.space space.old).tells → IfOk result (λ found. found ≡ None → (n : ℕ) → n < total → n < bits_of map.now
        → used_in (λ node. node_of (V.space space.old).content (fork_sectors fork.now per_block) (length page.old / 512) node) map.now n ≡ true) }
    ensures length { length page.new ≡ length page.old }
    ensures reads { ReadsSpace (V.space space.old) (V.space space.new) }
    ensures below { V.follows space.old space.new }
    ensures cause { HasCause (V.space space.old).faults (V.space space.new).faults result }
{
    // A node's bits have small numbers.
    let _bytes = page.bytes();
    let mut before = 0;
    for place in 0..map.len() {
        let stretch = map[place];
        let count = (8 * stretch.len).min(total - before);
        let start = 8 * stretch.at;
        get_node(space, fork, per_block, stretch.node, page)?;
        let found = page.first_clear(start, start + count);
        if found < start + count {
            let bit = found - start;
            return Ok(Some(Spot {
                place,
                stretch,
                bit,
                node: before + bit,
            }));
        }
        before += count;
    }
    Ok(None)
}

/// Where the bit of one of so many nodes stands.
pub(crate) fn find_bit(map: &[Stretch], total: u32, node: u32) -> Option<Spot>
    requires { node < total }
    ensures spot { IfSome result (λ spot. IsSpot map.now total spot) }
    ensures node { IfSome result (λ spot. spot.node ≡ node) }
    ensures found { node < bits_of map.now → IsSome result }
{
    let mut bit = node;
    for place in 0..map.len() {
        let stretch = map[place];
        if bit / 8 < stretch.len {
            return Some(Spot {
                place,
                stretch,
                bit,
                node,
            });
        }
        bit -= 8 * stretch.len;
    }
    None
}

/// Sets or clears a bit of the stretch whose node stands on the page, and puts that node.
pub(crate) fn mark<P: SectorSpace>(
    space: &mut P,
    fork: &SummedFork,
    per_block: u32,
    page: &mut Node,
    header: &mut Node,
    stretch: Stretch,
    bit: u32,
    value: bool,
)
    requires blocks { per_block ≤ 128 }
    requires apart { AreApart (fork_sectors fork.now per_block) }
    requires inside { IsInside fork.now per_block (P.SectorView.space space.old) }
    requires open { IsOpen fork.now per_block (P.SectorView.space space.old) }
    requires whole { (stretch.node + 1) * (length page.old / 512) ≤ length (fork_sectors fork.now per_block) }
    requires room { unput (P.SectorView.space space.old).put (sectors_at (fork_sectors fork.now per_block) (length page.old / 512) stretch.node) ≤ (P.SectorView.space space.old).spare }
    requires bit { bit < 8 * stretch.len }
    requires low { stretch.at + stretch.len ≤ length page.old }
    requires header { length header.old ≡ length page.old }
    ensures page { SetsBit (8 * stretch.at + bit) value page.old page.new }
    ensures header { stretch.node ≡ 0 → header.new ≡ page.new }
    ensures header_kept { stretch.node ≢ 0 → header.new ≡ header.old }
    ensures header_long { length header.new ≡ length header.old }
    ensures puts { IsTrue (P.SectorView.space space.old).tells → PutsNode (sectors_at (fork_sectors fork.now per_block) (length page.old / 512) stretch.node) page.new (P.SectorView.space space.old) (P.SectorView.space space.new) }
    ensures time { IsTrue (P.SectorView.space space.old).tells → TimePasses (P.SectorView.space space.old).clock (P.SectorView.space space.new).clock (LeavesDurable (P.SectorView.space space.new)) }
    ensures room { TakesRoomFor (sectors_at (fork_sectors fork.now per_block) (length page.old / 512) stretch.node) (P.SectorView.space space.old) (P.SectorView.space space.new) }
    ensures same { SameSpace (P.SectorView.space space.old) (P.SectorView.space space.new) }
    ensures below { P.SectorView.follows space.old space.new }
    ensures faults { (P.SectorView.space space.new).faults ≡ (P.SectorView.space space.old).faults }
{
    // A node's bits have small numbers.
    let _bytes = page.bytes();
    page.set_bit(8 * stretch.at + bit, value);
    if stretch.node == 0 {
        header.copy_from(page);
    }
    put_node(space, fork, per_block, stretch.node, page);
}
