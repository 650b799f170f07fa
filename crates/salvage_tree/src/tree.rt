//! The file of a tree, read node by node: the size of its nodes, those that are in use, and the records of its leaves.

use crate::bitmap::Bits;
use crate::field::{number16, number32};
use crate::leaves::{Span, Takes, hand_over, spans_of};
use crate::node::{FRONT, NodeFront, front_of};
use crate::source::{Sectors, read_fork};
use hx_bytes::{Extent, Sector};
use std::alloc::{AllocError, Global};

/// The file of a tree: its extents, and the sectors of a block.
#[derive(Clone, Copy)]
pub(crate) struct TreeFile<'a> {
    pub(crate) per_block: u64,
    pub(crate) extents: &'a [Extent],
}

/// The sizes of nodes, in sectors, the usual ones first.
const NODE_SECTORS: [u64; 7] = [8, 16, 64, 32, 4, 2, 1];

/// The most sectors of a node.
pub(crate) const MOST_NODE_SECTORS: usize = 64;

/// Where the header node keeps the size of the nodes.
const NODE_SIZE_AT: usize = 32;

/// Where the header node keeps the number of the first leaf.
const FIRST_LEAF_AT: usize = 24;

/// Where the header node's bits begin.
const HEADER_MAP_AT: usize = 248;

/// What is known of each node before the records are read.
#[derive(Drop)]
struct Fronts {
    fronts: Vec<NodeFront>,
    /// Which nodes are in use, where the header node could be read.
    used: Option<Bits>,
}

impl<'a> TreeFile<'a> {
    /// The sectors of the file, as far as the source has any.
    pub(crate) fn sectors<S: Sectors>(&self, source: &S) -> u64 {
        let mut blocks: u64 = 0;
        for extent in self.extents {
            blocks = blocks.saturating_add(u64::from(extent.count));
        }
        blocks.saturating_mul(self.per_block).min(source.count())
    }

    /// Reads the sectors of a node. What can't be read of it is zero.
    pub(crate) fn read<S: Sectors>(
        &self,
        source: &mut S,
        node: u64,
        size: u64,
        into: &mut [Sector],
    ) {
        read_fork(
            source,
            self.per_block,
            self.extents,
            node.saturating_mul(size),
            into,
        );
    }

    /// The sectors of a node that the header node tells, if it is one.
    pub(crate) fn told_size<S: Sectors>(&self, source: &mut S) -> Option<u64> {
        let mut first: [Sector; 1] = [[0; 512]; 1];
        self.read(source, 0, 1, first.as_mut_slice());
        let bytes = first.as_flattened();
        let front = front_of(bytes)?;
        let size = number16(bytes, NODE_SIZE_AT)?;
        if !front.is_header || size < 512 || !size.is_power_of_two() {
            return None;
        }
        Some(u64::from(size / 512))
    }
}

// What each node says of itself.
fn read_fronts<S: Sectors>(
    alloc: Global,
    source: &mut S,
    file: TreeFile<'_>,
    size: u64,
) -> Result<Vec<NodeFront>, AllocError> {
    let mut fronts = Vec::new(alloc);
    let mut first: [Sector; 1] = [[0; 512]; 1];
    if size == 0 {
        return Ok(fronts);
    }
    for node in 0..file.sectors(source) / size {
        let from = node.saturating_mul(size);
        read_fork(
            source,
            file.per_block,
            file.extents,
            from,
            first.as_mut_slice(),
        );
        if let Some(front) = front_of(first.as_flattened()) {
            fronts.push(front)?;
        }
    }
    Ok(fronts)
}

/// The bits of the header node and of the map nodes behind it, if the first of these is there.
pub(crate) fn read_map<S: Sectors>(
    alloc: Global,
    source: &mut S,
    file: TreeFile<'_>,
    size: u64,
    nodes: usize,
) -> Result<Option<Bits>, AllocError> {
    let mut bits = Bits::new(alloc);
    let mut room: [Sector; MOST_NODE_SECTORS] = [[0; 512]; MOST_NODE_SECTORS];
    let Some(sectors) = room.get_mut(..size as usize) else {
        return Ok(None);
    };
    let mut node: u64 = 0;
    for _ in 0..nodes {
        file.read(source, node, size, sectors);
        let bytes = sectors.as_flattened();
        let begin = if node == 0 { HEADER_MAP_AT } else { FRONT };
        let end = bytes.len().saturating_sub(if node == 0 { 8 } else { 6 });
        if let Some(map) = bytes.get(begin..end) {
            bits.append(map)?;
        }
        match number32(bytes, 0) {
            Some(next) if next > 0 => node = u64::from(next),
            _ => break,
        }
    }
    // A map that says nothing of the header node itself is none.
    if bits.is_set(0) {
        Ok(Some(bits))
    } else {
        Ok(None)
    }
}

impl Fronts {
    // The front of a leaf.
    fn leaf(&self, node: u32) -> Option<NodeFront> {
        let front = self.fronts.get(node as usize)?;
        if front.is_leaf { Some(*front) } else { None }
    }

    // Whether a neighbour that is a leaf agrees, or None where there is no such neighbour.
    fn next_agrees(&self, node: u32, front: &NodeFront) -> Option<bool> {
        if front.next == 0 {
            return None;
        }
        Some(self.leaf(front.next)?.previous == node)
    }

    fn previous_agrees(&self, node: u32, front: &NodeFront) -> Option<bool> {
        if front.previous == 0 {
            return None;
        }
        Some(self.leaf(front.previous)?.next == node)
    }

    // Whether a leaf is one of the tree's, and not one that was given back. The map says so, or a neighbour that names it. Where the map is lost,
    // it is one unless a neighbour says no.
    fn is_live(&self, node: u32, front: &NodeFront) -> bool {
        let next = self.next_agrees(node, front);
        let previous = self.previous_agrees(node, front);
        let named = next == Some(true) || previous == Some(true);
        match &self.used {
            Some(used) => named || used.is_set(u64::from(node)),
            None => named || (next.is_none() && previous.is_none()),
        }
    }
}

/// A link from a leaf to a neighbour that the file's extents don't have.
#[derive(Clone, Copy, Debug, PartialEq, Eq)]
pub(crate) struct OpenLink {
    pub(crate) from: u32,
    pub(crate) to: u32,
    /// Whether the neighbour comes behind it.
    pub(crate) forward: bool,
    /// The first four bytes of its key that is nearest to the neighbour.
    pub(crate) near: u32,
}

/// What was taken of a tree.
#[derive(Drop)]
pub(crate) struct Taken {
    pub(crate) records: u64,
    pub(crate) node_sectors: u64,
    pub(crate) open: Vec<OpenLink>,
}

impl Taken {
    // Notes the links of a leaf that lead out of the file.
    fn note_links(
        &mut self,
        nodes: usize,
        number: u32,
        front: &NodeFront,
        node: &[u8],
        spans: &[Span],
    ) -> Result<(), AllocError> {
        if let (Some(first), Some(last)) = (spans.first(), spans.last()) {
            if front.next as usize >= nodes {
                self.open.push(OpenLink {
                    from: number,
                    to: front.next,
                    forward: true,
                    near: number32(node, last.key).unwrap_or(0),
                })?;
            }
            if front.previous as usize >= nodes {
                self.open.push(OpenLink {
                    from: number,
                    to: front.previous,
                    forward: false,
                    near: number32(node, first.key).unwrap_or(0),
                })?;
            }
        }
        Ok(())
    }
}

// Hands over the records of the leaves that are live, with nodes of this size.
fn take_sized<S: Sectors, T: Takes>(
    alloc: Global,
    source: &mut S,
    file: TreeFile<'_>,
    size: u64,
    with_map: bool,
    taker: &mut T,
) -> Result<Taken, AllocError> {
    let mut taken = Taken {
        records: 0,
        node_sectors: size,
        open: Vec::new(alloc),
    };
    let fronts = read_fronts(alloc, source, file, size)?;
    let used = if with_map {
        read_map(alloc, source, file, size, fronts.len())?
    } else {
        None
    };
    let fronts = Fronts { fronts, used };
    let mut room: [Sector; MOST_NODE_SECTORS] = [[0; 512]; MOST_NODE_SECTORS];
    let Some(sectors) = room.get_mut(..size as usize) else {
        return Ok(taken);
    };
    for (node, front) in fronts.fronts.iter().enumerate() {
        let Ok(number) = u32::try_from(node) else {
            break;
        };
        if front.is_leaf && fronts.is_live(number, front) {
            file.read(source, u64::from(number), size, sectors);
            let bytes = sectors.as_flattened();
            let spans = spans_of(alloc, taker, bytes)?;
            hand_over(bytes, spans.as_slice(), taker)?;
            taken.records = taken.records.saturating_add(spans.len() as u64);
            taken.note_links(fronts.fronts.len(), number, front, bytes, spans.as_slice())?;
        }
    }
    Ok(taken)
}

// The sectors of a node by which the leaves have most records.
fn likeliest_size<S: Sectors, T: Takes>(
    alloc: Global,
    source: &mut S,
    file: TreeFile<'_>,
    taker: &T,
) -> Result<u64, AllocError> {
    let mut best: u64 = 8;
    let mut most: u64 = 0;
    for size in NODE_SECTORS {
        let count = count_sized(alloc, source, file, size, taker)?;
        if count > most {
            most = count;
            best = size;
        }
    }
    Ok(best)
}

// How many records the leaves have, with nodes of this size.
fn count_sized<S: Sectors, T: Takes>(
    alloc: Global,
    source: &mut S,
    file: TreeFile<'_>,
    size: u64,
    taker: &T,
) -> Result<u64, AllocError> {
    let mut room: [Sector; MOST_NODE_SECTORS] = [[0; 512]; MOST_NODE_SECTORS];
    let Some(sectors) = room.get_mut(..size as usize) else {
        return Ok(0);
    };
    let mut count: u64 = 0;
    if size == 0 {
        return Ok(0);
    }
    for node in 0..file.sectors(source) / size {
        file.read(source, node, size, sectors);
        let spans = spans_of(alloc, taker, sectors.as_flattened())?;
        count = count.saturating_add(spans.len() as u64);
    }
    Ok(count)
}

/// Hands over the records of a tree's leaves, each leaf by itself. Where the header node is lost, the nodes have the size by which there are most.
pub(crate) fn take_records<S: Sectors, T: Takes>(
    alloc: Global,
    source: &mut S,
    file: TreeFile<'_>,
    taker: &mut T,
) -> Result<Taken, AllocError> {
    match file.told_size(source) {
        Some(size) => take_sized(alloc, source, file, size, true, taker),
        None => {
            let size = likeliest_size(alloc, source, file, taker)?;
            take_sized(alloc, source, file, size, false, taker)
        }
    }
}

/// Hands over the records of a sound tree's leaves, from the first leaf to the last, each of which names the next.
pub(crate) fn take_in_order<S: Sectors, T: Takes>(
    alloc: Global,
    source: &mut S,
    file: TreeFile<'_>,
    taker: &mut T,
) -> Result<(), AllocError> {
    let Some(size) = file.told_size(source) else {
        return Ok(());
    };
    let mut room: [Sector; MOST_NODE_SECTORS] = [[0; 512]; MOST_NODE_SECTORS];
    let Some(sectors) = room.get_mut(..size as usize) else {
        return Ok(());
    };
    file.read(source, 0, size, sectors);
    let mut leaf = number32(sectors.as_flattened(), FIRST_LEAF_AT).unwrap_or(0);
    for _ in 0..file.sectors(source) {
        if leaf == 0 {
            break;
        }
        file.read(source, u64::from(leaf), size, sectors);
        let bytes = sectors.as_flattened();
        let spans = spans_of(alloc, taker, bytes)?;
        hand_over(bytes, spans.as_slice(), taker)?;
        leaf = number32(bytes, 0).unwrap_or(0);
    }
    Ok(())
}
