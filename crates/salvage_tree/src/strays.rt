//! Leaves of a tree that its file's extents don't have, found among the blocks that are in use and that nothing else uses.
//!
//! A block that looks like a leaf may be one of another volume, as where a file holds an image. So a leaf is taken only where a leaf of the tree
//! names its number as a neighbour, it names that leaf in return, its keys lie on the right side, and it is the only such.

use crate::field::number32;
use crate::leaves::{Takes, hand_over, spans_of};
use crate::node::front_of;
use crate::shared::Claim;
use crate::source::{Sectors, read_sectors};
use crate::tree::{MOST_NODE_SECTORS, OpenLink, Taken};
use hx_bytes::Sector;
use std::alloc::{AllocError, Global};

/// Where to look: runs of blocks, of so many sectors each.
#[derive(Clone, Copy)]
pub(crate) struct Ground<'a> {
    pub(crate) per_block: u64,
    pub(crate) runs: &'a [Claim],
}

/// A block that looks like a leaf.
#[derive(Clone, Copy, Debug, PartialEq, Eq)]
struct Candidate {
    sector: u64,
    next: u32,
    previous: u32,
    /// The first four bytes of its first key, and of its last.
    low: u32,
    high: u32,
    taken: bool,
}

impl Candidate {
    fn answers(&self, link: &OpenLink) -> bool {
        if self.taken {
            false
        } else if link.forward {
            self.previous == link.from && self.low >= link.near
        } else {
            self.next == link.from && self.high <= link.near
        }
    }

    // The link that goes on from it, once it has its number.
    fn link_on(&self, link: &OpenLink) -> OpenLink {
        OpenLink {
            from: link.to,
            to: if link.forward {
                self.next
            } else {
                self.previous
            },
            forward: link.forward,
            near: if link.forward { self.high } else { self.low },
        }
    }
}

// What the bytes of a node say, where each of its records can be read.
fn candidate_of<T: Takes>(
    alloc: Global,
    taker: &T,
    node: &[u8],
    sector: u64,
) -> Result<Option<Candidate>, AllocError> {
    let Some(front) = front_of(node) else {
        return Ok(None);
    };
    if !front.is_leaf {
        return Ok(None);
    }
    let spans = spans_of(alloc, taker, node)?;
    if spans.len() != front.records {
        return Ok(None);
    }
    match (spans.first(), spans.last()) {
        (Some(first), Some(last)) => Ok(Some(Candidate {
            sector,
            next: front.next,
            previous: front.previous,
            low: number32(node, first.key).unwrap_or(0),
            high: number32(node, last.key).unwrap_or(0),
            taken: false,
        })),
        _ => Ok(None),
    }
}

// All blocks that look like leaves.
fn candidates<S: Sectors, T: Takes>(
    alloc: Global,
    source: &mut S,
    ground: Ground<'_>,
    size: u64,
    taker: &T,
) -> Result<Vec<Candidate>, AllocError> {
    let mut found = Vec::new(alloc);
    let step = size.min(ground.per_block);
    let mut room: [Sector; MOST_NODE_SECTORS] = [[0; 512]; MOST_NODE_SECTORS];
    let Some(sectors) = room.get_mut(..size as usize) else {
        return Ok(found);
    };
    if step == 0 {
        return Ok(found);
    }
    for run in ground.runs {
        let from = run.start.saturating_mul(ground.per_block);
        let to = run.end.saturating_mul(ground.per_block);
        for place in 0..to.saturating_sub(from) / step {
            let sector = from.saturating_add(place.saturating_mul(step));
            read_sectors(source, sector, sectors);
            if let Some(candidate) = candidate_of(alloc, taker, sectors.as_flattened(), sector)? {
                found.push(candidate)?;
            }
        }
    }
    Ok(found)
}

// The one candidate that answers a link, if there is one and no other.
fn only_answer(candidates: &[Candidate], link: &OpenLink) -> Option<usize> {
    let mut found = None;
    for (at, candidate) in candidates.iter().enumerate() {
        if candidate.answers(link) {
            if found.is_some() {
                return None;
            }
            found = Some(at);
        }
    }
    found
}

/// Hands over the records of the leaves to which open links lead, and says how many these were.
pub(crate) fn take_strays<S: Sectors, T: Takes>(
    alloc: Global,
    source: &mut S,
    ground: Ground<'_>,
    taken: Taken,
    taker: &mut T,
) -> Result<u64, AllocError> {
    let size = taken.node_sectors;
    let mut open = taken.open;
    let mut found = candidates(alloc, source, ground, size, taker)?;
    let mut records: u64 = 0;
    let mut room: [Sector; MOST_NODE_SECTORS] = [[0; 512]; MOST_NODE_SECTORS];
    let Some(sectors) = room.get_mut(..size as usize) else {
        return Ok(0);
    };
    for _ in 0..open.len().saturating_add(found.len()) {
        let Some(link) = open.pop() else {
            break;
        };
        let Some(at) = only_answer(found.as_slice(), &link) else {
            continue;
        };
        if let Some(candidate) = found.as_mut_slice().get_mut(at) {
            candidate.taken = true;
            open.push(candidate.link_on(&link))?;
            read_sectors(source, candidate.sector, sectors);
            let bytes = sectors.as_flattened();
            let spans = spans_of(alloc, taker, bytes)?;
            hand_over(bytes, spans.as_slice(), taker)?;
            records = records.saturating_add(spans.len() as u64);
        }
    }
    Ok(records)
}
