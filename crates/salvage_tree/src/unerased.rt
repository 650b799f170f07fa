//! Free nodes of the catalog that aren't zero, though the volume's header says that they are.

use crate::reading::{Survey, catalog_fork};
use crate::source::Sectors;
use crate::tree::{MOST_NODE_SECTORS, TreeFile, read_map};
use hx_bytes::Sector;
use std::alloc::{AllocError, Global};

/// The attribute of a volume's header by which macOS says that free nodes of the catalog are zero (`kHFSUnusedNodeFixBit`, bit 31; TN1150
/// doesn't know it).
const ERASED: u32 = 0x8000_0000;

impl Survey {
    /// How many free nodes of the catalog aren't zero, where the volume's header says that they are and the catalog's map can be read.
    pub fn unerased<S: Sectors>(&self, alloc: Global, source: &mut S) -> Result<u64, AllocError> {
        if self.volume.head.attributes & ERASED == 0 {
            return Ok(0);
        }
        let fork = catalog_fork(alloc, &self.overflow, &self.volume)?;
        let file = TreeFile {
            per_block: self.volume.per_block,
            extents: fork.extents.as_slice(),
        };
        count_unerased(alloc, source, file)
    }
}

// How many nodes that the tree's map has free aren't zero.
fn count_unerased<S: Sectors>(
    alloc: Global,
    source: &mut S,
    file: TreeFile<'_>,
) -> Result<u64, AllocError> {
    let Some(size) = file.told_size(source) else {
        return Ok(0);
    };
    if size == 0 {
        return Ok(0);
    }
    let nodes = file.sectors(source) / size;
    let Some(used) = read_map(alloc, source, file, size, nodes as usize)? else {
        return Ok(0);
    };
    let mut room: [Sector; MOST_NODE_SECTORS] = [[0; 512]; MOST_NODE_SECTORS];
    let Some(sectors) = room.get_mut(..size as usize) else {
        return Ok(0);
    };
    let mut count: u64 = 0;
    for node in 0..nodes {
        if !used.is_set(node) {
            file.read(source, node, size, sectors);
            if sectors.as_flattened().iter().any(|byte| *byte != 0) {
                count = count.saturating_add(1);
            }
        }
    }
    Ok(count)
}
