//! Forks by their plain lists.
use crate::flaw::Flaw;
use fork_map::ExtentList;
use hx_bytes::{Extent, ExtentRecord, ForkRecord};
use std::alloc::Global;

/// A fork of a file, the extents that it should have, and the record that storing them gave.
#[derive(Drop)]
pub struct Fork {
    pub id: u32,
    pub of_resources: bool,
    pub list: ExtentList,
    pub rec: ForkRecord,
}

impl Fork {
    /// Without an extent.
    pub fn new(alloc: Global, id: u32, of_resources: bool) -> Fork {
        Fork {
            id,
            of_resources,
            list: ExtentList::new(alloc),
            rec: ForkRecord {
                logical_size: 0,
                clump_size: 0,
                total_blocks: 0,
                extents: ExtentRecord {
                    extents: [Extent { start: 0, count: 0 }; 8],
                },
            },
        }
    }

    /// The extent at a place, or an unused one behind the last.
    pub fn extent(&self, at: usize) -> Extent {
        match self.list.as_slice().get(at) {
            Some(extent) => *extent,
            None => Extent { start: 0, count: 0 },
        }
    }
}

/// So many extents that don't touch, from a block on: the same front for the same first block.
pub fn scattered(alloc: Global, first: u32, many: u32) -> Result<ExtentList, Flaw> {
    let mut list = ExtentList::new(alloc);
    for k in 0..many {
        list.push(Extent {
            start: first.wrapping_add(k.wrapping_mul(10)),
            count: k % 5 + 1,
        })?;
    }
    Ok(list)
}

/// How many overflow records a fork of so many extents has: eight stand in its own record, and eight in each overflow record but
/// the last, which has the rest.
pub fn count_records(extents: usize) -> usize {
    extents.saturating_sub(8).div_ceil(8)
}
