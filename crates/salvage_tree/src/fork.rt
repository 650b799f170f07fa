//! A fork with all of its extents.

use crate::overflow::{Overflow, add_extents};
use crate::volume::Volume;
use hx_bytes::{Extent, ForkRecord};
use std::alloc::{AllocError, Global};

/// Which fork of a file.
#[derive(Clone, Copy, Debug, PartialEq, Eq)]
pub enum ForkKind {
    Data,
    Resource,
}

/// A fork: its bytes, and where they are.
#[derive(Drop)]
pub struct Fork {
    /// Its size in bytes.
    pub size: u64,
    pub extents: Vec<Extent>,
    /// The blocks of its extents.
    pub blocks: u64,
    /// The blocks that its record says it has.
    pub told: u64,
}

impl ForkKind {
    fn number(self) -> u8 {
        match self {
            ForkKind::Data => 0,
            ForkKind::Resource => 0xFF,
        }
    }
}

impl Fork {
    /// A fork without bytes.
    pub fn empty(alloc: Global) -> Fork {
        Fork {
            size: 0,
            extents: Vec::new(alloc),
            blocks: 0,
            told: 0,
        }
    }

    /// The fork of a file that has this record, with the extents that stand elsewhere.
    pub fn whole(
        alloc: Global,
        overflow: &Overflow,
        id: u32,
        kind: ForkKind,
        record: &ForkRecord,
    ) -> Result<Fork, AllocError> {
        let mut extents = Vec::new(alloc);
        let told = u64::from(record.total_blocks);
        let mut blocks = add_extents(&mut extents, &record.extents)?;
        for _ in 0..told {
            if blocks >= told {
                break;
            }
            let Some(more) = overflow.from(id, kind.number(), blocks) else {
                break;
            };
            let added = add_extents(&mut extents, &more)?;
            if added == 0 {
                break;
            }
            blocks = blocks.saturating_add(added);
        }
        Ok(Fork {
            size: record.logical_size,
            extents,
            blocks,
            told,
        })
    }

    /// Whether its numbers go together: it has as many blocks as it says, and these are those that its bytes take.
    pub fn agrees(&self, volume: &Volume) -> bool {
        self.blocks == self.told && volume.blocks_for(self.size) == self.blocks
    }
}
