//! The header of a volume, and its copy at the end.

use crate::source::{Sectors, read_sectors};
use hx_bytes::Sector;
use volume_header::{VolumeHeader, header_at};

/// Which of the two headers of a volume.
#[derive(Clone, Copy, Debug, PartialEq, Eq)]
pub enum Copy {
    First,
    Alternate,
}

/// A volume by one of its headers.
#[derive(Clone, Copy, Debug, PartialEq, Eq)]
pub struct Volume {
    pub head: VolumeHeader,
    pub copy: Copy,
    /// The sectors of a block.
    pub per_block: u64,
}

const FIRST_HEADER: u64 = 2;

/// HFS Plus, and HFSX, which may have case-sensitive names (TN1150, "Volume Header").
const PLUS: u16 = 0x482B;

const EXTENDED: u16 = 0x4858;

/// Reads one of the headers, if it is that of a volume.
pub(crate) fn read_volume<S: Sectors>(source: &mut S, copy: Copy) -> Option<Volume> {
    let at = match copy {
        Copy::First => FIRST_HEADER,
        Copy::Alternate => source.count().saturating_sub(2),
    };
    let mut sectors: [Sector; 1] = [[0; 512]; 1];
    if read_sectors(source, at, sectors.as_mut_slice()) == 0 {
        return None;
    }
    judge(header_at(&sectors[0]), copy)
}

// Whether a header may be that of a volume: its signature, and the sizes that all else is found by.
fn judge(head: VolumeHeader, copy: Copy) -> Option<Volume> {
    let signed = head.signature == PLUS || head.signature == EXTENDED;
    let sized = head.block_size >= 512 && head.block_size.is_power_of_two();
    if !signed || !sized || head.total_blocks == 0 {
        return None;
    }
    let per_block = u64::from(head.block_size / 512);
    Some(Volume {
        head,
        copy,
        per_block,
    })
}

impl Volume {
    /// Whether it has a journal and wasn't unmounted, so that the journal may have what isn't in its place yet.
    pub fn was_left_open(&self) -> bool {
        self.head.is_journaled() && !self.head.is_unmounted()
    }

    /// The blocks that so many bytes take.
    pub fn blocks_for(&self, size: u64) -> u64 {
        let sectors = size.div_ceil(512);
        if self.per_block == 0 {
            return 0;
        }
        sectors.div_ceil(self.per_block)
    }

    /// The blocks of so many sectors, of which the last may be a part.
    pub fn blocks_of(&self, sectors: u64) -> u64 {
        self.blocks_for(sectors.saturating_mul(512))
    }
}
