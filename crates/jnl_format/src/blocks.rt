//! What the blocks of a journal are held against, and where their sectors belong.
use volume_header::VolumeHeader;

/// What the blocks of a journal are held against. All places and counts are in sectors of 512 bytes.
#[derive(Clone, Copy)]
pub struct Volume {
    pub sectors: u64,
    /// The journal's first sector.
    pub first: u64,
    /// How many sectors the journal fills.
    pub count: u64,
    pub info_sector: u64,
    pub header: VolumeHeader,
}

/// A sector of the volume, and the place in the journal's text of the bytes that belong into it.
#[derive(Clone, Copy, Debug, PartialEq, Eq)]
pub struct Home {
    pub sector: u64,
    pub place: u64,
}
