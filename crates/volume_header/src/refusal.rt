//! Which headers are accepted, and the first reason against one that isn't.
ghost use Rattle.std.specs.Prelude.{◌≡◌, ◌<◌, ◌≤◌, IsTrue};
ghost use Rattle.volume_header.specs.Refusal.{fits_blocks, fits_journal, has_bit, has_ids_reused, header_refusal, is_block_size, is_hfsx, is_journaled, is_locked, is_unmounted, is_volume_size};

use crate::header::VolumeHeader;

/// The first reason against a volume header, in this order.
#[derive(Clone, Copy, Debug, PartialEq, Eq)]
pub enum HeaderRefusal {
    /// The volume has so many sectors, under 2,048 or over 2,147,483,648.
    LimitSectors(u64),
    /// The signature isn't `HX` or the version isn't 5.
    NotHfsx { signature: u16, version: u16 },
    /// The field at this offset doesn't fit the volume.
    BadGeometry(u32),
    /// The volume has no journal.
    NotJournaled,
    /// Catalog ids were used again.
    IdsReused,
}

const SIGNATURE: u16 = 0x4858;

const VERSION: u16 = 5;

const LEAST_SECTORS: u64 = 2_048;

const MOST_SECTORS: u64 = 2_147_483_648;

const SECTOR_SIZE: u64 = 512;

const LEAST_BLOCK: u32 = 512;

const MOST_BLOCK: u32 = 65_536;

const MOST_BLOCKS: u32 = 268_435_456;

const BLOCK_SIZE_OFFSET: u32 = 40;

const TOTAL_BLOCKS_OFFSET: u32 = 44;

const JOURNAL_INFO_BLOCK_OFFSET: u32 = 12;

const UNMOUNTED_BIT: u32 = 8;

const IDS_REUSED_BIT: u32 = 12;

const JOURNALED_BIT: u32 = 13;

const LOCK_BIT: u32 = 15;

impl VolumeHeader {
    /// The first reason against this header on a volume of so many sectors, or none where it is
    /// accepted.
    pub fn refusal(&self, sectors: u64) -> Option<HeaderRefusal>
        ensures { result ≡ header_refusal self.now sectors }
    {
        if !is_volume_size(sectors) {
            Some(HeaderRefusal::LimitSectors(sectors))
        } else if !self.is_hfsx() {
            Some(HeaderRefusal::NotHfsx {
                signature: self.signature,
                version: self.version,
            })
        } else if !is_block_size(self.block_size) {
            Some(HeaderRefusal::BadGeometry(BLOCK_SIZE_OFFSET))
        } else if !self.fits_blocks(sectors) {
            Some(HeaderRefusal::BadGeometry(TOTAL_BLOCKS_OFFSET))
        } else if !self.fits_journal() {
            Some(HeaderRefusal::BadGeometry(JOURNAL_INFO_BLOCK_OFFSET))
        } else if !self.is_journaled() {
            Some(HeaderRefusal::NotJournaled)
        } else if self.has_ids_reused() {
            Some(HeaderRefusal::IdsReused)
        } else {
            None
        }
    }

    /// The volume was unmounted cleanly.
    pub fn is_unmounted(&self) -> bool
        ensures { result ≡ is_unmounted self.now.attributes }
    {
        has_bit(self.attributes, UNMOUNTED_BIT)
    }

    /// Catalog ids were used again.
    pub fn has_ids_reused(&self) -> bool
        ensures { result ≡ has_ids_reused self.now.attributes }
    {
        has_bit(self.attributes, IDS_REUSED_BIT)
    }

    /// The volume has a journal.
    pub fn is_journaled(&self) -> bool
        ensures { result ≡ is_journaled self.now.attributes }
    {
        has_bit(self.attributes, JOURNALED_BIT)
    }

    /// The volume is locked by software.
    pub fn is_locked(&self) -> bool
        ensures { result ≡ is_locked self.now.attributes }
    {
        has_bit(self.attributes, LOCK_BIT)
    }

    fn is_hfsx(&self) -> bool
        ensures { result ≡ is_hfsx self.now }
    {
        self.signature == SIGNATURE && self.version == VERSION
    }

    fn fits_blocks(&self, sectors: u64) -> bool
        requires volume { IsTrue (is_volume_size sectors) }
        requires block { IsTrue (is_block_size self.now.block_size) }
        ensures { result ≡ fits_blocks self.now sectors }
    {
        let blocks = sectors * SECTOR_SIZE / u64::from(self.block_size);
        u64::from(self.total_blocks) == blocks && self.total_blocks <= MOST_BLOCKS
    }

    fn fits_journal(&self) -> bool
        ensures { result ≡ fits_journal self.now }
    {
        !self.is_journaled() || self.journal_info_block < self.total_blocks
    }
}

fn is_volume_size(sectors: u64) -> bool
    ensures { result ≡ is_volume_size sectors }
{
    LEAST_SECTORS <= sectors && sectors <= MOST_SECTORS
}

fn is_block_size(size: u32) -> bool
    ensures { result ≡ is_block_size size }
{
    size.is_power_of_two() && LEAST_BLOCK <= size && size <= MOST_BLOCK
}

fn has_bit(attributes: u32, bit: u32) -> bool
    requires { bit < 32 }
    ensures { result ≡ has_bit attributes bit }
{
    attributes >> bit & 1 == 1
}
