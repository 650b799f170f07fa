//! All that a volume's structures tell of its files.

use crate::bitmap::Bits;
use crate::catalog::{Catalog, FoundFile};
use crate::field::number64;
use crate::fork::{Fork, ForkKind};
use crate::overflow::Overflow;
use crate::shared::Claims;
use crate::source::{Sectors, read_fork, read_sectors};
use crate::strays::{Ground, take_strays};
use crate::tree::{Taken, TreeFile, take_records};
use crate::volume::{Copy, Volume, read_volume};
use hx_bytes::{ForkRecord, Sector};
use std::alloc::{AllocError, Global};

/// What was found of a volume.
#[derive(Drop)]
pub struct Survey {
    pub volume: Volume,
    pub overflow: Overflow,
    pub catalog: Catalog,
    /// How many records the catalog's leaves had.
    pub records: u64,
    /// The bits of the blocks, as far as the allocation file could be read.
    pub bits: Bits,
}

/// The ids of the special files (TN1150, "Reserved catalog node IDs").
const EXTENTS_FILE: u32 = 3;

const CATALOG_FILE: u32 = 4;

const ALLOCATION_FILE: u32 = 6;

const STARTUP_FILE: u32 = 7;

const ATTRIBUTES_FILE: u32 = 8;

/// Where the journal's info block keeps the journal's offset and its size.
const JOURNAL_OFFSET_AT: usize = 36;

const JOURNAL_SIZE_AT: usize = 44;

/// The sectors that are read at once.
const PIECE: usize = 16;

/// Reads a volume by the header that tells more: the first, or where it is bad or its catalog is empty, the alternate.
pub fn read_survey<S: Sectors>(
    alloc: Global,
    source: &mut S,
) -> Result<Option<Survey>, AllocError> {
    let first = survey_by(alloc, source, Copy::First)?;
    if let Some(found) = &first {
        if found.records > 0 {
            return Ok(first);
        }
    }
    match survey_by(alloc, source, Copy::Alternate)? {
        Some(found) => Ok(Some(found)),
        None => Ok(first),
    }
}

fn survey_by<S: Sectors>(
    alloc: Global,
    source: &mut S,
    copy: Copy,
) -> Result<Option<Survey>, AllocError> {
    let Some(volume) = read_volume(source, copy) else {
        return Ok(None);
    };
    let mut overflow = Overflow::new(alloc);
    let extents = extents_fork(alloc, &volume)?;
    let file = TreeFile {
        per_block: volume.per_block,
        extents: extents.extents.as_slice(),
    };
    take_records(alloc, source, file, &mut overflow)?;
    let mut catalog = Catalog::new(alloc);
    let fork = catalog_fork(alloc, &overflow, &volume)?;
    let file = TreeFile {
        per_block: volume.per_block,
        extents: fork.extents.as_slice(),
    };
    let taken = take_records(alloc, source, file, &mut catalog)?;
    let bits = read_bits(alloc, source, &volume, &overflow)?;
    let mut survey = Survey {
        volume,
        overflow,
        catalog,
        records: taken.records,
        bits,
    };
    if !taken.open.is_empty() {
        survey.take_strays(alloc, source, taken)?;
    }
    Ok(Some(survey))
}

// The blocks from the first to before the last that the journal's info block gives to the journal.
fn journal_blocks<S: Sectors>(source: &mut S, volume: &Volume) -> Option<(u64, u64)> {
    let mut room: [Sector; 1] = [[0; 512]; 1];
    let at = u64::from(volume.head.journal_info_block).saturating_mul(volume.per_block);
    read_sectors(source, at, room.as_mut_slice());
    let bytes = room.as_flattened();
    let offset = number64(bytes, JOURNAL_OFFSET_AT)?;
    let size = number64(bytes, JOURNAL_SIZE_AT)?;
    let start = volume.blocks_for(offset);
    Some((start, start.saturating_add(volume.blocks_for(size))))
}

fn special_fork(
    alloc: Global,
    overflow: &Overflow,
    id: u32,
    fork: &ForkRecord,
) -> Result<Fork, AllocError> {
    Fork::whole(alloc, overflow, id, ForkKind::Data, fork)
}

/// The extents overflow file, which has no extents elsewhere.
pub(crate) fn extents_fork(alloc: Global, volume: &Volume) -> Result<Fork, AllocError> {
    let none = Overflow::new(alloc);
    special_fork(alloc, &none, EXTENTS_FILE, &volume.head.extents_fork)
}

/// The catalog's file, with all of its extents.
pub(crate) fn catalog_fork(
    alloc: Global,
    overflow: &Overflow,
    volume: &Volume,
) -> Result<Fork, AllocError> {
    special_fork(alloc, overflow, CATALOG_FILE, &volume.head.catalog_fork)
}

// Reads the allocation file, as far as the source has blocks for it.
fn read_bits<S: Sectors>(
    alloc: Global,
    source: &mut S,
    volume: &Volume,
    overflow: &Overflow,
) -> Result<Bits, AllocError> {
    let mut bits = Bits::new(alloc);
    let fork = special_fork(
        alloc,
        overflow,
        ALLOCATION_FILE,
        &volume.head.allocation_fork,
    )?;
    let blocks = u64::from(volume.head.total_blocks).min(source.count());
    let sectors = blocks.div_ceil(4096);
    let mut room: [Sector; PIECE] = [[0; 512]; PIECE];
    let mut at: u64 = 0;
    for _ in 0..sectors {
        if at >= sectors {
            break;
        }
        read_fork(
            source,
            volume.per_block,
            fork.extents.as_slice(),
            at,
            room.as_mut_slice(),
        );
        bits.append(room.as_flattened())?;
        at = at.saturating_add(PIECE as u64);
    }
    Ok(bits)
}

/// The owner of the blocks that are no file's.
const SPECIAL: usize = usize::MAX;

/// The sectors that the first header ends before.
const FRONT_SECTORS: u64 = 3;

impl Survey {
    // Adds the records of leaves that the catalog's extents don't have, as where a header is older than the catalog's growth.
    fn take_strays<S: Sectors>(
        &mut self,
        alloc: Global,
        source: &mut S,
        taken: Taken,
    ) -> Result<(), AllocError> {
        let sectors = source.count();
        let mut claims = self.special_claims(alloc, sectors)?;
        for file in self.catalog.files.as_slice() {
            let data = self.fork(alloc, file, ForkKind::Data)?;
            claims.add(SPECIAL, data.extents.as_slice())?;
            let resource = self.fork(alloc, file, ForkKind::Resource)?;
            claims.add(SPECIAL, resource.extents.as_slice())?;
        }
        // The journal has copies of leaves.
        if let Some((start, end)) = journal_blocks(source, &self.volume) {
            claims.add_range(SPECIAL, start, end)?;
        }
        claims.sort();
        let runs = claims.unclaimed(alloc, &self.bits, self.blocks(sectors))?;
        let ground = Ground {
            per_block: self.volume.per_block,
            runs: runs.as_slice(),
        };
        let more = take_strays(alloc, source, ground, taken, &mut self.catalog)?;
        self.records = self.records.saturating_add(more);
        Ok(())
    }

    /// One of a file's forks, with all of its extents.
    pub fn fork(
        &self,
        alloc: Global,
        file: &FoundFile,
        kind: ForkKind,
    ) -> Result<Fork, AllocError> {
        let record = match kind {
            ForkKind::Data => &file.record.data_fork,
            ForkKind::Resource => &file.record.resource_fork,
        };
        Fork::whole(alloc, &self.overflow, file.record.fields.id, kind, record)
    }

    /// The blocks of the volume that lie in an image of so many sectors.
    pub fn blocks(&self, sectors: u64) -> u64 {
        u64::from(self.volume.head.total_blocks).min(self.volume.blocks_of(sectors))
    }

    /// The blocks that the volume's own structures use, in an image of so many sectors.
    pub fn special_claims(&self, alloc: Global, sectors: u64) -> Result<Claims, AllocError> {
        let head = &self.volume.head;
        let mut claims = Claims::new(alloc);
        claims.add_range(SPECIAL, 0, self.volume.blocks_of(FRONT_SECTORS))?;
        let blocks = u64::from(head.total_blocks);
        let told = blocks.saturating_mul(self.volume.per_block);
        let last = told.max(sectors).saturating_sub(2);
        if self.volume.per_block > 0 {
            claims.add_range(SPECIAL, last / self.volume.per_block, blocks)?;
        }
        let forks = [
            (EXTENTS_FILE, &head.extents_fork),
            (CATALOG_FILE, &head.catalog_fork),
            (ALLOCATION_FILE, &head.allocation_fork),
            (STARTUP_FILE, &head.startup_fork),
            (ATTRIBUTES_FILE, &head.attributes_fork),
        ];
        for (id, record) in forks {
            let fork = special_fork(alloc, &self.overflow, id, record)?;
            claims.add(SPECIAL, fork.extents.as_slice())?;
        }
        Ok(claims)
    }
}
