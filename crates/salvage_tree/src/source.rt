//! The sectors that are read, of which some may be missing or unreadable.

use hx_bytes::{Extent, Sector};

/// A row of sectors that are only read.
pub trait Sectors {
    /// How many sectors there are.
    fn count(&self) -> u64;

    /// Reads the sectors from `first` on. Where it answers false, `into` may hold anything.
    fn read(&mut self, first: u64, into: &mut [Sector]) -> bool;
}

/// The bytes of no sector.
const ZEROS: Sector = [0; 512];

/// Reads what can be read of the sectors from `first` on, and says how many these were. Each of the others becomes zeros.
pub fn read_sectors<S: Sectors>(source: &mut S, first: u64, into: &mut [Sector]) -> u64 {
    let wanted = into.len() as u64;
    if first.saturating_add(wanted) <= source.count() && source.read(first, into) {
        return wanted;
    }
    let mut read: u64 = 0;
    let mut at = first;
    for sector in into.iter_mut() {
        let mut one = [ZEROS; 1];
        let there = at < source.count() && source.read(at, one.as_mut_slice());
        if there {
            *sector = one[0];
            read = read.saturating_add(1);
        } else {
            *sector = ZEROS;
        }
        at = at.saturating_add(1);
    }
    read
}

/// Reads what can be read of a fork's sectors from `from` on, where its blocks have so many sectors each, and says how many these were. Each
/// of the others becomes zeros.
pub fn read_fork<S: Sectors>(
    source: &mut S,
    per_block: u64,
    extents: &[Extent],
    from: u64,
    into: &mut [Sector],
) -> u64 {
    let upto = from.saturating_add(into.len() as u64);
    for sector in into.iter_mut() {
        *sector = ZEROS;
    }
    let mut read: u64 = 0;
    // The first sector of the fork that the next extent has.
    let mut front: u64 = 0;
    for extent in extents {
        let behind = front.saturating_add(u64::from(extent.count).saturating_mul(per_block));
        let low = from.max(front);
        let high = upto.min(behind);
        if low < high {
            let start = u64::from(extent.start).saturating_mul(per_block);
            let first = start.saturating_add(low.saturating_sub(front));
            let at = low.saturating_sub(from) as usize;
            let end = high.saturating_sub(from) as usize;
            if let Some(part) = into.get_mut(at..end) {
                read = read.saturating_add(read_sectors(source, first, part));
            }
        }
        front = behind;
    }
    read
}
