//! Lists of a journal, made by hand.
use hx_bytes::{Order, Sector, write_o32};
use jnl_format::{Entry, ListHead, checksum, write_entry, write_list};

/// The header of a list with these blocks, at most 30, the last of its transaction.
pub fn list_block(order: Order, blocks: &[Entry], used: u32) -> Sector {
    list_of(order, blocks, used, 0)
}

/// The same, where the next of entry 0 says whether more lists follow.
pub fn list_of(order: Order, blocks: &[Entry], used: u32, next: u32) -> Sector {
    let mut sector = [0; 512];
    let first = Entry {
        bnum: 0,
        bsize: 0,
        next,
    };
    let head = ListHead {
        entries: blocks.len().min(30) as u16 + 1,
        used,
        last: next == 0,
    };
    let mut front = [0; 32];
    write_list(&head, &first, order, 512, &mut front);
    sector[..32].copy_from_slice(&front);
    for (k, block) in blocks.iter().enumerate() {
        if k < 30 {
            put_entry(&mut sector, 32 + 16 * k, block, order);
        }
    }
    sector
}

/// Writes an entry at a place, if it fits there.
pub fn put_entry(sector: &mut Sector, at: usize, entry: &Entry, order: Order) {
    if at <= 496 {
        let mut bytes = [0; 16];
        write_entry(entry, order, &mut bytes);
        sector[at..at + 16].copy_from_slice(&bytes);
    }
}

/// A journal header with its checksum made anew.
pub fn sealed_header(sector: &Sector, order: Order) -> Sector {
    let blank = with_number(sector, 36, 0, order);
    with_number(&blank, 36, checksum(&blank[..44]), order)
}

/// The header of a list with its checksum made anew.
pub fn sealed_list(sector: &Sector, order: Order) -> Sector {
    let blank = with_number(sector, 8, 0, order);
    with_number(&blank, 8, checksum(&blank[..32]), order)
}

/// A sector with one number changed.
pub fn with_number(sector: &Sector, at: usize, number: u32, order: Order) -> Sector {
    let mut changed = *sector;
    if at <= 508 {
        write_o32(&mut changed, at, number, order);
    }
    changed
}
