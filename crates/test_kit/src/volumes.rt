//! A small volume with a journal, made by hand.
use hx_bytes::{Order, Sector, write_be16, write_be32};
use jnl_format::{Header, Info, write_header, write_info};

/// The sector of its info block.
pub const INFO: u64 = 16;

/// The first sector of its journal.
pub const BASE: u64 = 24;

/// A volume header of so many blocks of 4,096 bytes, whose info block is block 2.
pub fn volume_header(version: u32, blocks: u32) -> Sector {
    let mut sector = [0; 512];
    write_be16(&mut sector, 0, 0x4858);
    write_be16(&mut sector, 2, 5);
    write_be32(&mut sector, 4, 0x2100);
    write_be32(&mut sector, 8, version);
    write_be32(&mut sector, 12, 2);
    write_be32(&mut sector, 40, 4096);
    write_be32(&mut sector, 44, blocks);
    sector
}

/// An info block that names a journal of so many bytes.
pub fn info_block(flags: u32, size: u64) -> Sector {
    let mut sector = [0; 512];
    let info = Info {
        flags,
        offset: BASE * 512,
        size,
    };
    write_info(&info, &mut sector);
    sector
}

/// A journal header, for lists whose headers have 512 bytes.
pub fn header_block(order: Order, start: u64, end: u64, size: u64) -> Sector {
    let mut sector = [0; 512];
    let header = Header {
        order,
        start,
        end,
        size,
        blhdr: 512,
    };
    write_header(&header, &mut sector);
    sector
}
