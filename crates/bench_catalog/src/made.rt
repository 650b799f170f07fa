//! A catalog's file without a pair: its header node, in the first eight sectors (TN1150, "B-Trees").
use hx_bytes::{OutOfMemory, Sector, write_be16, write_be32};
use sector_kit::Sectors;
use std::alloc::Global;

/// The sectors of a node of 4,096 bytes.
pub const PER_NODE: u32 = 8;

/// The node descriptor, the header record and the map's first byte, which has the bit of the header node.
fn first_sector(nodes: u32) -> Sector {
    let mut sector = [0; 512];
    sector[8] = 1;
    write_be16(&mut sector, 10, 3);
    write_be16(&mut sector, 32, 4096);
    write_be16(&mut sector, 34, 516);
    write_be32(&mut sector, 36, nodes);
    write_be32(&mut sector, 40, nodes.saturating_sub(1));
    write_be32(&mut sector, 46, 4096);
    sector[51] = 0xBC;
    write_be32(&mut sector, 52, 6);
    sector[248] = 0x80;
    sector
}

/// The offsets of the header node's three records, and of the space behind them.
fn last_sector() -> Sector {
    let mut sector = [0; 512];
    write_be16(&mut sector, 504, 4088);
    write_be16(&mut sector, 506, 248);
    write_be16(&mut sector, 508, 120);
    write_be16(&mut sector, 510, 14);
    sector
}

/// So many nodes in a row, of which the first is the header node: 30,720 at most, whose bits it has room for.
pub fn bare_file(alloc: Global, nodes: u32) -> Result<Sectors, OutOfMemory> {
    let mut list = Vec::new(alloc);
    list.push(first_sector(nodes))?;
    for _between in 0..6u32 {
        list.push([0; 512])?;
    }
    list.push(last_sector())?;
    for _free in 8..u64::from(nodes) * u64::from(PER_NODE) {
        list.push([0; 512])?;
    }
    Ok(Sectors::new(list))
}
