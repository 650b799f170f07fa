//! Volumes of 96 blocks with an empty file.
use crate::file::File;
use crate::sectors::Sectors;
use alloc_bitmap::Bitmap;
use fork_map::ExtentList;
use hx_bytes::Extent;
use std::alloc::Global;
use std::test::Fail;

pub const BLOCKS: u32 = 96;

/// The bits of a bitmap whose first nine blocks are used, and of the others each first, fifth and seventh of nine: so free
/// runs have three blocks, one and two.
pub fn used_bits() -> [u8; 512] {
    let mut bits = [0; 512];
    for block in 0..BLOCKS as usize {
        let in_nine = block % 9;
        if block < 9 || in_nine == 0 || in_nine == 4 || in_nine == 6 {
            bits[block / 8] |= 0x80 >> (block % 8);
        }
    }
    bits
}

/// The bits of a bitmap whose first nine blocks are used, and no other.
pub fn first_used() -> [u8; 512] {
    let mut bits = [0; 512];
    bits[0] = 0xFF;
    bits[1] = 0x80;
    bits
}

pub fn make(alloc: Global, block: u32) -> Result<File, Fail> {
    make_with(alloc, block, used_bits())
}

/// An empty file in a volume whose sectors aren't zeros.
pub fn make_with(alloc: Global, block: u32, used: [u8; 512]) -> Result<File, Fail> {
    let mut bits = Vec::new(alloc);
    bits.push(used)?;
    let mut bitmap = Sectors {
        list: bits,
        spills_left: 0,
        faults: 0,
    };
    let mut fork = ExtentList::new(alloc);
    fork.push(Extent { start: 0, count: 1 })?;
    let map = Bitmap::load(alloc, &mut bitmap, &fork, BLOCKS, 512)?;
    let mut list = Vec::new(alloc);
    for _ in 0..BLOCKS as u64 * (block as u64 / 512) {
        list.push([0xA5; 512])?;
    }
    Ok(File {
        space: Sectors {
            list,
            spills_left: u64::MAX,
            faults: 0,
        },
        map,
        fork: ExtentList::new(alloc),
        block,
        size: 0,
        plain: Vec::new(alloc),
    })
}
