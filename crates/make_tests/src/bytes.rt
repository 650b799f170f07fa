// The bytes of a volume of 16,384 sectors with blocks of 512 bytes, a journal of 2,048 sectors and the name `a`.
use crate::volumes::{OLD, formatted, has_bytes, sector_of, used_disk};
use std::test::Fail;

const HEADER: &[u8; 64] = &[
    0x48, 0x58, 0, 5, 0, 0, 0x21, 0, 0x48, 0x46, 0x53, 0x4A, 0, 0, 0, 7, 0, 0, 0, 0, 0, 0, 0, 0, 0,
    0, 0, 0, 0, 0, 0, 0, 0, 0, 0, 2, 0, 0, 0, 0, 0, 0, 2, 0, 0, 0, 0x40, 0, 0, 0, 0x34, 0xF6, 0, 0,
    0x0B, 8, 0, 0, 2, 0, 0, 0, 2, 0,
];

/// The startup fork: no byte, and a clump size.
const STARTUP: &[u8; 16] = &[0, 0, 0, 0, 0, 0, 0, 0, 0, 0, 2, 0, 0, 0, 0, 0];

/// Where the journal is, and its size.
const JOURNAL: &[u8; 16] = &[0, 0, 0, 0, 0, 0, 0x10, 0, 0, 0, 0, 0, 0, 0x10, 0, 0];

/// The journal's header, with the checksum 0x085A5B69.
const JOURNAL_HEADER: &[u8; 44] = &[
    0x78, 0x4C, 0x4E, 0x4A, 0x78, 0x56, 0x34, 0x12, 0, 2, 0, 0, 0, 0, 0, 0, 0, 2, 0, 0, 0, 0, 0, 0,
    0, 0, 0x10, 0, 0, 0, 0, 0, 0, 0x10, 0, 0, 0x69, 0x5B, 0x5A, 8, 0, 2, 0, 0,
];

/// The leaf's descriptor and the root's key.
const LEAF: &[u8; 34] = &[
    0, 0, 0, 0, 0, 0, 0, 0, 0xFF, 1, 0, 6, 0, 0, 0, 8, 0, 0, 0, 1, 0, 1, 0, 0x61, 0, 1, 0, 0, 0, 0,
    0, 2, 0, 0,
];

/// The places of its six records and of the free space, from the last one on.
const OFFSETS: &[u8; 14] = &[
    0x03, 0x14, 0x02, 0xF2, 0x02, 0xBA, 0x01, 0x94, 0x00, 0x84, 0x00, 0x70, 0x00, 0x0E,
];

#[test]
fn the_parts_have_their_bytes(rt: HostRuntime) -> Result<(), Fail> {
    let alloc = rt.alloc();
    let mut rig = used_disk(alloc, 16_384)?;
    let made = formatted(alloc, &mut rig, 512, 2_048, "a")?;
    assert_eq!(rt; made.is_ok(), true);
    // Sectors, places in them, and bytes. In the bitmap block 2,823 is the last one that is used before the free ones, and the
    // last two are used.
    let rows: [(u64, usize, &[u8]); 9] = [
        (2, 0, HEADER),
        (2, 432, STARTUP),
        (3, 352, &[0xFF, 0]),
        (6, 510, &[0, 3]),
        (7, 0, &[0, 0, 0, 1]),
        (7, 36, JOURNAL),
        (8, 0, JOURNAL_HEADER),
        (2_320, 0, LEAF),
        (2_327, 498, OFFSETS),
    ];
    for (at, place, bytes) in rows {
        assert_eq!(rt; has_bytes(&mut rig, at, place, bytes), true);
    }
    assert_eq!(rt; sector_of(&mut rig, 16_382), sector_of(&mut rig, 2));
    Ok(())
}

#[test]
fn what_has_no_record_is_zero_and_what_has_no_part_stays(rt: HostRuntime) -> Result<(), Fail> {
    let alloc = rt.alloc();
    let mut rig = used_disk(alloc, 16_384)?;
    let made = formatted(alloc, &mut rig, 512, 2_048, "a")?;
    assert_eq!(rt; made.is_ok(), true);
    // The journal behind its header, and all nodes behind the first ones of the three trees.
    for (first, end) in [(9, 2_056), (2_064, 2_184), (2_192, 2_312), (2_328, 2_824)] {
        for at in first..end {
            assert_eq!(rt; sector_of(&mut rig, at), [0; 512]);
        }
    }
    // The reserved front and end, and free blocks.
    for at in [0, 1, 2_824, 9_000, 16_381, 16_383] {
        assert_eq!(rt; sector_of(&mut rig, at), [OLD; 512]);
    }
    Ok(())
}
