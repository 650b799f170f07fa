//! The header of a fresh volume of 16,384 sectors in blocks of 4,096 bytes, by hand from the layout of
//! such a volume and TN1150's table of the header's fields.
use super::*;
use hx_bytes::{Extent, ExtentRecord, ForkRecord, Sector};
use std::test::*;

#[rattlefmt::skip]
const FRONT: [u8; 112] = [
    b'H', b'X', 0, 5, // signature, version
    0, 0, 0x21, 0, // attributes: unmounted, journaled
    b'H', b'F', b'S', b'J', // last mounted version
    0, 0, 0, 2, // journal info block
    0, 0, 0, 0, 0, 0, 0, 0, 0, 0, 0, 0, 0, 0, 0, 0, // dates
    0, 0, 0, 2, // files
    0, 0, 0, 0, // folders
    0, 0, 0x10, 0, // block size
    0, 0, 8, 0, // blocks
    0, 0, 6, 0x9C, // free blocks
    0, 0, 1, 0x63, // next allocation
    0, 0, 0x10, 0, // resource clump size
    0, 0, 0x10, 0, // data clump size
    0, 0, 0, 18, // next catalog id
    0, 0, 0, 0, // write count
    0, 0, 0, 0, 0, 0, 0, 1, // encodings
    0, 0, 0, 0, 0, 0, 0, 0, 0, 0, 0, 0, 0, 0, 0, 0, // for the Finder
    0, 0, 0, 0, 0, 0, 0, 0, 0, 0, 0, 0, 0, 0, 0, 0,
];

// each: size, clump size, blocks, first extent
const ALLOCATION: [u8; 24] = [
    0, 0, 0, 0, 0, 0, 0x10, 0, 0, 0, 0x10, 0, 0, 0, 0, 1, 0, 0, 0, 1, 0, 0, 0, 1,
];

const EXTENTS: [u8; 24] = [
    0, 0, 0, 0, 0, 1, 0, 0, 0, 0, 0x10, 0, 0, 0, 0, 16, 0, 0, 1, 3, 0, 0, 0, 16,
];

const CATALOG: [u8; 24] = [
    0, 0, 0, 0, 0, 4, 0, 0, 0, 0, 0x10, 0, 0, 0, 0, 64, 0, 0, 1, 0x23, 0, 0, 0, 64,
];

const ATTRIBUTES: [u8; 24] = [
    0, 0, 0, 0, 0, 1, 0, 0, 0, 0, 0x10, 0, 0, 0, 0, 16, 0, 0, 1, 0x13, 0, 0, 0, 16,
];

fn fresh_sector() -> Sector {
    let mut sector = [0; 512];
    sector[0..112].copy_from_slice(&FRONT);
    sector[112..136].copy_from_slice(&ALLOCATION);
    sector[192..216].copy_from_slice(&EXTENTS);
    sector[272..296].copy_from_slice(&CATALOG);
    sector[352..376].copy_from_slice(&ATTRIBUTES);
    sector
}

fn fork(logical_size: u64, total_blocks: u32, start: u32) -> ForkRecord {
    let mut extents = [Extent { start: 0, count: 0 }; 8];
    extents[0] = Extent {
        start,
        count: total_blocks,
    };
    ForkRecord {
        logical_size,
        clump_size: 4096,
        total_blocks,
        extents: ExtentRecord { extents },
    }
}

fn fresh_header() -> VolumeHeader {
    VolumeHeader {
        signature: 0x4858,
        version: 5,
        attributes: 0x0000_2100,
        last_mounted_version: 0x4846_534A,
        journal_info_block: 2,
        create_date: 0,
        modify_date: 0,
        backup_date: 0,
        checked_date: 0,
        file_count: 2,
        folder_count: 0,
        block_size: 4096,
        total_blocks: 2048,
        free_blocks: 1692,
        next_allocation: 355,
        rsrc_clump_size: 4096,
        data_clump_size: 4096,
        next_catalog_id: 18,
        write_count: 0,
        encodings_bitmap: 1,
        finder_info: [0; 32],
        allocation_fork: fork(4096, 1, 1),
        extents_fork: fork(65_536, 16, 259),
        catalog_fork: fork(262_144, 64, 291),
        attributes_fork: fork(65_536, 16, 275),
        startup_fork: ForkRecord {
            logical_size: 0,
            clump_size: 0,
            total_blocks: 0,
            extents: ExtentRecord {
                extents: [Extent { start: 0, count: 0 }; 8],
            },
        },
    }
}

#[test]
fn a_fresh_header_is_read_and_written(rt: HostRuntime) {
    assert_eq!(rt; read_header(&fresh_sector(), 16_384), Ok(fresh_header()));
    let mut written = [0xFF; 512];
    write_header(&fresh_header(), &mut written);
    assert!(rt; written == fresh_sector());
}

#[test]
fn the_first_reason_is_told(rt: HostRuntime) {
    // the byte that is changed, what it becomes, the sectors of the volume, the reason
    let cases = [
        (0, b'H', 2_047, HeaderRefusal::LimitSectors(2_047)),
        (
            0,
            b'h',
            2_147_483_649,
            HeaderRefusal::LimitSectors(2_147_483_649),
        ),
        (
            1,
            b'+',
            16_384,
            HeaderRefusal::NotHfsx {
                signature: 0x482B,
                version: 5,
            },
        ),
        (
            3,
            4,
            16_384,
            HeaderRefusal::NotHfsx {
                signature: 0x4858,
                version: 4,
            },
        ),
        (42, 0x11, 16_384, HeaderRefusal::BadGeometry(40)),
        (42, 1, 16_384, HeaderRefusal::BadGeometry(40)),
        (42, 0x20, 16_384, HeaderRefusal::BadGeometry(44)),
        (47, 1, 16_384, HeaderRefusal::BadGeometry(44)),
        (0, b'H', 16_392, HeaderRefusal::BadGeometry(44)),
        (14, 8, 16_384, HeaderRefusal::BadGeometry(12)),
        (6, 0x11, 16_384, HeaderRefusal::NotJournaled),
        (6, 0x31, 16_384, HeaderRefusal::IdsReused),
    ];
    for (at, byte, sectors, reason) in cases {
        let mut sector = fresh_sector();
        if at < 512 {
            sector[at] = byte;
        }
        assert_eq!(rt;
            read_header(&sector, sectors),
            Err(reason),
            "byte {at} is {byte}"
        );
    }
}

#[test]
fn attribute_bits_are_told(rt: HostRuntime) {
    let mut head = fresh_header();
    assert!(rt; head.is_unmounted() && head.is_journaled());
    assert!(rt; !head.has_ids_reused() && !head.is_locked());
    head.attributes = 0x9000;
    assert!(rt; head.has_ids_reused() && head.is_locked());
    header_round_trip();
}
