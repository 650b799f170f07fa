//! Records and keys by hand, from TN1150's tables. In most records each byte is its own offset.
use super::*;
use hx_bytes::{Bytes, Extent, ExtentRecord, ForkRecord, Units};
use std::alloc::Global;
use std::test::*;

fn folder_bytes() -> [u8; 88] {
    let mut bytes = [0; 88];
    for (at, byte) in bytes.iter_mut().enumerate() {
        *byte = at as u8;
    }
    bytes
}

fn file_bytes() -> [u8; 248] {
    let mut bytes = [0; 248];
    for (at, byte) in bytes.iter_mut().enumerate() {
        *byte = at as u8;
    }
    bytes[1] = 2;
    bytes
}

fn fields() -> EntryFields {
    let mut finder = [0; 32];
    for (at, byte) in finder.iter_mut().enumerate() {
        *byte = 48 + at as u8;
    }
    EntryFields {
        flags: 0x0203,
        count: 0x0405_0607,
        id: 0x0809_0A0B,
        created: 0x0C0D_0E0F,
        changed: 0x1011_1213,
        attribute: 0x1415_1617,
        accessed: 0x1819_1A1B,
        backup: 0x1C1D_1E1F,
        owner: 0x2021_2223,
        group: 0x2425_2627,
        admin_flags: 0x28,
        owner_flags: 0x29,
        mode: 0x2A2B,
        special: 0x2C2D_2E2F,
        finder,
        encoding: 0x5051_5253,
        rest: 0x5455_5657,
    }
}

fn extent(start: u32, count: u32) -> Extent {
    Extent { start, count }
}

fn resource_fork() -> ForkRecord {
    ForkRecord {
        logical_size: 0xA8A9_AAAB_ACAD_AEAF,
        clump_size: 0xB0B1_B2B3,
        total_blocks: 0xB4B5_B6B7,
        extents: ExtentRecord {
            extents: [
                extent(0xB8B9_BABB, 0xBCBD_BEBF),
                extent(0xC0C1_C2C3, 0xC4C5_C6C7),
                extent(0xC8C9_CACB, 0xCCCD_CECF),
                extent(0xD0D1_D2D3, 0xD4D5_D6D7),
                extent(0xD8D9_DADB, 0xDCDD_DEDF),
                extent(0xE0E1_E2E3, 0xE4E5_E6E7),
                extent(0xE8E9_EAEB, 0xECED_EEEF),
                extent(0xF0F1_F2F3, 0xF4F5_F6F7),
            ],
        },
    }
}

/// The record of these bytes, written again.
fn catalog_again(alloc: Global, bytes: &[u8]) -> Result<Bytes, Fail> {
    let found = read_catalog(alloc, bytes).ok().ok_or("a record")?;
    Ok(write_catalog(alloc, &found).ok().ok_or("memory")?)
}

fn attr_again(alloc: Global, bytes: &[u8]) -> Result<Bytes, Fail> {
    let found = read_attr(alloc, bytes).ok().ok_or("a record")?;
    Ok(write_attr(alloc, &found).ok().ok_or("memory")?)
}

#[test]
fn a_folder_is_read(rt: HostRuntime) {
    let found = read_catalog(rt.alloc(), &folder_bytes());
    assert!(rt; matches!(found, Ok(CatRecord::Folder(folder)) if folder.fields == fields()));
}

#[test]
fn a_file_is_read(rt: HostRuntime) -> Result<(), Fail> {
    match read_catalog(rt.alloc(), &file_bytes()) {
        Ok(CatRecord::File(file)) => {
            assert!(rt; file.fields == fields());
            assert_eq!(rt; file.data_fork.total_blocks, 0x6465_6667);
            assert!(rt; file.resource_fork == resource_fork());
        }
        _ => return Err("a file".into()),
    }
    Ok(())
}

const THREAD: [u8; 14] = [0, 4, 0xFF, 0xFE, 0, 0, 0, 2, 0, 2, 0, 0x61, 0xD8, 1];

#[test]
fn a_thread_is_read(rt: HostRuntime) -> Result<(), Fail> {
    match read_catalog(rt.alloc(), &THREAD) {
        Ok(CatRecord::Thread(thread)) => {
            assert!(rt; thread.of_file && thread.spare == -2 && thread.parent == 2);
            assert_eq!(rt; thread.name.as_slice(), [0x61, 0xD801].as_slice());
        }
        _ => return Err("a thread".into()),
    }
    Ok(())
}

#[test]
fn catalog_records_are_written_again(rt: HostRuntime) -> Result<(), Fail> {
    let folder = catalog_again(rt.alloc(), &folder_bytes())?;
    assert!(rt; folder.as_slice() == folder_bytes().as_slice());
    let file = catalog_again(rt.alloc(), &file_bytes())?;
    assert!(rt; file.as_slice() == file_bytes().as_slice());
    let thread = catalog_again(rt.alloc(), &THREAD)?;
    assert!(rt; thread.as_slice() == THREAD.as_slice());
    Ok(())
}

#[test]
fn what_is_no_catalog_record_is_told(rt: HostRuntime) {
    // the first bytes of a record, its length, and the type that is told with the length
    let cases: [(u8, u8, usize, u16); 9] = [
        (0, 1, 87, 1),
        (0, 0, 0, 0),
        (0, 1, 1, 0),
        (0, 0, 88, 0),
        (0, 2, 247, 2),
        (1, 1, 88, 0x0101),
        (0, 3, 9, 3),
        (0, 4, 12, 4),
        (0, 5, 88, 5),
    ];
    for (high, low, length, kind) in cases {
        let mut bytes = [0; 248];
        bytes[0] = high;
        bytes[1] = low;
        let found = read_catalog(rt.alloc(), &bytes[..length.min(248)]);
        let told = RecordFault::BadRecord {
            kind,
            length: length.min(248) as u32,
        };
        assert!(rt;
            matches!(found, Err(fault) if fault == told),
            "type {kind}, {length} bytes"
        );
    }
}

#[test]
fn a_value_is_read_and_written_clean(rt: HostRuntime) -> Result<(), Fail> {
    let found = [
        0, 0, 0, 0x10, 1, 2, 3, 4, 5, 6, 7, 8, 0, 0, 0, 3, 0xA, 0xB, 0xC, 9,
    ];
    let clean = [
        0, 0, 0, 0x10, 0, 0, 0, 0, 0, 0, 0, 0, 0, 0, 0, 3, 0xA, 0xB, 0xC, 0,
    ];
    let written = attr_again(rt.alloc(), &found)?;
    assert!(rt; written.as_slice() == clean.as_slice());
    match read_attr(rt.alloc(), &found) {
        Ok(AttrRecord::Inline(value)) => {
            assert_eq!(rt; value.as_slice(), [0xA, 0xB, 0xC].as_slice());
        }
        _ => return Err("a value".into()),
    }
    Ok(())
}

#[test]
fn forks_of_attributes_are_read_and_written(rt: HostRuntime) -> Result<(), Fail> {
    let mut fork = [0; 88];
    fork[3] = 0x20;
    fork[8..88].copy_from_slice(&file_bytes()[168..248]);
    let found = read_attr(rt.alloc(), &fork);
    assert!(rt; matches!(found, Ok(AttrRecord::Fork(found)) if found == resource_fork()));
    let written = attr_again(rt.alloc(), &fork)?;
    assert!(rt; written.as_slice() == fork.as_slice());
    Ok(())
}

#[test]
fn more_extents_are_read_and_written(rt: HostRuntime) -> Result<(), Fail> {
    let mut more = [0; 72];
    more[3] = 0x30;
    more[8..72].copy_from_slice(&file_bytes()[184..248]);
    let found = read_attr(rt.alloc(), &more);
    assert!(rt; matches!(found, Ok(AttrRecord::More(found)) if found == resource_fork().extents));
    let written = attr_again(rt.alloc(), &more)?;
    assert!(rt; written.as_slice() == more.as_slice());
    Ok(())
}

#[test]
fn what_is_no_attribute_record_is_told(rt: HostRuntime) {
    // bytes 1 and 3 of the type, the size of a value, the length, and the type that is told with it
    let cases: [(u8, u8, u8, usize, u16); 8] = [
        (0, 0, 0, 0, 0),
        (0, 0x10, 0, 3, 0),
        (0, 0x10, 0, 15, 0x10),
        (0, 0x10, 1, 17, 0x10),
        (0, 0x10, 2, 17, 0x10),
        (1, 0x10, 0, 16, 0x10),
        (0, 0x20, 0, 87, 0x20),
        (0, 0x30, 0, 88, 0x30),
    ];
    for (high, low, size, length, kind) in cases {
        let mut bytes = [0; 88];
        bytes[1] = high;
        bytes[3] = low;
        bytes[15] = size;
        let found = read_attr(rt.alloc(), &bytes[..length.min(88)]);
        let told = RecordFault::BadRecord {
            kind,
            length: length.min(88) as u32,
        };
        assert!(rt;
            matches!(found, Err(fault) if fault == told),
            "type {kind}, {length} bytes"
        );
    }
}

#[test]
fn keys_are_spelled(rt: HostRuntime) -> Result<(), Fail> {
    let name = Units::from_vec(Vec::from_slice(rt.alloc(), &[0x61, 0x0301])?);
    let key = catalog_key(rt.alloc(), 18, &name).ok().ok_or("memory")?;
    let want = [0, 10, 0, 0, 0, 18, 0, 2, 0, 0x61, 3, 1];
    assert!(rt; key.as_slice() == want.as_slice());
    let key = attr_key(rt.alloc(), 18, &name, 5).ok().ok_or("memory")?;
    let want = [0, 16, 0, 0, 0, 0, 0, 18, 0, 0, 0, 5, 0, 2, 0, 0x61, 3, 1];
    assert!(rt; key.as_slice() == want.as_slice());
    let want = [0, 10, 0xFF, 0, 0, 0, 0, 18, 0, 0, 0, 5];
    assert!(rt; extent_key(0xFF, 18, 5) == want);
    Ok(())
}
