//! Writes, reads, growing and shrinking at every border of blocks and extents.
use crate::calls::read_part;
use crate::file::File;
use crate::making::make;
use crate::moves::{clear, cut_to, extend_to, put};
use crate::plain::{Border, byte_at, place_at};
use std::alloc::Global;
use std::process::Abort;
use std::test::Fail;

const BLOCK_SIZES: [u32; 8] = [512, 1024, 2048, 4096, 8192, 16384, 32768, 65536];

const PLACES: [Border; 9] = [
    (0, 0, 0),
    (0, 1, 0),
    (0, 511, 0),
    (0, 512, 0),
    (1, 0, 1),
    (1, 0, 0),
    (1, 1, 0),
    (3, 0, 1),
    (4, 0, 0),
];

const LENGTHS: [Border; 9] = [
    (0, 0, 0),
    (0, 1, 0),
    (0, 2, 0),
    (0, 511, 0),
    (0, 513, 0),
    (1, 0, 1),
    (1, 0, 0),
    (1, 1, 0),
    (2, 1, 0),
];

/// Two writes over one another in a file of a block and 300 bytes.
fn writes_twice(
    rt: &impl Abort,
    alloc: Global,
    file: &mut File,
    from: u64,
    length: u64,
) -> Result<(), Fail> {
    clear(rt, alloc, file)?;
    put(rt, alloc, file, 0, place_at(file.block, (1, 300, 0)), 3)?;
    put(rt, alloc, file, from, length, 0x55)?;
    put(rt, alloc, file, from / 2, length / 2, 0x6A)
}

fn writes_from(rt: &impl Abort, alloc: Global, file: &mut File, from: Border) -> Result<(), Fail> {
    let from = place_at(file.block, from);
    for length in LENGTHS {
        writes_twice(rt, alloc, file, from, place_at(file.block, length))?;
    }
    Ok(())
}

#[test]
fn writes_at_every_border(rt: HostRuntime) -> Result<(), Fail> {
    for block in BLOCK_SIZES {
        let mut file = make(rt.alloc(), block)?;
        for from in PLACES {
            writes_from(&rt, rt.alloc(), &mut file, from)?;
        }
    }
    Ok(())
}

/// A number of bytes, of a mebibyte at most.
fn length_at(block: u32, length: Border) -> u32 {
    place_at(block, length).min(1 << 20) as u32
}

/// Looks whether these bytes are those of a plain array from a place on, so many or fewer where it ends.
fn is_part(rt: &impl Abort, bytes: &[u8], plain: &[u8], from: u64, count: u64) {
    let left = (plain.len() as u64).saturating_sub(from);
    assert_eq!(rt; bytes.len() as u64, left.min(count));
    for at in 0..bytes.len() as u64 {
        assert_eq!(rt; byte_at(bytes, at), byte_at(plain, from.saturating_add(at)));
    }
}

fn reads_part(
    rt: &impl Abort,
    alloc: Global,
    file: &mut File,
    from: u64,
    count: u32,
) -> Result<(), Fail> {
    let bytes = read_part(rt, alloc, file, from, count)?;
    is_part(
        rt,
        bytes.as_slice(),
        file.plain.as_slice(),
        from,
        u64::from(count),
    );
    Ok(())
}

fn reads_from(rt: &impl Abort, alloc: Global, file: &mut File, from: Border) -> Result<(), Fail> {
    let from = place_at(file.block, from);
    for length in LENGTHS {
        reads_part(rt, alloc, file, from, length_at(file.block, length))?;
    }
    Ok(())
}

#[test]
fn reads_at_every_border(rt: HostRuntime) -> Result<(), Fail> {
    for block in BLOCK_SIZES {
        let mut file = make(rt.alloc(), block)?;
        put(
            &rt,
            rt.alloc(),
            &mut file,
            0,
            place_at(block, (4, 100, 0)),
            7,
        )?;
        put(&rt, rt.alloc(), &mut file, block as u64, 1, 9)?;
        for from in PLACES {
            reads_from(&rt, rt.alloc(), &mut file, from)?;
        }
    }
    Ok(())
}

/// Makes a file of four blocks shorter and then longer: what was cut off is zeros.
fn shrinks_and_grows(
    rt: &impl Abort,
    alloc: Global,
    file: &mut File,
    small: u64,
    large: u64,
) -> Result<(), Fail> {
    clear(rt, alloc, file)?;
    put(rt, alloc, file, 0, place_at(file.block, (4, 0, 0)), 9)?;
    cut_to(rt, alloc, file, small)?;
    extend_to(rt, alloc, file, large)
}

#[test]
fn a_file_that_grows_again_has_zeros(rt: HostRuntime) -> Result<(), Fail> {
    for block in BLOCK_SIZES {
        let mut file = make(rt.alloc(), block)?;
        let sizes: [(Border, Border); 7] = [
            ((0, 0, 0), (0, 1, 0)),
            ((0, 1, 0), (0, 1, 0)),
            ((1, 0, 1), (1, 0, 0)),
            ((1, 0, 0), (1, 1, 0)),
            ((0, 100, 0), (5, 0, 0)),
            ((3, 5, 0), (3, 6, 0)),
            ((4, 0, 1), (5, 0, 1)),
        ];
        for (small, large) in sizes {
            shrinks_and_grows(
                &rt,
                rt.alloc(),
                &mut file,
                place_at(block, small),
                place_at(block, large),
            )?;
        }
    }
    Ok(())
}
