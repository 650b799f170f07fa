//! Files whose bytes and blocks are known beforehand.
use crate::calls::read_part;
use crate::file::File;
use crate::making::{first_used, make, make_with};
use crate::moves::{cut_to, extend_to, put_value};
use fork_map::ExtentList;
use std::alloc::Global;
use std::mem;
use std::process::Abort;
use std::test::Fail;

/// Something done to a file, or what it must be.
#[derive(Clone, Copy)]
enum Step {
    /// Bytes are written from a place on.
    Put(u64, &'static [u8]),
    CutTo(u64),
    ExtendTo(u64),
    /// So many bytes from a place on are these.
    Reads(u64, u32, &'static [u8]),
    /// It has so many bytes, in so many extents.
    Has(u64, usize),
}

fn reads_as(
    rt: &impl Abort,
    alloc: Global,
    file: &mut File,
    from: u64,
    count: u32,
    want: &[u8],
) -> Result<(), Fail> {
    let bytes = read_part(rt, alloc, file, from, count)?;
    assert!(rt; bytes.as_slice() == want);
    Ok(())
}

fn play(rt: &impl Abort, alloc: Global, file: &mut File, step: Step) -> Result<(), Fail> {
    match step {
        Step::Put(from, value) => put_value(rt, alloc, file, from, value),
        Step::CutTo(size) => cut_to(rt, alloc, file, size),
        Step::ExtendTo(size) => extend_to(rt, alloc, file, size),
        Step::Reads(from, count, want) => reads_as(rt, alloc, file, from, count, want),
        Step::Has(size, extents) => {
            assert_eq!(rt; (file.size, file.fork.len()), (size, extents));
            Ok(())
        }
    }
}

fn play_all(rt: &impl Abort, alloc: Global, steps: &[Step]) -> Result<(), Fail> {
    let mut file = make(alloc, 4096)?;
    for step in steps {
        play(rt, alloc, &mut file, *step)?;
    }
    Ok(())
}

// Five bytes at 5 and four at 4,094, over the end of the first block.
const GAPS: [Step; 6] = [
    Step::Put(5, b"hello"),
    Step::Has(10, 1),
    Step::Put(4094, b"wxyz"),
    Step::Reads(4092, 10, b"\0\0wxyz"),
    Step::Reads(0, 11, b"\0\0\0\0\0hello\0"),
    Step::Has(4098, 1),
];

#[test]
fn gaps_read_as_zeros(rt: HostRuntime) -> Result<(), Fail> {
    play_all(&rt, rt.alloc(), &GAPS)
}

const CUT_OFF: [Step; 7] = [
    Step::Put(0, b""),
    Step::Has(0, 0),
    Step::Put(0, b"a"),
    Step::CutTo(0),
    Step::Has(0, 0),
    Step::ExtendTo(3),
    Step::Reads(0, 5, b"\0\0\0"),
];

#[test]
fn a_byte_that_was_cut_off_is_gone(rt: HostRuntime) -> Result<(), Fail> {
    play_all(&rt, rt.alloc(), &CUT_OFF)
}

/// Another file of the same volume.
#[derive(Drop)]
struct Other {
    fork: ExtentList,
    size: u64,
    plain: Vec<u8>,
}

fn turn_to_other(file: &mut File, other: &mut Other) {
    mem::swap(&mut file.fork, &mut other.fork);
    mem::swap(&mut file.size, &mut other.size);
    mem::swap(&mut file.plain, &mut other.plain);
}

/// Does the same to one file and then to the other.
fn play_both(
    rt: &impl Abort,
    alloc: Global,
    file: &mut File,
    other: &mut Other,
    step: Step,
) -> Result<(), Fail> {
    for _ in 0..2u8 {
        play(rt, alloc, file, step)?;
        turn_to_other(file, other);
    }
    Ok(())
}

fn grow_in_turn(
    rt: &impl Abort,
    alloc: Global,
    file: &mut File,
    other: &mut Other,
) -> Result<(), Fail> {
    for blocks in 1..10u64 {
        play_both(rt, alloc, file, other, Step::ExtendTo(blocks * 4096))?;
    }
    Ok(())
}

/// Cuts each of both files to eight blocks, and says how many blocks more are free then.
fn cut_both(
    rt: &impl Abort,
    alloc: Global,
    file: &mut File,
    other: &mut Other,
) -> Result<u32, Fail> {
    let free = file.map.count_all();
    play_both(rt, alloc, file, other, Step::CutTo(32_768))?;
    Ok(file.map.count_all().saturating_sub(free))
}

// Of one free run, each file gets a block in turn: nine extents. The ninth goes as each is cut to eight blocks.
#[test]
fn files_that_grow_in_turn_have_an_extent_a_block(rt: HostRuntime) -> Result<(), Fail> {
    let mut file = make_with(rt.alloc(), 4096, first_used())?;
    let mut other = Other {
        fork: ExtentList::new(rt.alloc()),
        size: 0,
        plain: Vec::new(rt.alloc()),
    };
    grow_in_turn(&rt, rt.alloc(), &mut file, &mut other)?;
    play_both(&rt, rt.alloc(), &mut file, &mut other, Step::Has(36_864, 9))?;
    let more = cut_both(&rt, rt.alloc(), &mut file, &mut other)?;
    assert_eq!(rt; more, 2);
    play_both(&rt, rt.alloc(), &mut file, &mut other, Step::Has(32_768, 8))
}
