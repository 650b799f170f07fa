// How many barriers and device calls a run makes.
use crate::counting::Counting;
use hfsx_server::Status;
use hx_bytes::OutOfMemory;
use mem_disk::MemRig;
use std::alloc::{AllocError, Global};
use std::test::Fail;
use test_kit::{filling, fresh_rig, run_on, run_program};

const LINES: &[u8] =
    b"mkdir /d0\nsync\nmkdir /d1\nsync\nmkdir /d2\nsync\nmkdir /d3\nsync\nmkdir /d4\nsync\nmkdir /d5\nsync\nmkdir /d6\nsync\nmkdir /d7\nsync\nmkdir /d8\nsync\nmkdir /d9\nsync\n";

// Two of the replay and two of the mount's header, two for each of the ten folders, two of the header at the end, and two
// of the checkpoint behind it. A `sync` ends its batch, and its commit is that of the folder before it.
#[test]
fn a_run_calls_two_barriers_a_commit(rt: HostRuntime) -> Result<(), Fail> {
    let alloc = rt.alloc();
    let mut rig = Counting::over(fresh_rig(alloc)?);
    assert_eq!(rt;
        run_program(alloc, "run v.img", &mut rig, LINES, 64)?,
        Status::Done
    );
    assert_eq!(rt; rig.barriers, 28);
    Ok(())
}

// Serves lines that come at once; answers how the run ended.
fn run_at_once(alloc: Global, rig: &mut Counting, lines: &[u8]) -> Result<Status, OutOfMemory> {
    run_program(alloc, "run v.img", rig, lines, 65_536)
}

// A line so many times.
fn repeated(alloc: Global, line: &[u8], count: u32) -> Result<Vec<u8>, AllocError> {
    let mut lines = Vec::new(alloc);
    for _line in 0..count {
        lines.extend_from_slice(line)?;
    }
    Ok(lines)
}

// Forty lines that come at once are two batches, with two barriers each: twelve with those of the mount and of the end.
#[test]
fn lines_that_come_at_once_share_their_barriers(rt: HostRuntime) -> Result<(), Fail> {
    let alloc = rt.alloc();
    let mut input = Vec::new(alloc);
    for number in 0..40u8 {
        input.extend_from_slice(b"mkdir /a")?;
        if 9 < number {
            input.push(b'0' + number / 10)?;
        }
        input.push(b'0' + number % 10)?;
        input.push(b'\n')?;
    }
    let mut rig = Counting::over(fresh_rig(alloc)?);
    assert_eq!(rt; run_at_once(alloc, &mut rig, &input)?, Status::Done);
    assert_eq!(rt; rig.rig.told(), repeated(alloc, b"ok\n", 40)?.as_slice());
    assert!(rt; rig.barriers <= 12);
    Ok(())
}

// What was read once is read from memory.
#[test]
fn more_lines_that_read_the_same_make_no_more_calls(rt: HostRuntime) -> Result<(), Fail> {
    let alloc = rt.alloc();
    let mut one = fresh_rig(alloc)?;
    let mut other = fresh_rig(alloc)?;
    let few = repeated(alloc, b"ls /\n", 100)?;
    let many = repeated(alloc, b"ls /\n", 200)?;
    assert_eq!(rt; run_on(alloc, "run v.img", &mut one, &few)?, Status::Done);
    assert_eq!(rt;
        run_on(alloc, "run v.img", &mut other, &many)?,
        Status::Done
    );
    assert_eq!(rt; one.told(), repeated(alloc, b"ok 0\n", 100)?.as_slice());
    assert_eq!(rt; other.told(), repeated(alloc, b"ok 0\n", 200)?.as_slice());
    assert_eq!(rt; one.calls(), other.calls());
    Ok(())
}

const GROWING: &[u8] = b"mkdir /d\ncreate /d/x\nwrite /d/x 0 =y\nsync\ndf\n";

// The catalog, which those files fill, grows ahead of the first line. That is made durable by the commit of its batch: there is no barrier more
// than on a new volume, where no tree has to grow.
#[test]
fn a_tree_grows_in_the_commit_of_its_batch(rt: HostRuntime) -> Result<(), Fail> {
    let alloc = rt.alloc();
    let mut full = fresh_rig(alloc)?;
    let ended = run_on(alloc, "run v.img", &mut full, &filling(alloc, 80)?)?;
    assert_eq!(rt; ended, Status::Done);
    let mut grown = Counting::over(MemRig::from_image(alloc, &full.image(alloc, 1)?)?);
    let mut other = Counting::over(fresh_rig(alloc)?);
    assert_eq!(rt; run_at_once(alloc, &mut grown, GROWING)?, Status::Done);
    assert_eq!(rt; run_at_once(alloc, &mut other, GROWING)?, Status::Done);
    assert_eq!(rt;
        grown.rig.told(),
        b"ok\nok\nok\nok\nok 4096 2048 1675 1675 1982 0 16 15 3 80 25 0 16 15\n".as_slice()
    );
    assert_eq!(rt; grown.barriers, other.barriers);
    Ok(())
}
