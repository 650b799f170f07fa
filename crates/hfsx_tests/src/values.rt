// Values of attributes: in their records, and in blocks of their own.
use hfsx_server::Status;
use hx_bytes::OutOfMemory;
use mem_disk::MemRig;
use std::alloc::Global;
use std::test::Fail;
use test_kit::{fresh_rig, lengthened, run_on};

// Whether a run of these lines ends well and tells this, where a tilde stands for so many letters in both.
fn tells(
    alloc: Global,
    rig: &mut MemRig,
    letters: usize,
    lines: &[u8],
    told: &[u8],
) -> Result<bool, OutOfMemory> {
    let image = rig.image(alloc, 1)?;
    *rig = MemRig::from_image(alloc, &image)?;
    let input = lengthened(alloc, lines, letters)?;
    let ended = run_on(alloc, "run v.img", rig, &input)?;
    let wanted = lengthened(alloc, told, letters)?;
    Ok(ended == Status::Done && rig.told() == wanted.as_slice())
}

// Whether a check finds nothing, and counts so many free blocks beside one file.
fn is_clean(alloc: Global, rig: &MemRig, told: &[u8]) -> Result<bool, OutOfMemory> {
    let image = rig.image(alloc, 1)?;
    let mut checked = MemRig::from_image(alloc, &image)?;
    let ended = run_on(alloc, "check v.img", &mut checked, b"")?;
    Ok(ended == Status::Done && checked.told() == told)
}

const SHORTEST: &[u8] = b"clean files 3 folders 0 blocks 2048 free 1692\n";

// A value of 1,700 bytes stands in its record, and one byte more has a block.
#[test]
fn values_of_1_700_and_1_701_bytes_are_set(rt: HostRuntime) -> Result<(), Fail> {
    let alloc = rt.alloc();
    for (letters, free) in [
        (1_700, SHORTEST),
        (1_701, b"clean files 3 folders 0 blocks 2048 free 1691\n"),
    ] {
        let mut rig = fresh_rig(alloc)?;
        assert!(rt;
            tells(
                alloc,
                &mut rig,
                letters,
                b"create /a\nsetattr /a k =~\n",
                b"ok\nok\n"
            )?
        );
        assert!(rt; is_clean(alloc, &rig, free)?);
        let lines =
            b"getattr /a k\nsetattr /a e =\ngetattr /a e\nln /a /b\nlsattr /b\ndelattr /b k\ngetattr /a k\n".as_slice();
        let told = b"ok =~\nok\nok =\nok\nok 2 e k\nok\nno NoAttribute\n".as_slice();
        assert!(rt; tells(alloc, &mut rig, letters, lines, told)?);
    }
    Ok(())
}

// The longest value has 32 blocks, which are free again where a short one takes its place; then none is left.
#[test]
fn the_blocks_of_the_longest_value_are_given_back(rt: HostRuntime) -> Result<(), Fail> {
    let alloc = rt.alloc();
    let mut rig = fresh_rig(alloc)?;
    let lines =
        b"create /a\nsetattr /a k =~\nsync\ndf\nsetattr /a k =y\nsync\ndf\ndelattr /a k\nsync\ndf\n".as_slice();
    let told =
        b"ok\nok\nok\nok 4096 2048 1660 1660 1982 0 16 15 1 64 62 1 16 14\nok\nok\nok 4096 2048 1692 1692 1982 0 16 15 1 64 62 1 16 14\nok\nok\nok 4096 2048 1692 1692 1982 0 16 15 1 64 62 0 16 15\n".as_slice();
    assert!(rt; tells(alloc, &mut rig, 131_072, lines, told)?);
    assert!(rt; is_clean(alloc, &rig, SHORTEST)?);
    Ok(())
}

#[test]
fn the_longest_value_is_read_back(rt: HostRuntime) -> Result<(), Fail> {
    let alloc = rt.alloc();
    let mut rig = fresh_rig(alloc)?;
    let lines = b"create /a\nsetattr /a k =~\n".as_slice();
    assert!(rt; tells(alloc, &mut rig, 131_072, lines, b"ok\nok\n")?);
    assert!(rt;
        is_clean(
            alloc,
            &rig,
            b"clean files 3 folders 0 blocks 2048 free 1660\n"
        )?
    );
    assert!(rt; tells(alloc, &mut rig, 131_072, b"getattr /a k\n", b"ok =~\n")?);
    Ok(())
}

#[test]
fn a_byte_more_is_too_large(rt: HostRuntime) -> Result<(), Fail> {
    let alloc = rt.alloc();
    let mut rig = fresh_rig(alloc)?;
    let lines = b"create /a\nsetattr /a k =~\nlsattr /a\nsetattr /b k =~\n".as_slice();
    let told = b"ok\nno AttributeTooLarge\nok 0\nno NotFound\n".as_slice();
    assert!(rt; tells(alloc, &mut rig, 131_073, lines, told)?);
    Ok(())
}

// A value that stands in its record stays there until its attribute is set anew, and then it is where its length has it.
#[test]
fn a_value_goes_from_its_record_to_blocks(rt: HostRuntime) -> Result<(), Fail> {
    let alloc = rt.alloc();
    let mut rig = fresh_rig(alloc)?;
    let made = b"create /a\nsetattr /a k =~\nsetattr /a l =~\n".as_slice();
    assert!(rt; tells(alloc, &mut rig, 1_700, made, b"ok\nok\nok\n")?);
    assert!(rt; is_clean(alloc, &rig, SHORTEST)?);
    let read = b"getattr /a k\ngetattr /a l\n".as_slice();
    assert!(rt; tells(alloc, &mut rig, 1_700, read, b"ok =~\nok =~\n")?);
    assert!(rt; tells(alloc, &mut rig, 5_000, b"setattr /a k =~\n", b"ok\n")?);
    assert!(rt;
        is_clean(
            alloc,
            &rig,
            b"clean files 3 folders 0 blocks 2048 free 1690\n"
        )?
    );
    assert!(rt; tells(alloc, &mut rig, 5_000, b"getattr /a k\n", b"ok =~\n")?);
    assert!(rt; tells(alloc, &mut rig, 1_700, b"getattr /a l\n", b"ok =~\n")?);
    Ok(())
}
