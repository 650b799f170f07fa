// Words and sizes.
use hfsx_server::Status;
use hx_bytes::OutOfMemory;
use mem_disk::MemRig;
use std::alloc::Global;
use std::test::Fail;
use test_kit::{put, run_on, sector_of};

const USAGE: &str =
    "usage: hfsx format IMAGE SECTORS | run IMAGE | check IMAGE | gen SEED COUNT | sessions IMAGE | repair IMAGE\n";

#[test]
fn a_size_is_refused_or_formatted(rt: HostRuntime) -> Result<(), Fail> {
    let alloc = rt.alloc();
    // A sector too few, the least size, one whose last sector is in no block, and another.
    for (sectors, line, status, told) in [
        (
            16_383,
            "format v.img 16383",
            Status::Refused,
            "refused TooSmall 16383\n",
        ),
        (
            16_384,
            "format v.img 16384",
            Status::Done,
            "formatted 2048 blocks, 1692 free\n",
        ),
        (
            16_385,
            "format v.img 16385",
            Status::Done,
            "formatted 2048 blocks, 1692 free\n",
        ),
        (
            20_000,
            "format v.img 20000",
            Status::Done,
            "formatted 2500 blocks, 2088 free\n",
        ),
    ] {
        let mut rig = MemRig::new(alloc, sectors)?;
        let ended = run_on(alloc, line, &mut rig, b"")?;
        assert_eq!(rt; ended, status);
        assert_eq!(rt; rig.told(), told.as_bytes());
    }
    Ok(())
}

#[test]
fn a_format_clears_the_lists_of_the_journal(rt: HostRuntime) -> Result<(), Fail> {
    let alloc = rt.alloc();
    let mut rig = MemRig::new(alloc, 16_384)?;
    for at in 0..16_384 {
        put(&mut rig, at, &[0xA5; 512]);
    }
    let ended = run_on(alloc, "format v.img 16384", &mut rig, b"")?;
    assert_eq!(rt; ended, Status::Done);
    // The lists lie behind the header of the journal, in sectors 25 to 2,071.
    for at in 25..2_072 {
        assert_eq!(rt; sector_of(&mut rig, at), [0; 512]);
    }
    // A sector that belongs to no structure stays as it was.
    assert_eq!(rt; sector_of(&mut rig, 2_840), [0xA5; 512]);
    Ok(())
}

#[test]
fn a_volume_of_another_size_is_made_and_served(rt: HostRuntime) -> Result<(), Fail> {
    let alloc = rt.alloc();
    let mut rig = MemRig::new(alloc, 20_000)?;
    for at in 0..20_000 {
        put(&mut rig, at, &[0xA5; 512]);
    }
    assert_eq!(rt;
        run_on(alloc, "format v.img 20000", &mut rig, b"")?,
        Status::Done
    );
    // The header stands in its two places, with 2,500 blocks.
    let header = sector_of(&mut rig, 2);
    assert_eq!(rt;
        &header[40..48],
        [0, 0, 0x10, 0, 0, 0, 0x09, 0xC4].as_slice()
    );
    assert_eq!(rt; sector_of(&mut rig, 19_998), header);
    // The journal has 2,496 sectors from block 3 on, and its lists are cleared.
    let info = sector_of(&mut rig, 16);
    assert_eq!(rt; &info[44..52], [0, 0, 0, 0, 0, 0x13, 0x80, 0].as_slice());
    assert_eq!(rt; sector_of(&mut rig, 2_519), [0; 512]);
    // A node that no record reaches is cleared, and a free sector stays as it was.
    assert_eq!(rt; sector_of(&mut rig, 3_287), [0; 512]);
    assert_eq!(rt; sector_of(&mut rig, 3_288), [0xA5; 512]);
    let image = rig.image(alloc, 1)?;
    let mut made = MemRig::from_image(alloc, &image)?;
    let ended = run_on(alloc, "run v.img", &mut made, b"mkdir /x\nls /\n")?;
    assert_eq!(rt; ended, Status::Done);
    assert_eq!(rt; made.told(), b"ok\nok 1 x/\n".as_slice());
    Ok(())
}

#[test]
fn wrong_words_tell_the_usage(rt: HostRuntime) -> Result<(), Fail> {
    let alloc = rt.alloc();
    for line in [
        "",
        // Words for options, the word `help` and an empty word.
        "--help",
        "run -v",
        "run help",
        "run ",
        // One word too few or too many.
        "run",
        "run v.img w.img",
        "check",
        "check v.img w.img",
        "check -v",
        "gen 7",
        "gen 7 8 9",
        "sessions",
        "sessions v.img w.img",
        "sessions -v",
        // No number, and not that of the image.
        "gen 07 5",
        "gen 7 -5",
        "format v.img 07",
        "format v.img +7",
        "format v.img 18446744073709551616",
        "format v.img 9",
    ] {
        let mut rig = MemRig::new(alloc, 8)?;
        let ended = run_on(alloc, line, &mut rig, b"ls /\n")?;
        assert_eq!(rt; ended, Status::Usage);
        assert_eq!(rt; rig.told(), USAGE.as_bytes());
        assert_eq!(rt; rig.calls(), 0);
    }
    Ok(())
}

#[test]
fn a_stream_without_lines_leaves_an_empty_volume(rt: HostRuntime) -> Result<(), Fail> {
    let alloc = rt.alloc();
    let mut rig = MemRig::new(alloc, 8)?;
    let ended = run_on(alloc, "gen 1 0", &mut rig, b"ls /\n")?;
    assert_eq!(rt; ended, Status::Done);
    assert_eq!(rt;
        rig.told(),
        b"gen 1 0 ok 0 no 0 folders 0 names 0 files 0 bytes 0 sum 0 clean\n".as_slice()
    );
    assert_eq!(rt; rig.calls(), 0);
    Ok(())
}

// Whether the image is refused with this line, and isn't written.
fn is_refused(alloc: Global, rig: &mut MemRig, line: &str) -> Result<bool, OutOfMemory> {
    let ended = run_on(alloc, "run v.img", rig, b"ls /\n")?;
    Ok(ended == Status::Refused && rig.told() == line.as_bytes())
}

#[test]
fn an_image_that_is_no_volume_is_refused(rt: HostRuntime) -> Result<(), Fail> {
    let alloc = rt.alloc();
    // Zeros, and too few of them.
    let mut zeros = MemRig::new(alloc, 16_384)?;
    assert!(rt; is_refused(alloc, &mut zeros, "refused NotHfsx 0 0\n")?);
    let mut small = MemRig::new(alloc, 8)?;
    assert!(rt; is_refused(alloc, &mut small, "refused LimitSectors 8\n")?);
    Ok(())
}
