// Images that are checked.
use hfsx_server::Status;
use hx_bytes::OutOfMemory;
use mem_disk::MemRig;
use std::alloc::Global;
use std::test::Fail;
use test_kit::{fresh_rig, has_written, run_on, set_bytes, stopped_rig};

const CLEAN: &str = "clean files 2 folders 0 blocks 2048 free 1692\n";

// Whether a check of the image ends so, tells this, and writes nothing.
fn finds(alloc: Global, rig: &mut MemRig, status: Status, told: &str) -> Result<bool, OutOfMemory> {
    let image = rig.image(alloc, 1)?;
    let mut checked = MemRig::from_image(alloc, &image)?;
    let ended = run_on(alloc, "check v.img", &mut checked, b"")?;
    Ok(ended == status && checked.told() == told.as_bytes() && !has_written(&checked))
}

#[test]
fn a_fresh_volume_is_clean(rt: HostRuntime) -> Result<(), Fail> {
    let alloc = rt.alloc();
    let mut rig = fresh_rig(alloc)?;
    assert!(rt; finds(alloc, &mut rig, Status::Done, CLEAN)?);
    Ok(())
}

#[test]
fn a_volume_of_another_size_is_clean(rt: HostRuntime) -> Result<(), Fail> {
    let alloc = rt.alloc();
    let mut rig = MemRig::new(alloc, 20_000)?;
    run_on(alloc, "format v.img 20000", &mut rig, b"")?;
    let told = "clean files 2 folders 0 blocks 2500 free 2088\n";
    assert!(rt; finds(alloc, &mut rig, Status::Done, told)?);
    Ok(())
}

// Whether a check finds a volume clean, and tells this, on which these lines were served.
fn finds_clean(alloc: Global, lines: &[u8], told: &str) -> Result<bool, OutOfMemory> {
    let mut rig = fresh_rig(alloc)?;
    run_on(alloc, "run v.img", &mut rig, lines)?;
    finds(alloc, &mut rig, Status::Done, told)
}

#[test]
fn folders_are_counted(rt: HostRuntime) -> Result<(), Fail> {
    let lines = b"mkdir /a\nmkdir /a/b\ncreate /a/b/c\n";
    let told = "clean files 3 folders 2 blocks 2048 free 1692\n";
    assert!(rt; finds_clean(rt.alloc(), lines, told)?);
    Ok(())
}

// Files that lost their names go, with their blocks and attributes, also where the run ends behind that; the folder in which they waited stays.
#[test]
fn files_without_a_name_are_given_back(rt: HostRuntime) -> Result<(), Fail> {
    let lines =
        b"create /a\ncreate /b\nsetattr /b k =v\nsetattr /b l =w\nmkdir /d\ncreate /d/c\nwrite /d/c 5000 =x\nrm /b\nrm /a\nrm /d/c\n";
    let told = "clean files 2 folders 2 blocks 2048 free 1692\n";
    assert!(rt; finds_clean(rt.alloc(), lines, told)?);
    Ok(())
}

// So do blocks past the size of a file that the last line made shorter.
#[test]
fn blocks_that_the_last_line_cut_off_are_given_back(rt: HostRuntime) -> Result<(), Fail> {
    let lines = b"create /a\ntrunc /a 90000\ntrunc /a 4097\n";
    let told = "clean files 3 folders 0 blocks 2048 free 1690\n";
    assert!(rt; finds_clean(rt.alloc(), lines, told)?);
    Ok(())
}

// A run that is stopped leaves a live list in the journal, which the check looks through.
#[test]
fn a_live_journal_is_looked_through(rt: HostRuntime) -> Result<(), Fail> {
    let alloc = rt.alloc();
    // The end of a run writes the journal's sectors home and sets bit 8.
    let (mut rig, ended) = stopped_rig(alloc, b"mkdir /a\nls /\n", 30)?;
    assert_eq!(rt; ended, Status::Disk);
    let told = "clean files 2 folders 1 blocks 2048 free 1692\n";
    assert!(rt; finds(alloc, &mut rig, Status::Done, told)?);
    Ok(())
}

#[test]
fn a_bit_that_is_set_is_found(rt: HostRuntime) -> Result<(), Fail> {
    let alloc = rt.alloc();
    let mut rig = fresh_rig(alloc)?;
    set_bytes(&mut rig, 8, 250, &[0x80]);
    assert!(rt;
        finds(
            alloc,
            &mut rig,
            Status::Refused,
            "S13 2000 1 0\nfindings 1\n"
        )?
    );
    Ok(())
}

#[test]
fn a_count_that_is_wrong_is_found(rt: HostRuntime) -> Result<(), Fail> {
    let alloc = rt.alloc();
    let mut rig = fresh_rig(alloc)?;
    set_bytes(&mut rig, 2, 50, &[0]);
    set_bytes(&mut rig, 2, 51, &[5]);
    assert!(rt;
        finds(
            alloc,
            &mut rig,
            Status::Refused,
            "S14 48 5 1692\nfindings 1\n"
        )?
    );
    Ok(())
}

#[test]
fn a_locked_volume_is_checked(rt: HostRuntime) -> Result<(), Fail> {
    let alloc = rt.alloc();
    let mut rig = fresh_rig(alloc)?;
    set_bytes(&mut rig, 2, 6, &[0xA1]);
    assert!(rt; finds(alloc, &mut rig, Status::Done, CLEAN)?);
    Ok(())
}

#[test]
fn what_stands_for_no_volume_is_refused(rt: HostRuntime) -> Result<(), Fail> {
    let alloc = rt.alloc();
    let mut zeros = MemRig::new(alloc, 16_384)?;
    assert!(rt; finds(alloc, &mut zeros, Status::Refused, "refused NotHfsx 0 0\n")?);
    let mut small = MemRig::new(alloc, 8)?;
    assert!(rt;
        finds(
            alloc,
            &mut small,
            Status::Refused,
            "refused LimitSectors 8\n"
        )?
    );
    // The journal's info block says another device.
    let mut other = fresh_rig(alloc)?;
    set_bytes(&mut other, 16, 3, &[2]);
    assert!(rt; finds(alloc, &mut other, Status::Refused, "refused OtherDevice\n")?);
    Ok(())
}

#[test]
fn a_check_ends_where_a_device_fails(rt: HostRuntime) -> Result<(), Fail> {
    let alloc = rt.alloc();
    let mut rig = fresh_rig(alloc)?;
    rig.fail_on(alloc, 0)?;
    assert_eq!(rt; run_on(alloc, "check v.img", &mut rig, b"")?, Status::Disk);
    assert_eq!(rt; rig.told(), b"".as_slice());
    let mut full = fresh_rig(alloc)?;
    full.sink_room(5);
    assert_eq!(rt; run_on(alloc, "check v.img", &mut full, b"")?, Status::Sink);
    assert_eq!(rt; full.told(), b"clean".as_slice());
    Ok(())
}
