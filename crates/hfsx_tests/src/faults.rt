// Statuses of devices that fail.
use hfsx_server::Status;
use mem_disk::MemSource;
use std::test::Fail;
use test_kit::{fresh_rig, run_on, run_watched};
use watchers::Watcher;

#[test]
fn a_source_that_fails_ends_the_run(rt: HostRuntime) -> Result<(), Fail> {
    let alloc = rt.alloc();
    let mut rig = fresh_rig(alloc)?;
    let mut source = MemSource::new(alloc, b"ls /\n", 7, Some(0))?;
    let mut watchers: Vec<Box<dyn Watcher>> = Vec::new(alloc);
    let ended = run_watched(alloc, "run v.img", &mut rig, &mut source, &mut watchers)?;
    assert_eq!(rt; ended, Status::Source);
    assert_eq!(rt; ended.code(), 4);
    assert_eq!(rt; rig.told(), b"".as_slice());
    Ok(())
}

#[test]
fn a_disk_that_fails_ends_the_run(rt: HostRuntime) -> Result<(), Fail> {
    let alloc = rt.alloc();
    let lines = b"ls /\nmkdir /x\nls /\n".as_slice();
    let mut clean = fresh_rig(alloc)?;
    assert_eq!(rt;
        run_on(alloc, "run v.img", &mut clean, lines)?,
        Status::Done
    );
    assert_eq!(rt; clean.told(), b"ok 0\nok\nok 1 x/\n".as_slice());
    // The first call reads the header, and the last is one of those that unmount the volume.
    for (call, told) in [
        (0, ""),
        (clean.calls().saturating_sub(1), "ok 0\nok\nok 1 x/\n"),
    ] {
        let mut rig = fresh_rig(alloc)?;
        rig.fail_on(alloc, call)?;
        let ended = run_on(alloc, "run v.img", &mut rig, lines)?;
        assert_eq!(rt; ended, Status::Disk);
        assert_eq!(rt; ended.code(), 3);
        assert_eq!(rt; rig.told(), told.as_bytes());
    }
    Ok(())
}

#[test]
fn a_sink_that_is_full_ends_the_run(rt: HostRuntime) -> Result<(), Fail> {
    let alloc = rt.alloc();
    for (room, told) in [(0, ""), (4, "ok 0")] {
        let mut rig = fresh_rig(alloc)?;
        rig.sink_room(room);
        let ended = run_on(alloc, "run v.img", &mut rig, b"ls /\nls /\n")?;
        assert_eq!(rt; ended, Status::Sink);
        assert_eq!(rt; ended.code(), 5);
        assert_eq!(rt; rig.told(), told.as_bytes());
    }
    Ok(())
}
