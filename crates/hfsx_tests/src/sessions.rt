// Lines of many sessions, the folder that keeps what they hold open, and lines on symbolic links and resource forks.
use hfsx_server::Status;
use hx_bytes::OutOfMemory;
use mem_disk::MemRig;
use std::alloc::Global;
use std::test::Fail;
use test_kit::{fresh_rig, has_written, run_on, set_bytes};

/// A file loses its only name while a session has it open.
const LINES: &[u8] =
    b"1 create /f\n1 write /f 0 =hi\n2 open /f\n1 rm /f\n1 ls /\n2 hread 1 0 9\n2 close 1\n2 hread 1 0 9\n1 sync\n1 df\n";

/// What is told of it.
const REPLIES: &[u8] =
    b"ok\nok\nok 1\nok\nok 0\nok =hi\nok\nno NoHandle 1\nok\nok 4096 2048 1692 1692 1982 0 16 15 1 64 62 0 16 15\n";

/// A file has two names, of which each is taken while it is open, the second by a move; a handle is the least that is free.
const NAMES: &[u8] =
    b"1 create /a\n1 ln /a /b\n3 open /a\n3 open /b\n1 rm /a\n1 stat /b\n1 write /b 0 =new\n1 create /c\n1 mv /c /b\n3 hread 1 0 9\n3 close 1\n3 hread 2 0 9\n3 hread 2 0 65537\n3 open /b\n3 end\n3 hread 2 0 9\n";

const OF_NAMES: &[u8] =
    b"ok\nok\nok 1\nok 2\nok\nok file 18 0 1 0644 0 0 0\nok\nok\nok\nok =new\nok\nok =new\nno TooLarge\nok 1\nok\nno NoHandle 2\n";

/// What no session sees, and other words for none.
const REFUSED: &[u8] =
    b"1 ls /%u0000HFSX%u0020Open%u0020Files\n1 open /%u0000HFSX%u0020Open%u0020Files/18\n1 open /\n1 open /z\n65 end\n0 end\n1 end x\nend\n1\n";

const OF_REFUSED: &[u8] =
    b"no Private\nno Private\nno IsFolder\nno NotFound\nno BadCommand\nno BadCommand\nno BadCommand\nno BadCommand\nno BadCommand\n";

/// A link into a folder, and one to itself; a text that is no target.
const LINKS: &[u8] =
    b"1 mkdir /d\n1 create /d/f\n1 symlink /l =d/../d/f\n1 follow /l\n1 readlink /l\n1 symlink /m =/m\n1 follow /m\n1 readlink /d/f\n1 symlink /e =\n";

const OF_LINKS: &[u8] =
    b"ok\nok\nok\nok /d/f\nok =d/../d/f\nok\nno TooManySteps 16\nno NotLink\nno BadTarget\n";

/// The resource fork of a file has a size of its own.
const FORKS: &[u8] =
    b"1 create /f\n1 rwrite /f 3 =ab\n1 rread /f 0 9\n1 stat /f\n1 rread /f 0 65537\n1 follow /f/x\n1 follow /q\n";

const OF_FORKS: &[u8] =
    b"ok\nok\nok =%00%00%00ab\nok file 18 0 1 0644 0 0 0\nno TooLarge\nno NotFolder\nno NotFound\n";

/// A file that gets the flag of a compressed one, and another.
const MADE: &[u8] = b"create /f\nwrite /f 0 =hi\ncreate /g\n";

/// Where the owner's flags of the first of them stand, in the second sector of the catalog's leaf.
const FLAGS: (u64, usize) = (2_337, 265);

/// What sessions write to them, and what they do besides.
const COMPRESSED: &[u8] =
    b"1 write /f 0 =new\n1 trunc /f 1\n1 rwrite /f 0 =r\n1 read /f 0 9\n1 rread /f 0 9\n1 write /g 0 =x\n1 mv /f /h\n1 write /h 0 =x\n1 stat /h\n1 write /f 0 =x\n1 write / 0 =x\n";

const OF_COMPRESSED: &[u8] =
    b"no Compressed\nno Compressed\nno Compressed\nok =hi\nok =\nok\nok\nno Compressed\nok file 18 2 1 0644 0 0 0\nno NotFound\nno IsFolder\n";

/// What the keeping folder holds between two runs.
const KEPT: &[u8] = b"ls /%u0000HFSX%u0020Open%u0020Files\n";

// The disk as it is left by a run that ended with status 0.
fn after(alloc: Global, rig: &mut MemRig) -> Result<MemRig, OutOfMemory> {
    let image = rig.image(alloc, 1)?;
    MemRig::from_image(alloc, &image)
}

// Whether these lines of sessions are told this on a new volume, and nothing is kept behind another run.
fn tells(alloc: Global, lines: &[u8], replies: &[u8]) -> Result<bool, OutOfMemory> {
    let mut rig = fresh_rig(alloc)?;
    if run_on(alloc, "sessions v.img", &mut rig, lines)? != Status::Done || rig.told() != replies {
        return Ok(false);
    }
    let mut next = after(alloc, &mut rig)?;
    if run_on(alloc, "sessions v.img", &mut next, b"")? != Status::Done {
        return Ok(false);
    }
    let mut last = after(alloc, &mut next)?;
    let ended = run_on(alloc, "run v.img", &mut last, KEPT)?;
    Ok(
        ended == Status::Done
            && (last.told() == b"ok 0\n".as_slice() || last.told() == b"no NotFound\n".as_slice()),
    )
}

#[test]
fn a_file_is_read_by_its_handle_without_a_name(rt: HostRuntime) -> Result<(), Fail> {
    assert!(rt; tells(rt.alloc(), LINES, REPLIES)?);
    Ok(())
}

#[test]
fn the_last_name_is_saved(rt: HostRuntime) -> Result<(), Fail> {
    assert!(rt; tells(rt.alloc(), NAMES, OF_NAMES)?);
    Ok(())
}

#[test]
fn the_keeping_folder_is_private(rt: HostRuntime) -> Result<(), Fail> {
    assert!(rt; tells(rt.alloc(), REFUSED, OF_REFUSED)?);
    Ok(())
}

#[test]
fn links_are_followed(rt: HostRuntime) -> Result<(), Fail> {
    assert!(rt; tells(rt.alloc(), LINKS, OF_LINKS)?);
    Ok(())
}

#[test]
fn resource_forks_are_written_and_read(rt: HostRuntime) -> Result<(), Fail> {
    assert!(rt; tells(rt.alloc(), FORKS, OF_FORKS)?);
    Ok(())
}

#[test]
fn compressed_files_are_not_written(rt: HostRuntime) -> Result<(), Fail> {
    let alloc = rt.alloc();
    let mut rig = fresh_rig(alloc)?;
    assert_eq!(rt; run_on(alloc, "run v.img", &mut rig, MADE)?, Status::Done);
    let mut flagged = after(alloc, &mut rig)?;
    set_bytes(&mut flagged, FLAGS.0, FLAGS.1, &[0x20]);
    let mut next = after(alloc, &mut flagged)?;
    assert_eq!(rt;
        run_on(alloc, "sessions v.img", &mut next, COMPRESSED)?,
        Status::Done
    );
    assert_eq!(rt; next.told(), OF_COMPRESSED);
    Ok(())
}

// Whether a volume that these lines made is refused by sessions, and not written.
fn is_refused(alloc: Global, made: &[u8]) -> Result<bool, OutOfMemory> {
    let mut rig = fresh_rig(alloc)?;
    if run_on(alloc, "run v.img", &mut rig, made)? != Status::Done {
        return Ok(false);
    }
    let mut next = after(alloc, &mut rig)?;
    let ended = run_on(alloc, "sessions v.img", &mut next, b"1 ls /\n")?;
    Ok(
        ended == Status::Refused
            && next.told() == b"refused OpenTaken\n".as_slice()
            && !has_written(&next),
    )
}

#[test]
fn a_folder_of_somebody_else_is_refused(rt: HostRuntime) -> Result<(), Fail> {
    let alloc = rt.alloc();
    for made in [
        // The name is a file's; the folder holds a folder; an entry has another name than its file's number.
        b"create /%u0000HFSX%u0020Open%u0020Files\n".as_slice(),
        b"mkdir /%u0000HFSX%u0020Open%u0020Files\nmkdir /%u0000HFSX%u0020Open%u0020Files/19\n".as_slice(),
        b"mkdir /%u0000HFSX%u0020Open%u0020Files\ncreate /%u0000HFSX%u0020Open%u0020Files/20\n".as_slice(),
    ] {
        assert!(rt; is_refused(alloc, made)?);
    }
    Ok(())
}

#[test]
fn what_an_earlier_run_kept_is_released(rt: HostRuntime) -> Result<(), Fail> {
    let alloc = rt.alloc();
    let mut rig = fresh_rig(alloc)?;
    let made =
        b"mkdir /%u0000HFSX%u0020Open%u0020Files\ncreate /%u0000HFSX%u0020Open%u0020Files/19\n";
    assert_eq!(rt; run_on(alloc, "run v.img", &mut rig, made)?, Status::Done);
    let mut next = after(alloc, &mut rig)?;
    assert_eq!(rt;
        run_on(alloc, "sessions v.img", &mut next, b"1 ls /\n")?,
        Status::Done
    );
    assert_eq!(rt; next.told(), b"ok 0\n".as_slice());
    let mut last = after(alloc, &mut next)?;
    assert_eq!(rt; run_on(alloc, "run v.img", &mut last, KEPT)?, Status::Done);
    assert_eq!(rt; last.told(), b"ok 0\n".as_slice());
    Ok(())
}
