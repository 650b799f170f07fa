// Runs on a new volume whose commands want more nodes of the catalog than it has.
use hfsx_server::Status;
use mem_disk::MemRig;
use std::alloc::{AllocError, Global};
use std::test::Fail;
use test_kit::{fresh_rig, run_on};

// How many files are made.
const FILES: u32 = 1_000;

// A line for each file, with a name of 123 letters, of which the first three tell it from the others.
fn creations(alloc: Global) -> Result<Vec<u8>, AllocError> {
    let mut lines = Vec::new(alloc);
    for file in 0..FILES {
        lines.extend_from_slice(b"create /")?;
        lines.push(b'a' + (file / 676 % 26) as u8)?;
        lines.push(b'a' + (file / 26 % 26) as u8)?;
        lines.push(b'a' + (file % 26) as u8)?;
        for _letter in 0..120 {
            lines.push(b'n')?;
        }
        lines.push(b'\n')?;
    }
    Ok(lines)
}

// The catalog grows from 64 nodes to 472, and the check finds each node, bit and block of it counted right.
#[test]
fn the_catalog_grows_ahead_of_new_files(rt: HostRuntime) -> Result<(), Fail> {
    let alloc = rt.alloc();
    let mut rig = fresh_rig(alloc)?;
    let mut input = creations(alloc)?;
    input.extend_from_slice(b"sync\ndf\n")?;
    let mut told = Vec::new(alloc);
    for _file in 0..FILES {
        told.extend_from_slice(b"ok\n")?;
    }
    told.extend_from_slice(b"ok\nok 4096 2048 1284 1284 1982 0 16 15 4 472 62 0 16 15\n")?;
    assert_eq!(rt; run_on(alloc, "run v.img", &mut rig, &input)?, Status::Done);
    assert_eq!(rt; rig.told(), told.as_slice());
    let image = rig.image(alloc, 1)?;
    let mut checked = MemRig::from_image(alloc, &image)?;
    assert_eq!(rt;
        run_on(alloc, "check v.img", &mut checked, b"")?,
        Status::Done
    );
    assert_eq!(rt;
        checked.told(),
        b"clean files 1002 folders 0 blocks 2048 free 1284\n".as_slice()
    );
    Ok(())
}
