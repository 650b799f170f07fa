// What no contract says: that calls succeed with ample memory, and the choices as numbers.
use super::*;
use hx_bytes::Sector;
use sector_disk::{Rig, SectorDisk, Source};
use std::test::Fail;

// Whether a write of a sector of this byte succeeds.
fn writes(rig: &mut MemRig, at: u64, byte: u8) -> bool {
    at < rig.sectors() && rig.write(at, &[byte; 512]).is_ok()
}

// Whether a read gives a sector of this byte.
fn reads(rig: &mut MemRig, at: u64, byte: u8) -> bool {
    let mut sector: Sector = [7; 512];
    at < rig.sectors() && rig.read(at, &mut sector).is_ok() && sector == [byte; 512]
}

// Whether this sector of the image is full of this byte.
fn holds(image: &MemImage, at: usize, byte: u8) -> bool {
    image
        .sectors
        .get(at)
        .is_some_and(|sector| *sector == [byte; 512])
}

#[test]
fn a_choice_takes_a_candidate_of_each_sector(rt: HostRuntime) -> Result<(), Fail> {
    let alloc = rt.alloc();
    let mut rig = MemRig::new(alloc, 4)?;
    for (at, byte) in [(1, 1), (1, 2), (1, 3), (2, 9)] {
        assert!(rt; writes(&mut rig, at, byte));
    }
    // Sector 1 has the candidates 0, 1, 2, 3, and sector 2 has 0 and 9.
    for (choice, first, second) in [(0, 0, 0), (1, 3, 9), (128, 2, 9), (200, 3, 0)] {
        let image = rig.image(alloc, choice)?;
        assert_eq!(rt; image.sectors.len(), 4);
        for (at, byte) in [(0, 0), (1, first), (2, second), (3, 0)] {
            assert!(rt; holds(&image, at, byte), "choice {choice}, sector {at}");
        }
    }
    assert!(rt; rig.barrier().is_ok());
    let mut again = MemRig::from_image(alloc, &rig.image(alloc, 0)?)?;
    assert!(rt; reads(&mut again, 1, 3));
    assert_eq!(rt; (rig.calls(), again.calls()), (5, 1));
    Ok(())
}

#[test]
fn calls_fail_where_the_script_says(rt: HostRuntime) -> Result<(), Fail> {
    let alloc = rt.alloc();
    let mut rig = MemRig::new(alloc, 2)?;
    rig.fail_on(alloc, 1)?;
    rig.stop_after(4);
    assert!(rt; writes(&mut rig, 0, 5));
    assert!(rt; rig.barrier().is_err());
    assert!(rt; reads(&mut rig, 0, 5));
    assert!(rt; rig.barrier().is_ok());
    assert!(rt; !writes(&mut rig, 1, 6));
    assert!(rt; rig.barrier().is_err());
    for (call, wrote) in [
        (0, true),
        (1, true),
        (2, false),
        (4, true),
        (5, true),
        (6, false),
    ] {
        assert_eq!(rt; rig.wrote(call), wrote, "call {call}");
    }
    // The failed write may have happened, and the failed barrier settled nothing.
    for (choice, byte) in [(0, 0), (1, 6)] {
        assert!(rt; holds(&rig.image(alloc, choice)?, 1, byte));
    }
    assert_eq!(rt; rig.starved(), 0);
    Ok(())
}

#[test]
fn the_sink_takes_its_room(rt: HostRuntime) -> Result<(), Fail> {
    let alloc = rt.alloc();
    let mut rig = MemRig::new(alloc, 0)?;
    assert!(rt; rig.tell(b"ab").is_ok_and(|n| n == 2));
    rig.sink_room(3);
    assert!(rt; rig.tell(b"cdefg").is_ok_and(|n| n == 3));
    assert!(rt; rig.tell(b"fg").is_ok_and(|n| n == 0));
    assert_eq!(rt; rig.told(), b"abcde".as_slice());
    Ok(())
}

#[test]
fn a_source_hands_out_pieces(rt: HostRuntime) -> Result<(), Fail> {
    let alloc = rt.alloc();
    let mut source = MemSource::new(alloc, b"abcde", 2, Some(1))?;
    let mut into = [0; 3];
    for (call, want) in [Some(2), None, Some(2), Some(1), Some(0)]
        .iter()
        .enumerate()
    {
        assert_eq!(rt; source.take(&mut into).ok(), *want, "call {call}");
    }
    assert_eq!(rt; into, [b'e', b'd', 0]);
    Ok(())
}

#[test]
fn a_large_rig_makes_images(rt: HostRuntime) -> Result<(), Fail> {
    let alloc = rt.alloc();
    let mut rig = MemRig::new(alloc, 65_536)?;
    for at in 0..2_000u64 {
        assert!(rt; writes(&mut rig, at, 1));
    }
    for choice in 0..20u64 {
        assert!(rt; rig.barrier().is_ok());
        assert!(rt; holds(&rig.image(alloc, choice)?, 1_999, 1));
    }
    Ok(())
}
