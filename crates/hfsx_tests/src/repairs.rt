// Images that are repaired.
use hfsx_server::Status;
use hx_bytes::OutOfMemory;
use mem_disk::MemRig;
use std::alloc::Global;
use std::test::Fail;
use test_kit::{
    fresh, fresh_rig, has_written, miscount, put, run_on, sector_of, set_bytes, stopped_rig,
};

const CLEAN: &str = "clean files 2 folders 0 blocks 2048 free 1692\n";

/// The sector of the alternate header.
const ALTERNATE: u64 = 16_382;

/// The first sector of the catalog's leaf, in whose first record the root's valence stands at byte 42.
const LEAF: u64 = 2_336;

/// How a command ended, and what it told.
#[derive(Drop)]
struct Ended {
    status: Status,
    told: Vec<u8>,
    wrote: bool,
}

// Runs a command on what a disk holds, and leaves what it wrote on it.
fn command(alloc: Global, line: &str, rig: &mut MemRig) -> Result<Ended, OutOfMemory> {
    let image = rig.image(alloc, 1)?;
    *rig = MemRig::from_image(alloc, &image)?;
    let status = run_on(alloc, line, rig, b"")?;
    Ok(Ended {
        status,
        told: Vec::from_slice(alloc, rig.told())?,
        wrote: has_written(rig),
    })
}

// Whether a repair ends with status 0, tells this, and a check then finds the volume of the first row.
fn repairs(alloc: Global, rig: &mut MemRig, told: &str) -> Result<bool, OutOfMemory> {
    let ended = command(alloc, "repair v.img", rig)?;
    let checked = command(alloc, "check v.img", rig)?;
    Ok(
        ended.status == Status::Done
            && ended.told.as_slice() == told.as_bytes()
            && checked.status == Status::Done
            && checked.told.as_slice() == CLEAN.as_bytes(),
    )
}

// Whether a repair ends with status 1, tells this, and writes nothing.
fn refuses(alloc: Global, rig: &mut MemRig, told: &str) -> Result<bool, OutOfMemory> {
    let ended = command(alloc, "repair v.img", rig)?;
    Ok(ended.status == Status::Refused && ended.told.as_slice() == told.as_bytes() && !ended.wrote)
}

// A new volume of which a bit and a count are wrong.
fn miscounted(alloc: Global) -> Result<MemRig, OutOfMemory> {
    let mut rig = fresh_rig(alloc)?;
    miscount(&mut rig);
    Ok(rig)
}

// Whether each sector but those of the journal is that of the new volume.
fn is_new(alloc: Global, rig: &mut MemRig) -> Result<bool, OutOfMemory> {
    let new = fresh(alloc)?;
    for (at, sector) in new.sectors.iter().enumerate() {
        let is_journal = 24 <= at && at < 2_072;
        if !is_journal && sector_of(rig, at as u64) != *sector {
            return Ok(false);
        }
    }
    Ok(true)
}

#[test]
fn a_bit_and_a_count_are_repaired(rt: HostRuntime) -> Result<(), Fail> {
    let alloc = rt.alloc();
    let mut rig = miscounted(alloc)?;
    assert!(rt; repairs(alloc, &mut rig, "repaired 2\n")?);
    assert!(rt; is_new(alloc, &mut rig)?);
    assert!(rt; repairs(alloc, &mut rig, "repaired 0\n")?);
    assert!(rt; is_new(alloc, &mut rig)?);
    Ok(())
}

#[test]
fn a_zeroed_alternate_header_and_a_valence_are_repaired(rt: HostRuntime) -> Result<(), Fail> {
    let alloc = rt.alloc();
    let mut rig = fresh_rig(alloc)?;
    assert_eq!(rt; &sector_of(&mut rig, LEAF)[42..46], [0, 0, 0, 2].as_slice());
    put(&mut rig, ALTERNATE, &[0; 512]);
    set_bytes(&mut rig, LEAF, 42, &[0, 0, 0, 5]);
    assert!(rt; repairs(alloc, &mut rig, "repaired 2\n")?);
    assert!(rt; is_new(alloc, &mut rig)?);
    Ok(())
}

// The alternate header is a copy of the header that counts right.
#[test]
fn the_copy_of_the_header_counts_right(rt: HostRuntime) -> Result<(), Fail> {
    let alloc = rt.alloc();
    let mut rig = miscounted(alloc)?;
    set_bytes(&mut rig, 2, 32, &[0, 0, 0, 9, 0, 0, 0, 9]);
    set_bytes(&mut rig, ALTERNATE, 43, &[1]);
    assert!(rt; repairs(alloc, &mut rig, "repaired 3\n")?);
    assert!(rt; is_new(alloc, &mut rig)?);
    Ok(())
}

// What the alternate header counts is nobody's business, as long as it says which volume this is.
#[test]
fn an_alternate_header_that_agrees_stays(rt: HostRuntime) -> Result<(), Fail> {
    let alloc = rt.alloc();
    let mut rig = fresh_rig(alloc)?;
    set_bytes(&mut rig, ALTERNATE, 32, &[0, 0, 0, 9]);
    let old = sector_of(&mut rig, ALTERNATE);
    assert!(rt; repairs(alloc, &mut rig, "repaired 0\n")?);
    assert_eq!(rt; sector_of(&mut rig, ALTERNATE), old);
    Ok(())
}

#[test]
fn a_sound_volume_stays(rt: HostRuntime) -> Result<(), Fail> {
    let alloc = rt.alloc();
    let mut rig = fresh_rig(alloc)?;
    assert!(rt; repairs(alloc, &mut rig, "repaired 0\n")?);
    assert!(rt; is_new(alloc, &mut rig)?);
    Ok(())
}

// Bits behind that of the last block, to the end of the allocation file, are cleared.
#[test]
fn bits_behind_the_last_block_are_cleared(rt: HostRuntime) -> Result<(), Fail> {
    let alloc = rt.alloc();
    let mut rig = fresh_rig(alloc)?;
    set_bytes(&mut rig, 8, 256, &[0x80]);
    set_bytes(&mut rig, 15, 511, &[1]);
    assert!(rt; repairs(alloc, &mut rig, "repaired 2\n")?);
    assert!(rt; is_new(alloc, &mut rig)?);
    Ok(())
}

// A file with several names says how many there are, and each folder how many entries it has.
#[test]
fn links_and_entries_are_counted(rt: HostRuntime) -> Result<(), Fail> {
    let alloc = rt.alloc();
    let mut rig = fresh_rig(alloc)?;
    let lines = b"mkdir /d\ncreate /d/f\nwrite /d/f 0 =hi\nln /d/f /g\nln /g /h\n";
    assert_eq!(rt; run_on(alloc, "run v.img", &mut rig, lines)?, Status::Done);
    let mut whole = Vec::new(alloc);
    for at in LEAF..LEAF + 8 {
        whole.push(sector_of(&mut rig, at))?;
    }
    // The record of the file in the private folder, in the leaf's sector 3: its key is (20, `iNode19`), its number of links stands at byte 44 behind that.
    let sector = sector_of(&mut rig, LEAF + 3);
    assert_eq!(rt;
        &sector[402..412],
        [0, 20, 0, 0, 0, 20, 0, 7, 0, 0x69].as_slice()
    );
    assert_eq!(rt; &sector[468..472], [0, 0, 0, 3].as_slice());
    set_bytes(&mut rig, LEAF + 3, 468, &[0, 0, 0, 0]);
    set_bytes(&mut rig, LEAF, 42, &[0xFF, 0xFF, 0xFF, 0xFF]);
    let ended = command(alloc, "repair v.img", &mut rig)?;
    assert_eq!(rt; ended.status, Status::Done);
    assert_eq!(rt; ended.told.as_slice(), b"repaired 2\n".as_slice());
    for (k, sector) in whole.iter().enumerate() {
        assert_eq!(rt; sector_of(&mut rig, LEAF + k as u64), *sector);
    }
    Ok(())
}

#[test]
fn a_field_that_nothing_counts_is_told(rt: HostRuntime) -> Result<(), Fail> {
    let alloc = rt.alloc();
    let mut rig = fresh_rig(alloc)?;
    set_bytes(&mut rig, 2, 64, &[0, 0, 0, 5]);
    assert!(rt; refuses(alloc, &mut rig, "S1 64 5 16\nfindings 1\n")?);
    Ok(())
}

// What can't be counted is told, and what could be isn't repaired beside it.
#[test]
fn a_finding_that_stays_keeps_all_as_it_is(rt: HostRuntime) -> Result<(), Fail> {
    let alloc = rt.alloc();
    let mut rig = miscounted(alloc)?;
    // The thread of the root is one of a file.
    let at = thread_of_the_root(&mut rig);
    assert!(rt; at < 500);
    set_bytes(&mut rig, LEAF, at, &[0, 4]);
    let ended = command(alloc, "repair v.img", &mut rig)?;
    assert_eq!(rt; ended.status, Status::Refused);
    assert!(rt; ended.told.starts_with(b"S9 2 "));
    assert!(rt; !ended.wrote);
    Ok(())
}

// Where the value of the leaf's second record stands: that of the root's thread. The first one has 24 bytes of a key and 88.
fn thread_of_the_root(rig: &mut MemRig) -> usize {
    let leaf = sector_of(rig, LEAF);
    let at = 14 + 24 + 88;
    if leaf[at..at + 8] == [0, 6, 0, 0, 0, 2, 0, 0] {
        at + 8
    } else {
        512
    }
}

#[test]
fn an_image_that_no_run_mounts_is_refused(rt: HostRuntime) -> Result<(), Fail> {
    let alloc = rt.alloc();
    let mut zeros = MemRig::new(alloc, 16_384)?;
    assert!(rt; refuses(alloc, &mut zeros, "refused NotHfsx 0 0\n")?);
    let mut locked = miscounted(alloc)?;
    set_bytes(&mut locked, 2, 6, &[0xA1]);
    assert!(rt; refuses(alloc, &mut locked, "refused SoftwareLocked\n")?);
    let mut other = miscounted(alloc)?;
    set_bytes(&mut other, 16, 3, &[2]);
    assert!(rt; refuses(alloc, &mut other, "refused OtherDevice\n")?);
    // The catalog's header node compares keys with case folded.
    let mut folding = miscounted(alloc)?;
    set_bytes(&mut folding, 2_328, 51, &[0xCF]);
    assert!(rt; refuses(alloc, &mut folding, "refused CaseFolding\n")?);
    Ok(())
}

// A run that is stopped leaves a live list in the journal, behind which the repair counts.
#[test]
fn a_live_journal_is_replayed_first(rt: HostRuntime) -> Result<(), Fail> {
    let alloc = rt.alloc();
    // The end of a run writes the journal's sectors home and sets bit 8.
    let (mut rig, ended) = stopped_rig(alloc, b"mkdir /a\nls /\n", 30)?;
    assert_eq!(rt; ended, Status::Disk);
    let image = rig.image(alloc, 1)?;
    let mut left = MemRig::from_image(alloc, &image)?;
    set_bytes(&mut left, 8, 250, &[0x80]);
    let ended = command(alloc, "repair v.img", &mut left)?;
    assert_eq!(rt; ended.status, Status::Done);
    assert_eq!(rt; ended.told.as_slice(), b"repaired 1\n".as_slice());
    let checked = command(alloc, "check v.img", &mut left)?;
    let told = b"clean files 2 folders 1 blocks 2048 free 1692\n".as_slice();
    assert_eq!(rt; checked.told.as_slice(), told);
    Ok(())
}

// The last mounted version is this program's then.
#[test]
fn a_volume_of_another_system_is_repaired(rt: HostRuntime) -> Result<(), Fail> {
    let alloc = rt.alloc();
    let mut rig = miscounted(alloc)?;
    set_bytes(&mut rig, 2, 8, b"10.0");
    assert!(rt; repairs(alloc, &mut rig, "repaired 2\n")?);
    assert!(rt; is_new(alloc, &mut rig)?);
    Ok(())
}

#[test]
fn a_repair_ends_where_a_device_fails(rt: HostRuntime) -> Result<(), Fail> {
    let alloc = rt.alloc();
    let mut whole = miscounted(alloc)?;
    let image = whole.image(alloc, 1)?;
    assert!(rt; repairs(alloc, &mut whole, "repaired 2\n")?);
    let mut again = MemRig::from_image(alloc, &image)?;
    run_on(alloc, "repair v.img", &mut again, b"")?;
    for call in [0, again.calls() / 2, again.calls().saturating_sub(1)] {
        let mut rig = MemRig::from_image(alloc, &image)?;
        rig.fail_on(alloc, call)?;
        assert_eq!(rt; run_on(alloc, "repair v.img", &mut rig, b"")?, Status::Disk);
        assert_eq!(rt; rig.told(), b"".as_slice());
        let left = rig.image(alloc, 1)?;
        let mut rig = MemRig::from_image(alloc, &left)?;
        let ended = command(alloc, "repair v.img", &mut rig)?;
        assert_eq!(rt; ended.status, Status::Done);
    }
    let mut full = MemRig::from_image(alloc, &image)?;
    full.sink_room(5);
    assert_eq!(rt;
        run_on(alloc, "repair v.img", &mut full, b"")?,
        Status::Sink
    );
    assert_eq!(rt; full.told(), b"repai".as_slice());
    Ok(())
}
