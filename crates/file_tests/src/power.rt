//! Writes during which the power fails.
use crate::calls::{is_as_told, write_at};
use crate::file::File;
use crate::making::make;
use crate::moves::{clear, end_command, put};
use crate::plain::{Border, overwritten, pattern, place_at};
use hx_bytes::Trouble;
use std::alloc::Global;
use std::process::Abort;
use std::test::Fail;

/// Lets the power fail after so many spills of a write of so many bytes. The file has its old bytes in its old blocks, and where the write
/// held its new bytes in the new ones. It says whether the write held.
fn fails_after(
    rt: &impl Abort,
    alloc: Global,
    file: &mut File,
    from: u64,
    length: u64,
    spills: u64,
) -> Result<bool, Fail> {
    let value = pattern(alloc, length, 0x33)?;
    file.space.spills_left = spills;
    let outcome = write_at(rt, alloc, file, from, value.as_slice());
    file.space.spills_left = u64::MAX;
    is_as_told(rt, alloc, file)?;
    match outcome {
        Ok(fork) => {
            let plain = overwritten(alloc, file.plain.as_slice(), from, value.as_slice())?;
            end_command(rt, alloc, file, fork, plain)?;
            Ok(true)
        }
        Err(trouble) => {
            assert!(rt; trouble == Trouble::Disk);
            file.map.undo();
            is_as_told(rt, alloc, file)?;
            Ok(false)
        }
    }
}

/// A write that makes so many sectors anew fails at each of them, and holds where none fails.
fn fails_at_each(
    rt: &impl Abort,
    alloc: Global,
    file: &mut File,
    from: u64,
    sectors: u64,
) -> Result<(), Fail> {
    clear(rt, alloc, file)?;
    put(rt, alloc, file, 0, place_at(file.block, (2, 100, 0)), 5)?;
    let free = file.map.count_free();
    for spills in 0..sectors {
        let held = fails_after(rt, alloc, file, from, 700, spills)?;
        assert!(rt; !held);
        assert_eq!(rt; file.map.count_free(), free);
    }
    let held = fails_after(rt, alloc, file, from, 700, sectors)?;
    assert!(rt; held);
    Ok(())
}

// Beside each place the blocks that 700 bytes from there on lie in, with those of a gap, in a file of two blocks and 100 bytes.
#[test]
fn a_write_without_power_leaves_the_old_bytes(rt: HostRuntime) -> Result<(), Fail> {
    let cases: [(u32, Border, u64); 7] = [
        (512, (0, 0, 0), 2),
        (512, (1, 0, 1), 3),
        (512, (4, 0, 0), 4),
        (4096, (0, 0, 0), 1),
        (4096, (1, 0, 300), 2),
        (4096, (2, 100, 0), 1),
        (4096, (4, 0, 0), 3),
    ];
    for (block, from, blocks) in cases {
        let mut file = make(rt.alloc(), block)?;
        let sectors = place_at(block, (blocks, 0, 0)) / 512;
        fails_at_each(&rt, rt.alloc(), &mut file, place_at(block, from), sectors)?;
    }
    Ok(())
}

/// A write of 65,536 bytes takes so many spills, and not one less.
fn takes_spills(
    rt: &impl Abort,
    alloc: Global,
    file: &mut File,
    from: u64,
    sectors: u64,
) -> Result<(), Fail> {
    clear(rt, alloc, file)?;
    put(rt, alloc, file, 0, place_at(file.block, (1, 100, 0)), 5)?;
    let held = fails_after(rt, alloc, file, from, 65_536, sectors.saturating_sub(1))?;
    assert!(rt; !held);
    let held = fails_after(rt, alloc, file, from, 65_536, sectors)?;
    assert!(rt; held);
    Ok(())
}

// Beside each place the sectors of the blocks that 65,536 bytes from there on lie in.
#[test]
fn a_large_write_spills_each_sector_once(rt: HostRuntime) -> Result<(), Fail> {
    let cases: [(u32, u64, u64); 5] = [
        (4096, 0, 128),
        (4096, 100, 136),
        (16384, 4096, 160),
        (65536, 0, 128),
        (65536, 65_000, 256),
    ];
    for (block, from, sectors) in cases {
        let mut file = make(rt.alloc(), block)?;
        takes_spills(&rt, rt.alloc(), &mut file, from, sectors)?;
    }
    Ok(())
}
