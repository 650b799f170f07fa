//! Power fails while the value of an attribute goes from its record to blocks of its own, back, or away.
use crate::few::{Few, fresh_few};
use crate::runs::{is_clean, run_in_pieces, told_by};
use crate::stops::Tried;
use hx_bytes::OutOfMemory;
use mem_disk::MemImage;
use std::alloc::Global;
use std::test::Fail;
use test_kit::lengthened;

/// How many bytes a take of the source gives at most.
const PIECE: u64 = 4_096;

/// How many letters a tilde stands for: they have two blocks.
const LETTERS: usize = 5_000;

/// A change of values: the lines that make what stands before it, its line, what is read, and what is told before and behind it; and what `df` tells
/// before and behind it, where no block waits to be given back.
#[derive(Clone, Copy)]
struct Change {
    made: &'static [u8],
    line: &'static [u8],
    reads: &'static [u8],
    before: &'static [u8],
    behind: &'static [u8],
    room_before: &'static [u8],
    room_behind: &'static [u8],
}

/// What `df` tells where no value has a block.
const NO_BLOCK: &[u8] = b"ok 4096 2048 1692 1692 1982 0 16 15 1 64 62 1 16 14\n";

/// The same where one value has two blocks, which lie before all that are free.
const TWO_BLOCKS: &[u8] = b"ok 4096 2048 1690 1690 1982 0 16 15 1 64 62 1 16 14\n";

/// The same where there is no attribute.
const NO_ATTRIBUTE: &[u8] = b"ok 4096 2048 1692 1692 1982 0 16 15 1 64 62 0 16 15\n";

const TO_BLOCKS: Change = Change {
    made: b"create /f\nsetattr /f k =x\nsetattr /f l =z\n",
    line: b"setattr /f k =~\n",
    reads: b"lsattr /f\ngetattr /f k\n",
    before: b"ok 2 k l\nok =x\n",
    behind: b"ok 2 k l\nok =~\n",
    room_before: NO_BLOCK,
    room_behind: TWO_BLOCKS,
};

const TO_ITS_RECORD: Change = Change {
    made: b"create /f\nsetattr /f k =~\n",
    line: b"setattr /f k =y\n",
    reads: b"lsattr /f\ngetattr /f k\n",
    before: b"ok 1 k\nok =~\n",
    behind: b"ok 1 k\nok =y\n",
    room_before: TWO_BLOCKS,
    room_behind: NO_BLOCK,
};

/// The new value has three blocks behind the two of the old one.
const TO_OTHER_BLOCKS: Change = Change {
    made: b"create /f\nsetattr /f k =~\n",
    line: b"setattr /f k =~~\n",
    reads: b"lsattr /f\ngetattr /f k\n",
    before: b"ok 1 k\nok =~\n",
    behind: b"ok 1 k\nok =~~\n",
    room_before: TWO_BLOCKS,
    room_behind: b"ok 4096 2048 1689 1687 1982 0 16 15 1 64 62 1 16 14\n",
};

const ANEW: Change = Change {
    made: b"create /f\n",
    line: b"setattr /f k =~\n",
    reads: b"lsattr /f\ngetattr /f k\n",
    before: b"ok 0\nno NoAttribute\n",
    behind: b"ok 1 k\nok =~\n",
    room_before: NO_ATTRIBUTE,
    room_behind: TWO_BLOCKS,
};

const AWAY: Change = Change {
    made: b"create /f\nsetattr /f k =~\nsetattr /f l =z\n",
    line: b"delattr /f k\n",
    reads: b"lsattr /f\ngetattr /f k\ngetattr /f l\n",
    before: b"ok 2 k l\nok =~\nok =z\n",
    behind: b"ok 1 l\nno NoAttribute\nok =z\n",
    room_before: TWO_BLOCKS,
    room_behind: NO_BLOCK,
};

/// A folder with two long values and a short one.
const WITH_A_FOLDER: Change = Change {
    made: b"mkdir /d\nsetattr /d k =~\nsetattr /d l =z\nsetattr /d m =~\n",
    line: b"rmdir /d\n",
    reads: b"ls /\nlsattr /d\ngetattr /d k\ngetattr /d m\n",
    before: b"ok 1 d/\nok 3 k l m\nok =~\nok =~\n",
    behind: b"ok 0\nno NotFound\nno NotFound\nno NotFound\n",
    room_before: b"ok 4096 2048 1688 1688 1982 0 16 15 1 64 62 1 16 14\n",
    room_behind: NO_ATTRIBUTE,
};

/// A file with a long value loses its only name: its blocks are given back by housekeeping.
const WITH_A_FILE: Change = Change {
    made: b"create /f\nsetattr /f k =~\nwrite /f 0 =hi\n",
    line: b"rm /f\n",
    reads: b"ls /\ngetattr /f k\nread /f 0 9\n",
    before: b"ok 1 f\nok =~\nok =hi\n",
    behind: b"ok 0\nno NotFound\nno NotFound\n",
    room_before: b"ok 4096 2048 1689 1689 1982 0 16 15 1 64 62 1 16 14\n",
    room_behind: NO_ATTRIBUTE,
};

/// The texts of a change, with their letters.
#[derive(Drop)]
struct Texts {
    before: Vec<u8>,
    behind: Vec<u8>,
}

/// Stops the change after each call that wrote, and mounts the image of this choice. The volume is sound; it has the old values and their room, or
/// the new ones and theirs.
fn try_change(alloc: Global, it: &Change, choice: u64) -> Result<Tried, OutOfMemory> {
    let line = lengthened(alloc, it.line, LETTERS)?;
    let texts = Texts {
        before: lengthened(alloc, it.before, LETTERS)?,
        behind: lengthened(alloc, it.behind, LETTERS)?,
    };
    let mut made = Few::over(alloc, &fresh_few(alloc)?)?;
    run_in_pieces(
        alloc,
        &mut made,
        &lengthened(alloc, it.made, LETTERS)?,
        PIECE,
    )?;
    let start = made.rig.image(alloc, 1)?;
    let mut whole = Few::over(alloc, &start)?;
    run_in_pieces(alloc, &mut whole, &line, PIECE)?;
    let mut tried = Tried {
        crashes: 0,
        wrong: None,
    };
    if !is_one_of_both(alloc, &whole.rig.image(alloc, 1)?, it, &texts)? {
        tried.wrong = Some(0);
    }
    for call in 0..whole.rig.calls() {
        if !whole.rig.wrote(call) {
            continue;
        }
        let stop = call.saturating_add(1);
        let mut disk = Few::over(alloc, &start)?;
        disk.rig.stop_after(stop);
        run_in_pieces(alloc, &mut disk, &line, PIECE)?;
        if !is_one_of_both(alloc, &disk.rig.image(alloc, choice)?, it, &texts)? {
            tried.wrong = Some(stop);
        }
        tried.crashes = tried.crashes.saturating_add(1);
    }
    Ok(tried)
}

/// Whether an image has what stood before the change, or what stands behind it: the volume is sound, and its values and its room are both the old ones
/// or both the new ones.
fn is_one_of_both(
    alloc: Global,
    image: &MemImage,
    it: &Change,
    texts: &Texts,
) -> Result<bool, OutOfMemory> {
    let told = told_by(alloc, image, it.reads)?;
    let Some(told) = told else {
        return Ok(false);
    };
    let room = if told.as_slice() == texts.before.as_slice() {
        it.room_before
    } else if told.as_slice() == texts.behind.as_slice() {
        it.room_behind
    } else {
        return Ok(false);
    };
    // A run without a line gives back what waits for it.
    let mut disk = Few::over(alloc, image)?;
    run_in_pieces(alloc, &mut disk, b"", PIECE)?;
    let settled = disk.rig.image(alloc, 1)?;
    let gauge = told_by(alloc, &settled, b"df\n")?;
    let has_room = matches!(&gauge, Some(gauge) if gauge.as_slice() == room);
    Ok(has_room && is_clean(alloc, image)? && is_clean(alloc, &settled)?)
}

// Whether each crash of a change leaves the old values or the new ones, for each choice of what the disk keeps.
fn is_whole_or_not(alloc: Global, it: &Change, crashes: u64) -> Result<bool, OutOfMemory> {
    for choice in 0..8u64 {
        let tried = try_change(alloc, it, choice)?;
        if tried.wrong.is_some() || tried.crashes < crashes {
            return Ok(false);
        }
    }
    Ok(true)
}

#[test]
fn a_value_goes_to_blocks_whole(rt: HostRuntime) -> Result<(), Fail> {
    assert!(rt; is_whole_or_not(rt.alloc(), &TO_BLOCKS, 30)?);
    Ok(())
}

#[test]
fn a_value_goes_to_its_record_whole(rt: HostRuntime) -> Result<(), Fail> {
    assert!(rt; is_whole_or_not(rt.alloc(), &TO_ITS_RECORD, 30)?);
    Ok(())
}

#[test]
fn a_value_goes_to_other_blocks_whole(rt: HostRuntime) -> Result<(), Fail> {
    assert!(rt; is_whole_or_not(rt.alloc(), &TO_OTHER_BLOCKS, 30)?);
    Ok(())
}

#[test]
fn a_long_value_is_set_anew_whole(rt: HostRuntime) -> Result<(), Fail> {
    assert!(rt; is_whole_or_not(rt.alloc(), &ANEW, 30)?);
    Ok(())
}

#[test]
fn a_long_value_goes_away_whole(rt: HostRuntime) -> Result<(), Fail> {
    assert!(rt; is_whole_or_not(rt.alloc(), &AWAY, 30)?);
    Ok(())
}

#[test]
fn a_folder_takes_its_long_values_along(rt: HostRuntime) -> Result<(), Fail> {
    assert!(rt; is_whole_or_not(rt.alloc(), &WITH_A_FOLDER, 30)?);
    Ok(())
}

#[test]
fn a_file_takes_its_long_value_along(rt: HostRuntime) -> Result<(), Fail> {
    assert!(rt; is_whole_or_not(rt.alloc(), &WITH_A_FILE, 30)?);
    Ok(())
}
