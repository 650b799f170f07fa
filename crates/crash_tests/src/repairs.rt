//! Power fails in a repair, at each device call, and another repair ends it.
use crate::few::{Few, fresh_few};
use crate::runs::{Told, told_by_words};
use hfsx_server::Status;
use hx_bytes::OutOfMemory;
use mem_disk::{MemImage, MemRig};
use std::alloc::Global;
use std::test::Fail;
use test_kit::miscount;

/// How many calls of a repair that wrote are passed over between two at which it is stopped a second time.
const STEP: u64 = 7;

const CLEAN: &[u8] = b"clean files 2 folders 0 blocks 2048 free 1692\n";

const REPAIRED: &[u8] = b"repaired 2\n";

const NOTHING_LEFT: &[u8] = b"repaired 0\n";

/// What all crashes left.
#[derive(Clone, Copy)]
struct Tried {
    crashes: u64,
    /// How many of the images were still to be repaired.
    unrepaired: u64,
    /// After how many calls an image was wrong, if one was.
    wrong: Option<u64>,
}

/// A new volume of which a bit and a count are wrong.
fn miscounted(alloc: Global) -> Result<MemImage, OutOfMemory> {
    let mut rig = MemRig::from_image(alloc, &fresh_few(alloc)?)?;
    miscount(&mut rig);
    rig.image(alloc, 1)
}

/// Stops the repair of an image ahead of its first call, after each call that wrote, and at its end. Of the image of this choice another repair makes the volume of the first check; it finds two sectors to
/// change, or none, and none where the one that was stopped had told its answer. It is stopped too after some calls, and a third one ends it.
fn try_repairs(alloc: Global, choice: u64) -> Result<Tried, OutOfMemory> {
    let start = miscounted(alloc)?;
    let mut whole = Few::over(alloc, &start)?;
    told_by_words(alloc, "repair v.img", &mut whole)?;
    let mut tried = Tried {
        crashes: 0,
        unrepaired: 0,
        wrong: None,
    };
    let calls = whole.rig.calls();
    for stop in 0..calls.saturating_add(1) {
        // (a read leaves what the call before it left)
        if 0 < stop && stop < calls && !whole.rig.wrote(stop.saturating_sub(1)) {
            continue;
        }
        let mut disk = Few::over(alloc, &start)?;
        disk.rig.stop_after(stop);
        let stopped = told_by_words(alloc, "repair v.img", &mut disk)?;
        let image = disk.rig.image(alloc, choice)?;
        let Some(left) = told_by_repair(alloc, &image)? else {
            tried.wrong = Some(stop);
            continue;
        };
        let is_left = left.as_slice() == REPAIRED;
        if is_left {
            tried.unrepaired = tried.unrepaired.saturating_add(1);
        }
        if is_left && !stopped.text.is_empty()
            || !ends_after_a_second_stop(alloc, &image, choice, stop)?
        {
            tried.wrong = Some(stop);
        }
        tried.crashes = tried.crashes.saturating_add(1);
    }
    Ok(tried)
}

/// What a repair of an image tells, if it ends with status 0, tells one of two answers, and leaves the volume of the first check.
fn told_by_repair(alloc: Global, image: &MemImage) -> Result<Option<Vec<u8>>, OutOfMemory> {
    let mut disk = Few::over(alloc, image)?;
    let ended = told_by_words(alloc, "repair v.img", &mut disk)?;
    let is_known = ended.text.as_slice() == REPAIRED || ended.text.as_slice() == NOTHING_LEFT;
    let mut repaired = Few::over(alloc, &disk.rig.image(alloc, 1)?)?;
    let checked = told_by_words(alloc, "check v.img", &mut repaired)?;
    if is_known && ended.status == Status::Done && is_clean(&checked) {
        Ok(Some(ended.text))
    } else {
        Ok(None)
    }
}

fn is_clean(checked: &Told) -> bool {
    checked.status == Status::Done && checked.text.as_slice() == CLEAN
}

/// Stops the repair of an image after some of the calls that wrote, beginning with another one for each image, and repairs what is left.
fn ends_after_a_second_stop(
    alloc: Global,
    image: &MemImage,
    choice: u64,
    first: u64,
) -> Result<bool, OutOfMemory> {
    let mut whole = Few::over(alloc, image)?;
    told_by_words(alloc, "repair v.img", &mut whole)?;
    let mut nth = first;
    for call in 0..whole.rig.calls() {
        if whole.rig.wrote(call) {
            nth = nth.wrapping_add(1);
            if nth % STEP == 0 {
                let mut disk = Few::over(alloc, image)?;
                disk.rig.stop_after(call.saturating_add(1));
                told_by_words(alloc, "repair v.img", &mut disk)?;
                if told_by_repair(alloc, &disk.rig.image(alloc, choice)?)?.is_none() {
                    return Ok(false);
                }
            }
        }
    }
    Ok(true)
}

#[test]
fn a_repair_that_is_cut_off_is_ended_by_another_0_to_3(rt: HostRuntime) -> Result<(), Fail> {
    for choice in 0..4u64 {
        let tried = try_repairs(rt.alloc(), choice)?;
        assert_eq!(rt; tried.wrong, None, "choice {choice}");
        assert!(rt; 10 < tried.unrepaired && tried.unrepaired < tried.crashes);
    }
    Ok(())
}

#[test]
fn a_repair_that_is_cut_off_is_ended_by_another_4_to_7(rt: HostRuntime) -> Result<(), Fail> {
    for choice in 4..8u64 {
        let tried = try_repairs(rt.alloc(), choice)?;
        assert_eq!(rt; tried.wrong, None, "choice {choice}");
        assert!(rt; 10 < tried.unrepaired && tried.unrepaired < tried.crashes);
    }
    Ok(())
}
