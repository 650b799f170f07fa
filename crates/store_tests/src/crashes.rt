// What a crash leaves of a transaction, at each moment of its commit.
use crate::commits::{Tried, try_all, try_committed, try_put};
use crate::losses::try_lost;
use crate::rounds::{Rounds, calls_of_reads, many_batches, try_rounds};
use crate::volumes::{new_volume, volume};
use std::test::Fail;

// Some images have the old sectors and some the new ones, and none has others.
fn are_whole(tried: &Tried) -> bool {
    !tried.wrong && 0 < tried.new && tried.new < tried.images
}

#[test]
fn a_crash_leaves_the_old_or_the_new(rt: HostRuntime) -> Result<(), Fail> {
    // One sector, and some.
    for count in [1, 4] {
        let tried = try_all(rt.alloc(), count)?;
        assert!(rt; are_whole(&tried), "{count} sectors");
    }
    Ok(())
}

// One sector more than a list has room for.
#[test]
fn a_transaction_of_two_lists_is_whole(rt: HostRuntime) -> Result<(), Fail> {
    let tried = try_all(rt.alloc(), 31)?;
    assert!(rt; are_whole(&tried));
    Ok(())
}

// As many sectors as there may be.
#[test]
fn the_largest_transaction_is_whole(rt: HostRuntime) -> Result<(), Fail> {
    let tried = try_all(rt.alloc(), 60)?;
    assert!(rt; are_whole(&tried));
    Ok(())
}

#[test]
fn a_committed_transaction_stays(rt: HostRuntime) -> Result<(), Fail> {
    let tried = try_committed(rt.alloc(), 31)?;
    assert_eq!(rt; (tried.images, tried.new, tried.wrong), (8, 8, false));
    Ok(())
}

#[test]
fn puts_alone_leave_the_old(rt: HostRuntime) -> Result<(), Fail> {
    let tried = try_put(rt.alloc(), 5)?;
    assert_eq!(rt; (tried.images, tried.new, tried.wrong), (8, 0, false));
    Ok(())
}

// Each list has one sector of header, and the ring has 62 sectors beside the one that stays free: of five lists of eleven sectors
// the third wraps, and no block is home before the fifth is stable.
#[test]
fn a_list_that_wraps_is_whole(rt: HostRuntime) -> Result<(), Fail> {
    let rounds = Rounds {
        before: 3,
        count: 5,
        sectors: 10,
    };
    let tried = try_rounds(rt.alloc(), &rounds)?;
    assert!(rt; are_whole(&tried));
    Ok(())
}

// The sixth list has no room: the five before it go home inside its commit, and it wraps.
#[test]
fn a_list_behind_a_checkpoint_is_whole(rt: HostRuntime) -> Result<(), Fail> {
    let rounds = Rounds {
        before: 0,
        count: 6,
        sectors: 10,
    };
    let tried = try_rounds(rt.alloc(), &rounds)?;
    assert!(rt; are_whole(&tried));
    Ok(())
}

// A transaction of two lists, of which the second wraps in the middle of its blocks.
#[test]
fn two_lists_that_wrap_are_whole(rt: HostRuntime) -> Result<(), Fail> {
    let rounds = Rounds {
        before: 1,
        count: 1,
        sectors: 31,
    };
    let tried = try_rounds(rt.alloc(), &rounds)?;
    assert!(rt; are_whole(&tried));
    Ok(())
}

#[test]
fn a_ring_is_gone_round_many_times(rt: HostRuntime) -> Result<(), Fail> {
    let alloc = rt.alloc();
    // A list of two sectors: 31 of them fill the 62 that it may have, so that 12 of 400 commits had no room.
    assert_eq!(rt; many_batches(alloc, &volume(alloc)?, 1, 400)?, (400, 12));
    // A list of nine sectors, of which 56 fill the 510: 3 of 200 commits had no room.
    assert_eq!(rt; many_batches(alloc, &new_volume(alloc)?, 8, 200)?, (200, 3));
    Ok(())
}

#[test]
fn a_slot_saves_a_read(rt: HostRuntime) -> Result<(), Fail> {
    assert_eq!(rt; calls_of_reads(rt.alloc(), 0)?, 1000);
    assert_eq!(rt; calls_of_reads(rt.alloc(), 128)?, 100);
    Ok(())
}

#[test]
fn a_barrier_that_failed_does_no_harm_later(rt: HostRuntime) -> Result<(), Fail> {
    let lost = try_lost(rt.alloc())?;
    assert_eq!(rt; lost.wrong, None);
    assert!(rt; 200 < lost.images);
    Ok(())
}
