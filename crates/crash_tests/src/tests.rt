// Runs that are cut off, and runs over devices that fail; each choice of a crash's image is a test of its own.
use crate::crashes::{
    try_all, try_bytes, try_growth, try_one_batch, try_removals, try_replacements, try_two_growths,
    try_worn, worn,
};
use crate::faults::try_faults;
use crate::journals::{Damage, HEADER, changed_sectors, is_refused, told_before_the_journal};
use crate::reclaims::try_reclaims;
use crate::replaces::{LAST_OF_TWO, ONE_OF_TWO, ONLY_ONE, try_replacement};
use crate::replays::{is_replayed_after_two_stops, start_of};
use crate::twice::try_pairs;
use std::test::Fail;
use test_kit::BASE;

#[test]
fn the_oldest_values_of_removals_leave_a_prefix(rt: HostRuntime) -> Result<(), Fail> {
    let tried = try_removals(rt.alloc(), 0)?;
    assert_eq!(rt; tried.wrong, None);
    assert!(rt; 50 < tried.crashes);
    Ok(())
}

#[test]
fn the_newest_values_of_removals_leave_a_prefix(rt: HostRuntime) -> Result<(), Fail> {
    let tried = try_removals(rt.alloc(), 1)?;
    assert_eq!(rt; tried.wrong, None);
    assert!(rt; 50 < tried.crashes);
    Ok(())
}

#[test]
fn the_oldest_values_leave_a_prefix(rt: HostRuntime) -> Result<(), Fail> {
    let tried = try_all(rt.alloc(), 0)?;
    assert_eq!(rt; tried.wrong, None);
    assert!(rt; 100 < tried.crashes);
    Ok(())
}

#[test]
fn the_newest_values_leave_a_prefix(rt: HostRuntime) -> Result<(), Fail> {
    let tried = try_all(rt.alloc(), 1)?;
    assert_eq!(rt; tried.wrong, None);
    assert!(rt; 100 < tried.crashes);
    Ok(())
}

#[test]
fn the_values_of_choice_2_leave_a_prefix(rt: HostRuntime) -> Result<(), Fail> {
    let tried = try_all(rt.alloc(), 2)?;
    assert_eq!(rt; tried.wrong, None);
    assert!(rt; 100 < tried.crashes);
    Ok(())
}

#[test]
fn the_values_of_choice_3_leave_a_prefix(rt: HostRuntime) -> Result<(), Fail> {
    let tried = try_all(rt.alloc(), 3)?;
    assert_eq!(rt; tried.wrong, None);
    assert!(rt; 100 < tried.crashes);
    Ok(())
}

#[test]
fn the_values_of_choice_4_leave_a_prefix(rt: HostRuntime) -> Result<(), Fail> {
    let tried = try_all(rt.alloc(), 4)?;
    assert_eq!(rt; tried.wrong, None);
    assert!(rt; 100 < tried.crashes);
    Ok(())
}

#[test]
fn the_values_of_choice_5_leave_a_prefix(rt: HostRuntime) -> Result<(), Fail> {
    let tried = try_all(rt.alloc(), 5)?;
    assert_eq!(rt; tried.wrong, None);
    assert!(rt; 100 < tried.crashes);
    Ok(())
}

#[test]
fn the_values_of_choice_6_leave_a_prefix(rt: HostRuntime) -> Result<(), Fail> {
    let tried = try_all(rt.alloc(), 6)?;
    assert_eq!(rt; tried.wrong, None);
    assert!(rt; 100 < tried.crashes);
    Ok(())
}

#[test]
fn the_values_of_choice_7_leave_a_prefix(rt: HostRuntime) -> Result<(), Fail> {
    let tried = try_all(rt.alloc(), 7)?;
    assert_eq!(rt; tried.wrong, None);
    assert!(rt; 100 < tried.crashes);
    Ok(())
}

#[test]
fn the_oldest_bytes_of_files_leave_a_prefix(rt: HostRuntime) -> Result<(), Fail> {
    let tried = try_bytes(rt.alloc(), 0)?;
    assert_eq!(rt; tried.wrong, None);
    assert!(rt; 200 < tried.crashes);
    Ok(())
}

#[test]
fn the_newest_bytes_of_files_leave_a_prefix(rt: HostRuntime) -> Result<(), Fail> {
    let tried = try_bytes(rt.alloc(), 1)?;
    assert_eq!(rt; tried.wrong, None);
    assert!(rt; 200 < tried.crashes);
    Ok(())
}

#[test]
fn the_bytes_of_choice_2_leave_a_prefix(rt: HostRuntime) -> Result<(), Fail> {
    let tried = try_bytes(rt.alloc(), 2)?;
    assert_eq!(rt; tried.wrong, None);
    assert!(rt; 200 < tried.crashes);
    Ok(())
}

#[test]
fn the_bytes_of_choice_3_leave_a_prefix(rt: HostRuntime) -> Result<(), Fail> {
    let tried = try_bytes(rt.alloc(), 3)?;
    assert_eq!(rt; tried.wrong, None);
    assert!(rt; 200 < tried.crashes);
    Ok(())
}

#[test]
fn the_bytes_of_choice_4_leave_a_prefix(rt: HostRuntime) -> Result<(), Fail> {
    let tried = try_bytes(rt.alloc(), 4)?;
    assert_eq!(rt; tried.wrong, None);
    assert!(rt; 200 < tried.crashes);
    Ok(())
}

#[test]
fn the_bytes_of_choice_5_leave_a_prefix(rt: HostRuntime) -> Result<(), Fail> {
    let tried = try_bytes(rt.alloc(), 5)?;
    assert_eq!(rt; tried.wrong, None);
    assert!(rt; 200 < tried.crashes);
    Ok(())
}

#[test]
fn the_bytes_of_choice_6_leave_a_prefix(rt: HostRuntime) -> Result<(), Fail> {
    let tried = try_bytes(rt.alloc(), 6)?;
    assert_eq!(rt; tried.wrong, None);
    assert!(rt; 200 < tried.crashes);
    Ok(())
}

#[test]
fn the_bytes_of_choice_7_leave_a_prefix(rt: HostRuntime) -> Result<(), Fail> {
    let tried = try_bytes(rt.alloc(), 7)?;
    assert_eq!(rt; tried.wrong, None);
    assert!(rt; 200 < tried.crashes);
    Ok(())
}

#[test]
fn a_catalog_that_grows_leaves_a_prefix_0_to_3(rt: HostRuntime) -> Result<(), Fail> {
    for choice in 0..4u64 {
        let tried = try_growth(rt.alloc(), choice)?;
        assert!(rt; matches!(&tried, Some(tried) if tried.wrong.is_none() && 60 < tried.crashes));
    }
    Ok(())
}

#[test]
fn a_catalog_that_grows_leaves_a_prefix_4_to_7(rt: HostRuntime) -> Result<(), Fail> {
    for choice in 4..8u64 {
        let tried = try_growth(rt.alloc(), choice)?;
        assert!(rt; matches!(&tried, Some(tried) if tried.wrong.is_none() && 60 < tried.crashes));
    }
    Ok(())
}

#[test]
fn two_trees_that_grow_leave_a_prefix_0_to_3(rt: HostRuntime) -> Result<(), Fail> {
    for choice in 0..4u64 {
        let tried = try_two_growths(rt.alloc(), choice)?;
        assert!(rt; matches!(&tried, Some(tried) if tried.wrong.is_none() && 60 < tried.crashes));
    }
    Ok(())
}

#[test]
fn two_trees_that_grow_leave_a_prefix_4_to_7(rt: HostRuntime) -> Result<(), Fail> {
    for choice in 4..8u64 {
        let tried = try_two_growths(rt.alloc(), choice)?;
        assert!(rt; matches!(&tried, Some(tried) if tried.wrong.is_none() && 60 < tried.crashes));
    }
    Ok(())
}

#[test]
fn a_file_that_goes_is_there_or_gone(rt: HostRuntime) -> Result<(), Fail> {
    for choice in 0..8u64 {
        let tried = try_reclaims(rt.alloc(), choice)?;
        assert_eq!(rt; tried.wrong, None);
        assert!(rt; 40 < tried.crashes);
    }
    Ok(())
}

#[test]
fn a_name_is_that_of_the_old_file_or_of_the_new_one(rt: HostRuntime) -> Result<(), Fail> {
    for it in [ONE_OF_TWO, LAST_OF_TWO, ONLY_ONE] {
        for choice in 0..8u64 {
            let tried = try_replacement(rt.alloc(), &it, choice)?;
            assert_eq!(rt; tried.wrong, None);
            assert!(rt; 20 < tried.crashes);
        }
    }
    Ok(())
}

#[test]
fn files_that_take_the_places_of_others_leave_a_prefix_0_to_3(rt: HostRuntime) -> Result<(), Fail> {
    for choice in 0..4u64 {
        let tried = try_replacements(rt.alloc(), choice)?;
        assert_eq!(rt; tried.wrong, None);
        assert!(rt; 100 < tried.crashes);
    }
    Ok(())
}

#[test]
fn files_that_take_the_places_of_others_leave_a_prefix_4_to_7(rt: HostRuntime) -> Result<(), Fail> {
    for choice in 4..8u64 {
        let tried = try_replacements(rt.alloc(), choice)?;
        assert_eq!(rt; tried.wrong, None);
        assert!(rt; 100 < tried.crashes);
    }
    Ok(())
}

#[test]
fn a_batch_of_bytes_leaves_a_prefix(rt: HostRuntime) -> Result<(), Fail> {
    for choice in 0..8u64 {
        let tried = try_one_batch(rt.alloc(), choice)?;
        assert_eq!(rt; tried.wrong, None);
        assert!(rt; 40 < tried.crashes);
    }
    Ok(())
}

#[test]
fn a_ring_that_wraps_leaves_a_prefix_0(rt: HostRuntime) -> Result<(), Fail> {
    let tried = try_worn(rt.alloc(), 0)?;
    assert_eq!(rt; tried.wrong, None);
    assert!(rt; 100 < tried.crashes);
    Ok(())
}

#[test]
fn a_ring_that_wraps_leaves_a_prefix_1(rt: HostRuntime) -> Result<(), Fail> {
    let tried = try_worn(rt.alloc(), 1)?;
    assert_eq!(rt; tried.wrong, None);
    assert!(rt; 100 < tried.crashes);
    Ok(())
}

#[test]
fn a_ring_that_wraps_leaves_a_prefix_2(rt: HostRuntime) -> Result<(), Fail> {
    let tried = try_worn(rt.alloc(), 2)?;
    assert_eq!(rt; tried.wrong, None);
    assert!(rt; 100 < tried.crashes);
    Ok(())
}

#[test]
fn a_ring_that_wraps_leaves_a_prefix_3(rt: HostRuntime) -> Result<(), Fail> {
    let tried = try_worn(rt.alloc(), 3)?;
    assert_eq!(rt; tried.wrong, None);
    assert!(rt; 100 < tried.crashes);
    Ok(())
}

#[test]
fn a_ring_that_wraps_leaves_a_prefix_4(rt: HostRuntime) -> Result<(), Fail> {
    let tried = try_worn(rt.alloc(), 4)?;
    assert_eq!(rt; tried.wrong, None);
    assert!(rt; 100 < tried.crashes);
    Ok(())
}

#[test]
fn a_ring_that_wraps_leaves_a_prefix_5(rt: HostRuntime) -> Result<(), Fail> {
    let tried = try_worn(rt.alloc(), 5)?;
    assert_eq!(rt; tried.wrong, None);
    assert!(rt; 100 < tried.crashes);
    Ok(())
}

#[test]
fn a_ring_that_wraps_leaves_a_prefix_6(rt: HostRuntime) -> Result<(), Fail> {
    let tried = try_worn(rt.alloc(), 6)?;
    assert_eq!(rt; tried.wrong, None);
    assert!(rt; 100 < tried.crashes);
    Ok(())
}

#[test]
fn a_ring_that_wraps_leaves_a_prefix_7(rt: HostRuntime) -> Result<(), Fail> {
    let tried = try_worn(rt.alloc(), 7)?;
    assert_eq!(rt; tried.wrong, None);
    assert!(rt; 100 < tried.crashes);
    Ok(())
}

// Each batch has 16 sectors in the ring of 2,047, and a mount and its end have nine each. So the list of the third folder begins 15 sectors
// before the ring's end, which one of 25 sectors passes.
#[test]
fn the_worn_ring_wraps_inside_a_list(rt: HostRuntime) -> Result<(), Fail> {
    let start = start_of(&worn(rt.alloc())?);
    assert_eq!(rt; start, Some(1 + (18 + 506 * 16) % 2047));
    Ok(())
}

#[test]
fn a_mount_that_is_cut_off_changes_nothing_0(rt: HostRuntime) -> Result<(), Fail> {
    let tried = try_pairs(rt.alloc(), 0)?;
    assert_eq!(rt; tried.wrong, None);
    assert!(rt; 500 < tried.pairs);
    Ok(())
}

#[test]
fn a_mount_that_is_cut_off_changes_nothing_1(rt: HostRuntime) -> Result<(), Fail> {
    let tried = try_pairs(rt.alloc(), 1)?;
    assert_eq!(rt; tried.wrong, None);
    assert!(rt; 500 < tried.pairs);
    Ok(())
}

#[test]
fn a_mount_that_is_cut_off_changes_nothing_2(rt: HostRuntime) -> Result<(), Fail> {
    let tried = try_pairs(rt.alloc(), 2)?;
    assert_eq!(rt; tried.wrong, None);
    assert!(rt; 500 < tried.pairs);
    Ok(())
}

#[test]
fn a_mount_that_is_cut_off_changes_nothing_3(rt: HostRuntime) -> Result<(), Fail> {
    let tried = try_pairs(rt.alloc(), 3)?;
    assert_eq!(rt; tried.wrong, None);
    assert!(rt; 500 < tried.pairs);
    Ok(())
}

#[test]
fn a_mount_that_is_cut_off_changes_nothing_4(rt: HostRuntime) -> Result<(), Fail> {
    let tried = try_pairs(rt.alloc(), 4)?;
    assert_eq!(rt; tried.wrong, None);
    assert!(rt; 500 < tried.pairs);
    Ok(())
}

#[test]
fn a_mount_that_is_cut_off_changes_nothing_5(rt: HostRuntime) -> Result<(), Fail> {
    let tried = try_pairs(rt.alloc(), 5)?;
    assert_eq!(rt; tried.wrong, None);
    assert!(rt; 500 < tried.pairs);
    Ok(())
}

#[test]
fn a_mount_that_is_cut_off_changes_nothing_6(rt: HostRuntime) -> Result<(), Fail> {
    let tried = try_pairs(rt.alloc(), 6)?;
    assert_eq!(rt; tried.wrong, None);
    assert!(rt; 500 < tried.pairs);
    Ok(())
}

#[test]
fn a_mount_that_is_cut_off_changes_nothing_7(rt: HostRuntime) -> Result<(), Fail> {
    let tried = try_pairs(rt.alloc(), 7)?;
    assert_eq!(rt; tried.wrong, None);
    assert!(rt; 500 < tried.pairs);
    Ok(())
}

#[test]
fn a_replay_that_is_stopped_twice_gives_the_same(rt: HostRuntime) -> Result<(), Fail> {
    for choice in 0..8u64 {
        assert!(rt;
            is_replayed_after_two_stops(rt.alloc(), choice)?,
            "choice {choice}"
        );
    }
    Ok(())
}

#[test]
fn a_journal_with_a_fault_is_refused(rt: HostRuntime) -> Result<(), Fail> {
    let rows = [
        (Damage::Bit, "refused BadList 512\n"),
        // The version 10.0, which is 31 30 2E 30.
        (
            Damage::Number(HEADER, 8, 825_241_136),
            "refused ForeignJournal 825241136\n",
        ),
        // A start that no journal has.
        (Damage::Number(BASE, 8, 1), "refused BadHeader 8\n"),
    ];
    for (damage, told) in rows {
        assert!(rt; is_refused(rt.alloc(), damage, told)?, "{told}");
    }
    Ok(())
}

#[test]
fn a_journal_to_be_initialised_counts_as_empty(rt: HostRuntime) -> Result<(), Fail> {
    let told = told_before_the_journal(rt.alloc())?;
    assert_eq!(rt; told.as_slice(), b"ok 0\n".as_slice());
    Ok(())
}

// The list's block for sector 5000 and the volume header; not the block that is skipped.
#[test]
fn a_skipped_block_is_stepped_over(rt: HostRuntime) -> Result<(), Fail> {
    assert_eq!(rt; changed_sectors(rt.alloc())?, 2);
    Ok(())
}

#[test]
fn a_call_that_fails_ends_the_run_and_leaves_a_prefix(rt: HostRuntime) -> Result<(), Fail> {
    let tried = try_faults(rt.alloc())?;
    assert_eq!(rt; tried.wrong, None);
    assert!(rt; 50 < tried.faults);
    Ok(())
}
