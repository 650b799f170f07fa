//! Rows against plain loops over their flags.
use crate::{Bits, Row};
use hx_bytes::{Extent, OutOfMemory};
use std::alloc::Global;
use std::process::Abort;
use std::test::Fail;

/// So many flags, of which these stretches are set, where they lie inside.
fn row_with(alloc: Global, size: u32, set: &[(u32, u32)]) -> Result<Row, OutOfMemory> {
    let mut row = Row::of_bits(alloc, Bits::clear(alloc, size as usize)?)?;
    for (start, count) in set {
        set_inside(
            &mut row,
            Extent {
                start: *start,
                count: *count,
            },
            true,
        );
    }
    Ok(row)
}

fn set_inside(row: &mut Row, extent: Extent, value: bool) {
    if extent.start as usize + extent.count as usize <= row.bits().len() {
        row.set(extent, value);
    }
}

/// How many flags are clear, how many runs of clear flags have so many flags at least, and the longest run.
fn plain(bits: &Bits, least: u32) -> (u32, u32, u32) {
    let mut clear: u32 = 0;
    let mut runs: u32 = 0;
    let mut longest: u32 = 0;
    let mut open: u32 = 0;
    for at in 0..bits.len() {
        if bits.get(at) {
            open = 0;
        } else {
            open = open.saturating_add(1);
            clear = clear.saturating_add(1);
            longest = longest.max(open);
            if open == least {
                runs = runs.saturating_add(1);
            }
        }
    }
    (clear, runs, longest)
}

/// The numbers of a row are those of a plain count: as many runs as there are give all clear flags.
fn counts(rt: &impl Abort, row: &Row, shows: &str) {
    let (clear, runs, longest) = plain(row.bits(), 1);
    assert_eq!(rt;
        (row.count_clear(), row.longest()),
        (clear, longest),
        "{shows}"
    );
    assert_eq!(rt; row.fewest(u32::MAX), runs, "{shows}");
    assert_eq!(rt; row.fewest(clear), runs, "{shows}");
}

#[derive(Clone, Copy)]
struct Case {
    shows: &'static str,
    size: u32,
    set: &'static [(u32, u32)],
    take: u32,
    want: &'static [(u32, u32)],
}

#[test]
fn flags_are_taken_by_length(rt: HostRuntime) -> Result<(), Fail> {
    let cases = [
        Case {
            shows: "no flag at all",
            size: 0,
            set: &[],
            take: 3,
            want: &[],
        },
        Case {
            shows: "the longest run, and of two that are as long the first",
            size: 40,
            set: &[(3, 1), (10, 1), (17, 1)],
            take: 30,
            want: &[(18, 22), (4, 6), (11, 2)],
        },
        Case {
            shows: "a run over the seam of two stretches of 1,024 flags",
            size: 4000,
            set: &[(0, 1000), (1100, 2900)],
            take: 70,
            want: &[(1000, 70)],
        },
        Case {
            shows: "a run over four of them, and one that ends with the last flag",
            size: 5000,
            set: &[(500, 1), (4900, 1)],
            take: 4600,
            want: &[(501, 4399), (0, 201)],
        },
        Case {
            shows: "all that is clear, where there is less",
            size: 2050,
            set: &[(0, 1023), (1025, 1023)],
            take: 2050,
            want: &[(1023, 2), (2048, 2)],
        },
    ];
    for case in cases {
        takes(&rt, rt.alloc(), case)?;
    }
    Ok(())
}

fn takes(rt: &impl Abort, alloc: Global, case: Case) -> Result<(), Fail> {
    let mut row = row_with(alloc, case.size, case.set)?;
    let before = row.copy(alloc)?;
    counts(rt, &row, case.shows);
    let runs = row.fewest(case.take);
    let list = row.take(alloc, case.take)?;
    assert_eq!(rt; list.len(), case.want.len(), "{}", case.shows);
    assert_eq!(rt; runs as usize, list.len(), "{}", case.shows);
    for (have, (start, count)) in list.as_slice().iter().zip(case.want) {
        assert_eq!(rt;
            (have.start, have.count),
            (*start, *count),
            "{}",
            case.shows
        );
    }
    counts(rt, &row, case.shows);
    for extent in list.as_slice() {
        set_inside(&mut row, *extent, false);
    }
    assert_eq!(rt;
        (row.count_clear(), row.longest()),
        (before.count_clear(), before.longest()),
        "{}",
        case.shows
    );
    Ok(())
}

// Stretches of each length from 1 to 90, set and clear in turn: the runs lie over the seams in every way.
#[test]
fn numbers_stay_right_while_flags_change(rt: HostRuntime) -> Result<(), Fail> {
    let mut row = row_with(rt.alloc(), 4096, &[])?;
    let mut start: u32 = 0;
    for length in 1..91u32 {
        set_inside(
            &mut row,
            Extent {
                start,
                count: length,
            },
            length % 2 == 0,
        );
        start = start.saturating_add(length);
        counts(&rt, &row, "after each stretch");
    }
    set_inside(
        &mut row,
        Extent {
            start: 100,
            count: 3000,
        },
        true,
    );
    counts(&rt, &row, "a long stretch set");
    set_inside(
        &mut row,
        Extent {
            start: 0,
            count: 4096,
        },
        false,
    );
    counts(&rt, &row, "all clear");
    Ok(())
}
