// Lists of extents, cut and put together.
ghost use Rattle.std.specs.Prelude.{◌≤◌, ◌+◌, ◌^◌, IsTrue};
ghost use Rattle.std.specs.List.{All};
ghost use Rattle.fork_map.specs.Blocks.{blocks_of, AreNumbers};

use crate::ExtentList;
use crate::place::count_blocks;
use hx_bytes::{Extent, OutOfMemory};
use std::alloc::Global;
use std::process::Abort;
use std::test::Fail;

fn list_of(alloc: Global, pairs: &[(u32, u32)]) -> Result<ExtentList, OutOfMemory> {
    let mut list = ExtentList::new(alloc);
    for (start, count) in pairs {
        list.push(Extent {
            start: *start,
            count: *count,
        })?;
    }
    Ok(list)
}

fn ends_fit(extents: &[Extent]) -> bool
    ensures { IsTrue result → All (λ extent. extent.start + extent.count ≤ 2 ^ 32) extents.now }
{
    extents
        .iter()
        .all(|e| e.start as u64 + e.count as u64 <= 0x1_0000_0000)
}

fn fits(list: &ExtentList) -> bool
    ensures { IsTrue result → AreNumbers (blocks_of list.now) }
{
    ends_fit(list.as_slice())
}

fn is(rt: &impl Abort, list: &ExtentList, want: &[(u32, u32)], case: &str) {
    assert_eq!(rt; list.len(), want.len(), "{case}");
    for (have, (start, count)) in list.as_slice().iter().zip(want) {
        assert_eq!(rt; (have.start, have.count), (*start, *count), "{case}");
    }
}

#[derive(Clone, Copy)]
struct Replaced {
    shows: &'static str,
    list: &'static [(u32, u32)],
    from: u32,
    to: u32,
    with: &'static [(u32, u32)],
    want: &'static [(u32, u32)],
}

#[test]
fn blocks_are_replaced(rt: HostRuntime) -> Result<(), Fail> {
    let cases = [
        Replaced {
            shows: "a part of an extent",
            list: &[(10, 5), (20, 3)],
            from: 1,
            to: 3,
            with: &[(40, 2)],
            want: &[(10, 1), (40, 2), (13, 2), (20, 3)],
        },
        Replaced {
            shows: "joined at both seams",
            list: &[(10, 5), (20, 3)],
            from: 2,
            to: 4,
            with: &[(12, 2)],
            want: &[(10, 5), (20, 3)],
        },
        Replaced {
            shows: "cut and put together again",
            list: &[(10, 5), (20, 3)],
            from: 6,
            to: 6,
            with: &[],
            want: &[(10, 5), (20, 3)],
        },
        Replaced {
            shows: "extents that touch elsewhere stay apart",
            list: &[(10, 2), (12, 2), (30, 4)],
            from: 7,
            to: 8,
            with: &[(50, 1)],
            want: &[(10, 2), (12, 2), (30, 3), (50, 1)],
        },
        Replaced {
            shows: "the whole list",
            list: &[(10, 2), (12, 2)],
            from: 0,
            to: 4,
            with: &[(7, 1), (8, 1)],
            want: &[(7, 1), (8, 1)],
        },
    ];
    for case in cases {
        let list = list_of(rt.alloc(), case.list)?;
        let with = list_of(rt.alloc(), case.with)?;
        assert!(rt; fits(&list) && fits(&with));
        assert!(rt; case.from <= case.to && case.to as u128 <= count_blocks(list.as_slice()));
        let new = list.replace(rt.alloc(), case.from, case.to, &with)?;
        is(&rt, &new, case.want, case.shows);
    }
    Ok(())
}

#[test]
fn a_tail_is_cut(rt: HostRuntime) -> Result<(), Fail> {
    let list = list_of(rt.alloc(), &[(10, 5), (20, 3)])?;
    assert!(rt; fits(&list));
    let cases: [(u32, &[(u32, u32)], &[(u32, u32)]); 5] = [
        (0, &[(10, 5), (20, 3)], &[]),
        (2, &[(10, 5), (20, 1)], &[(21, 2)]),
        (3, &[(10, 5)], &[(20, 3)]),
        (6, &[(10, 2)], &[(12, 3), (20, 3)]),
        (9, &[], &[(10, 5), (20, 3)]),
    ];
    for (blocks, stays, cut) in cases {
        let parts = list.cut_tail(rt.alloc(), blocks)?;
        is(&rt, &parts.0, stays, "what stays");
        is(&rt, &parts.1, cut, "what is cut");
    }
    Ok(())
}

#[test]
fn lists_are_appended(rt: HostRuntime) -> Result<(), Fail> {
    let half = 0x8000_0000;
    let cases: [(&[(u32, u32)], &[(u32, u32)], &[(u32, u32)]); 4] = [
        (&[(10, 5)], &[(15, 2), (17, 1)], &[(10, 7), (17, 1)]),
        (&[(10, 5)], &[(16, 2)], &[(10, 5), (16, 2)]),
        // A sum of counts that is past 32 bits, and the last one that isn't.
        (&[(0, half)], &[(half, half)], &[(0, half), (half, half)]),
        (&[(0, half)], &[(half, half - 1)], &[(0, 0xFFFF_FFFF)]),
    ];
    for (first, more, want) in cases {
        let list = list_of(rt.alloc(), first)?.append(rt.alloc(), &list_of(rt.alloc(), more)?)?;
        is(&rt, &list, want, "appended");
        is(&rt, &list.copy(rt.alloc())?, want, "copied");
    }
    Ok(())
}

#[test]
fn blocks_and_sectors_are_found(rt: HostRuntime) -> Result<(), Fail> {
    let list = list_of(rt.alloc(), &[(10, 5), (20, 3), (0xFFFF_FFFE, 4)])?;
    for (n, block) in [
        (0, Some(10)),
        (4, Some(14)),
        (5, Some(20)),
        (8, Some(0xFFFF_FFFE)),
        (9, Some(0xFFFF_FFFF)),
        (11, Some(0xFFFF_FFFF)),
        (12, None),
    ] {
        assert_eq!(rt; list.block_of(n), block, "at {n}");
    }
    for (n, sector) in [(0, Some(80)), (41, Some(161)), (96, None)] {
        assert_eq!(rt; list.sector_at(8, n), sector, "at {n}");
    }
    assert_eq!(rt; list.sector_at(0, 0), None);
    Ok(())
}

// A pass over a list with an extent of no block, from each place on, gives the blocks that are found one by one.
#[test]
fn a_cursor_gives_block_after_block(rt: HostRuntime) -> Result<(), Fail> {
    let list = list_of(
        rt.alloc(),
        &[(10, 5), (7, 0), (20, 3), (0xFFFF_FFFE, 4), (3, 0)],
    )?;
    for from in 0..14u64 {
        let mut cursor = list.seek(from);
        for n in from..14u64 {
            let block = list.next_block(&mut cursor);
            assert_eq!(rt; block, list.block_at(n), "{n} from {from}");
        }
    }
    Ok(())
}
