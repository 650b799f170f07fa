// Findings that are pushed in any order.
use crate::{Finding, Findings, Marks, Records};
use hx_bytes::OutOfMemory;
use std::alloc::Global;
use std::process::Abort;
use std::test::Fail;

type Numbers = (u8, u64, u64, u64);

fn pushed(alloc: Global, numbers: &[Numbers]) -> Result<Findings, OutOfMemory> {
    let mut findings = Findings::new(alloc);
    for (rule, place, found, wanted) in numbers {
        findings.push(Finding {
            rule: *rule,
            place: *place,
            found: *found,
            wanted: *wanted,
        })?;
    }
    Ok(findings)
}

fn are(rt: &impl Abort, findings: &Findings, want: &[Numbers], case: &str) {
    assert_eq!(rt; findings.len(), want.len(), "{case}");
    for (have, numbers) in findings.as_slice().iter().zip(want) {
        assert_eq!(rt;
            (have.rule, have.place, have.found, have.wanted),
            *numbers,
            "{case}"
        );
    }
}

#[derive(Clone, Copy)]
struct Case {
    shows: &'static str,
    pushed: &'static [Numbers],
    want: &'static [Numbers],
}

#[test]
fn findings_stand_in_order_and_once(rt: HostRuntime) -> Result<(), Fail> {
    let cases = [
        Case {
            shows: "by rule first",
            pushed: &[(14, 1, 0, 1), (4, 9, 0, 1)],
            want: &[(4, 9, 0, 1), (14, 1, 0, 1)],
        },
        Case {
            shows: "then by place, then by what was found, then by what is wanted",
            pushed: &[(4, 2, 0, 1), (4, 1, 7, 1), (4, 1, 6, 9), (4, 1, 6, 8)],
            want: &[(4, 1, 6, 8), (4, 1, 6, 9), (4, 1, 7, 1), (4, 2, 0, 1)],
        },
        Case {
            shows: "the same once",
            pushed: &[(6, 5, 0, 1), (6, 5, 0, 1), (6, 4, 0, 1), (6, 5, 0, 1)],
            want: &[(6, 4, 0, 1), (6, 5, 0, 1)],
        },
    ];
    for case in cases.iter() {
        let findings = pushed(rt.alloc(), case.pushed)?;
        are(&rt, &findings, case.want, case.shows);
    }
    Ok(())
}

/// Pushes a finding at each of these places, the last first.
fn fill(findings: &mut Findings, from: u64, to: u64) -> Result<(), OutOfMemory> {
    for back in from..to {
        findings.push(Finding {
            rule: 13,
            place: to - back + from,
            found: 0,
            wanted: 1,
        })?;
    }
    Ok(())
}

#[test]
fn of_more_than_a_hundred_the_first_hundred_stay(rt: HostRuntime) -> Result<(), Fail> {
    let mut findings = Findings::new(rt.alloc());
    fill(&mut findings, 0, 250)?;
    assert_eq!(rt; findings.len(), 100);
    let mut place: u64 = 0;
    for finding in findings.as_slice() {
        place = place.wrapping_add(1);
        assert_eq!(rt; finding.place, place);
    }
    Ok(())
}

#[test]
fn records_come_back_as_they_were(rt: HostRuntime) -> Result<(), Fail> {
    let alloc = rt.alloc();
    let texts: [&[u8]; 4] = [b"one", b"", b"three", b"\x00\xff"];
    let mut records = Records::new(alloc);
    for text in texts {
        records.push(text)?;
    }
    assert_eq!(rt; records.len(), 4);
    for (i, text) in texts.iter().enumerate() {
        if i < records.len() {
            assert!(rt; records.get(i) == *text, "{i}");
        }
    }
    Ok(())
}

#[test]
fn a_place_is_marked_once(rt: HostRuntime) -> Result<(), Fail> {
    let mut marks = Marks::new(rt.alloc(), 9)?;
    let steps = [
        (8, true),
        (0, true),
        (8, false),
        (9, false),
        (u32::MAX, false),
    ];
    for (place, could) in steps {
        assert_eq!(rt; marks.mark(place)?, could, "{place}");
    }
    assert_eq!(rt;
        (
            marks.count(),
            marks.has(0),
            marks.has(1),
            marks.has(8),
            marks.has(9)
        ),
        (2, true, false, true, false)
    );
    Ok(())
}

#[test]
fn a_stretch_is_marked_over_pieces(rt: HostRuntime) -> Result<(), Fail> {
    let mut marks = Marks::new(rt.alloc(), 20000)?;
    marks.mark_stretch(8190, 16385)?;
    let places = [
        (8189, false),
        (8190, true),
        (8191, true),
        (8192, true),
        (16383, true),
        (16384, true),
        (16385, false),
    ];
    for (place, has) in places {
        assert_eq!(rt; marks.has(place), has, "{place}");
    }
    assert_eq!(rt; marks.count(), 8195);
    marks.mark_stretch(0, 30000)?;
    assert_eq!(rt;
        (marks.count(), marks.has(8189), marks.has(16385)),
        (16385, true, false)
    );
    Ok(())
}
