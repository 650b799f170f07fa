// A volume with a value in a fork, which goes on in a further record, whole and damaged.
use crate::fuller::fuller;
use crate::volumes::{Numbers, Patch, checked, damage, finds, is_clean};
use hfs_volume::Summary;
use std::test::Fail;

const HEAD: usize = 1_024;

const BITMAP: usize = 4_096;

const ATTRIBUTES: usize = 275 * 4_096;

/// The attribute `k` of the file 20 has a value of 36,000 bytes, in the nine blocks 700, 702 and so on to 716, of which the last stands in a further record.
const VALUE: [Patch; 5] = [
    (HEAD + 48, &[0, 0, 6, 0x8F]),
    (BITMAP + 87, &[0x0A, 0xAA, 0xA8]),
    (ATTRIBUTES + 23, &[2]),
    (
        ATTRIBUTES + 4_104,
        &[
            0xFF, 1, 0, 2, 0, 0, 0, 0xE, 0, 0, 0, 0, 0, 0x14, 0, 0, 0, 0, 0, 1, 0, 0x6B, 0, 0, 0,
            0x20, 0, 0, 0, 0, 0, 0, 0, 0, 0, 0, 0x8C, 0xA0, 0, 0, 0, 0, 0, 0, 0, 9, 0, 0, 2, 0xBC,
            0, 0, 0, 1, 0, 0, 2, 0xBE, 0, 0, 0, 1, 0, 0, 2, 0xC0, 0, 0, 0, 1, 0, 0, 2, 0xC2, 0, 0,
            0, 1, 0, 0, 2, 0xC4, 0, 0, 0, 1, 0, 0, 2, 0xC6, 0, 0, 0, 1, 0, 0, 2, 0xC8, 0, 0, 0, 1,
            0, 0, 2, 0xCA, 0, 0, 0, 1, 0, 0xE, 0, 0, 0, 0, 0, 0x14, 0, 0, 0, 8, 0, 1, 0, 0x6B, 0,
            0, 0, 0x30, 0, 0, 0, 0, 0, 0, 2, 0xCC, 0, 0, 0, 1, 0, 0, 0, 0, 0, 0, 0, 0, 0, 0, 0, 0,
            0, 0, 0, 0, 0, 0, 0, 0, 0, 0, 0, 0, 0, 0, 0, 0, 0, 0, 0, 0, 0, 0, 0, 0, 0, 0, 0, 0, 0,
            0, 0, 0, 0, 0, 0, 0, 0, 0, 0, 0, 0, 0, 0, 0,
        ],
    ),
    (ATTRIBUTES + 8_186, &[0, 206, 0, 118, 0, 14]),
];

/// Bytes that are put over it, and what a check finds then.
#[derive(Clone, Copy)]
struct Flaw {
    shows: &'static str,
    patch: Patch,
    finds: &'static [Numbers],
}

const FLAWS: [Flaw; 9] = [
    Flaw {
        shows: "a value that says a block too many",
        patch: (ATTRIBUTES + 4_149, &[10]),
        finds: &[(16, 20, 10, 9)],
    },
    Flaw {
        shows: "a value with a byte more than its blocks hold",
        patch: (ATTRIBUTES + 4_140, &[0x90, 1]),
        finds: &[(16, 20, 36_865, 36_864)],
    },
    Flaw {
        shows: "a value that begins behind its start",
        patch: (ATTRIBUTES + 4_121, &[1]),
        finds: &[(20, 20, 0, 1)],
    },
    Flaw {
        shows: "further extents that leave out a block",
        patch: (ATTRIBUTES + 4_225, &[9]),
        finds: &[(20, 20, 0, 1)],
    },
    Flaw {
        shows: "further extents of another name",
        patch: (ATTRIBUTES + 4_229, &[0x6C]),
        finds: &[(16, 20, 9, 8), (20, 20, 0, 1)],
    },
    Flaw {
        shows: "further extents behind an extent that is unused",
        patch: (ATTRIBUTES + 4_189, &[0]),
        finds: &[(13, 708, 1, 0), (14, 48, 1_679, 1_680), (20, 20, 0, 1)],
    },
    Flaw {
        shows: "further extents without a block",
        patch: (ATTRIBUTES + 4_245, &[0]),
        finds: &[(13, 716, 1, 0), (14, 48, 1_679, 1_680), (20, 20, 0, 1)],
    },
    Flaw {
        shows: "an extent behind the volume's end",
        patch: (ATTRIBUTES + 4_240, &[8, 0]),
        finds: &[
            (13, 716, 1, 0),
            (14, 48, 1_679, 1_680),
            (16, 20, 2_049, 2_048),
        ],
    },
    Flaw {
        shows: "a block of a file and of a value",
        patch: (ATTRIBUTES + 4_240, &[1, 0xF4]),
        finds: &[(13, 716, 1, 0), (14, 48, 1_679, 1_680), (18, 500, 2, 1)],
    },
];

#[test]
fn a_value_in_a_fork_is_clean(rt: HostRuntime) -> Result<(), Fail> {
    let alloc = rt.alloc();
    let mut view = fuller(alloc, &[], &VALUE)?;
    let verdict = checked(alloc, &mut view)?;
    let summary = Summary {
        files: 6,
        folders: 2,
        blocks: 2_048,
        free: 1_679,
    };
    is_clean(&rt, &verdict, summary, "a value in a fork");
    Ok(())
}

#[test]
fn flawed_values_are_found(rt: HostRuntime) -> Result<(), Fail> {
    let alloc = rt.alloc();
    for case in FLAWS {
        let mut view = fuller(alloc, &[], &VALUE)?;
        let _flaw = damage(alloc, &mut view, &[case.patch])?;
        let verdict = checked(alloc, &mut view)?;
        finds(&rt, &verdict, case.finds, case.shows);
    }
    Ok(())
}
