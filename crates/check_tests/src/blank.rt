// A volume as it is made, whole and with a damage for each rule.
use crate::volumes::{Numbers, Patch, checked, damage, finds, is_clean, made, mend};
use hfs_volume::Summary;
use std::alloc::Global;
use std::process::Abort;
use std::test::Fail;

#[test]
fn a_volume_that_is_made_is_clean(rt: HostRuntime) -> Result<(), Fail> {
    let alloc = rt.alloc();
    // Bytes of a block, sectors of the journal; blocks, and free ones.
    for (block, journal, blocks, free) in [
        (4_096, 2_048, 2_048, 1_692),
        (512, 2_048, 16_384, 13_558),
        (65_536, 512, 128, 114),
    ] {
        let mut view = made(alloc, block, journal)?;
        let verdict = checked(alloc, &mut view)?;
        let summary = Summary {
            files: 2,
            folders: 0,
            blocks,
            free,
        };
        is_clean(&rt, &verdict, summary, "made");
    }
    Ok(())
}

/// A change of some bytes of a volume, and what a check finds then.
#[derive(Clone, Copy)]
struct Damage {
    shows: &'static str,
    patches: &'static [Patch],
    finds: &'static [Numbers],
}

// Blocks have 4,096 bytes: block 1 has the bitmap, block 2 the info block, 3 to 258 the journal, 259 to 274 the extents file, 275 to 290 the
// attributes file, 291 to 354 the catalog file, and 2047 the alternate header.
const HEAD: usize = 1_024;

const ALTERNATE: usize = 16_382 * 512;

const BITMAP: usize = 4_096;

const INFO: usize = 2 * 4_096;

const EXTENTS: usize = 259 * 4_096;

const ATTRIBUTES: usize = 275 * 4_096;

const CATALOG: usize = 291 * 4_096;

const LEAF: usize = 292 * 4_096;

// The places of the header records of the three trees.
const EXTENTS_TREE: u64 = 12_884_901_888;

const CATALOG_TREE: u64 = 17_179_869_184;

const ATTRIBUTES_TREE: u64 = 34_359_738_368;

const HEADERS: [Damage; 12] = [
    Damage {
        shows: "another signature",
        patches: &[(HEAD, &[0x48, 0x2B])],
        finds: &[(1, 0, 0x482B, 0x4858), (2, 0, 0x4858, 0x482B)],
    },
    Damage {
        shows: "another version",
        patches: &[(HEAD + 2, &[0, 4])],
        finds: &[(1, 2, 4, 5), (2, 2, 5, 4)],
    },
    Damage {
        shows: "no journal",
        patches: &[(HEAD + 4, &[0, 0, 1, 0])],
        finds: &[(1, 4, 256, 8448)],
    },
    Damage {
        shows: "ids that were used again",
        patches: &[(HEAD + 4, &[0, 0, 0x31, 0])],
        finds: &[(1, 4, 12544, 8448)],
    },
    Damage {
        shows: "a block size that is no power of two",
        patches: &[(HEAD + 40, &[0, 0, 3, 0xE8])],
        finds: &[
            (1, 40, 1000, 4096),
            (1, 44, 2048, 8388),
            (2, 40, 4096, 1000),
        ],
    },
    Damage {
        shows: "a block too few",
        patches: &[(HEAD + 44, &[0, 0, 7, 0xFF])],
        finds: &[(1, 44, 2047, 2048), (2, 44, 2048, 2047)],
    },
    Damage {
        shows: "an info block past the last block",
        patches: &[(HEAD + 12, &[0, 0, 8, 0])],
        finds: &[(1, 12, 2048, 2047)],
    },
    Damage {
        shows: "a next id below those of users",
        patches: &[(HEAD + 64, &[0, 0, 0, 15])],
        finds: &[(1, 64, 15, 16)],
    },
    Damage {
        shows: "an alternate with another signature",
        patches: &[(ALTERNATE, &[0])],
        finds: &[(2, 0, 0x58, 0x4858)],
    },
    Damage {
        shows: "an alternate with another version",
        patches: &[(ALTERNATE + 3, &[4])],
        finds: &[(2, 2, 4, 5)],
    },
    Damage {
        shows: "an alternate with another block size",
        patches: &[(ALTERNATE + 42, &[32])],
        finds: &[(2, 40, 8192, 4096)],
    },
    Damage {
        shows: "an alternate with a block too many",
        patches: &[(ALTERNATE + 47, &[1])],
        finds: &[(2, 44, 2049, 2048)],
    },
];

const FILES: [Damage; 6] = [
    Damage {
        shows: "an extents file without its last sector",
        patches: &[(HEAD + 192, &[0, 0, 0, 0, 0, 0, 0xFE, 0])],
        finds: &[(3, 3, 65_024, 65_536)],
    },
    Damage {
        shows: "a catalog file with a byte too many",
        patches: &[(HEAD + 279, &[1])],
        finds: &[(3, 4, 262_145, 262_144)],
    },
    Damage {
        shows: "an attributes file with a byte too many",
        patches: &[(HEAD + 359, &[1])],
        finds: &[(3, 8, 65_537, 65_536)],
    },
    Damage {
        shows: "an allocation file with a bit too few",
        patches: &[(HEAD + 112, &[0, 0, 0, 0, 0, 0, 0, 255])],
        finds: &[(3, 6, 255, 256)],
    },
    Damage {
        shows: "bits behind the last block",
        patches: &[(BITMAP + 256, &[0x81]), (BITMAP + 4_095, &[1])],
        finds: &[(3, 6, 3, 0)],
    },
    Damage {
        shows: "keys that are compared without case",
        patches: &[(CATALOG + 51, &[0xCF])],
        finds: &[(4, CATALOG_TREE, 0xCF, 0xBC)],
    },
];

const TREES: [Damage; 12] = [
    Damage {
        shows: "a free node too few in the extents file",
        patches: &[(EXTENTS + 43, &[14])],
        finds: &[(4, EXTENTS_TREE, 14, 15)],
    },
    Damage {
        shows: "another depth of the catalog",
        patches: &[(CATALOG + 15, &[2])],
        finds: &[(4, CATALOG_TREE, 2, 1)],
    },
    Damage {
        shows: "a record too many in the catalog",
        patches: &[(CATALOG + 23, &[7])],
        finds: &[(4, CATALOG_TREE, 7, 6)],
    },
    Damage {
        shows: "another first leaf",
        patches: &[(CATALOG + 27, &[2])],
        finds: &[(4, CATALOG_TREE, 2, 1)],
    },
    Damage {
        shows: "another last leaf",
        patches: &[(CATALOG + 31, &[2])],
        finds: &[(4, CATALOG_TREE, 2, 1)],
    },
    Damage {
        shows: "a longest key that is too short",
        patches: &[(ATTRIBUTES + 34, &[1, 9])],
        finds: &[(4, ATTRIBUTES_TREE, 265, 266)],
    },
    Damage {
        shows: "other attributes of a tree",
        patches: &[(ATTRIBUTES + 55, &[2])],
        finds: &[(4, ATTRIBUTES_TREE, 2, 6)],
    },
    Damage {
        shows: "a leaf that says it is an index node",
        patches: &[(LEAF + 8, &[0])],
        finds: &[(5, CATALOG_TREE + 1, 0, 1)],
    },
    Damage {
        shows: "a leaf with a next one",
        patches: &[(LEAF + 3, &[5])],
        finds: &[(6, CATALOG_TREE + 1, 0, 1)],
    },
    Damage {
        shows: "a key that is below the one before it",
        patches: &[(LEAF + 19, &[9])],
        finds: &[(6, CATALOG_TREE + 1, 0, 1)],
    },
    Damage {
        shows: "a node that isn't used and has its bit",
        patches: &[(CATALOG + 248, &[0xE0])],
        finds: &[(7, CATALOG_TREE + 2, 1, 0)],
    },
    Damage {
        shows: "a leaf without its bit",
        patches: &[(CATALOG + 248, &[0x80])],
        finds: &[(7, CATALOG_TREE + 1, 0, 1)],
    },
];

// The records of the leaf: the root at 14 with its value at 24, its thread at 112 and 120, `.journal` at 132 and 156,
// `.journal_info_block` at 404 and 450, and the threads of these two at 698 and 706, and at 754 and 762.
const ENTRIES: [Damage; 13] = [
    Damage {
        shows: "a record of no type",
        patches: &[(LEAF + 25, &[5])],
        finds: &[(8, 1, 0, 1)],
    },
    Damage {
        shows: "a thread that has a folder's type",
        patches: &[(LEAF + 121, &[1])],
        finds: &[(8, 2, 0, 1)],
    },
    Damage {
        shows: "a thread with another parent",
        patches: &[(LEAF + 713, &[3])],
        finds: &[(9, 16, 0, 1)],
    },
    Damage {
        shows: "a file's thread of a folder",
        patches: &[(LEAF + 707, &[3])],
        finds: &[(9, 16, 0, 1)],
    },
    Damage {
        shows: "a thread with another name",
        patches: &[(LEAF + 787, &[0x6D])],
        finds: &[(9, 17, 0, 1)],
    },
    Damage {
        shows: "a root with another parent",
        patches: &[(LEAF + 19, &[0]), (LEAF + 127, &[0])],
        finds: &[(10, 2, 0, 1)],
    },
    Damage {
        shows: "a root with an entry too many",
        patches: &[(LEAF + 31, &[3])],
        finds: &[(11, 2, 3, 2)],
    },
    Damage {
        shows: "other numbers of files and folders",
        patches: &[(HEAD + 32, &[0, 0, 0, 1, 0, 0, 0, 4])],
        finds: &[(12, 32, 1, 2), (12, 36, 4, 0)],
    },
    Damage {
        shows: "an id that wasn't given out",
        patches: &[(HEAD + 67, &[17])],
        finds: &[(15, 17, 17, 16)],
    },
    Damage {
        shows: "an id below those of users",
        patches: &[(LEAF + 461, &[15]), (LEAF + 703, &[15])],
        finds: &[(15, 15, 15, 16)],
    },
    Damage {
        shows: "a link without its file",
        patches: &[(LEAF + 204, b"hlnkhfs+")],
        finds: &[(19, 17, 0, 1)],
    },
    Damage {
        shows: "a journal somewhere else",
        patches: &[(INFO + 42, &[0x40])],
        finds: &[(20, 17, 0, 1)],
    },
    Damage {
        shows: "an info block somewhere else",
        patches: &[(HEAD + 15, &[1])],
        finds: &[(20, 16, 0, 1), (20, 17, 0, 1)],
    },
];

const BLOCKS: [Damage; 11] = [
    Damage {
        shows: "a bit of a block that nothing uses",
        patches: &[(BITMAP + 250, &[0x80])],
        finds: &[(13, 2000, 1, 0)],
    },
    Damage {
        shows: "blocks without their bits",
        patches: &[(BITMAP, &[0x9F])],
        finds: &[(13, 1, 0, 1), (13, 2, 0, 1)],
    },
    Damage {
        shows: "another number of free blocks",
        patches: &[(HEAD + 48, &[0, 0, 0, 5])],
        finds: &[(14, 48, 5, 1692)],
    },
    Damage {
        shows: "a fork with a byte too many",
        patches: &[(HEAD + 439, &[1])],
        finds: &[(16, 7, 1, 0)],
    },
    Damage {
        shows: "a fork that says too few blocks",
        patches: &[(LEAF + 258, &[0, 255])],
        finds: &[(16, 17, 255, 256), (16, 17, 1_048_576, 1_044_480)],
    },
    Damage {
        shows: "an extent past the last block",
        patches: &[(HEAD + 444, &[0, 0, 0, 1, 0, 0, 8, 0, 0, 0, 0, 1])],
        finds: &[(16, 7, 2_049, 2_048)],
    },
    Damage {
        shows: "a block that is used twice",
        patches: &[(HEAD + 444, &[0, 0, 0, 1, 0, 0, 0, 1, 0, 0, 0, 1])],
        finds: &[(18, 1, 2, 1)],
    },
    Damage {
        shows: "an overflow record without a fork",
        patches: &[
            (
                EXTENTS + 15,
                &[1, 0, 0, 0, 1, 0, 0, 0, 1, 0, 0, 0, 1, 0, 0, 0, 1],
            ),
            (EXTENTS + 43, &[14]),
            (EXTENTS + 248, &[0xC0]),
            (
                EXTENTS + 4_096 + 8,
                &[0xFF, 1, 0, 1, 0, 0, 0, 10, 0, 0, 0, 0, 0, 99],
            ),
            (EXTENTS + 8_188, &[0, 90, 0, 14]),
        ],
        finds: &[(17, 99, 0, 1)],
    },
    Damage {
        shows: "an overflow record of a fork that isn't full",
        patches: &[
            (
                EXTENTS + 15,
                &[1, 0, 0, 0, 1, 0, 0, 0, 1, 0, 0, 0, 1, 0, 0, 0, 1],
            ),
            (EXTENTS + 43, &[14]),
            (EXTENTS + 248, &[0xC0]),
            (
                EXTENTS + 4_096 + 8,
                &[0xFF, 1, 0, 1, 0, 0, 0, 10, 0, 0, 0, 0, 0, 17, 0, 0, 1, 0],
            ),
            (EXTENTS + 8_188, &[0, 90, 0, 14]),
        ],
        finds: &[(17, 17, 0, 1)],
    },
    Damage {
        shows: "an overflow record without an extent in use, behind a fork of eight extents",
        patches: &[
            (BITMAP + 250, &[0xFF]),
            (HEAD + 48, &[0, 0, 6, 0x94]),
            (HEAD + 444, &[0, 0, 0, 8]),
            (HEAD + 448, &[0, 0, 7, 0xD0, 0, 0, 0, 1]),
            (HEAD + 456, &[0, 0, 7, 0xD1, 0, 0, 0, 1]),
            (HEAD + 464, &[0, 0, 7, 0xD2, 0, 0, 0, 1]),
            (HEAD + 472, &[0, 0, 7, 0xD3, 0, 0, 0, 1]),
            (HEAD + 480, &[0, 0, 7, 0xD4, 0, 0, 0, 1]),
            (HEAD + 488, &[0, 0, 7, 0xD5, 0, 0, 0, 1]),
            (HEAD + 496, &[0, 0, 7, 0xD6, 0, 0, 0, 1]),
            (HEAD + 504, &[0, 0, 7, 0xD7, 0, 0, 0, 1]),
            (
                EXTENTS + 15,
                &[1, 0, 0, 0, 1, 0, 0, 0, 1, 0, 0, 0, 1, 0, 0, 0, 1],
            ),
            (EXTENTS + 43, &[14]),
            (EXTENTS + 248, &[0xC0]),
            (
                EXTENTS + 4_096 + 8,
                &[0xFF, 1, 0, 1, 0, 0, 0, 10, 0, 0, 0, 0, 0, 7, 0, 0, 0, 8],
            ),
            (EXTENTS + 8_188, &[0, 90, 0, 14]),
        ],
        finds: &[(17, 7, 0, 1)],
    },
    Damage {
        shows: "bad blocks that don't begin at 0",
        patches: &[
            (
                EXTENTS + 15,
                &[1, 0, 0, 0, 1, 0, 0, 0, 1, 0, 0, 0, 1, 0, 0, 0, 1],
            ),
            (EXTENTS + 43, &[14]),
            (EXTENTS + 248, &[0xC0]),
            (
                EXTENTS + 4_096 + 8,
                &[0xFF, 1, 0, 1, 0, 0, 0, 10, 0, 0, 0, 0, 0, 5, 0, 0, 0, 1],
            ),
            (EXTENTS + 8_188, &[0, 90, 0, 14]),
        ],
        finds: &[(17, 5, 0, 1)],
    },
];

/// Checks the blank volume with each of these damages in turn.
fn find_all(rt: &impl Abort, alloc: Global, damages: &[Damage]) -> Result<(), Fail> {
    let mut view = made(alloc, 4_096, 2_048)?;
    for case in damages {
        let were = damage(alloc, &mut view, case.patches)?;
        let verdict = checked(alloc, &mut view)?;
        finds(rt, &verdict, case.finds, case.shows);
        mend(&mut view, &were);
    }
    Ok(())
}

#[test]
fn damaged_headers_are_found(rt: HostRuntime) -> Result<(), Fail> {
    find_all(&rt, rt.alloc(), &HEADERS)
}

#[test]
fn damaged_files_are_found(rt: HostRuntime) -> Result<(), Fail> {
    find_all(&rt, rt.alloc(), &FILES)
}

#[test]
fn damaged_trees_are_found(rt: HostRuntime) -> Result<(), Fail> {
    find_all(&rt, rt.alloc(), &TREES)
}

#[test]
fn damaged_entries_are_found(rt: HostRuntime) -> Result<(), Fail> {
    find_all(&rt, rt.alloc(), &ENTRIES)
}

#[test]
fn damaged_blocks_are_found(rt: HostRuntime) -> Result<(), Fail> {
    find_all(&rt, rt.alloc(), &BLOCKS)
}

#[test]
fn bad_blocks_are_used(rt: HostRuntime) -> Result<(), Fail> {
    let alloc = rt.alloc();
    let mut view = made(alloc, 4_096, 2_048)?;
    let _were = damage(
        alloc,
        &mut view,
        &[
            (
                EXTENTS + 15,
                &[1, 0, 0, 0, 1, 0, 0, 0, 1, 0, 0, 0, 1, 0, 0, 0, 1],
            ),
            (EXTENTS + 43, &[14]),
            (EXTENTS + 248, &[0xC0]),
            (
                EXTENTS + 4_096 + 8,
                &[
                    0xFF, 1, 0, 1, 0, 0, 0, 10, 0, 0, 0, 0, 0, 5, 0, 0, 0, 0, 0, 0, 3, 0xE8, 0, 0,
                    0, 1,
                ],
            ),
            (EXTENTS + 8_188, &[0, 90, 0, 14]),
            (BITMAP + 125, &[0x80]),
            (HEAD + 48, &[0, 0, 6, 0x9B]),
        ],
    )?;
    let verdict = checked(alloc, &mut view)?;
    let summary = Summary {
        files: 2,
        folders: 0,
        blocks: 2_048,
        free: 1_691,
    };
    is_clean(&rt, &verdict, summary, "bad blocks");
    Ok(())
}
