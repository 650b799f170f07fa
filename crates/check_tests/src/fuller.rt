// A volume with folders, files, links and an attribute, whole and damaged.
use crate::leaves::{Blocks, NO_BLOCKS, Rec, Value, leaf, sorted};
use crate::volumes::{Numbers, Patch, checked, damage, finds, is_clean, made, put_bytes};
use hfs_volume::Summary;
use hx_bytes::OutOfMemory;
use sector_kit::Sectors;
use std::alloc::Global;
use std::process::Abort;
use std::test::Fail;

const HEAD: usize = 1_024;

const BITMAP: usize = 4_096;

const ATTRIBUTES: usize = 275 * 4_096;

const CATALOG: usize = 291 * 4_096;

const LEAF: usize = 292 * 4_096;

const PRIVATE: &'static [u8] = b"\x00\x00\x00\x00HFS+ Private Data";

const JOURNAL: &'static [u8] = b".journal";

const INFO: &'static [u8] = b".journal_info_block";

/// The root with the journal's files, the private folder, a folder and a link; in the folder a file and another link.
const RECORDS: [Rec; 18] = [
    Rec {
        parent: 1,
        name: b"a",
        value: Value::Folder { id: 2, valence: 5 },
    },
    Rec {
        parent: 2,
        name: b"",
        value: Value::Thread {
            of_file: false,
            parent: 1,
            name: b"a",
        },
    },
    Rec {
        parent: 2,
        name: PRIVATE,
        value: Value::Folder { id: 23, valence: 1 },
    },
    Rec {
        parent: 2,
        name: JOURNAL,
        value: Value::File {
            id: 17,
            special: 0,
            link: false,
            data: Blocks {
                size: 1_048_576,
                first: (3, 256),
                second: (0, 0),
            },
        },
    },
    Rec {
        parent: 2,
        name: INFO,
        value: Value::File {
            id: 16,
            special: 0,
            link: false,
            data: Blocks {
                size: 4_096,
                first: (2, 1),
                second: (0, 0),
            },
        },
    },
    Rec {
        parent: 2,
        name: b"d",
        value: Value::Folder { id: 18, valence: 2 },
    },
    Rec {
        parent: 2,
        name: b"l",
        value: Value::File {
            id: 22,
            special: 19,
            link: true,
            data: NO_BLOCKS,
        },
    },
    Rec {
        parent: 16,
        name: b"",
        value: Value::Thread {
            of_file: true,
            parent: 2,
            name: INFO,
        },
    },
    Rec {
        parent: 17,
        name: b"",
        value: Value::Thread {
            of_file: true,
            parent: 2,
            name: JOURNAL,
        },
    },
    Rec {
        parent: 18,
        name: b"",
        value: Value::Thread {
            of_file: false,
            parent: 2,
            name: b"d",
        },
    },
    Rec {
        parent: 18,
        name: b"f",
        value: Value::File {
            id: 20,
            special: 0,
            link: false,
            data: Blocks {
                size: 10_000,
                first: (400, 2),
                second: (500, 1),
            },
        },
    },
    Rec {
        parent: 18,
        name: b"l",
        value: Value::File {
            id: 21,
            special: 19,
            link: true,
            data: NO_BLOCKS,
        },
    },
    Rec {
        parent: 19,
        name: b"",
        value: Value::Thread {
            of_file: true,
            parent: 23,
            name: b"iNode19",
        },
    },
    Rec {
        parent: 20,
        name: b"",
        value: Value::Thread {
            of_file: true,
            parent: 18,
            name: b"f",
        },
    },
    Rec {
        parent: 21,
        name: b"",
        value: Value::Thread {
            of_file: true,
            parent: 18,
            name: b"l",
        },
    },
    Rec {
        parent: 22,
        name: b"",
        value: Value::Thread {
            of_file: true,
            parent: 2,
            name: b"l",
        },
    },
    Rec {
        parent: 23,
        name: b"",
        value: Value::Thread {
            of_file: false,
            parent: 2,
            name: PRIVATE,
        },
    },
    Rec {
        parent: 23,
        name: b"iNode19",
        value: Value::File {
            id: 19,
            special: 2,
            link: false,
            data: Blocks {
                size: 5,
                first: (600, 1),
                second: (0, 0),
            },
        },
    },
];

// The places of these records in the table.
const ROOT: usize = 0;

const PRIVATE_FOLDER: usize = 2;

const FOLDER: usize = 5;

const OUTER_LINK: usize = 6;

const FOLDER_THREAD: usize = 9;

const FILE: usize = 10;

const LINK: usize = 11;

const NODE_THREAD: usize = 12;

const FILE_THREAD: usize = 13;

const LINK_THREAD: usize = 14;

const PRIVATE_THREAD: usize = 16;

const NODE: usize = 17;

/// The header's numbers, the bits of the blocks 400, 401, 500 and 600, and the header records of the trees.
const NUMBERS: [Patch; 9] = [
    (HEAD + 32, &[0, 0, 0, 6, 0, 0, 0, 2]),
    (HEAD + 48, &[0, 0, 6, 0x98]),
    (HEAD + 67, &[24]),
    (BITMAP + 50, &[0xC0]),
    (BITMAP + 62, &[8]),
    (BITMAP + 75, &[0x80]),
    (CATALOG + 23, &[18]),
    (
        ATTRIBUTES + 15,
        &[1, 0, 0, 0, 1, 0, 0, 0, 1, 0, 0, 0, 1, 0, 0, 0, 1],
    ),
    (ATTRIBUTES + 43, &[14]),
];

/// The leaf of the attributes file: `k` of the file 20, with the value `v`.
const ATTRIBUTE: [Patch; 3] = [
    (ATTRIBUTES + 248, &[0xC0]),
    (
        ATTRIBUTES + 4_104,
        &[
            0xFF, 1, 0, 1, 0, 0, 0, 14, 0, 0, 0, 0, 0, 20, 0, 0, 0, 0, 0, 1, 0, 0x6B, 0, 0, 0,
            0x10, 0, 0, 0, 0, 0, 0, 0, 0, 0, 0, 0, 1, 0x76, 0,
        ],
    ),
    (ATTRIBUTES + 8_188, &[0, 48, 0, 14]),
];

/// The change of a record of the table.
#[derive(Clone, Copy)]
pub enum Change {
    /// It isn't there.
    Gone(usize),
    Value(usize, Value),
    Under(usize, u32),
}

fn make_change(recs: &mut Vec<Rec>, change: &Change) {
    match change {
        Change::Gone(k) => {
            if let Some(rec) = recs.get_mut(*k) {
                rec.parent = 0;
            }
        }
        Change::Value(k, value) => {
            if let Some(rec) = recs.get_mut(*k) {
                rec.value = *value;
            }
        }
        Change::Under(k, parent) => {
            if let Some(rec) = recs.get_mut(*k) {
                rec.parent = *parent;
            }
        }
    }
}

/// The records but those that are gone.
fn those_there(alloc: Global, changes: &[Change]) -> Result<Vec<Rec>, OutOfMemory> {
    let mut recs = Vec::from_slice(alloc, &RECORDS)?;
    for one in changes {
        make_change(&mut recs, one);
    }
    let mut list = Vec::new(alloc);
    for rec in recs.iter() {
        if rec.parent != 0 {
            list.push(*rec)?;
        }
    }
    sorted(alloc, &list)
}

/// The volume with changed records, and with these bytes put over it.
pub fn fuller(
    alloc: Global,
    changes: &[Change],
    patches: &[Patch],
) -> Result<Sectors, OutOfMemory> {
    let mut view = made(alloc, 4_096, 2_048)?;
    let recs = those_there(alloc, changes)?;
    let node = leaf(alloc, &recs)?;
    put_bytes(&mut view, LEAF, &node);
    let _numbers = damage(alloc, &mut view, &NUMBERS)?;
    let _attribute = damage(alloc, &mut view, &ATTRIBUTE)?;
    put_bytes(&mut view, CATALOG + 23, &[(recs.len() % 256) as u8]);
    let _more = damage(alloc, &mut view, patches)?;
    Ok(view)
}

#[test]
fn a_fuller_volume_is_clean(rt: HostRuntime) -> Result<(), Fail> {
    let alloc = rt.alloc();
    let mut view = fuller(alloc, &[], &[])?;
    let verdict = checked(alloc, &mut view)?;
    let summary = Summary {
        files: 6,
        folders: 2,
        blocks: 2_048,
        free: 1_688,
    };
    is_clean(&rt, &verdict, summary, "fuller");
    Ok(())
}

/// Changes of records, bytes that are put, and what a check finds then.
#[derive(Clone, Copy)]
struct Damage {
    shows: &'static str,
    changes: &'static [Change],
    patches: &'static [Patch],
    finds: &'static [Numbers],
}

const THREADS: [Damage; 5] = [
    Damage {
        shows: "an entry without its thread",
        changes: &[Change::Gone(FILE_THREAD)],
        patches: &[],
        finds: &[(9, 20, 0, 1)],
    },
    Damage {
        shows: "a thread without its entry",
        changes: &[Change::Gone(FILE)],
        patches: &[],
        finds: &[(9, 20, 0, 1)],
    },
    Damage {
        shows: "two entries with one id",
        changes: &[Change::Value(
            LINK,
            Value::File {
                id: 20,
                special: 19,
                link: true,
                data: NO_BLOCKS,
            },
        )],
        patches: &[],
        finds: &[(9, 20, 0, 1), (9, 21, 0, 1)],
    },
    Damage {
        shows: "a folder in itself",
        changes: &[
            Change::Under(FOLDER, 18),
            Change::Value(
                FOLDER_THREAD,
                Value::Thread {
                    of_file: false,
                    parent: 18,
                    name: b"d",
                },
            ),
        ],
        patches: &[],
        finds: &[(10, 18, 0, 1), (10, 20, 0, 1), (10, 21, 0, 1)],
    },
    Damage {
        shows: "an entry in a file",
        changes: &[
            Change::Under(LINK, 20),
            Change::Value(
                LINK_THREAD,
                Value::Thread {
                    of_file: true,
                    parent: 20,
                    name: b"l",
                },
            ),
        ],
        patches: &[],
        finds: &[(10, 21, 0, 1)],
    },
];

const COUNTS: [Damage; 3] = [
    Damage {
        shows: "a folder with an entry too many",
        changes: &[Change::Value(FOLDER, Value::Folder { id: 18, valence: 3 })],
        patches: &[],
        finds: &[(11, 18, 3, 2)],
    },
    Damage {
        shows: "a file that was forgotten",
        changes: &[Change::Gone(FILE), Change::Gone(FILE_THREAD)],
        patches: &[],
        finds: &[
            (11, 18, 2, 1),
            (12, 32, 6, 5),
            (13, 400, 1, 0),
            (13, 401, 1, 0),
            (13, 500, 1, 0),
            (14, 48, 1_688, 1_691),
            (20, 20, 0, 1),
        ],
    },
    Damage {
        shows: "an id that wasn't given out",
        changes: &[],
        patches: &[(HEAD + 67, &[23])],
        finds: &[(15, 23, 23, 22)],
    },
];

const BLOCKS: [Damage; 2] = [
    Damage {
        shows: "a file with a byte too many",
        changes: &[Change::Value(
            FILE,
            Value::File {
                id: 20,
                special: 0,
                link: false,
                data: Blocks {
                    size: 12_289,
                    first: (400, 2),
                    second: (500, 1),
                },
            },
        )],
        patches: &[],
        finds: &[(16, 20, 12_289, 12_288)],
    },
    Damage {
        shows: "a block of two files",
        changes: &[Change::Value(
            FILE,
            Value::File {
                id: 20,
                special: 0,
                link: false,
                data: Blocks {
                    size: 10_000,
                    first: (400, 2),
                    second: (600, 1),
                },
            },
        )],
        patches: &[],
        finds: &[(13, 500, 1, 0), (14, 48, 1_688, 1_689), (18, 600, 2, 1)],
    },
];

const LINKS: [Damage; 6] = [
    Damage {
        shows: "another number of links",
        changes: &[Change::Value(
            NODE,
            Value::File {
                id: 19,
                special: 3,
                link: false,
                data: Blocks {
                    size: 5,
                    first: (600, 1),
                    second: (0, 0),
                },
            },
        )],
        patches: &[],
        finds: &[(19, 19, 3, 2)],
    },
    Damage {
        shows: "a link to no file",
        changes: &[Change::Value(
            LINK,
            Value::File {
                id: 21,
                special: 25,
                link: true,
                data: NO_BLOCKS,
            },
        )],
        patches: &[],
        finds: &[(19, 19, 2, 1), (19, 21, 0, 1)],
    },
    Damage {
        shows: "a link with a block",
        changes: &[Change::Value(
            LINK,
            Value::File {
                id: 21,
                special: 19,
                link: true,
                data: Blocks {
                    size: 0,
                    first: (700, 1),
                    second: (0, 0),
                },
            },
        )],
        patches: &[(BITMAP + 87, &[8]), (HEAD + 51, &[0x97])],
        finds: &[(19, 21, 0, 1)],
    },
    Damage {
        shows: "a link in the private folder",
        changes: &[
            Change::Under(LINK, 23),
            Change::Value(
                LINK_THREAD,
                Value::Thread {
                    of_file: true,
                    parent: 23,
                    name: b"l",
                },
            ),
            Change::Value(FOLDER, Value::Folder { id: 18, valence: 1 }),
            Change::Value(PRIVATE_FOLDER, Value::Folder { id: 23, valence: 2 }),
        ],
        patches: &[],
        finds: &[(19, 21, 0, 1)],
    },
    Damage {
        shows: "two links that no file of several names has",
        changes: &[
            Change::Value(
                OUTER_LINK,
                Value::File {
                    id: 22,
                    special: 0,
                    link: true,
                    data: NO_BLOCKS,
                },
            ),
            Change::Value(
                LINK,
                Value::File {
                    id: 21,
                    special: 0,
                    link: true,
                    data: NO_BLOCKS,
                },
            ),
            Change::Value(
                NODE,
                Value::File {
                    id: 19,
                    special: 0,
                    link: false,
                    data: Blocks {
                        size: 5,
                        first: (600, 1),
                        second: (0, 0),
                    },
                },
            ),
        ],
        patches: &[],
        finds: &[(19, 21, 0, 1), (19, 22, 0, 1)],
    },
    Damage {
        shows: "a file of the private folder's name",
        changes: &[
            Change::Value(
                PRIVATE_FOLDER,
                Value::File {
                    id: 23,
                    special: 0,
                    link: false,
                    data: NO_BLOCKS,
                },
            ),
            Change::Value(
                PRIVATE_THREAD,
                Value::Thread {
                    of_file: true,
                    parent: 2,
                    name: PRIVATE,
                },
            ),
            Change::Under(NODE, 18),
            Change::Value(
                NODE_THREAD,
                Value::Thread {
                    of_file: true,
                    parent: 18,
                    name: b"iNode19",
                },
            ),
            Change::Value(FOLDER, Value::Folder { id: 18, valence: 3 }),
        ],
        patches: &[(HEAD + 32, &[0, 0, 0, 7, 0, 0, 0, 1])],
        finds: &[(19, 21, 0, 1), (19, 22, 0, 1), (19, 23, 0, 1)],
    },
];

const ATTRS: [Damage; 6] = [
    Damage {
        shows: "an attribute of no file",
        changes: &[],
        patches: &[(ATTRIBUTES + 4_117, &[30])],
        finds: &[(20, 30, 0, 1)],
    },
    Damage {
        shows: "an attribute of a link",
        changes: &[],
        patches: &[(ATTRIBUTES + 4_117, &[21])],
        finds: &[(20, 21, 0, 1)],
    },
    Damage {
        shows: "an attribute that begins behind its start",
        changes: &[],
        patches: &[(ATTRIBUTES + 4_121, &[1])],
        finds: &[(20, 20, 0, 1)],
    },
    Damage {
        shows: "an attribute of another type",
        changes: &[],
        patches: &[(ATTRIBUTES + 4_129, &[0x11])],
        finds: &[(20, 20, 0, 1)],
    },
    Damage {
        shows: "an attribute that is longer than its record",
        changes: &[],
        patches: &[(ATTRIBUTES + 4_141, &[9])],
        finds: &[(20, 20, 0, 1)],
    },
    Damage {
        shows: "an attribute without a name",
        changes: &[],
        patches: &[
            (
                ATTRIBUTES + 4_110,
                &[
                    0, 12, 0, 0, 0, 0, 0, 20, 0, 0, 0, 0, 0, 0, 0, 0, 0, 0x10, 0, 0, 0, 0, 0, 0, 0,
                    0, 0, 0, 0, 1, 0x76, 0,
                ],
            ),
            (ATTRIBUTES + 8_188, &[0, 46]),
        ],
        finds: &[(20, 20, 0, 1)],
    },
];

/// Checks the volume with each of these damages in turn.
fn find_all(rt: &impl Abort, alloc: Global, damages: &[Damage]) -> Result<(), Fail> {
    for case in damages {
        let mut view = fuller(alloc, case.changes, case.patches)?;
        let verdict = checked(alloc, &mut view)?;
        finds(rt, &verdict, case.finds, case.shows);
    }
    Ok(())
}

#[test]
fn damaged_threads_are_found(rt: HostRuntime) -> Result<(), Fail> {
    find_all(&rt, rt.alloc(), &THREADS)
}

#[test]
fn damaged_counts_are_found(rt: HostRuntime) -> Result<(), Fail> {
    find_all(&rt, rt.alloc(), &COUNTS)
}

#[test]
fn damaged_forks_are_found(rt: HostRuntime) -> Result<(), Fail> {
    find_all(&rt, rt.alloc(), &BLOCKS)
}

#[test]
fn damaged_links_are_found(rt: HostRuntime) -> Result<(), Fail> {
    find_all(&rt, rt.alloc(), &LINKS)
}

#[test]
fn damaged_attributes_are_found(rt: HostRuntime) -> Result<(), Fail> {
    find_all(&rt, rt.alloc(), &ATTRS)
}
