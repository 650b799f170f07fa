// A small tree of nodes of 512 bytes, and its leaves alone, whole and damaged.
ghost use Rattle.std.specs.Prelude.{length};

use btree_node::{ExtentOrder, Node};
use fork_map::{ExtentList, SummedFork};
use fsck_list::{Finding, Findings, Records};
use fsck_scan::{Fault, Fork, TreeName, WrongNode, read_level, scan_tree};
use hx_bytes::{Extent, Sector};
use sector_kit::Sectors;
use std::alloc::Global;
use std::process::Abort;
use std::test::Fail;

type Patch = (usize, &'static [u8]);

fn patch(sector: &mut Sector, patches: &[Patch]) {
    for (start, bytes) in patches {
        for (place, byte) in sector.iter_mut().skip(*start).zip(*bytes) {
            *place = *byte;
        }
    }
}

// Two leaves in sectors 1 and 2. Keys are of the extents file: file 20 and file 21 in the first, file 22 in the second.
const FIRST: [Patch; 4] = [
    (0, &[0, 0, 0, 2, 0, 0, 0, 0, 0xFF, 1, 0, 2]),
    (14, &[0, 10, 0, 0, 0, 0, 0, 20]),
    (90, &[0, 10, 0, 0, 0, 0, 0, 21]),
    (506, &[0, 166, 0, 90, 0, 14]),
];

const SECOND: [Patch; 3] = [
    (0, &[0, 0, 0, 0, 0, 0, 0, 1, 0xFF, 1, 0, 1]),
    (14, &[0, 10, 0, 0, 0, 0, 0, 22]),
    (508, &[0, 90, 0, 14]),
];

// The records that name them, in an index node.
const NAMES: [&[u8]; 2] = [
    &[0, 10, 0, 0, 0, 0, 0, 20, 0, 0, 0, 0, 0, 0, 0, 1],
    &[0, 10, 0, 0, 0, 0, 0, 22, 0, 0, 0, 0, 0, 0, 0, 2],
];

fn leaves(alloc: Global, damage: &[(usize, Patch)]) -> Result<Sectors, Fail> {
    let mut list = vec![in alloc; [0; 512]; 4]?;
    for (sector, patches) in list
        .iter_mut()
        .skip(1)
        .zip([FIRST.as_slice(), SECOND.as_slice()])
    {
        patch(sector, patches);
    }
    for (at, change) in damage {
        if let Some(sector) = list.get_mut(*at) {
            patch(sector, &[*change]);
        }
    }
    Ok(Sectors::new(list))
}

fn names(alloc: Global, items: &[&[u8]]) -> Result<Records, Fail> {
    let mut records = Records::new(alloc);
    for item in items {
        records.push(item)?;
    }
    Ok(records)
}

/// Reads the two leaves: how many records were read, and what is wrong.
fn read(
    alloc: Global,
    view: &mut Sectors,
    items: &[&[u8]],
) -> Result<(usize, Option<WrongNode>), Fail> {
    let mut extents = ExtentList::new(alloc);
    extents.push(Extent { start: 0, count: 4 })?;
    let extents = SummedFork::from_list(alloc, extents)?;
    let fork = Fork {
        extents: &extents,
        per_block: 1,
        limit: 4,
    };
    let mut node = Node::new(alloc, 512)?;
    let mut records = Records::new(alloc);
    let mut ends = Vec::new(alloc);
    let above = names(alloc, items)?;
    match read_level::<Sectors, ExtentOrder>(
        view,
        &fork,
        &[1, 2],
        &above,
        1,
        246,
        &mut node,
        &mut records,
        &mut ends,
    ) {
        Ok(wrong) => Ok((records.len(), wrong)),
        Err(_) => Ok((99, None)),
    }
}

#[derive(Clone, Copy)]
struct Damage {
    shows: &'static str,
    change: (usize, Patch),
    at: usize,
    fault: Fault,
}

#[test]
fn a_level_gives_its_records_with_each_node_read_once(rt: HostRuntime) -> Result<(), Fail> {
    let mut view = leaves(rt.alloc(), &[])?;
    assert_eq!(rt; read(rt.alloc(), &mut view, &NAMES)?, (3, None));
    assert_eq!(rt; view.reads, 2);
    Ok(())
}

#[test]
fn a_wrong_node_is_named(rt: HostRuntime) -> Result<(), Fail> {
    let cases = [
        Damage {
            shows: "a leaf of another height",
            change: (1, (9, &[2])),
            at: 0,
            fault: Fault::Node,
        },
        Damage {
            shows: "a key of another length",
            change: (1, (91, &[9])),
            at: 0,
            fault: Fault::Node,
        },
        Damage {
            shows: "a value of another length",
            change: (2, (508, &[0, 89])),
            at: 1,
            fault: Fault::Node,
        },
        Damage {
            shows: "a leaf that names itself",
            change: (1, (3, &[1])),
            at: 0,
            fault: Fault::Order,
        },
        Damage {
            shows: "a leaf without the one before it",
            change: (2, (7, &[0])),
            at: 1,
            fault: Fault::Order,
        },
        Damage {
            shows: "a key twice",
            change: (1, (97, &[20])),
            at: 0,
            fault: Fault::Order,
        },
        Damage {
            shows: "a first key that isn't the one above",
            change: (2, (21, &[23])),
            at: 1,
            fault: Fault::Name,
        },
    ];
    for case in cases.iter() {
        let mut view = leaves(rt.alloc(), &[case.change])?;
        let (_records, wrong) = read(rt.alloc(), &mut view, &NAMES)?;
        let want = WrongNode {
            at: case.at,
            fault: case.fault,
        };
        assert_eq!(rt; wrong, Some(want), "{}", case.shows);
    }
    Ok(())
}

// The header node, whose map has the bits of nodes 0 to 3, and the root above the two leaves.
const HEADER: [Patch; 5] = [
    (8, &[1, 0, 0, 3]),
    (
        14,
        &[
            0, 2, 0, 0, 0, 3, 0, 0, 0, 3, 0, 0, 0, 1, 0, 0, 0, 2, 2, 0, 0, 10, 0, 0, 0, 8, 0, 0, 0,
            4,
        ],
    ),
    (55, &[2]),
    (248, &[0xF0]),
    (504, &[1, 248, 0, 248, 0, 120, 0, 14]),
];

const ROOT: [Patch; 4] = [
    (8, &[0, 2, 0, 2]),
    (14, &[0, 10, 0, 0, 0, 0, 0, 20, 0, 0, 0, 0, 0, 0, 0, 1]),
    (30, &[0, 10, 0, 0, 0, 0, 0, 22, 0, 0, 0, 0, 0, 0, 0, 2]),
    (506, &[0, 46, 0, 30, 0, 14]),
];

fn tree(alloc: Global, damage: &[(usize, Patch)]) -> Result<Sectors, Fail> {
    let mut list = vec![in alloc; [0; 512]; 8]?;
    for (sector, patches) in list.iter_mut().zip([
        HEADER.as_slice(),
        FIRST.as_slice(),
        SECOND.as_slice(),
        ROOT.as_slice(),
    ]) {
        patch(sector, patches);
    }
    for (at, change) in damage {
        if let Some(sector) = list.get_mut(*at) {
            patch(sector, &[*change]);
        }
    }
    Ok(Sectors::new(list))
}

/// Scans the tree: how many pairs it gives, and the first finding.
fn scanned(alloc: Global, view: &mut Sectors) -> Result<(usize, Option<Finding>), Fail> {
    let mut fork = ExtentList::new(alloc);
    fork.push(Extent { start: 0, count: 8 })?;
    let mut out = Findings::new(alloc);
    match scan_tree::<Sectors, ExtentOrder>(alloc, view, &fork, 512, TreeName::Extents, &mut out) {
        Ok(pairs) => Ok((pairs.len(), out.as_slice().first().copied())),
        Err(_) => Ok((99, None)),
    }
}

#[derive(Clone, Copy)]
struct BadTree {
    shows: &'static str,
    change: (usize, Patch),
    rule: u8,
    node: u64,
    found: u64,
    wanted: u64,
}

#[test]
fn a_tree_gives_its_pairs_with_each_node_read_once(rt: HostRuntime) -> Result<(), Fail> {
    let mut view = tree(rt.alloc(), &[])?;
    assert_eq!(rt; scanned(rt.alloc(), &mut view)?, (3, None));
    // the header record by itself, then each of the four nodes
    assert_eq!(rt; view.reads, 5);
    Ok(())
}

#[test]
fn a_damaged_tree_has_a_finding(rt: HostRuntime) -> Result<(), Fail> {
    let cases = [
        BadTree {
            shows: "a leaf that names itself",
            change: (1, (3, &[1])),
            rule: 6,
            node: 1,
            found: 0,
            wanted: 1,
        },
        BadTree {
            shows: "an index node that names a leaf twice",
            change: (3, (45, &[1])),
            rule: 6,
            node: 1,
            found: 0,
            wanted: 1,
        },
        BadTree {
            shows: "an index node that names itself",
            change: (3, (45, &[3])),
            rule: 5,
            node: 3,
            found: 0,
            wanted: 1,
        },
        BadTree {
            shows: "an index key that isn't its child's",
            change: (3, (37, &[23])),
            rule: 6,
            node: 3,
            found: 0,
            wanted: 1,
        },
        BadTree {
            shows: "a bit too many in the map",
            change: (0, (248, &[0xF8])),
            rule: 7,
            node: 4,
            found: 1,
            wanted: 0,
        },
        BadTree {
            shows: "a bit too few",
            change: (0, (248, &[0xE0])),
            rule: 7,
            node: 3,
            found: 0,
            wanted: 1,
        },
        BadTree {
            shows: "a wrong depth",
            change: (0, (15, &[1])),
            rule: 4,
            node: 0,
            found: 1,
            wanted: 2,
        },
        BadTree {
            shows: "no node at all",
            change: (0, (39, &[0])),
            rule: 4,
            node: 0,
            found: 0,
            wanted: 1,
        },
    ];
    for case in cases.iter() {
        let mut view = tree(rt.alloc(), &[case.change])?;
        let want = Finding {
            rule: case.rule,
            place: 3 * 4294967296 + case.node,
            found: case.found,
            wanted: case.wanted,
        };
        assert_eq!(rt;
            scanned(rt.alloc(), &mut view)?,
            (0, Some(want)),
            "{}",
            case.shows
        );
    }
    Ok(())
}

#[test]
fn a_map_node_that_names_itself_is_a_finding(rt: HostRuntime) -> Result<(), Fail> {
    let mut view = tree(
        rt.alloc(),
        &[
            (0, (3, &[5])),
            (5, (3, &[5])),
            (5, (8, &[2, 0, 0, 1])),
            (5, (508, &[0, 100, 0, 14])),
        ],
    )?;
    let want = Finding {
        rule: 5,
        place: 3 * 4294967296 + 5,
        found: 0,
        wanted: 1,
    };
    assert_eq!(rt; scanned(rt.alloc(), &mut view)?, (0, Some(want)));
    Ok(())
}
