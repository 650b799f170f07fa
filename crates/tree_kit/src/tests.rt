// Trees of all orders in forks over sectors.
use crate::life::{Growth, live, live_on};
use crate::made::Made;
use crate::pairs::Kind;
use std::test::Fail;

#[derive(Clone, Copy)]
struct Row {
    shows: &'static str,
    kind: Kind,
    made: Made,
    extents: &'static [(u32, u32)],
    sectors: u64,
    pairs: u32,
}

const ROWS: [Row; 9] = [
    Row {
        shows: "nodes of one sector, which is a block",
        kind: Kind::Extents,
        made: Made {
            node_size: 512,
            block: 512,
            total: 100,
            map_nodes: 0,
        },
        extents: &[(3, 100)],
        sectors: 103,
        pairs: 41,
    },
    Row {
        shows: "a map node",
        kind: Kind::Extents,
        made: Made {
            node_size: 512,
            block: 512,
            total: 2100,
            map_nodes: 1,
        },
        extents: &[(0, 2100)],
        sectors: 2100,
        pairs: 31,
    },
    Row {
        shows: "eight nodes in a block, the blocks apart",
        kind: Kind::Extents,
        made: Made {
            node_size: 512,
            block: 4096,
            total: 64,
            map_nodes: 0,
        },
        extents: &[(9, 1), (7, 1), (1, 1), (3, 2), (12, 1), (10, 1), (15, 1)],
        sectors: 128,
        pairs: 43,
    },
    Row {
        shows: "nodes of eight blocks, cut by the extents",
        kind: Kind::Catalog,
        made: Made {
            node_size: 4096,
            block: 512,
            total: 24,
            map_nodes: 0,
        },
        extents: &[(100, 3), (20, 70), (300, 119)],
        sectors: 420,
        pairs: 41,
    },
    Row {
        shows: "nodes of two blocks",
        kind: Kind::Attributes,
        made: Made {
            node_size: 8192,
            block: 4096,
            total: 16,
            map_nodes: 0,
        },
        extents: &[(40, 1), (2, 31)],
        sectors: 328,
        pairs: 61,
    },
    Row {
        shows: "sixteen nodes in a block",
        kind: Kind::Catalog,
        made: Made {
            node_size: 4096,
            block: 65536,
            total: 32,
            map_nodes: 0,
        },
        extents: &[(2, 1), (0, 1)],
        sectors: 384,
        pairs: 53,
    },
    Row {
        shows: "the largest nodes in the smallest blocks",
        kind: Kind::Attributes,
        made: Made {
            node_size: 32768,
            block: 512,
            total: 8,
            map_nodes: 0,
        },
        extents: &[(511, 1), (0, 511)],
        sectors: 512,
        pairs: 101,
    },
    Row {
        shows: "nodes of 16,384 bytes in blocks of 8,192",
        kind: Kind::Catalog,
        made: Made {
            node_size: 16384,
            block: 8192,
            total: 10,
            map_nodes: 0,
        },
        extents: &[(1, 20)],
        sectors: 336,
        pairs: 71,
    },
    Row {
        shows: "the largest nodes in the largest blocks, the last block first",
        kind: Kind::Catalog,
        made: Made {
            node_size: 32768,
            block: 65536,
            total: 8,
            map_nodes: 0,
        },
        extents: &[(3, 1), (0, 3)],
        sectors: 512,
        pairs: 181,
    },
];

#[test]
fn a_tree_lives_in_its_fork(rt: HostRuntime) -> Result<(), Fail> {
    let alloc = rt.alloc();
    for row in ROWS.iter() {
        let lived = live(
            alloc,
            &row.made,
            row.extents,
            row.sectors,
            row.kind,
            row.pairs,
        );
        assert_eq!(rt; lived, Ok(()), "{}", row.shows);
    }
    Ok(())
}

#[derive(Clone, Copy)]
struct LongerRow {
    shows: &'static str,
    kind: Kind,
    made: Made,
    extents: &'static [(u32, u32)],
    sectors: u64,
    /// How many pairs there are before the growth and behind it.
    pairs: (u32, u32),
    growth: Growth,
}

// The map record of the header node has 256 bytes less than the node, and that of a map node has 20 less (TN1150,
// "Map Record" and "Map Nodes"; the latter ends at a multiple of four bytes).
const LONGER_ROWS: [LongerRow; 5] = [
    LongerRow {
        shows: "one map node for 2,056 nodes of 512 bytes, since the header's map has 2,048 bits",
        kind: Kind::Extents,
        made: Made {
            node_size: 512,
            block: 512,
            total: 16,
            map_nodes: 0,
        },
        extents: &[(8, 16)],
        sectors: 2064,
        pairs: (9, 60),
        growth: Growth {
            start: 24,
            count: 2040,
            total: 2056,
            more_free: 2039,
            map_bits: 5984,
        },
    },
    LongerRow {
        shows: "two map nodes, the second for 32 bits more",
        kind: Kind::Extents,
        made: Made {
            node_size: 512,
            block: 512,
            total: 16,
            map_nodes: 0,
        },
        extents: &[(6040, 10), (0, 6)],
        sectors: 6060,
        pairs: (9, 60),
        growth: Growth {
            start: 20,
            count: 6000,
            total: 6016,
            more_free: 5998,
            map_bits: 9920,
        },
    },
    LongerRow {
        shows: "a block of 128 nodes, and 20 more",
        kind: Kind::Extents,
        made: Made {
            node_size: 512,
            block: 65536,
            total: 128,
            map_nodes: 0,
        },
        extents: &[(20, 1)],
        sectors: 2688,
        pairs: (30, 60),
        growth: Growth {
            start: 0,
            count: 20,
            total: 2688,
            more_free: 2559,
            map_bits: 5984,
        },
    },
    LongerRow {
        shows: "eight nodes without a map node",
        kind: Kind::Catalog,
        made: Made {
            node_size: 4096,
            block: 4096,
            total: 16,
            map_nodes: 0,
        },
        extents: &[(1, 2), (11, 14)],
        sectors: 200,
        pairs: (40, 90),
        growth: Growth {
            start: 3,
            count: 8,
            total: 24,
            more_free: 8,
            map_bits: 30720,
        },
    },
    LongerRow {
        shows: "four nodes of sixteen blocks each",
        kind: Kind::Attributes,
        made: Made {
            node_size: 8192,
            block: 512,
            total: 8,
            map_nodes: 0,
        },
        extents: &[(100, 100), (0, 28)],
        sectors: 264,
        pairs: (50, 120),
        growth: Growth {
            start: 200,
            count: 64,
            total: 12,
            more_free: 4,
            map_bits: 63488,
        },
    },
];

#[test]
fn a_fork_gets_longer_and_short_again(rt: HostRuntime) -> Result<(), Fail> {
    let alloc = rt.alloc();
    for row in LONGER_ROWS.iter() {
        let lived = live_on(
            alloc,
            &row.made,
            row.extents,
            row.sectors,
            row.kind,
            row.pairs,
            &row.growth,
        );
        assert_eq!(rt; lived, Ok(()), "{}", row.shows);
    }
    Ok(())
}

// The header's map has 30,720 bits, so 32,784 nodes take a map node, which has 32,608.
#[test]
fn a_tree_of_16_nodes_gets_32768_more(rt: HostRuntime) -> Result<(), Fail> {
    let made = Made {
        node_size: 4096,
        block: 4096,
        total: 16,
        map_nodes: 0,
    };
    let growth = Growth {
        start: 16,
        count: 32768,
        total: 32784,
        more_free: 32767,
        map_bits: 63328,
    };
    let lived = live_on(
        rt.alloc(),
        &made,
        &[(0, 16)],
        262272,
        Kind::Catalog,
        (40, 90),
        &growth,
    );
    assert_eq!(rt; lived, Ok(()));
    Ok(())
}
