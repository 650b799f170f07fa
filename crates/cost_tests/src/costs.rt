//! Costs on a volume of 2,048 blocks of 4,096 bytes as it is formatted, and where it lacks something, counted by hand.
ghost use Rattle.std.specs.Prelude.{◌≡◌, ◌<◌, IsTrue, slice_index};
ghost use Rattle.hfs_volume.specs.Cost.{tree_at};
ghost use Rattle.volume_cost.specs.Sizes.{IsNodeSize, IsVolume, AreSmall};

use hfs_language::Refusal;
use std::process::Abort;
use std::test::Fail;
use volume_cost::{Cost, Needs, Room, TreeCost, cost, count_blocks, count_extents_edits, cut_cost};

fn tree_of(depth: u16, records: u32, nodes: u32, unused: u32) -> TreeCost {
    TreeCost {
        node_size: 4096,
        depth,
        records,
        nodes,
        unused,
        map_bits: 30720,
        extents: 1,
    }
}

fn fresh_room(free: u32, capacity: u64, next_id: u32) -> Room {
    Room {
        block: 4096,
        total: 2048,
        free,
        longest: free,
        capacity,
        next_id,
        trees: [
            tree_of(0, 0, 16, 15),
            tree_of(1, 6, 64, 62),
            tree_of(0, 0, 16, 15),
        ],
    }
}

/// What edits of the catalog need.
fn edits_of(ids: u32, edits: u64, updates: u64) -> Needs {
    Needs {
        ids,
        edits: [0, edits, 0],
        updates,
        new_blocks: 0,
        old_blocks: 0,
        runs: 0,
    }
}

fn are_small(needs: &Needs) -> bool
    ensures { IsTrue result → AreSmall needs.now }
{
    if needs.edits[0] >= 1 << 32 || needs.edits[1] >= 1 << 32 || needs.edits[2] >= 1 << 32 {
        return false;
    }
    if needs.updates >= 1 << 32 || needs.new_blocks >= 1 << 32 {
        return false;
    }
    needs.old_blocks < 1 << 32 && needs.runs < 1 << 32
}

fn is_volume(room: &Room) -> bool
    ensures { IsTrue result → IsVolume room.now }
{
    if room.block < 512 || room.block > 65536 || room.total as u64 * room.block as u64 > 1 << 40 {
        return false;
    }
    room.free <= room.total && room.longest <= room.total
}

fn has_nodes(tree: &TreeCost, least: u32) -> bool
    ensures { IsTrue result → IsNodeSize least tree.now }
{
    least <= tree.node_size && tree.node_size <= 32768
}

fn costs(rt: &impl Abort, needs: &Needs, room: &Room, want: Cost) {
    assert!(rt; are_small(needs));
    assert!(rt; is_volume(room));
    assert!(rt; has_nodes(&room.trees[0], 512));
    assert!(rt; has_nodes(&room.trees[1], 4096));
    assert!(rt; has_nodes(&room.trees[2], 4096));
    assert_eq!(rt; cost(needs, room), want);
}

// The header, one record in place (8 sectors), and at most 32 nodes of the catalog: two edits of four nodes for each of
// three levels, and four more.
#[test]
fn a_new_folder_has_a_load(rt: HostRuntime) -> Result<(), Fail> {
    let want = Cost::Load {
        sectors: 265,
        grow: [0, 0, 0],
    };
    costs(&rt, &edits_of(1, 2, 1), &fresh_room(1692, 1982, 18), want);
    Ok(())
}

// The first further name of a file, with a journal of 512 sectors.
#[test]
fn a_load_is_too_big_for_a_small_journal(rt: HostRuntime) -> Result<(), Fail> {
    let want = Cost::Refused(Refusal::TooBig(545, 494));
    costs(&rt, &edits_of(3, 9, 4), &fresh_room(1692, 494, 19), want);
    Ok(())
}

#[test]
fn the_last_id_is_never_drawn(rt: HostRuntime) -> Result<(), Fail> {
    let want = Cost::Refused(Refusal::NoIds(4294967295));
    costs(
        &rt,
        &edits_of(1, 2, 1),
        &fresh_room(1692, 1982, 4294967295),
        want,
    );
    let want = Cost::Load {
        sectors: 265,
        grow: [0, 0, 0],
    };
    costs(
        &rt,
        &edits_of(1, 2, 1),
        &fresh_room(1692, 1982, 4294967294),
        want,
    );
    Ok(())
}

// Two edits of a catalog with five free nodes lack one, and it grows by a quarter. The header, one record in place (8
// sectors), 34 nodes of 8 sectors, and the one sector of the bitmap.
#[test]
fn a_catalog_grows_by_a_quarter(rt: HostRuntime) -> Result<(), Fail> {
    let mut room = fresh_room(1692, 1982, 18);
    room.trees[1] = tree_of(1, 6, 64, 5);
    let want = Cost::Load {
        sectors: 282,
        grow: [0, 16, 0],
    };
    costs(&rt, &edits_of(1, 2, 1), &room, want);
    room.longest = 15;
    let want = Cost::Refused(Refusal::NoRun(15, 16));
    costs(&rt, &edits_of(1, 2, 1), &room, want);
    room.free = 15;
    let want = Cost::Refused(Refusal::NoSpace(15, 16));
    costs(&rt, &edits_of(1, 2, 1), &room, want);
    Ok(())
}

// The catalog's file has eight extents, so its growth is an edit of the extents file, which lacks nodes and has eight, too.
#[test]
fn a_growth_may_fill_the_extents_file(rt: HostRuntime) -> Result<(), Fail> {
    let mut room = fresh_room(1692, 1982, 18);
    room.trees[1] = tree_of(1, 6, 64, 5);
    room.trees[1].extents = 8;
    room.trees[0].extents = 8;
    room.trees[0].unused = 2;
    let want = Cost::Refused(Refusal::OverflowFull(8));
    costs(&rt, &edits_of(1, 2, 1), &room, want);
    room.trees[0].unused = 3;
    // Beside the load of the growth, one edit of the extents file: 16 nodes of 8 sectors.
    let want = Cost::Load {
        sectors: 410,
        grow: [0, 16, 0],
    };
    costs(&rt, &edits_of(1, 2, 1), &room, want);
    Ok(())
}

#[test]
fn a_tree_of_depth_8_is_too_deep(rt: HostRuntime) -> Result<(), Fail> {
    let mut room = fresh_room(1692, 1982, 18);
    room.trees[1].depth = 8;
    let want = Cost::Refused(Refusal::TooDeep(8));
    costs(&rt, &edits_of(1, 2, 1), &room, want);
    Ok(())
}

// Data of 256 blocks, with 156 left.
#[test]
fn blocks_are_missing(rt: HostRuntime) -> Result<(), Fail> {
    let needs = Needs {
        ids: 0,
        edits: [0, 0, 0],
        updates: 1,
        new_blocks: 256,
        old_blocks: 0,
        runs: 1,
    };
    let want = Cost::Refused(Refusal::NoSpace(156, 256));
    costs(&rt, &needs, &fresh_room(156, 1982, 19), want);
    Ok(())
}

// The header, a catalog record in place (8 sectors), the one sector of the bitmap, and eight nodes of 8 sectors.
#[test]
fn a_cut_step_has_a_load(rt: HostRuntime) -> Result<(), Fail> {
    let want = Cost::Load {
        sectors: 74,
        grow: [0, 0, 0],
    };
    assert_eq!(rt; cut_cost(&fresh_room(0, 74, 18)), want);
    let want = Cost::Refused(Refusal::TooBig(74, 73));
    assert_eq!(rt; cut_cost(&fresh_room(0, 73, 18)), want);
    Ok(())
}

// With blocks of 4,096 bytes.
#[test]
fn data_takes_blocks(rt: HostRuntime) -> Result<(), Fail> {
    // A new file, one that is overwritten from its first byte on, and one with a gap behind its second block.
    assert_eq!(rt; count_blocks(4096, 0, 10000, 0, 10000), (3, 0));
    assert_eq!(rt; count_blocks(4096, 5000, 10000, 0, 10000), (3, 2));
    assert_eq!(rt; count_blocks(4096, 5000, 20001, 20000, 20001), (4, 1));
    // Inside a file, the blocks behind the last byte stay.
    assert_eq!(rt; count_blocks(4096, 20000, 20000, 4096, 4097), (1, 1));
    // A size that ends with a block.
    assert_eq!(rt; count_blocks(4096, 4096, 8192, 4096, 8192), (1, 0));
    Ok(())
}

// Forks have eight extents in their record, and eight more in each overflow record.
#[test]
fn data_edits_the_extents_file(rt: HostRuntime) -> Result<(), Fail> {
    assert_eq!(rt; count_extents_edits(8, 7, 1), 1);
    assert_eq!(rt; count_extents_edits(6, 1, 1), 0);
    assert_eq!(rt; count_extents_edits(40, 1, 1), 9);
    assert_eq!(rt; count_extents_edits(40, 1, 0), 0);
    Ok(())
}
