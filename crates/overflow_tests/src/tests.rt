//! Forks grown, cut and replaced beside their neighbours.
use crate::checks::{check, store};
use crate::flaw::{Flaw, wanted};
use crate::fork::{Fork, scattered};
use crate::forks::Forks;
use fork_map::ExtentList;
use hx_bytes::{Extent, OutOfMemory};
use std::alloc::Global;

/// Three files with both forks, among them that of bad blocks and the last one of all.
fn neighbours(alloc: Global) -> Result<Vec<Fork>, OutOfMemory> {
    let mut held = Vec::new(alloc);
    for id in [5, 16, u32::MAX] {
        for of_resources in [false, true] {
            held.push(Fork::new(alloc, id, of_resources))?;
        }
    }
    Ok(held)
}

/// A step: which fork gets how many extents from which block on.
type Step = (usize, u32, u32);

/// One list grown and cut at its end, and then another in its place, shorter, as long, longer and none.
const LIVES: [Step; 27] = [
    (2, 1, 100),
    (2, 8, 100),
    (2, 9, 100),
    (3, 17, 100),
    (2, 16, 100),
    (2, 17, 100),
    (1, 24, 7000),
    (2, 25, 100),
    (2, 40, 100),
    (4, 9, 90),
    (2, 39, 100),
    (2, 17, 100),
    (2, 17, 9000),
    (2, 16, 100),
    (2, 9, 9000),
    (2, 8, 9000),
    (2, 7, 9000),
    (2, 80, 9000),
    (3, 0, 0),
    (2, 0, 0),
    (5, 33, 55),
    (2, 72, 100),
    (2, 7, 100),
    (1, 0, 0),
    (2, 0, 0),
    (5, 0, 0),
    (4, 0, 0),
];

/// Makes a step, and looks at all forks.
fn make_step(
    alloc: Global,
    forks: &mut Forks,
    held: &mut Vec<Fork>,
    step: Step,
) -> Result<(), Flaw> {
    let (which, many, first) = step;
    let new = scattered(alloc, first, many)?;
    if let Some(fork) = held.get_mut(which) {
        store(alloc, forks, fork, new)?;
    }
    check(alloc, forks, held.as_slice())
}

/// Whether a tree has no pair, and all its nodes but the header's are free.
fn check_bare(forks: &Forks) -> Result<(), Flaw> {
    let shape = forks.shape();
    let is_bare = shape.depth == 0 && shape.root == 0 && shape.leaf_records == 0;
    wanted(
        is_bare && shape.free == shape.total.saturating_sub(1),
        Flaw::Levels(shape.depth),
    )
}

fn live(alloc: Global) -> Result<(), Flaw> {
    let mut forks = Forks::of_4096(alloc, 200)?;
    let mut held = neighbours(alloc)?;
    for step in LIVES {
        make_step(alloc, &mut forks, &mut held, step)?;
    }
    check_bare(&forks)
}

#[test]
fn forks_grow_and_are_cut_beside_others(rt: HostRuntime) -> Result<(), Flaw> {
    live(rt.alloc())
}

/// Gives each of many forks so many extents.
fn store_all(
    alloc: Global,
    forks: &mut Forks,
    held: &mut Vec<Fork>,
    many: u32,
    first: u32,
) -> Result<(), Flaw> {
    for (place, fork) in held.iter_mut().enumerate() {
        let from = first.wrapping_add((place % 1000) as u32 * 1000);
        let new = scattered(alloc, from, many)?;
        store(alloc, forks, fork, new)?;
    }
    check(alloc, forks, held.as_slice())
}

/// Both forks of a hundred files.
fn hundred_files(alloc: Global) -> Result<Vec<Fork>, OutOfMemory> {
    let mut held = Vec::new(alloc);
    for id in 16..116u32 {
        held.push(Fork::new(alloc, id, true))?;
        held.push(Fork::new(alloc, id, false))?;
    }
    Ok(held)
}

// Six records stand in a leaf of 512 bytes, and 27 leaves below a node.
fn live_many(alloc: Global) -> Result<(), Flaw> {
    let mut forks = Forks::of_512(alloc, 800)?;
    let mut held = hundred_files(alloc)?;
    store_all(alloc, &mut forks, &mut held, 17, 1)?;
    let depth = forks.shape().depth;
    wanted(depth >= 3, Flaw::Levels(depth))?;
    for (many, first) in [(24, 1), (9, 1), (20, 3), (8, 3), (31, 5), (0, 0)] {
        store_all(alloc, &mut forks, &mut held, many, first)?;
    }
    check_bare(&forks)
}

#[test]
fn forks_of_many_files_split_and_empty_the_tree(rt: HostRuntime) -> Result<(), Flaw> {
    live_many(rt.alloc())
}

/// The extents of a list, with one without blocks before each.
fn with_unused(alloc: Global, list: &ExtentList) -> Result<ExtentList, Flaw> {
    let mut mixed = ExtentList::new(alloc);
    for extent in list.as_slice() {
        mixed.push(Extent {
            start: 77,
            count: 0,
        })?;
        mixed.push(*extent)?;
    }
    Ok(mixed)
}

fn leave_out(alloc: Global) -> Result<(), Flaw> {
    let mut forks = Forks::of_512(alloc, 200)?;
    let mut fork = Fork::new(alloc, 16, false);
    let list = scattered(alloc, 100, 19)?;
    let mixed = with_unused(alloc, &list)?;
    fork.rec = forks.store(alloc, &fork, &mixed)?;
    fork.list = list;
    check(alloc, &mut forks, &[fork])
}

#[test]
fn extents_without_blocks_are_left_out(rt: HostRuntime) -> Result<(), Flaw> {
    leave_out(rt.alloc())
}
