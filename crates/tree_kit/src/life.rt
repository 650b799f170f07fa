//! The life of a tree in a fork: filled, changed and emptied, and attached anew between the edits.
use crate::made::{Made, write_tree};
use crate::pairs::{Kind, key_of, value_of};
use crate::plot::Plot;
use btree_edit::{Inserted, Removed};
use btree_node::{AttrOrder, CatalogOrder, ExtentOrder, KeyOrder, TreeShape};
use fork_map::ExtentList;
use hx_bytes::{Extent, OutOfMemory, Sector, Trouble};
use sector_kit::Sectors;
use std::alloc::Global;

/// An edit of a pair.
#[derive(Clone, Copy, Debug, PartialEq, Eq)]
pub enum Edit {
    Add,
    Change,
    TakeOut,
}

/// What went wrong.
#[derive(Clone, Copy, Debug, PartialEq, Eq)]
pub enum Flaw {
    NoMemory,
    /// The fork has no tree.
    NoTree,
    /// The numbers of the header record aren't those of the tree.
    Numbers,
    /// An edit wasn't done.
    Refused(Edit, u32),
    /// A growth or its undo wasn't done.
    Growth,
    /// A pair isn't there, or isn't behind the one before it.
    Lost(u32),
}

impl From<OutOfMemory> for Flaw {
    fn from(_fault: OutOfMemory) -> Flaw {
        Flaw::NoMemory
    }
}

impl From<Trouble> for Flaw {
    fn from(_fault: Trouble) -> Flaw {
        Flaw::NoTree
    }
}

fn attach(alloc: Global, space: Sectors, fork: &ExtentList, block: u32) -> Result<Plot, Flaw> {
    match Plot::attach(alloc, space, fork, block)? {
        Some(plot) => Ok(plot),
        None => Err(Flaw::NoTree),
    }
}

/// Attaches the tree anew: its header record says what the file kept.
fn again(alloc: Global, plot: Plot, fork: &ExtentList, block: u32) -> Result<Plot, Flaw> {
    let shape = plot.shape();
    let next = attach(alloc, plot.into_sectors(), fork, block)?;
    with_shape(next, &shape)
}

fn edit_pair<K: KeyOrder>(
    alloc: Global,
    plot: &mut Plot,
    kind: Kind,
    what: Edit,
    number: u32,
    version: u8,
) -> Result<(), Flaw> {
    let key = key_of(alloc, kind, number)?;
    let value = value_of(alloc, kind, number, version)?;
    let done = match what {
        Edit::Add => plot.add::<K>(&key, &value) == Some(Inserted::Done),
        Edit::Change => plot.change::<K>(&key, &value) == Some(Removed::Done),
        Edit::TakeOut => plot.take_out::<K>(&key) == Some(Removed::Done),
    };
    if done {
        Ok(())
    } else {
        Err(Flaw::Refused(what, number))
    }
}

/// Edits the pair of each number, shuffled, and attaches the tree anew behind every eighth.
fn edit_all<K: KeyOrder>(
    alloc: Global,
    start: Plot,
    fork: &ExtentList,
    block: u32,
    kind: Kind,
    what: Edit,
    many: u32,
    version: u8,
) -> Result<Plot, Flaw> {
    let mut plot = start;
    for place in 0..many {
        let number = place.wrapping_mul(7919) % many.max(1);
        edit_pair::<K>(alloc, &mut plot, kind, what, number, version)?;
        if place % 8 == 7 {
            plot = again(alloc, plot, fork, block)?;
        }
    }
    Ok(plot)
}

/// Finds each number, and steps from each to the next.
fn look<K: KeyOrder>(
    alloc: Global,
    plot: &mut Plot,
    kind: Kind,
    many: u32,
    version: u8,
) -> Result<(), Flaw> {
    for number in 0..many {
        let key = key_of(alloc, kind, number)?;
        let value = value_of(alloc, kind, number, version)?;
        if !plot.has::<K>(&key, &value) {
            return Err(Flaw::Lost(number));
        }
        let above = key_of(alloc, kind, number.wrapping_add(1))?;
        let is_last = number.wrapping_add(1) == many;
        if plot.follows::<K>(&key, &above) == is_last {
            return Err(Flaw::Lost(number));
        }
    }
    Ok(())
}

/// Makes an edit of each pair, and looks through the tree.
fn edit_and_look<K: KeyOrder>(
    alloc: Global,
    start: Plot,
    fork: &ExtentList,
    block: u32,
    kind: Kind,
    what: Edit,
    many: u32,
    version: u8,
) -> Result<Plot, Flaw> {
    let mut plot = edit_all::<K>(alloc, start, fork, block, kind, what, many, version)?;
    look::<K>(alloc, &mut plot, kind, many, version)?;
    Ok(plot)
}

/// Whether these are the numbers of the tree that was written.
fn is_fresh(shape: &TreeShape, made: &Made) -> bool {
    let taken = made.map_nodes.wrapping_add(1);
    shape.total == made.total && shape.free == made.total.wrapping_sub(taken)
}

/// The tree, where its numbers are these.
fn with_shape(plot: Plot, shape: &TreeShape) -> Result<Plot, Flaw> {
    if plot.shape() == *shape {
        Ok(plot)
    } else {
        Err(Flaw::Numbers)
    }
}

fn run<K: KeyOrder>(
    alloc: Global,
    space: Sectors,
    fork: &ExtentList,
    made: &Made,
    kind: Kind,
    many: u32,
) -> Result<(), Flaw> {
    let block = made.block;
    let empty = attach(alloc, space, fork, block)?;
    let shape = empty.shape();
    if !is_fresh(&shape, made) {
        return Err(Flaw::Numbers);
    }
    let full = edit_and_look::<K>(alloc, empty, fork, block, kind, Edit::Add, many, 1)?;
    let other = edit_and_look::<K>(alloc, full, fork, block, kind, Edit::Change, many, 2)?;
    let bare = edit_all::<K>(alloc, other, fork, block, kind, Edit::TakeOut, many, 2)?;
    let last = again(alloc, bare, fork, block)?;
    with_shape(last, &shape)?;
    Ok(())
}

/// A run of blocks that a fork gets, and what its tree says behind that.
#[derive(Clone, Copy, Debug)]
pub struct Growth {
    pub start: u32,
    pub count: u32,
    pub total: u32,
    /// How many free nodes come.
    pub more_free: u32,
    pub map_bits: u32,
}

/// Adds the pairs of the numbers from one to another.
fn fill<K: KeyOrder>(
    alloc: Global,
    plot: &mut Plot,
    kind: Kind,
    from: u32,
    to: u32,
) -> Result<(), Flaw> {
    for number in from..to {
        edit_pair::<K>(alloc, plot, kind, Edit::Add, number, 1)?;
    }
    Ok(())
}

/// Whether these are the numbers of a tree behind a growth.
fn grew(before: &TreeShape, after: &TreeShape, growth: &Growth) -> bool {
    let mut wanted = *before;
    wanted.total = growth.total;
    wanted.free = before.free.wrapping_add(growth.more_free);
    *after == wanted
}

/// Adds a run behind the fork of a tree: its numbers are then those of the growth.
fn grow_by(alloc: Global, start: Plot, run: Extent, growth: &Growth) -> Result<Plot, Flaw> {
    let mut plot = start;
    let before = plot.shape();
    let bits = growth.map_bits;
    if !plot.grow(alloc, run)? {
        return Err(Flaw::Growth);
    }
    if grew(&before, &plot.shape(), growth) && plot.map_bits() == bits {
        Ok(plot)
    } else {
        Err(Flaw::Numbers)
    }
}

/// A fork with a run behind it.
fn longer_fork(alloc: Global, fork: &ExtentList, run: Extent) -> Result<ExtentList, OutOfMemory> {
    let mut tail = ExtentList::new(alloc);
    tail.push(run)?;
    Ok(fork.append(alloc, &tail)?)
}

/// Lengthens the fork of a tree, and attaches it anew.
fn lengthen(
    alloc: Global,
    start: Plot,
    fork: &ExtentList,
    block: u32,
    growth: &Growth,
) -> Result<Plot, Flaw> {
    let run = Extent {
        start: growth.start,
        count: growth.count,
    };
    let plot = grow_by(alloc, start, run, growth)?;
    let longer = longer_fork(alloc, fork, run)?;
    again(alloc, plot, &longer, block)
}

/// The same sectors once more.
fn copy_of(alloc: Global, space: &Sectors) -> Result<Vec<Sector>, OutOfMemory> {
    Ok(Vec::from_slice(alloc, &space.list)?)
}

/// Fills a tree on, and looks through it.
fn fill_on<K: KeyOrder>(
    alloc: Global,
    start: Plot,
    kind: Kind,
    from: u32,
    to: u32,
) -> Result<Plot, Flaw> {
    let mut plot = start;
    fill::<K>(alloc, &mut plot, kind, from, to)?;
    look::<K>(alloc, &mut plot, kind, to, 1)?;
    Ok(plot)
}

/// Puts back the sectors of before a growth: the tree says again what it said then.
fn put_back(start: Plot, kept: &[Sector], before: &TreeShape, bits: u32) -> Result<Plot, Flaw> {
    let mut plot = start;
    if !plot.undo(kept) {
        return Err(Flaw::Growth);
    }
    if plot.map_bits() != bits {
        return Err(Flaw::Numbers);
    }
    with_shape(plot, before)
}

/// Looks through a tree, and once more behind an attach.
fn look_twice<K: KeyOrder>(
    alloc: Global,
    start: Plot,
    fork: &ExtentList,
    block: u32,
    kind: Kind,
    many: u32,
) -> Result<(), Flaw> {
    let mut plot = start;
    look::<K>(alloc, &mut plot, kind, many, 1)?;
    plot = again(alloc, plot, fork, block)?;
    look::<K>(alloc, &mut plot, kind, many, 1)
}

/// Lengthens the fork of a filled tree, fills the tree on, and puts back the sectors of before the growth.
fn run_growing<K: KeyOrder>(
    alloc: Global,
    space: Sectors,
    fork: &ExtentList,
    block: u32,
    kind: Kind,
    pairs: (u32, u32),
    growth: &Growth,
) -> Result<(), Flaw> {
    let (few, many) = pairs;
    let empty = attach(alloc, space, fork, block)?;
    let filled = fill_on::<K>(alloc, empty, kind, 0, few)?;
    let before = filled.shape();
    let bits = filled.map_bits();
    let kept = copy_of(alloc, &filled.space)?;
    let longer = lengthen(alloc, filled, fork, block, growth)?;
    let full = fill_on::<K>(alloc, longer, kind, few, many)?;
    let back = put_back(full, &kept, &before, bits)?;
    look_twice::<K>(alloc, back, fork, block, kind, few)
}

/// A fork of these extents.
fn fork_of(alloc: Global, extents: &[(u32, u32)]) -> Result<ExtentList, OutOfMemory> {
    let mut fork = ExtentList::new(alloc);
    for (start, count) in extents {
        fork.push(Extent {
            start: *start,
            count: *count,
        })?;
    }
    Ok(fork)
}

/// So many sectors, of which each byte is set.
fn sectors_of(alloc: Global, sectors: u64) -> Result<Sectors, OutOfMemory> {
    let mut list = Vec::new(alloc);
    for _ in 0..sectors {
        list.push([0xEE; 512])?;
    }
    Ok(Sectors::new(list))
}

/// The whole life of a tree of so many pairs.
pub fn live(
    alloc: Global,
    made: &Made,
    extents: &[(u32, u32)],
    sectors: u64,
    kind: Kind,
    many: u32,
) -> Result<(), Flaw> {
    let mut space = sectors_of(alloc, sectors)?;
    let fork = fork_of(alloc, extents)?;
    write_tree(&mut space, &fork, made);
    match kind {
        Kind::Extents => run::<ExtentOrder>(alloc, space, &fork, made, kind, many),
        Kind::Catalog => run::<CatalogOrder>(alloc, space, &fork, made, kind, many),
        Kind::Attributes => run::<AttrOrder>(alloc, space, &fork, made, kind, many),
    }
}

/// The life of a tree whose fork gets longer, between so many pairs and so many.
pub fn live_on(
    alloc: Global,
    made: &Made,
    extents: &[(u32, u32)],
    sectors: u64,
    kind: Kind,
    pairs: (u32, u32),
    growth: &Growth,
) -> Result<(), Flaw> {
    let mut space = sectors_of(alloc, sectors)?;
    let fork = fork_of(alloc, extents)?;
    write_tree(&mut space, &fork, made);
    let block = made.block;
    match kind {
        Kind::Extents => run_growing::<ExtentOrder>(
            alloc, space, &fork, block, kind, pairs, growth,
        ),
        Kind::Catalog => run_growing::<CatalogOrder>(
            alloc, space, &fork, block, kind, pairs, growth,
        ),
        Kind::Attributes => run_growing::<AttrOrder>(
            alloc, space, &fork, block, kind, pairs, growth,
        ),
    }
}
