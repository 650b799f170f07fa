// A plain checker of a whole tree: level by level from the root, with each rule asked where it is met.
use crate::grove::Grove;
use crate::keys::{Kind, key_of, value_of};
use btree_node::Node;
use hx_bytes::OutOfMemory;
use std::alloc::Global;

/// What a tree is held against: the pairs whose numbers have a version, in the order of the numbers.
#[derive(Drop)]
pub struct Wanted {
    pub kind: Kind,
    pub units: u16,
    pub value: u32,
    /// The version of each number; 0 where its pair isn't there.
    pub versions: Vec<u8>,
}

/// What is wrong with a tree.
#[derive(Clone, Copy, Debug, PartialEq, Eq)]
pub enum Flaw {
    NoMemory,
    Unread(u32),
    Unused(u32),
    Grammar(u32),
    Links(u32),
    Empty(u32),
    Key(u32),
    Child(u32),
    Pair(u32),
    Header,
    LoneRoot,
    Lost,
    /// An edit that was wanted wasn't done.
    Refused(u32),
    /// An edit wrote or took more nodes than it may.
    TooMuch(u32),
    /// A search didn't find what is there, or found what isn't.
    Search(u32),
}

impl From<OutOfMemory> for Flaw {
    fn from(_fault: OutOfMemory) -> Flaw {
        Flaw::NoMemory
    }
}

/// The nodes of a level, and the keys that name them in the level above; a root has none.
#[derive(Drop)]
struct Level {
    nodes: Vec<u32>,
    keys: Vec<Vec<u8>>,
}

impl Level {
    fn new(alloc: Global) -> Level {
        Level {
            nodes: Vec::new(alloc),
            keys: Vec::new(alloc),
        }
    }

    /// Adds a node with the key that names it.
    fn add(&mut self, alloc: Global, node: u32, key: &[u8]) -> Result<(), OutOfMemory> {
        self.nodes.push(node)?;
        self.keys.push(Vec::from_slice(alloc, key)?)?;
        Ok(())
    }

    /// Adds the root.
    fn add_root(&mut self, node: u32) -> Result<(), OutOfMemory> {
        self.nodes.push(node)?;
        Ok(())
    }

    /// The node at a place, or 0.
    fn node(&self, place: usize) -> u32 {
        match self.nodes.get(place) {
            Some(node) => *node,
            None => 0,
        }
    }

    /// Whether a key is the one that names the node at a place.
    fn names(&self, place: usize, key: &[u8]) -> bool {
        match self.keys.get(place) {
            Some(named) => named.as_slice() == key,
            None => self.keys.is_empty(),
        }
    }
}

impl Wanted {
    /// The first number from one on whose pair is there.
    pub fn next_from(&self, number: u32) -> Option<u32> {
        let end = u32::try_from(self.versions.len()).unwrap_or(u32::MAX);
        for at in number..end {
            if self.version(at) != 0 {
                return Some(at);
            }
        }
        None
    }

    /// How often a number's pair was given a value; 0 where it isn't there.
    pub fn version(&self, number: u32) -> u8 {
        match self.versions.get(number as usize) {
            Some(version) => *version,
            None => 0,
        }
    }

    /// Sets how often a number's pair was given a value.
    pub fn set(&mut self, number: u32, version: u8) {
        let at = number as usize;
        if at < self.versions.len() {
            self.versions[at] = version;
        }
    }

    /// The key of a number.
    pub fn key(&self, alloc: Global, number: u32) -> Result<Vec<u8>, OutOfMemory> {
        key_of(alloc, self.kind, number, self.units)
    }

    /// The value of a number's pair.
    pub fn value(&self, alloc: Global, number: u32) -> Result<Vec<u8>, OutOfMemory> {
        value_of(alloc, number, self.version(number), self.value)
    }

    /// The record of a number's pair: its key and its value.
    fn record(&self, alloc: Global, number: u32) -> Result<Vec<u8>, OutOfMemory> {
        let mut record = self.key(alloc, number)?;
        let value = self.value(alloc, number)?;
        for byte in &value {
            record.push(*byte)?;
        }
        Ok(record)
    }

    /// How many pairs are there.
    fn count(&self) -> u32 {
        let mut count: u32 = 0;
        for version in &self.versions {
            if *version != 0 {
                count = count.wrapping_add(1);
            }
        }
        count
    }
}

/// The length of the key in front of a record, with its length field.
fn key_end(item: &[u8]) -> usize {
    match item {
        [high, low, ..] => usize::from(*high) * 256 + usize::from(*low) + 2,
        _ => 0,
    }
}

/// Looks through a whole tree.
pub fn look(alloc: Global, tree: &mut Grove, wanted: &Wanted) -> Result<(), Flaw> {
    let shape = tree.shape();
    if shape.leaf_records != wanted.count() {
        return Err(Flaw::Header);
    }
    let mut level = Level::new(alloc);
    if shape.depth > 0 {
        level.add_root(shape.root)?;
    } else if shape.root != 0 || shape.first != 0 || shape.last != 0 || shape.leaf_records != 0 {
        return Err(Flaw::Header);
    }
    let mut reached: u64 = 0;
    for below in 0..shape.depth {
        reached = reached.wrapping_add(level.nodes.len() as u64);
        level = look_at_level(alloc, tree, &level, shape.depth - below, wanted)?;
    }
    if u64::from(shape.free).wrapping_add(reached).wrapping_add(1) == u64::from(shape.total) {
        Ok(())
    } else {
        Err(Flaw::Lost)
    }
}

/// Looks through a level, and gives the one below; below the leaves there is none.
fn look_at_level(
    alloc: Global,
    tree: &mut Grove,
    level: &Level,
    height: u16,
    wanted: &Wanted,
) -> Result<Level, Flaw> {
    let shape = tree.shape();
    let mut below = Level::new(alloc);
    let mut number = 0;
    for place in 0..level.nodes.len() {
        look_at_node(tree, level, place, height)?;
        let page = tree.page();
        if height == 1 {
            number = look_at_leaf(alloc, page, wanted, number)?;
        } else {
            look_at_index(alloc, page, height, &mut below)?;
        }
    }
    if height == 1 && wanted.next_from(number).is_some() {
        return Err(Flaw::Pair(number));
    }
    let ends = (level.node(0), level.node(level.nodes.len().wrapping_sub(1)));
    if height == 1 && ends != (shape.first, shape.last) {
        return Err(Flaw::Header);
    }
    if height == shape.depth && height > 1 && below.nodes.len() < 2 {
        return Err(Flaw::LoneRoot);
    }
    Ok(below)
}

/// Reads a node of a level, and looks at its place: its kind, its links, and its first key.
fn look_at_node(tree: &mut Grove, level: &Level, place: usize, height: u16) -> Result<(), Flaw> {
    let name = level.node(place);
    if !tree.is_used(name) {
        return Err(Flaw::Unused(name));
    }
    if !tree.read(name) {
        return Err(Flaw::Unread(name));
    }
    let page = tree.page();
    if !page.check(kind_at(height), (height % 256) as u8) {
        return Err(Flaw::Grammar(name));
    }
    if page.count() == 0 {
        return Err(Flaw::Empty(name));
    }
    let back = if place == 0 { 0 } else { level.node(place - 1) };
    if page.links() != (level.node(place.wrapping_add(1)), back) {
        return Err(Flaw::Links(name));
    }
    let first = page.item(0);
    match first.get(..key_end(first)) {
        Some(key) if level.names(place, key) => Ok(()),
        _ => Err(Flaw::Key(name)),
    }
}

fn kind_at(height: u16) -> i8 {
    if height == 1 { -1 } else { 0 }
}

/// Holds the records of a leaf against the pairs from a number on, and gives the number behind them.
fn look_at_leaf(alloc: Global, page: &Node, wanted: &Wanted, from: u32) -> Result<u32, Flaw> {
    let mut number = from;
    if !page.check(-1, 1) {
        return Ok(number);
    }
    for place in 0..page.count() {
        let Some(at) = wanted.next_from(number) else {
            return Err(Flaw::Pair(number));
        };
        let record = wanted.record(alloc, at)?;
        if page.item(place) != record.as_slice() {
            return Err(Flaw::Pair(at));
        }
        number = at.wrapping_add(1);
    }
    Ok(number)
}

/// Keeps the children that an index node names, and their keys.
fn look_at_index(alloc: Global, page: &Node, height: u16, below: &mut Level) -> Result<(), Flaw> {
    if !page.check(0, (height % 256) as u8) {
        return Ok(());
    }
    for place in 0..page.count() {
        let item = page.item(place);
        let end = key_end(item);
        let (Some(key), Some([a, b, c, d])) = (item.get(..end), item.get(end..)) else {
            return Err(Flaw::Child(u32::from(place)));
        };
        let child = u32::from_be_bytes([*a, *b, *c, *d]);
        below.add(alloc, child, key)?;
    }
    Ok(())
}
