//! The leaf of a catalog, written from a table of records.
use hx_bytes::OutOfMemory;
use std::alloc::Global;

/// A fork of up to two extents: its bytes, and where its blocks begin and how many they are.
#[derive(Clone, Copy)]
pub struct Blocks {
    pub size: u32,
    pub first: (u32, u32),
    pub second: (u32, u32),
}

/// No block.
pub const NO_BLOCKS: Blocks = Blocks {
    size: 0,
    first: (0, 0),
    second: (0, 0),
};

/// The value of a record.
#[derive(Clone, Copy)]
pub enum Value {
    Folder {
        id: u32,
        valence: u32,
    },
    /// A file; a link has the type of one.
    File {
        id: u32,
        special: u32,
        link: bool,
        data: Blocks,
    },
    Thread {
        of_file: bool,
        parent: u32,
        name: &'static [u8],
    },
}

/// A record of the catalog, whose name has a unit for each byte.
#[derive(Clone, Copy)]
pub struct Rec {
    pub parent: u32,
    pub name: &'static [u8],
    pub value: Value,
}

/// How long a node is.
const NODE: usize = 4_096;

fn push_u16(bytes: &mut Vec<u8>, n: u16) -> Result<(), OutOfMemory> {
    bytes.push((n / 256) as u8)?;
    bytes.push((n % 256) as u8)?;
    Ok(())
}

fn push_u32(bytes: &mut Vec<u8>, n: u32) -> Result<(), OutOfMemory> {
    push_u16(bytes, (n / 65_536) as u16)?;
    push_u16(bytes, (n % 65_536) as u16)
}

fn push_zeros(bytes: &mut Vec<u8>, count: u32) -> Result<(), OutOfMemory> {
    for _ in 0..count {
        bytes.push(0)?;
    }
    Ok(())
}

fn push_name(bytes: &mut Vec<u8>, name: &[u8]) -> Result<(), OutOfMemory> {
    push_u16(bytes, (name.len() % 65_536) as u16)?;
    for unit in name {
        bytes.push(0)?;
        bytes.push(*unit)?;
    }
    Ok(())
}

/// What folders and files have alike from the dates on: 76 bytes.
fn push_rest(bytes: &mut Vec<u8>, special: u32, link: bool) -> Result<(), OutOfMemory> {
    push_zeros(bytes, 32)?;
    push_u32(bytes, special)?;
    if link {
        bytes.extend_from_slice(b"hlnkhfs+")?;
    } else {
        push_zeros(bytes, 8)?;
    }
    push_zeros(bytes, 32)
}

fn push_fork(bytes: &mut Vec<u8>, fork: Blocks) -> Result<(), OutOfMemory> {
    push_u32(bytes, 0)?;
    push_u32(bytes, fork.size)?;
    push_u32(bytes, 4_096)?;
    push_u32(bytes, fork.first.1.wrapping_add(fork.second.1))?;
    push_u32(bytes, fork.first.0)?;
    push_u32(bytes, fork.first.1)?;
    push_u32(bytes, fork.second.0)?;
    push_u32(bytes, fork.second.1)?;
    push_zeros(bytes, 48)
}

fn push_value(bytes: &mut Vec<u8>, value: Value) -> Result<(), OutOfMemory> {
    match value {
        Value::Folder { id, valence } => {
            push_u16(bytes, 1)?;
            push_u16(bytes, 0)?;
            push_u32(bytes, valence)?;
            push_u32(bytes, id)?;
            push_rest(bytes, 0, false)
        }
        Value::File {
            id,
            special,
            link,
            data,
        } => {
            push_u16(bytes, 2)?;
            push_u16(bytes, 0)?;
            push_u32(bytes, 0)?;
            push_u32(bytes, id)?;
            push_rest(bytes, special, link)?;
            push_fork(bytes, data)?;
            push_fork(bytes, NO_BLOCKS)
        }
        Value::Thread {
            of_file,
            parent,
            name,
        } => {
            push_u16(bytes, if of_file { 4 } else { 3 })?;
            push_u16(bytes, 0)?;
            push_u32(bytes, parent)?;
            push_name(bytes, name)
        }
    }
}

fn push_rec(bytes: &mut Vec<u8>, rec: Rec) -> Result<(), OutOfMemory> {
    push_u16(bytes, (6 + 2 * (rec.name.len() % 256)) as u16)?;
    push_u32(bytes, rec.parent)?;
    push_name(bytes, rec.name)?;
    push_value(bytes, rec.value)
}

/// A leaf that has these records, in this order.
pub fn leaf(alloc: Global, recs: &[Rec]) -> Result<Vec<u8>, OutOfMemory> {
    let mut bytes = Vec::new(alloc);
    let mut ends = Vec::new(alloc);
    push_zeros(&mut bytes, 8)?;
    bytes.push(0xFF)?;
    bytes.push(1)?;
    push_u16(&mut bytes, (recs.len() % 65_536) as u16)?;
    push_u16(&mut bytes, 0)?;
    ends.push(14)?;
    for rec in recs {
        push_rec(&mut bytes, *rec)?;
        ends.push((bytes.len() % 65_536) as u16)?;
    }
    for _ in 0..NODE {
        if bytes.len().wrapping_add(ends.len().wrapping_mul(2)) < NODE {
            bytes.push(0)?;
        }
    }
    for end in ends.iter().rev() {
        push_u16(&mut bytes, *end)?;
    }
    Ok(bytes)
}

/// Whether a name stands before another.
fn is_lower(one: &[u8], other: &[u8]) -> bool {
    for (x, y) in one.iter().zip(other) {
        if x != y {
            return x < y;
        }
    }
    one.len() < other.len()
}

fn is_before(one: &Rec, other: &Rec) -> bool {
    one.parent < other.parent || one.parent == other.parent && is_lower(one.name, other.name)
}

fn place_of(recs: &[Rec], rec: &Rec) -> usize {
    for (k, other) in recs.iter().enumerate() {
        if is_before(rec, other) {
            return k;
        }
    }
    recs.len()
}

/// The records in the order of their keys.
pub fn sorted(alloc: Global, recs: &[Rec]) -> Result<Vec<Rec>, OutOfMemory> {
    let mut list: Vec<Rec> = Vec::new(alloc);
    for rec in recs {
        let at = place_of(&list, rec);
        if at <= list.len() {
            list.insert(at, *rec)?;
        }
    }
    Ok(list)
}
