//! Trees of many entries.
use crate::subject::Subject;
use catalog::{Inserted, Removed};
use entry_kit::{Drawer, Stop};
use hx_bytes::Units;
use std::alloc::Global;

/// The folder of all entries.
pub const FOLDER: u32 = 2;

/// The file of all attributes.
pub const FILE: u32 = 16;

/// The CNID of the first entry.
const FIRST: u32 = 16;

/// A name of twelve units by its number, below 2^24: four letters, and eight of which each is the next three bits.
pub fn name_of(alloc: Global, number: u32) -> Result<Units, Stop> {
    let mut units = Units::new(alloc);
    for unit in [0x66, 0x69, 0x6C, 0x65] {
        units.push(unit)?;
    }
    for place in 0..8u32 {
        let digit = number.wrapping_shr(21u32.wrapping_sub(place.wrapping_mul(3))) % 8;
        units.push(0x30 + digit as u16)?;
    }
    Ok(units)
}

/// The number that comes so-manieth of so many where they are shuffled, twice: even numbers are those of the entries that stay.
pub fn shuffled(place: u32, many: u32) -> u32 {
    (place.wrapping_mul(7919) % many.max(1)).wrapping_mul(2)
}

/// How many nodes a tree of so many pairs may need: one for three of them, and some to spare.
fn nodes_for(many: u32) -> u16 {
    (many / 3).saturating_add(400).min(30_720) as u16
}

/// Adds a file to the folder.
pub fn add_file(alloc: Global, subject: &mut Subject, number: u32, at: u32) -> Result<(), Stop> {
    let name = name_of(alloc, number)?;
    let id = FIRST.wrapping_add(at.wrapping_mul(2)) | 1;
    match subject.add(alloc, FOLDER, &name, id)? {
        Inserted::Done => Ok(()),
        Inserted::Exists => Err(Stop::Failed),
    }
}

/// Removes a file of the folder.
pub fn remove_file(alloc: Global, subject: &mut Subject, number: u32) -> Result<(), Stop> {
    let name = name_of(alloc, number)?;
    match subject.remove(alloc, FOLDER, &name)? {
        Removed::Done => Ok(()),
        Removed::Absent => Err(Stop::Failed),
    }
}

/// A catalog with so many files in its folder.
pub fn filled_catalog(alloc: Global, is_filed: bool, many: u32) -> Result<Subject, Stop> {
    let mut subject = Subject::new(alloc, is_filed, nodes_for(many))?;
    for at in 0..many {
        add_file(alloc, &mut subject, shuffled(at, many), at)?;
    }
    Ok(subject)
}

/// Attributes of one file, so many.
pub fn filled_drawer(alloc: Global, many: u32) -> Result<Drawer, Stop> {
    let mut drawer = Drawer::of_8192(alloc, nodes_for(many))?;
    for at in 0..many {
        let name = name_of(alloc, shuffled(at, many))?;
        drawer.set(alloc, FILE, &name, &[7; 100])?;
    }
    Ok(drawer)
}
