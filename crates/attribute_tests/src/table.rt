//! The attributes that files should have.
use attributes::ValueAt;
use entry_kit::{Length, NameForm, Stop};
use fork_map::ExtentList;
use hx_bytes::{Bytes, Extent, OutOfMemory, Units};
use std::alloc::Global;

/// A place of an attribute: a file by its number, and the number of a name.
#[derive(Clone, Copy, Debug, PartialEq, Eq)]
pub struct Place {
    pub file: u32,
    pub name: u16,
}

/// The most bytes of a value that stands in its record.
const LONGEST_INLINE: u32 = 1700;

/// The bytes of a block.
const BLOCK: u32 = 512;

/// Sizes of values in forks, each with a number of extents: those of one record, of one that is full, and of further ones.
const FORKS: [(u32, u32); 10] = [
    (1701, 1),
    (1701, 4),
    (3802, 1),
    (3802, 8),
    (131_072, 1),
    (131_072, 8),
    (131_072, 9),
    (131_072, 16),
    (131_072, 17),
    (131_072, 256),
];

/// The value that an attribute has for the so-manieth time: none of it is like the one before, some are as long as they may be, and some stand in forks.
pub fn value_of(alloc: Global, place: Place, version: u8) -> Result<ValueAt, Stop> {
    let number = place
        .file
        .wrapping_mul(31)
        .wrapping_add(u32::from(place.name))
        .wrapping_add(u32::from(version));
    let at = (number % 41) as usize;
    match FORKS.get(at) {
        Some((size, extents)) => fork_of(alloc, number, *size, *extents),
        None => {
            let bytes = bytes_of(alloc, number, version)?;
            Ok(ValueAt::Inline(bytes))
        }
    }
}

fn bytes_of(alloc: Global, number: u32, version: u8) -> Result<Bytes, OutOfMemory> {
    let mut value = Vec::new(alloc);
    for at in 0..length_of(number) {
        value.push((at % 251) as u8 ^ version)?;
    }
    Ok(Bytes::from_vec(value))
}

fn length_of(number: u32) -> u32 {
    match number % 5 {
        0 => 0,
        1 => LONGEST_INLINE,
        2 => 1,
        _ => number.wrapping_mul(40_503) % LONGEST_INLINE,
    }
}

/// A value of so many bytes in a fork of so many extents, of which each but the last has one block.
fn fork_of(alloc: Global, number: u32, size: u32, extents: u32) -> Result<ValueAt, Stop> {
    let blocks = size.div_ceil(BLOCK);
    let mut fork = ExtentList::new(alloc);
    for at in 0..extents {
        let is_last = at.wrapping_add(1) == extents;
        let count = if is_last { blocks.wrapping_sub(at) } else { 1 };
        let start = number.wrapping_mul(1000).wrapping_add(at.wrapping_mul(2));
        fork.push(Extent { start, count })?;
    }
    Ok(ValueAt::Blocks {
        size: u64::from(size),
        fork,
    })
}

/// Adds the blocks that a value has.
pub fn push_blocks(list: &mut ExtentList, value: &ValueAt) -> Result<(), Stop> {
    if let ValueAt::Blocks { fork, .. } = value {
        for extent in fork.as_slice() {
            list.push(*extent)?;
        }
    }
    Ok(())
}

/// For each place how often its attribute was given a value, or 0 where there is none.
#[derive(Drop)]
pub struct Table {
    names: NameForm,
    pub files: u16,
    /// How many names each file may have.
    pub many: u16,
    versions: Vec<u8>,
}

impl Table {
    /// Without an attribute.
    pub fn new(alloc: Global, length: Length, files: u16, many: u16) -> Result<Table, Stop> {
        let versions = vec![in alloc; 0u8; usize::from(files) * usize::from(many)]?;
        let names = NameForm {
            length,
            longest: 127,
            step: 9000,
        };
        Ok(Table {
            names,
            files,
            many,
            versions,
        })
    }

    /// How many places there are.
    pub fn count_places(&self) -> u32 {
        u32::from(self.files) * u32::from(self.many)
    }

    /// The place that comes so-manieth where they are shuffled; the number of places has no divisor with the factor.
    pub fn place(&self, number: u32) -> Place {
        let at = number.wrapping_mul(7919) % self.count_places().max(1);
        let many = self.many.max(1);
        Place {
            file: at / u32::from(many),
            name: (at % u32::from(many)) as u16,
        }
    }

    fn at(&self, place: Place) -> usize {
        (place.file as usize)
            .wrapping_mul(usize::from(self.many))
            .wrapping_add(usize::from(place.name))
    }

    /// How often the attribute at a place was given a value; 0 where there is none.
    pub fn version(&self, place: Place) -> u8 {
        match self.versions.get(self.at(place)) {
            Some(version) => *version,
            None => 0,
        }
    }

    pub fn has(&self, place: Place) -> bool {
        self.version(place) != 0
    }

    /// Has a value at a place, or none.
    pub fn put(&mut self, place: Place, version: u8) {
        let at = self.at(place);
        if let Some(found) = self.versions.get_mut(at) {
            *found = version;
        }
    }

    /// The name at a place.
    pub fn name(&self, alloc: Global, place: Place) -> Result<Units, Stop> {
        self.names.name(alloc, place.name)
    }

    /// The blocks that the value at a place has.
    pub fn push_blocks(
        &self,
        alloc: Global,
        list: &mut ExtentList,
        place: Place,
    ) -> Result<(), Stop> {
        if self.has(place) {
            let value = value_of(alloc, place, self.version(place))?;
            push_blocks(list, &value)?;
        }
        Ok(())
    }

    /// How many attributes a file has.
    pub fn count(&self, file: u32) -> u32 {
        let mut count = 0u32;
        for name in 0..self.many {
            if self.has(Place { file, name }) {
                count = count.wrapping_add(1);
            }
        }
        count
    }
}

/// The CNID of a file by its number.
pub fn file_id(file: u32) -> u32 {
    file.wrapping_add(0x7FFF_FFF0)
}
