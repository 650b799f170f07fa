//! The entries that a catalog should have.
use entry_kit::{Length, NameForm, Stop};
use hx_bytes::Units;
use std::alloc::Global;

/// How many folders the tests have.
pub const FOLDERS: u8 = 3;

/// A place of an entry: one of the tests' folders, and the number of a name.
#[derive(Clone, Copy, Debug, PartialEq, Eq)]
pub struct Place {
    pub folder: u8,
    pub name: u16,
}

/// The CNID of a folder: the root's, and those of the entries that are added first and third.
pub fn folder_id(folder: u8) -> u32 {
    match folder {
        0 => 2,
        1 => 16,
        _ => 18,
    }
}

/// For each place the CNID and the number of its entry, or 0 where there is none.
#[derive(Drop)]
pub struct Table {
    names: NameForm,
    /// How many names each folder may have.
    pub many: u16,
    ids: Vec<u32>,
    counts: Vec<u32>,
}

impl Table {
    /// Without an entry.
    pub fn new(alloc: Global, length: Length, many: u16) -> Result<Table, Stop> {
        let ids = vec![in alloc; 0u32; usize::from(many) * usize::from(FOLDERS)]?;
        let counts = vec![in alloc; 0u32; usize::from(many) * usize::from(FOLDERS)]?;
        let names = NameForm {
            length,
            longest: 255,
            step: 200,
        };
        Ok(Table {
            names,
            many,
            ids,
            counts,
        })
    }

    /// How many places there are.
    pub fn count_places(&self) -> u32 {
        u32::from(self.many) * u32::from(FOLDERS)
    }

    /// The place that comes so-manieth where they are shuffled; the number of places has no divisor with the factor.
    pub fn place(&self, number: u32) -> Place {
        let at = number.wrapping_mul(7919) % self.count_places().max(1);
        let many = self.many.max(1);
        Place {
            folder: (at / u32::from(many) % 256) as u8,
            name: (at % u32::from(many)) as u16,
        }
    }

    fn at(&self, place: Place) -> usize {
        usize::from(place.folder)
            .wrapping_mul(usize::from(self.many))
            .wrapping_add(usize::from(place.name))
    }

    /// The CNID of the entry at a place; 0 where there is none.
    pub fn id(&self, place: Place) -> u32 {
        match self.ids.get(self.at(place)) {
            Some(id) => *id,
            None => 0,
        }
    }

    pub fn has(&self, place: Place) -> bool {
        self.id(place) != 0
    }

    /// The number of the entry at a place.
    pub fn count(&self, place: Place) -> u32 {
        match self.counts.get(self.at(place)) {
            Some(count) => *count,
            None => 0,
        }
    }

    /// Has an entry at a place, or none.
    pub fn put(&mut self, place: Place, id: u32, count: u32) {
        let at = self.at(place);
        if let Some(found) = self.ids.get_mut(at) {
            *found = id;
        }
        if let Some(found) = self.counts.get_mut(at) {
            *found = count;
        }
    }

    /// The name at a place.
    pub fn name(&self, alloc: Global, place: Place) -> Result<Units, Stop> {
        self.names.name(alloc, place.name)
    }
}
