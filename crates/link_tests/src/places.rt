//! Places of the tests' entries.
use hard_links::EntryAt;
use hx_bytes::{OutOfMemory, Units};
use std::alloc::Global;

/// The CNID of the private folder.
pub const PRIVATE: u32 = 17;

/// Four zeros and `HFS+ Private Data`, as the format names it.
const PRIVATE_NAME: [u16; 21] = [
    0, 0, 0, 0, 0x48, 0x46, 0x53, 0x2B, 0x20, 0x50, 0x72, 0x69, 0x76, 0x61, 0x74, 0x65, 0x20, 0x44,
    0x61, 0x74, 0x61,
];

/// `iNode`
const NODE: [u16; 5] = [0x69, 0x4E, 0x6F, 0x64, 0x65];

/// `temp`
const TEMP: [u16; 4] = [0x74, 0x65, 0x6D, 0x70];

/// Where an entry stands.
#[derive(Clone, Copy, Debug)]
pub enum Place {
    /// A name of one unit in the root.
    Root(u16),
    /// The private folder.
    Private,
    /// `iNode` and a number of two digits in the private folder.
    Node(u8),
    /// `temp` and a number of two digits in the private folder.
    Temp(u8),
}

/// A word and two digits.
fn with_digits(alloc: Global, word: &[u16], number: u8) -> Result<Units, OutOfMemory> {
    let mut units = Units::new(alloc);
    for unit in word {
        units.push(*unit)?;
    }
    units.push(0x30 + u16::from(number / 10 % 10))?;
    units.push(0x30 + u16::from(number % 10))?;
    Ok(units)
}

fn one_unit(alloc: Global, unit: u16) -> Result<Units, OutOfMemory> {
    let mut units = Units::new(alloc);
    units.push(unit)?;
    Ok(units)
}

impl Place {
    /// The folder and the name.
    pub fn entry(self, alloc: Global) -> Result<EntryAt, OutOfMemory> {
        match self {
            Place::Root(unit) => Ok(EntryAt {
                parent: 2,
                name: one_unit(alloc, unit)?,
            }),
            Place::Private => Ok(EntryAt {
                parent: 2,
                name: Units::from_vec(Vec::from_slice(alloc, PRIVATE_NAME.as_slice())?),
            }),
            Place::Node(number) => Ok(EntryAt {
                parent: PRIVATE,
                name: with_digits(alloc, NODE.as_slice(), number)?,
            }),
            Place::Temp(number) => Ok(EntryAt {
                parent: PRIVATE,
                name: with_digits(alloc, TEMP.as_slice(), number)?,
            }),
        }
    }
}
