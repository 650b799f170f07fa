//! Hard links: files that stand for another, which has their bytes (TN1150, "Hard Links").

use crate::catalog::{Catalog, FoundFile};
use std::alloc::{AllocError, Global};
use std::collections::BTreeMap;

/// The files that links stand for, by the number that the links name.
#[derive(Drop)]
pub struct Links {
    /// The folder that these are in.
    pub folder: Option<u32>,
    nodes: BTreeMap<u32, usize>,
}

const ROOT: u32 = 2;

/// Four units 0, and `HFS+ Private Data`.
const PRIVATE: [u16; 21] = [
    0, 0, 0, 0, 0x48, 0x46, 0x53, 0x2B, 0x20, 0x50, 0x72, 0x69, 0x76, 0x61, 0x74, 0x65, 0x20, 0x44,
    0x61, 0x74, 0x61,
];

/// `iNode`.
const NODE: [u16; 5] = [0x69, 0x4E, 0x6F, 0x64, 0x65];

/// Whether a file is a link: its type is `hlnk` and its creator `hfs+`.
pub fn is_link(file: &FoundFile) -> bool {
    match file.record.fields.finder.get(..8) {
        Some(kind) => kind == b"hlnkhfs+".as_slice(),
        None => false,
    }
}

// The number in a name that begins with `iNode`.
fn number_in(name: &[u16]) -> Option<u32> {
    let digits = name.strip_prefix(NODE.as_slice())?;
    let mut number: u32 = 0;
    if digits.is_empty() {
        return None;
    }
    for digit in digits {
        if *digit < 0x30 || *digit > 0x39 {
            return None;
        }
        let value = u32::from(*digit).saturating_sub(0x30);
        number = number.checked_mul(10)?.checked_add(value)?;
    }
    Some(number)
}

// The folder that has the files of links.
fn private_folder(catalog: &Catalog) -> Option<u32> {
    for (id, folder) in catalog.folders.iter() {
        if folder.placed.parent == ROOT && folder.placed.name.as_slice() == PRIVATE.as_slice() {
            return Some(*id);
        }
    }
    for (id, placed) in catalog.threads.iter() {
        if placed.parent == ROOT && placed.name.as_slice() == PRIVATE.as_slice() {
            return Some(*id);
        }
    }
    None
}

impl Links {
    /// The files that links may stand for.
    pub fn find(alloc: Global, catalog: &Catalog) -> Result<Links, AllocError> {
        let folder = private_folder(catalog);
        let mut nodes = BTreeMap::new(alloc);
        for (at, file) in catalog.files.iter().enumerate() {
            if Some(file.placed.parent) == folder {
                if let Some(number) = number_in(file.placed.name.as_slice()) {
                    nodes.insert(number, at)?;
                }
            }
        }
        Ok(Links { folder, nodes })
    }

    /// Which of the catalog's files a link stands for.
    pub fn target(&self, link: &FoundFile) -> Option<usize> {
        self.nodes.get(&link.record.fields.special).copied()
    }
}
