//! How large a volume has to be that holds a folder, or a file.
use crate::gathered::Identity;
use crate::listing::{Kind, attributes_of, list};
use files_talk::child_of;
use std::alloc::AllocError;
use std::collections::BTreeSet;
use std::fs;

/// The bytes of a block.
const BLOCK: u64 = 4_096;

/// The sectors of a block.
const SECTORS: u64 = 8;

/// The fewest sectors of a volume.
const FEWEST: u64 = 16_384;

/// The most sectors of a journal, which takes an eighth of a volume.
const MOST_JOURNAL: u64 = 65_536;

/// The blocks that a volume takes for itself, besides its journal.
const OWN_BLOCKS: u64 = 256;

/// The bytes that the two records of an entry take in the catalog, without its name.
const ENTRY_BYTES: u64 = 300;

/// What was counted of a folder.
#[derive(Clone, Copy)]
struct Sum {
    blocks: u64,
    bytes: u64,
}

/// The sectors of a volume that has room for a file, or for all that a folder holds, as it stands now, but for the image itself.
pub fn sectors_for(
    rt: &HostRuntime,
    from: &str,
    image: Option<Identity>,
) -> Result<u64, AllocError> {
    let alloc = rt.alloc();
    let mut sum = Sum {
        blocks: 0,
        bytes: 0,
    };
    let mut seen = BTreeSet::new(alloc);
    if let Some(image) = image {
        let _ = seen.insert(image.key())?;
    }
    let mut open = Vec::new(alloc);
    match size_alone(rt, from) {
        Some(size) => {
            sum.add_entry(from);
            sum.add_file(size);
        }
        None => open.push(String::from_str(alloc, from)?)?,
    }
    for _ in 0..u64::MAX {
        match open.pop() {
            Some(path) => measure(rt, path.as_str(), &mut sum, &mut seen, &mut open)?,
            None => break,
        }
    }
    Ok(sectors_of(sum))
}

// The size of what is a file.
fn size_alone(rt: &HostRuntime, path: &str) -> Option<u64> {
    let found = attributes_of(&fs::metadata(rt, path).ok()?);
    if found.kind == Kind::File {
        Some(found.size)
    } else {
        None
    }
}

// Counts the entries of a folder, and opens its folders.
fn measure(
    rt: &HostRuntime,
    path: &str,
    sum: &mut Sum,
    seen: &mut BTreeSet<(u64, u64)>,
    open: &mut Vec<String>,
) -> Result<(), AllocError> {
    let listing = list(rt, path)?;
    for name in listing.names.as_slice() {
        let below = child_of(rt.alloc(), path, name.as_str())?;
        let Ok(found) = fs::symlink_metadata(rt, below.as_str()) else {
            continue;
        };
        let found = attributes_of(&found);
        sum.add_entry(name.as_str());
        match found.kind {
            Kind::Folder => open.push(below)?,
            Kind::File => {
                let key = found.identity.key();
                if !seen.contains(&key) {
                    sum.add_file(found.size);
                    if found.names > 1 {
                        let _ = seen.insert(key)?;
                    }
                }
            }
            Kind::Other(_) => {}
        }
    }
    Ok(())
}

impl Sum {
    fn add_entry(&mut self, name: &str) {
        let units = name.len() as u64;
        self.bytes = self
            .bytes
            .saturating_add(ENTRY_BYTES)
            .saturating_add(units.saturating_mul(4));
    }

    fn add_file(&mut self, size: u64) {
        self.blocks = self.blocks.saturating_add(size.div_ceil(BLOCK));
    }
}

// The sectors for so much: blocks of files, a catalog whose nodes are half full and whose file grew by a quarter and more at once, what a volume
// takes for itself, a journal, and a little more.
fn sectors_of(sum: Sum) -> u64 {
    let catalog = sum.bytes.saturating_mul(11).div_ceil(4 * BLOCK);
    let blocks = sum
        .blocks
        .saturating_add(catalog)
        .saturating_add(OWN_BLOCKS);
    let blocks = blocks.saturating_add(blocks / 64);
    let sectors = blocks.saturating_mul(SECTORS);
    let journal = (sectors / 7).min(MOST_JOURNAL);
    let all = sectors
        .saturating_add(journal)
        .div_ceil(SECTORS)
        .saturating_mul(SECTORS);
    all.max(FEWEST)
}
