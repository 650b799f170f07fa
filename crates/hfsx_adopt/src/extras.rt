//! What the files of a volume have besides their bytes, by the catalog of what an image stands for.

use hfs_serving::open_image;
use hx_bytes::{Sector, Trouble};
use jnl_replay::{Peek, PeekView};
use salvage_tree::{Extras, Sectors, read_extras};
use sector_disk::{SectorDisk, SectorView};
use std::alloc::{AllocError, Global};
use std::collections::BTreeMap;

/// The sectors of what an image stands for.
#[derive(Drop)]
struct Replayed<'a, 'b, D: SectorDisk>(PeekView<'a, 'b, D>);

impl<D: SectorDisk> Sectors for Replayed<'_, '_, D> {
    fn count(&self) -> u64 {
        self.0.sectors()
    }

    fn read(&mut self, first: u64, into: &mut [Sector]) -> bool {
        let mut at = first;
        for sector in into.iter_mut() {
            if at >= self.0.sectors() || self.0.get(at, sector).is_err() {
                return false;
            }
            at = at.saturating_add(1);
        }
        true
    }
}

/// Reads what the files of a volume have besides their bytes. Of an image that isn't opened, or a volume that isn't sound, nothing is said.
pub fn extras_of<D: SectorDisk>(alloc: Global, disk: &mut D) -> Result<Extras, Trouble> {
    let Ok(plan) = open_image(disk)? else {
        return Ok(BTreeMap::new(alloc));
    };
    let peek = Peek::new(alloc, disk, &plan)?;
    let mut source = Replayed(PeekView { peek: &peek, disk });
    match read_extras(alloc, &mut source) {
        Ok(extras) => Ok(extras),
        Err(AllocError) => Err(Trouble::Memory),
    }
}
