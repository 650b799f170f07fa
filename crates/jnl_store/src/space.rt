//! A store and its disk, as a space of sectors.
ghost use Rattle.std.specs.Prelude.{◌≡◌, IsTrue};
ghost use Rattle.jnl_store.specs.Store.{Keeps, faults_of};

use crate::store::Store;
use sector_disk::SectorDisk;

/// The content of a store over the disk for which it was made. Until a call answered a disk fault, the store keeps on
/// this disk what it has to keep.
#[derive(Drop)]
pub struct Space<'a, 'b, D: SectorDisk> {
    pub store: &'a mut Store,
    pub disk: &'b mut D,
    ghost kept: { faults_of store.now ≡ 0 → IsTrue (D.state disk.now).tells → Keeps store.now (D.state disk.now).sectors (D.state disk.now).candidates },
}
