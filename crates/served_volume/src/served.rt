//! A volume in service, with what its calls take memory of.
ghost use Rattle.std.proofs.Props.{props};
ghost use Rattle.served_volume.specs.Knowing.{IsOfSize, TakesItsBlocks};

use std::alloc::Global;
use volume_base::Volume;

/// A whole volume that is served.
#[derive(Drop)]
pub struct ServedVolume {
    pub(crate) volume: Volume,
    pub(crate) alloc: Global,
    /// How many sectors its space has.
    pub(crate) sectors: u64,
    // The volume is in service on each space of that size, whatever the space tells.
    ghost sized: { IsOfSize volume sectors } by { Prim.hlevel props },
    // So does a growth in hand take the blocks that it names.
    ghost filled: { TakesItsBlocks volume sectors } by { Prim.hlevel props },
}
