//! A store: what was put and isn't committed, and where its journal lies.
ghost use Rattle.jnl_store.specs.InUse.{HasPlaces, IsInUse};

use crate::batch::Batch;
use crate::cache::Cache;
use jnl_replay::Plan;

/// The transactions of one volume. It holds what was put since the last commit, and says where the journal is.
#[derive(Drop)]
pub struct Store {
    pub(crate) plan: Plan,
    pub(crate) batch: Batch,
    /// Something was spilled since the last barrier.
    pub(crate) unsettled: bool,
    /// How many disk faults calls on this store and on its spaces have answered.
    pub(crate) faults: u64,
    /// Sectors of the content that were read or changed last.
    pub(crate) cache: Cache,
    ghost rest: { IsInUse plan },
    ghost places: { HasPlaces plan batch.live batch.most },
}

/// Why a transaction isn't known to be stable.
#[derive(Clone, Copy, Debug, PartialEq, Eq)]
pub enum StoreFault {
    Disk,
    /// An earlier call answered a disk fault. The number is how many calls did.
    Failed(u64),
}
