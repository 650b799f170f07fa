//! What the repair of a volume is: the same volume with all that is counted counted anew. Definitions stand in `specs/`; the functions are laws.
#![tactic(auto)]

mod laws;
mod laws_remount;
mod laws_repair;
mod laws_whole;

pub use laws::{keys_stay, once_is_enough, sound_stays_as_it_is, values_stay};
pub use laws_remount::{repair_is_renewed, repair_stays_remounted};
pub use laws_repair::{
    bytes_are_bits, leaf_stays, repair_is_one, repair_keeps_size, sound_is_mendable,
    sound_is_own_repair, sound_keeps_header,
};
pub use laws_whole::{repair_counts, repair_keeps_forks, repair_keeps_trees};
