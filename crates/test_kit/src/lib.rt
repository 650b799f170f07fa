//! What the tests and benchmarks of several crates build on: journals and volumes made by hand over a disk in memory,
//! and whole runs of the program.
#![tactic(auto)]

mod damage;
mod finding;
mod lists;
mod runs;
mod sectors;
mod volumes;

pub use damage::miscount;
pub use finding::{find_plan, find_plan_as};
pub use lists::{list_block, list_of, put_entry, sealed_header, sealed_list, with_number};
pub use runs::{
    filling, fresh, fresh_rig, lengthened, run_on, run_program, run_watched, stopped_rig, words,
};
pub use sectors::{has_written, put, sector_of, set_bytes};
pub use volumes::{BASE, INFO, header_block, info_block, volume_header};
