//! The transactions of a journaled volume: what is put becomes durable all or nothing.
#![tactic(auto)]

mod appending;
mod batch;
mod bringing;
mod cache;
mod calls;
mod commit;
mod form;
mod header_sector;
mod homing;
mod law;
mod list_header;
mod lists;
mod live_table;
mod own;
mod put_table;
mod puts;
mod reading;
mod resting;
mod ring;
mod sector_index;
mod space;
mod space_calls;
mod store;

pub use form::capacity;
pub use law::crashes_leave_durable;
pub use puts::Put;
pub use space::Space;
pub use store::{Store, StoreFault};
