//! Records and keys of the catalog, attributes and extents trees.
#![tactic(auto)]

mod attribute;
mod catalog;
mod entry;
mod fault;
mod key;
mod laws;
mod record;
#[cfg(test)]
mod tests;
mod thread;
mod units;

pub use attribute::{AttrRecord, read_attr, write_attr};
pub use catalog::{read_catalog, write_catalog};
pub use fault::RecordFault;
pub use key::{attr_key, catalog_key, extent_key};
pub use laws::{attr_round_trip, catalog_round_trip};
pub use record::{CatRecord, EntryFields, FileRecord, FolderRecord, ThreadRecord};
