//! A volume as its users see it: the plain tree and what commands do to it, over the commands and replies of the language; and
//! records and tree headers of a fresh volume.
#![tactic(auto)]

mod answering;
mod bytes;
mod changing;
mod copying;
mod deciding;
mod kinds;
mod ordering;
mod own_names;
mod plain;
mod records;
mod stepping;
mod trees;
mod walking;

pub use hfs_language::{
    Change, ChangeKind, Changes, Command, Facts, Gauge, ListedName, Listing, Path, Refusal, Reply,
    TreeGauge,
};
pub use kinds::{KindEdit, Sight};
pub use plain::{PlainAttribute, PlainEntry, PlainNode, PlainTree};
pub use records::{
    ascii, new_entry, new_folder, new_thread, no_fork, one_run, put_item, put_journal_threads,
};
pub use trees::{catalog_tree, empty_tree};
