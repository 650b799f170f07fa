//! Files of the system are put into a volume: a folder, or the entries of an archive.
#![tactic(auto)]

mod archive_in;
mod asking;
mod dates;
mod ends;
mod entry;
mod folder;
mod gathered;
mod gathering;
mod ground;
mod hearing;
mod listing;
mod marks;
mod measure;
mod members;
mod members_in;
mod putting;
mod reading;
mod staging;
mod walking;

pub use archive_in::ArchiveIn;
pub use dates::Dates;
pub use folder::FolderIn;
pub use gathered::Identity;
pub use ground::Wishes;
pub use listing::identity_of;
pub use measure::sectors_for;
