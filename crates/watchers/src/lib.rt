//! Watchers, who are told of each change of the tree of names.
//!
//! Who serves a volume tells the changes of a batch after their commit. A watcher that has heard enough leaves. One that is about a single folder and
//! all below it stands behind `Under`, which passes on what lies there. The program has no watchers yet: who serves a volume by the library hands them in.
#![tactic(auto)]

mod folders;
mod telling;
mod under;
mod watcher;

pub use folders::FolderAt;
pub use telling::tell_all;
pub use under::{NoRoomFor, Under};
pub use watcher::{Keep, Watcher};

#[cfg(test)]
mod tests;
