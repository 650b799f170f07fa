//! A journal checked, replayed, and looked through.
#![tactic(auto)]

mod adopting;
mod blocks;
mod buffered;
mod buffering;
mod checking;
mod emptying;
mod finding;
mod homes;
mod homing;
mod index;
mod lists;
mod merging;
mod peek;
mod plan;
mod repeating;
mod replaying;
mod run_index;
mod runs;
mod text;
mod view;
mod volume;

pub use adopting::{adopt, plain_size};
pub use checking::{validate, validate_as};
pub use emptying::empty_journal;
pub use finding::{VolumeRefusal, find_place, find_volume_header, place_of};
pub use homing::write_homes;
pub use index::Peek;
pub use plan::{Place, Plan, ReplayFault};
pub use replaying::{replay, replay_as};
pub use run_index::RunIndex;
pub use runs::Run;
pub use text::{Text, text_of};
pub use view::PeekView;
pub use volume::HEADER_SECTOR;
