//! Symbolic links and resource forks on a volume in service: what commands on them weigh, and their steps.
#![tactic(auto)]

mod cutting;
mod doing;
mod filling;
mod growing;
mod judging;
mod link_room;
mod putting;
mod resources;
mod stepping;
mod symlinks;
mod verdicts;
mod writing;

pub use judging::kind_weigh;
pub use stepping::kind_step;
