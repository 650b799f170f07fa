//! A command on a volume in service, weighed and done.
#![tactic(auto)]

mod answering;
mod cutting;
mod filling;
mod growing;
mod judging;
mod linking;
mod making;
mod marking;
mod outcome;
mod owning;
mod removing;
mod resizing;
mod stepping;
mod tidying;

pub use judging::{Verdict, verdict_of};
pub use outcome::Outcome;
pub use stepping::step;
pub use tidying::tidy;
