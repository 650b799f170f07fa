//! Files of a volume are listed, told, made below a folder of the system, or written as a tar archive, by a job that asks `ls`, `stat` and
//! `read` of a look at the volume and hears the replies.
#![tactic(auto)]

mod below;
mod entries;
mod file_out;
mod job;
mod link_out;
mod listing;
mod losses;
mod moment;
mod out;
mod output;
mod shown;
mod tape;
mod walk;
mod wish;

pub use out::Out;
pub use shown::{path_of, path_word};
pub use wish::Wish;

#[cfg(test)]
mod tests;
