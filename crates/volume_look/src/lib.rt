//! A look at a volume: commands that only read are answered from what an image stands for, and nothing is written.
#![tactic(auto)]

mod allowing;
mod answering;
mod asker;
mod looking;
mod read_only;
mod reading;
mod slots;

pub use asker::Asker;
pub use looking::{look_into, look_through};
