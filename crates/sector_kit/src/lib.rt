//! What tests build on that read and change sectors in memory: they tell contracts nothing of their bytes.
#![tactic(auto)]

mod sectors;

pub use sectors::Sectors;
