//! What commands weigh on a volume in service.
#![tactic(auto)]

mod data_cost;
mod data_weight;
mod link_weight;
mod lose_weight;
mod move_weight;
mod remove_weight;
mod target_weight;
mod value_weight;
mod weighing;
mod weights;

pub use data_cost::weigh_put;
pub use target_weight::weigh_target;
pub use weighing::weigh_edits;
pub use weights::weigh;
