//! `setattr` and `delattr`: values of attributes on a volume in service, in records or in blocks.
#![tactic(auto)]

mod attribute_change;
mod attribute_removal;
mod attributing;
mod marking;
mod valuing;

pub use attribute_change::setattr;
pub use attribute_removal::delattr;
