//! Where globals lie, the regions of each compartment's blocks, and the words that start-up fills them with.
#![tactic(auto)]

pub mod fill;
pub mod places;
pub mod slots;
