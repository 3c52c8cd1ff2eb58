//! The analysis of a checked firmware, and its plan for a board: what its functions need, its compartments by a policy, and where its blocks
//! lie.
#![tactic(auto)]

mod analysis;
pub mod laws;
mod planning;

pub use analysis::Analysis;
pub use planning::{analyse, planned_by};
