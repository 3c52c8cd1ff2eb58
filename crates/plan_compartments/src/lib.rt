//! What the functions of a firmware need, and its compartments by a policy.
#![tactic(auto)]

pub mod analysis;
pub mod division;
pub mod laws;
