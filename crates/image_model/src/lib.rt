//! Which image a firmware gets, as definitions, and laws of them.
#![tactic(auto)]

pub mod laws;
