//! Runs of a machine that pause at an event which a callback picks, and go on.
#![tactic(auto)]

pub mod callback;
pub mod laws;
pub mod session;
