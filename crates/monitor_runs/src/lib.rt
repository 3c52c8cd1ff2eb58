//! Laws of the runs of every sound image: who runs, where a thread goes on, and what stays in memory.
#![tactic(auto)]

pub mod moves;
pub mod refused;
pub mod stays;
