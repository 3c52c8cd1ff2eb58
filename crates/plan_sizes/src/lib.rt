//! How many bytes the code of each compartment has, the globals of a region, and the vectors, the monitor and its tables.
#![tactic(auto)]

mod functions;
pub mod regions;
mod sizing;
mod tables;

pub use sizing::sizes;
