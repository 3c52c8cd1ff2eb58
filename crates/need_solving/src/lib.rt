//! The search for the least pairs that obey a system of inclusion constraints.
#![tactic(auto)]

mod callees;
mod columns;
mod log;
mod search;
mod state;

pub use search::least_pairs;
