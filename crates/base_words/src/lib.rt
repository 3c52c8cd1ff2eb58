//! The base of the whole: numbers in a memory of bytes, 32-bit arithmetic with its flags and
//! conditions, and runs of a step function.
#![tactic(auto)]

pub mod conditions;
pub mod laws;
pub mod memory;
pub mod operations;
