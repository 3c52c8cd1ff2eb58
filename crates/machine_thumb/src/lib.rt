//! The instructions of a subset of Thumb, and their halfwords.
#![tactic(auto)]

pub mod laws;
pub mod table;

pub use table::{Code, Instr};
