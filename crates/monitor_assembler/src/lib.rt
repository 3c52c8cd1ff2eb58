//! The assembler of privileged steps.
#![tactic(auto)]

mod assembling;
mod lengths;
mod pieces;

pub use assembling::assemble;
pub use lengths::length_of;
