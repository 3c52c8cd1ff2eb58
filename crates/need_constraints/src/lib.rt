//! The inclusion constraints that a program asks for, gathered from its instructions, block ends and initial values.
#![tactic(auto)]

mod gather;
mod generator;
mod instructions;
mod whole;

pub use whole::generate;
