//! Firmwares with numbers for their names, as data: what runs, analysis and the making of code go over.
#![tactic(auto)]

pub mod locals;
pub mod peripherals;
pub mod program;
pub mod types;
pub mod value;
