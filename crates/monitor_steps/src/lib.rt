//! A small language of privileged steps, of which the monitor's handlers are written.
#![tactic(auto)]

pub mod laws;
pub mod steps;

pub use steps::{PrivilegedCond, PrivilegedOp, PrivilegedStep};
