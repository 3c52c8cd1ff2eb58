//! The commands `check` and `source`: a firmware, read and checked, and run from its source.
#![tactic(auto)]

pub mod check;
pub mod reading;
pub mod source;
