//! Whether two types of the firmware language are equal, whether a type is an integer's, and whether a function's address is of a type.
#![tactic(auto)]

pub mod callee;
pub mod equal;
pub mod kinds;
