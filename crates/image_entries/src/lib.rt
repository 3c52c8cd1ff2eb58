//! Where functions begin, what their code needs from outside, and the records of the calls between compartments.
#![tactic(auto)]

pub mod entries;
pub mod making;
pub mod needed;
pub mod numbers;
pub mod records;
pub mod walks;
