//! Which objects the values of a firmware can be of: the least sets of objects of a program.
#![tactic(auto)]

mod least_sets;

pub use least_sets::{solve, solve_counted};
