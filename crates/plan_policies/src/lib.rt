//! Policies: what they know of each function, the groups that they put functions into, and the compartments that these are.
#![tactic(auto)]

mod callers;
pub mod facts;
pub mod grouping;
mod numbering;
mod origins;
pub mod policies;
