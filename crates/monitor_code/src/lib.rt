//! The monitor's lists of steps and its page, made for tables.
#![tactic(auto)]

pub mod calls;
pub mod page;
