//! The checks of globals and of their first values.
#![tactic(auto)]

pub mod globals;
