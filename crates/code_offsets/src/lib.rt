//! Where the code of a place stands in its function, told without any address.
#![tactic(auto)]

pub mod frame;
mod routines;
pub mod sizes;
pub mod walk;
