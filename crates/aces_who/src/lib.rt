//! The commands `who` and `help`.
#![tactic(auto)]

mod calls;
mod exposures;
pub mod helping;
pub mod laws;
mod listing;
mod objects;
pub mod owning;
mod reach;
mod ties;
