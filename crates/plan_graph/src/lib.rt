//! The graph of compartments: which of them reach which globals and peripherals.
#![tactic(auto)]

mod choices;
mod covers;
mod flags;
pub mod initial;
mod joined;
mod known;
pub mod laws;
mod masks;
pub mod merge;
mod merging;
mod reach;
mod regions;
mod users;

pub use reach::{reaches, reads, uses, writes};
