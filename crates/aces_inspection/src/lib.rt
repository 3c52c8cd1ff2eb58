//! The commands `watch` and `state`.
#![tactic(auto)]

mod all_lines;
mod blocks;
mod core_lines;
mod frames;
pub mod holding;
mod units;
pub mod watching;
mod words_put;

pub use all_lines::state_lines;
