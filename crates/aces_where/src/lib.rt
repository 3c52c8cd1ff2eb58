//! The command `where`: the place in the source at which a run stands.
#![tactic(auto)]

mod all_lines;
mod frames;
pub mod locating;
mod meeting;
mod running;
mod telling;
mod values;

pub use all_lines::place_lines;
