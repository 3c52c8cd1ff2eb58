//! A device as data: its memories and peripherals' windows, recorded input, and the accesses that a run makes.
#![tactic(auto)]

pub mod image;
pub mod limits;
mod line;
pub mod tape;
