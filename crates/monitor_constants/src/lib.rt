//! What the monitor's lists take of the tables.
#![tactic(auto)]

mod constants;
mod sizes;

pub use constants::{number_of_slots, without_stub};
pub use sizes::{block_of, greatest_code, word_count};
