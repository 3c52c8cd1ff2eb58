//! What was found and expected where a check of a firmware fails, line by line.
#![tactic(auto)]

mod all_lines;
mod calls;
mod first_values;
mod functions;
mod instructions;
mod lookup;
mod peripherals;
mod wording;

pub use all_lines::check_lines;
