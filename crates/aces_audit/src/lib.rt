//! The commands `audit` and `tables`, and what a yes tells of an image.
#![tactic(auto)]

mod all_lines;
mod answer_text;
mod asking;
pub mod auditing;
mod compartments;
pub mod laws;
mod records;
mod slots;
pub mod table_laws;
pub mod telling;

pub use all_lines::table_lines;
