//! The text of what stands where in an image; the bytes of functions and globals stand where it tells.
#![tactic(auto)]

mod code_lines;
mod data_lines;
mod function_lines;
pub mod laws;
mod monitor_lines;
mod rising;
mod site_lines;
mod table_parts;
mod whole;

pub use whole::symbols;
