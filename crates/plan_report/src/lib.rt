//! The text of a listing, and the lines that tell what a board denies.
#![tactic(auto)]

mod compartment;
mod denials;
pub mod exposure;
pub mod laws;
mod lent;
pub mod listing;
pub mod naming;
pub mod slots;
pub mod subject;
pub mod text;
mod totals;
pub mod undeclared;

pub use denials::meeting_text;
