//! Boards, from the texts that describe them.
#![tactic(auto)]

pub mod board;
mod denied;
mod document;
mod extra;
pub mod fault;
mod fields;
pub mod key;
pub mod laws;

pub use board::read_board;
