//! Commands on a firmware and a board.
#![tactic(auto)]

pub mod list;
mod listings;
pub mod stack;
mod symbol_lines;
pub mod symbolizing;
