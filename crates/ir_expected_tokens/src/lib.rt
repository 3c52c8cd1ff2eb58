//! Which token stands at a syntax fault of a text, and which ones may stand there.
#![tactic(auto)]

mod grammar;
pub mod laws;
mod stack;
mod stuck;
mod telling;

pub use stuck::syntax_lines;
