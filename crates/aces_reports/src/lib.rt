//! How a command ends: what stopped it, the line that tells why, and the exit status.
#![tactic(auto)]

mod failure;
mod telling;
mod words_refusal;

pub use failure::{Done, Failure, Fault};
pub use telling::{compiled_word, limit_word, memory_word, report, say};
pub use words_refusal::{WordsRefusal, refuse_words};
