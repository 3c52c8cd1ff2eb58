//! The command `selftest`: a generated firmware, compiled and run beside its source.
#![tactic(auto)]

mod board;
pub mod laws;
mod machines;
pub mod printing;
mod runs;
mod selftesting;
mod sources;
mod tables;
mod telling;
mod testing;
