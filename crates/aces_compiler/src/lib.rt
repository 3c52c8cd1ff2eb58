//! Compiles: makes the image of a checked firmware for a board, its functions grouped by a callback or by a policy.
#![tactic(auto)]

mod compiling;
mod laws;
mod pipeline;
pub mod printed_runs;
mod replacing;

pub use compiling::compile;
pub use pipeline::{compile_by, compile_groups};
pub use plan::PlanningRefusal as CompileRefusal;
pub use replacing::{CodeRefusal, compile_with_code};
