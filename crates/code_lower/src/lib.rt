//! The code of functions, put into an assembler.
#![tactic(auto)]

mod addresses;
mod calls;
mod comparisons;
mod entry;
mod frame;
mod function;
mod instructions;
mod numbers;
mod subject;
mod templates;

pub use function::lower;
