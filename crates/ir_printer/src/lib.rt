//! The canonical text of a firmware.
#![tactic(auto)]

mod declarations;
mod functions;
mod insts;
pub mod print;
pub mod tokens;
pub mod types;
