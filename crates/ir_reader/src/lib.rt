//! Firmwares from their texts.
#![tactic(auto)]

mod bindings;
mod declarations;
mod error;
mod fault;
mod functions;
mod instructions;
pub mod laws;
pub mod lexer;
mod limits;
pub mod position;
mod reader;
mod reserved;
mod terminals;
pub mod token;
mod types;

pub use fault::TextFault;
pub use reader::read;
