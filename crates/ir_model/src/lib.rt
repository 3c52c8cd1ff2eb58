//! The firmware language: its parts as types, and its definitions.
#![tactic(auto)]

pub mod check;
pub mod checked;
pub mod extent;
pub mod firmware;
pub mod object;
pub mod rounding;
pub mod text_limits;
pub mod token;
pub mod types;
