//! The layouts of the structs of a firmware, made once in order, and what types measure by them.
#![tactic(auto)]

pub mod fault;
mod laying;
pub mod measure;
pub mod struct_layout;
pub mod table;
mod types;
