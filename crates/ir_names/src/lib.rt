//! Names in order, found by hashing, and the tables of the names of a firmware's parts.
#![tactic(auto)]

pub mod firmware_names;
mod table;

pub use table::Names;
