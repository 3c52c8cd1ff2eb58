//! Firmwares with numbers for their names.
#![tactic(auto)]

mod lookup;
mod names;
mod operations;
pub mod resolving;
mod routines;
mod scope;
mod storage;
mod variables;
