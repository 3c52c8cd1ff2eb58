//! The checks of structs, peripherals and files, and the tables of a firmware.
#![tactic(auto)]

pub mod declared;
pub mod files;
mod periphs;
mod structs;
mod tables;
