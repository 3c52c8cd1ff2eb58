//! The tables of small firmwares, computed. The values come from an independent model of the program.
#![tactic(auto)]

pub mod tables;
