//! Events: the accesses of peripherals that a run makes.
#![tactic(auto)]

pub mod event;
