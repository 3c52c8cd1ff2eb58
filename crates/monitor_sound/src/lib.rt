//! What is promised of sound images, from the laws of handlers: confinement, the access law, and the law of the simulation.
#![tactic(auto)]

mod accesses;
pub mod calls;
pub mod promises;
