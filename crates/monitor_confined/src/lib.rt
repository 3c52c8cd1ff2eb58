//! Confinement of any code, as theorems over the definitions of the monitor.
#![tactic(auto)]

pub mod handlers;
pub mod protection;
pub mod runs;
pub mod threads;
