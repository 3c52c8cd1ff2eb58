//! What both handlers leave, as theorems over the definitions of the monitor.
#![tactic(auto)]

pub mod faults;
pub mod modes;
pub mod svc;
