//! Laws of the code of functions: functions that do nothing, whose contract is the law.
#![tactic(auto)]

pub mod laws;
