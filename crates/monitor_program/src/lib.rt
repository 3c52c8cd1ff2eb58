//! The monitor's program as definitions: the lists of start-up and of both handlers, and the page of code that they make.
#![tactic(auto)]

pub mod code_size;
