//! What the code of functions does where it stands in memory: one law a template.
#![tactic(auto)]

pub mod laws;
