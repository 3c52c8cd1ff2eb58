//! The spelling of a firmware's text, once for what reads it and what prints it.
#![tactic(auto)]

pub mod vocabulary;
