//! Examples of definitions, computed. Each function is a law, whose clauses say what a definition gives at values that
//! were worked out by hand, and does nothing. No crate stands on this one.
#![tactic(auto)]

pub mod firmwares;
pub mod machine;
