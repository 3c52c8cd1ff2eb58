//! Examples of the monitor's definitions, computed. Each function is a law, whose clauses say what a definition gives at values
//! that were worked out by hand or by another model, and does nothing. Only examples stand on this one.
#![tactic(auto)]

pub mod handlers;
pub mod laws;
pub mod outcomes;
pub mod page;
pub mod steps;
pub mod tables;
