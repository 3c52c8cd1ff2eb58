//! Code of functions, computed from the definitions. Each function is a law, whose clauses say what a definition gives at
//! values that were worked out by hand, and does nothing. Only examples stand on this one.
#![tactic(auto)]

pub mod functions;
pub mod templates;
