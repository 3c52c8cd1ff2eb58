//! Examples of the definitions of analysis, policies, graph and placement, computed. Each function is a law, whose clauses
//! say what a definition gives at values that were worked out by hand, and does nothing. Only examples stand on this one.
#![tactic(auto)]

pub mod analysis;
pub mod graphs;
pub mod placements;
pub mod stack;
