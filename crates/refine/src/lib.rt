//! Every image that is linked of a typed firmware refines it, where the monitor keeps its law.
#![tactic(auto)]

pub mod laws;
pub mod never_wrong;
pub mod overruns;
