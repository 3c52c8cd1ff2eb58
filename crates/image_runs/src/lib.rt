//! What holds in the runs of a planned firmware's image: what stays in memory and what its board denies, whatever code its compartments have.
#![tactic(auto)]

pub mod denied;
pub mod other_code;
pub mod replaced_code;
pub mod stays;
