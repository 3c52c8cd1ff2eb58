//! Firmwares with their images, for which what the linker promises is worked out. Each function is a law and does nothing. No
//! crate stands on this one.
#![tactic(auto)]

pub mod linked;
