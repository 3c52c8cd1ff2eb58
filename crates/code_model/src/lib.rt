//! The code of functions, as definitions: of each instruction, of a whole function, and of a compartment, with laws of them.
#![tactic(auto)]

pub mod frame_laws;
pub mod laws;
pub mod places;

pub use places::{Addresses, CallSite, Places};
