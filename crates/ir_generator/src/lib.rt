//! A firmware for each seed and size, by draws; each passes the checks.
#![tactic(auto)]

mod checked_firmwares;
mod choices;
mod draws;
mod functions;
mod make;
mod naming;
mod parts;
pub mod tape;

pub use checked_firmwares::checked_firmware;
