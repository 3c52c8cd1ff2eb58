//! Plans a firmware for a board: the final graph of its compartments, how many bytes its code and tables have, and where all blocks lie.
#![tactic(auto)]

pub mod laws;
pub mod planner;
pub mod refusal;

pub use plan_layout::refusal::{Lack, Memory};
pub use planner::{PlannedFirmware, planned_firmware};
pub use refusal::PlanningRefusal;
