//! What is promised of the monitor's lists and of sound images, as theorems.
#![tactic(auto)]

pub mod images;
pub mod regions;
pub mod start_up;
