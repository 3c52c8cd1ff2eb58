//! The image of a planned firmware: sound, confined, linked, refining its firmware, and permitting no more than what functions need.
#![tactic(auto)]

pub mod audits;
pub mod code;
mod flash;
mod globals;
pub mod guards;
pub mod images;
mod initial;
pub mod needed;
pub mod permissions;
pub mod promises;
pub mod regions;
mod sites;
mod tables;
