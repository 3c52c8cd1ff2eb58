//! The monitor as definitions: its tables, its block of RAM, what its handlers come to, and when an image is sound.
#![tactic(auto)]

pub mod places;
pub mod sound;
pub mod tables;

pub use sound::AuditCheck;
pub use tables::{CompRecord, InitRecord, SiteRecord, Tables, TargetRecord};
