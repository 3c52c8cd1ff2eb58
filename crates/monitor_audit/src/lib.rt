//! Checks images from anyone: yes exactly where an image is sound.
#![tactic(auto)]

pub mod answer;
mod auditing;
mod forms;
mod head;
mod header;
mod inits;
pub mod laws;
mod lends;
mod moved;
mod numbers;
mod page;
pub mod parts;
mod places;
mod ranges;
mod records;
mod regions;
mod sites;
mod tables;

pub use answer::{Audit, Audited, FailedCheck};
pub use auditing::{audit, audited_tables};
pub use header::header_fault;
pub use inits::inits_fault;
pub use lends::lends_fault;
pub use page::code_fault;
pub use regions::regions_fault;
pub use sites::sites_fault;
pub use tables::{Found, find_tables};
