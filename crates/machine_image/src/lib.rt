//! The image file, versions 1 and 2: an image's bytes, both ways.
#![tactic(auto)]

pub mod fault;
mod fields;
pub mod laws;
mod reader;
mod rules;
mod writer;

pub use reader::read;
pub use writer::write;
