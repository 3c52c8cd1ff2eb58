//! Links: makes the image of a firmware from its needs, its graph of compartments, its plan and a board.
#![tactic(auto)]

mod code;
mod flash;
mod linking;

pub use flash::put_bytes;
pub use linking::{LinkParts, link, link_parts};
