//! The place in a firmware's text of the item whose check fails.
#![tactic(auto)]

mod before;
mod declarations;
mod functions;
mod item;
pub mod laws;
mod naming;
mod place;
mod rows;
mod tokens;
mod types;

pub use place::item_place;
pub use tokens::token_place;
