//! Where the blocks of an image lie on a board.
#![tactic(auto)]

mod blocks;
mod filled;
pub mod flash;
mod numbers;
pub mod place;
pub mod ram;
pub mod refusal;
