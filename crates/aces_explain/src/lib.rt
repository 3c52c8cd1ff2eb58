//! The command `explain`: why a firmware or a board is refused, or has no plan, with the line of the text and the rule.
#![tactic(auto)]

mod board_rules;
mod board_telling;
mod details;
mod excerpt;
mod expected;
pub mod explaining;
mod explanations;
mod fault_rules;
mod fault_texts;
mod flash;
mod key_lines;
pub mod laws;
mod plan_rules;
mod plan_telling;
pub mod planned;
mod ram;
mod room_lines;
mod telling;

pub use board_telling::board_told;
pub use plan_telling::refusal_told;
