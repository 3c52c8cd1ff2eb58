//! Lists of numbers by the numbers of the lists, items in groups that are numbered through, and steps that are counted.
#![tactic(auto)]

mod bits;
mod groups;
mod numbers;
mod row;
mod rows;
mod run;
mod step_count;
mod stretch;

pub use groups::Groups;
pub use numbers::Numbers;
pub use rows::Rows;
pub use step_count::StepCount;
