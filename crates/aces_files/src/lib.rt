//! What a command of the program did and how it ends; loading and writing its files; the commands `run` and `bin`.
#![tactic(auto)]

pub mod bin;
pub mod failure;
pub mod loading;
pub mod run;
pub mod telling;
pub mod writing;
