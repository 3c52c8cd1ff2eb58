//! The command `why`: what each access and call of a firmware may reach.
#![tactic(auto)]

mod calls;
pub mod commanding;
mod finding;
mod places;
mod rows;
mod search;
mod shared;
mod subject;
mod telling;
mod uses;
mod warnings;

pub use search::reached_flags;
