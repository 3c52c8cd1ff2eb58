//! Cases that are written in files: files in memory, calls of a program over them, and what each call is to leave.
#![tactic(auto)]

mod call;
mod case;
mod content;
mod files;
mod program;
mod running;
mod section;
mod tally;

pub use files::{bytes_of, patch, put, same};
pub use program::Program;
pub use section::Section;
pub use tally::run_files;
