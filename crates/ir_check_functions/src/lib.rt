//! The checks of functions: parameters, result, locals, registers and frame, and their code.
#![tactic(auto)]

mod bindings;
mod calls;
mod code;
mod fits;
mod frame;
mod func_tables;
pub mod funcs;
mod labels;
mod locals;
pub mod main_function;
mod register_names;
mod registers;

pub use fits::{inst_fits, term_fits};
