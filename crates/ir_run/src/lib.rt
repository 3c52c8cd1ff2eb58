//! Runs of the source of a firmware, step by step.
#![tactic(auto)]

mod accesses;
mod act;
mod arithmetic;
mod below;
mod calls;
mod contents;
mod entering;
mod frame;
mod local;
mod locals;
pub mod outcome;
mod parts;
pub mod place;
pub mod places;
mod ports;
pub mod reads;
mod registers;
mod request;
pub mod run;
mod search;
mod sizes;
mod starting;
mod turn;
mod typed_cells;
