//! Lists of exactly what has a property, each once and in rising order.
#![tactic(auto)]

mod unique;

pub use unique::each_once;
