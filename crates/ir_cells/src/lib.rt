//! The cells of types by the layouts of a firmware's structs, found without a list of them.
#![tactic(auto)]

mod halving;
mod number;
mod row;
mod spot;

pub use number::cell_number;
pub use row::put_cell_types;
pub use spot::{CellSpot, cell};
