//! Sets of objects for the nodes of a firmware, and the inclusion constraints that they obey, over numbers.
#![tactic(auto)]

mod carrying;
mod finish;
mod node;
mod numbering;
mod numbers;
mod pairs;
mod points_to;
mod rules;
mod shared_rows;
mod system;

pub use carrying::carries;
pub use node::Node;
pub use numbering::Numbering;
pub use numbers::number_program;
pub use pairs::Pairs;
pub use points_to::PointsTo;
pub use rules::{Edge, Pair, Rules, Trigger};
pub use shared_rows::SharedRows;
pub use system::System;
