//! What analysis, policies, the graph of regions and placement exchange, with its definitions.
#![tactic(auto)]

mod denied_ranges;
pub mod graph;
pub mod groups;
pub mod limits;
pub mod needs;
pub mod plan;
mod policy;

pub use denied_ranges::{DENIED_LIMIT, DEVICE_END, Denied, FIRST_DEVICE, first_met};
pub use plan::Spot;
pub use policy::Policy;
