//! The checks of a firmware: its names, types and sizes, in order.
#![tactic(auto)]

mod whole_check;

pub use ir_check_scopes::CheckFault;
pub use whole_check::check;
