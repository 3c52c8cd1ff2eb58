//! What the checks of a firmware share: faults, the tables that names are looked up in, and what names and types stand for.
#![tactic(auto)]

mod check_place_ref;
mod fault;
pub mod found;
pub mod kinds;
pub mod lookup;
pub mod new_names;
mod scope;
pub mod sizes;
pub mod type_names;
pub mod values;

pub use check_place_ref::CheckPlaceRef;
pub use fault::CheckFault;
pub use scope::{FuncScope, Scope};
