//! What instructions ask for.

use crate::outcome::FaultKind;
use base_lists::ListVec;
use ir_model::types::Ty;
use ir_program::value::{Address, Value};

/// What an instruction asks for.
#[derive(Drop)]
pub enum Act<'a> {
    /// To write a register.
    Sets {
        to: usize,
        value: Value,
    },
    /// To end in a fault.
    Fails(FaultKind),
    /// To load from an object.
    Loads {
        to: usize,
        from: Address,
        ty: Option<&'a Ty>,
    },
    /// To store into an object.
    Stores {
        to: Address,
        ty: Option<&'a Ty>,
        value: Value,
    },
    /// To enter a function.
    Enters {
        func: u16,
        args: ListVec<Value>,
    },
}
