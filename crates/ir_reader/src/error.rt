//! Why a text is not read.

ghost use Rattle.ir_reader.specs.declared.error.ReadError.TheVariants.{Memory};
ghost use Rattle.std.specs.Prelude.{◌≡◌};

use ir_model::token::Excess;
use std::alloc::{AllocError, AllocFailed};

/// What is wrong at a place.
#[derive(Clone, Copy)]
pub enum FaultKind {
    /// What stands there may not stand there.
    Syntax,
    /// It passes a limit or is too wide.
    Exceeds(Excess),
}

/// A fault, and how many bytes of the text begin with the token where it stands.
#[derive(Clone, Copy)]
pub struct Fault {
    /// What is wrong.
    pub kind: FaultKind,
    /// How many bytes are left from there on.
    pub left: usize,
}

/// Why a text is not read, with places as bytes that are left.
#[derive(Drop)]
pub enum ReadError {
    /// Memory ran out.
    Memory,
    /// The text is at fault.
    Fault(Fault),
}

impl From<AllocError> for ReadError {
    ghost from_gives = { λ _ e. e ≡ Memory };

    fn from(_e: AllocError) -> ReadError {
        ReadError::Memory
    }
}

impl<T: Drop> From<AllocFailed<T>> for ReadError {
    ghost from_gives = { λ _ e. e ≡ Memory };

    fn from(_e: AllocFailed<T>) -> ReadError {
        ReadError::Memory
    }
}
