//! Why a struct is not laid out.

use std::alloc::{AllocError, AllocFailed};
use thiserror::Error;

/// Why a struct is not laid out.
#[derive(Clone, Copy, Debug, Error)]
pub enum LayoutFault {
    /// It has more than 65,536 bytes.
    #[error("a struct has more than 65,536 bytes")]
    TooLarge,
    /// There is no memory for its layout.
    #[error("out of memory")]
    NoMemory,
}

impl From<AllocError> for LayoutFault {
    ghost use Rattle.std.specs.Prelude.{◌≡◌};
    ghost use Rattle.ir_layouts.specs.declared.fault.LayoutFault.TheVariants.{NoMemory};

    ghost from_gives = { λ _ e. e ≡ NoMemory };

    fn from(_: AllocError) -> Self {
        LayoutFault::NoMemory
    }
}

impl<T: Drop> From<AllocFailed<T>> for LayoutFault {
    ghost use Rattle.std.specs.Prelude.{◌≡◌};
    ghost use Rattle.ir_layouts.specs.declared.fault.LayoutFault.TheVariants.{NoMemory};

    ghost from_gives = { λ _ e. e ≡ NoMemory };

    fn from(_: AllocFailed<T>) -> Self {
        LayoutFault::NoMemory
    }
}
