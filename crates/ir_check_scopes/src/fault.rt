//! What a firmware is refused for.

use ir_model::check::{CheckKind, CheckPlace};
use std::alloc::{AllocError, AllocFailed};

/// Why a firmware is not checked.
#[derive(Debug, Drop, thiserror::Error)]
pub enum CheckFault {
    /// A check fails, the first in their order.
    #[error("{kind} in {place}")]
    At {
        /// What is wrong.
        kind: CheckKind,
        /// Where it is.
        place: CheckPlace,
    },
    /// Memory ran out.
    #[error("out of memory")]
    NoMemory,
}

impl From<AllocError> for CheckFault {
    ghost use Rattle.std.specs.Prelude.{◌≡◌};
    ghost use Rattle.ir_check_scopes.specs.declared.fault.CheckFault.TheVariants.{NoMemory};

    ghost from_gives = { λ _ e. e ≡ NoMemory };

    fn from(_: AllocError) -> Self {
        CheckFault::NoMemory
    }
}

impl<T: Drop> From<AllocFailed<T>> for CheckFault {
    ghost use Rattle.std.specs.Prelude.{◌≡◌};
    ghost use Rattle.ir_check_scopes.specs.declared.fault.CheckFault.TheVariants.{NoMemory};

    ghost from_gives = { λ _ e. e ≡ NoMemory };

    fn from(_: AllocFailed<T>) -> Self {
        CheckFault::NoMemory
    }
}
