//! Why code is not assembled.

ghost use Rattle.std.specs.Prelude.{◌≡◌};
ghost use Rattle.machine_thumb_asm.specs.declared.refusal.AsmRefusal.TheVariants.{NoMemory};

use std::alloc::AllocError;
use thiserror::Error;

/// Why code is not assembled.
#[derive(Clone, Copy, Debug, Error)]
pub enum AsmRefusal {
    /// Memory ran out.
    #[error("out of memory")]
    NoMemory,
    /// The first branch whose label is further away than its encoding reaches.
    #[error("branch from {from:#x} to {to:#x} is too far")]
    FarBranch {
        /// The address of the branch.
        from: u32,
        /// The address of its label.
        to: u32,
    },
}

impl From<AllocError> for AsmRefusal {
    ghost from_gives = { λ _ e. e ≡ NoMemory };

    fn from(_e: AllocError) -> AsmRefusal {
        AsmRefusal::NoMemory
    }
}
