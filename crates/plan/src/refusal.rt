//! Why a firmware is not planned for a board.

ghost use Rattle.std.specs.Prelude.{◌≡◌};
ghost use Rattle.plan.specs.Refusals.{of_place};

use plan_denials::Meeting;
use plan_layout::refusal::{Lack, PlaceRefusal};
use plan_model::limits::LimitKind;
use std::alloc::AllocError;

/// Why a firmware is not planned for a board: limits are tested first, then what the board denies, then flash, then RAM.
#[derive(Clone, Copy)]
pub enum PlanningRefusal {
    /// Memory ran out, or a number passes 32 bits, as none of a checked firmware does.
    NoMemory,
    /// A limit of what is compiled is passed.
    Limit {
        /// The first that is.
        which: LimitKind,
        /// The count that passes it.
        count: u32,
    },
    /// A range of addresses that the firmware asks for meets one that the board denies: the first that does.
    Denied(Meeting),
    /// The blocks of a memory have more bytes than it.
    Room(Lack),
}

impl From<AllocError> for PlanningRefusal {
    ghost use Rattle.std.specs.Prelude.{◌≡◌};
    ghost use Rattle.plan.specs.declared.refusal.PlanningRefusal.TheVariants.{NoMemory};

    ghost from_gives = { λ _ e. e ≡ NoMemory };

    fn from(_: AllocError) -> Self {
        PlanningRefusal::NoMemory
    }
}

/// The refusal of placement as one of planning.
pub(crate) fn refusal_of_place(refusal: PlaceRefusal) -> PlanningRefusal
    ensures { result ≡ of_place refusal }
{
    match refusal {
        PlaceRefusal::NoMemory => PlanningRefusal::NoMemory,
        PlaceRefusal::Room(lack) => PlanningRefusal::Room(lack),
    }
}
