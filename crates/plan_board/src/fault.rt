//! Why a text is no board.

use crate::document::KeyFault;
use crate::key::Key;
use base_lists::ListVec;
use std::alloc::AllocError;

/// Why a text is no board: the first test that fails.
#[derive(Drop)]
pub enum BoardFault {
    /// Memory ran out.
    NoMemory,
    /// It is no TOML document.
    NotToml,
    /// A table or key is not there.
    Missing(Key),
    /// It is no table, no integer or no text.
    Kind(Key),
    /// It has another value than it may have.
    Range(Key),
    /// What is denied is no array of two integers; its key is printed behind `deny` and a point.
    DeniedKind(ListVec<u8>),
    /// What is denied has no byte, or one that is no device's; its key is printed behind `deny` and a point.
    DeniedRange(ListVec<u8>),
    /// A further key is there, printed behind its table and a point where it stands in one.
    Extra(ListVec<u8>),
}

impl From<KeyFault> for BoardFault {
    ghost use Rattle.std.specs.Prelude.{◌≡◌};
    ghost use Rattle.plan_board.specs.Reading.{board_fault};

    ghost from_gives = { λ fault e. e ≡ board_fault fault };

    fn from(fault: KeyFault) -> Self {
        match fault {
            KeyFault::Missing(key) => BoardFault::Missing(key),
            KeyFault::Kind(key) => BoardFault::Kind(key),
            KeyFault::Range(key) => BoardFault::Range(key),
        }
    }
}

impl From<AllocError> for BoardFault {
    ghost use Rattle.std.specs.Prelude.{◌≡◌};
    ghost use Rattle.plan_board.specs.declared.fault.BoardFault.TheVariants.{NoMemory};

    ghost from_gives = { λ _ e. e ≡ NoMemory };

    fn from(_: AllocError) -> Self {
        BoardFault::NoMemory
    }
}
