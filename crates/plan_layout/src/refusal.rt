//! Why blocks are not placed.

use std::alloc::AllocError;

/// A memory of a board.
#[derive(Clone, Copy)]
pub enum Memory {
    Flash,
    Ram,
}

/// Want of room: a memory of the board has fewer bytes than the blocks ask for.
#[derive(Clone, Copy)]
pub struct Lack {
    /// The memory.
    pub memory: Memory,
    /// In flash the first compartment with the largest code block; in RAM the lowest user of the first data region with the
    /// largest block.
    pub compartment: Option<u32>,
    /// The bytes of the blocks, in RAM of those outside tails.
    pub needed: u64,
    /// The bytes of the memory.
    pub available: u64,
}

/// Why blocks are not placed: those of flash are tested first.
#[derive(Clone, Copy)]
pub enum PlaceRefusal {
    /// Memory ran out, or a region has more bytes than 32 bits tell, which no checked firmware has.
    NoMemory,
    /// The blocks of a memory have more bytes than it.
    Room(Lack),
}

impl From<AllocError> for PlaceRefusal {
    ghost use Rattle.std.specs.Prelude.{◌≡◌};
    ghost use Rattle.plan_layout.specs.declared.refusal.PlaceRefusal.TheVariants.{NoMemory};

    ghost from_gives = { λ _ e. e ≡ NoMemory };

    fn from(_: AllocError) -> Self {
        PlaceRefusal::NoMemory
    }
}
