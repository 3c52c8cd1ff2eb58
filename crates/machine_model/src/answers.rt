//! What the tests of accesses, the fetch of an instruction and an operation on registers answer.

use crate::state::StopReason;
use base_words::conditions::Flags;

/// What the tests of an access say.
#[derive(Clone, Copy)]
pub enum Verdict {
    /// It goes to the bus.
    ToBus,
    /// It goes to a system register.
    ToSystem,
    /// Protection refuses it: a MemManage fault.
    Refused,
    /// The machine stops.
    Bad(StopReason),
}

/// What the tests of several words say.
#[derive(Clone, Copy)]
pub enum Verdicts {
    /// All may be accessed.
    AllGood,
    /// Protection refuses this one first.
    RefusedAt(u32),
    /// The machine stops.
    BadOne(StopReason),
}

/// What the fetch of an instruction gives.
#[derive(Clone, Copy)]
pub enum Fetched {
    /// An instruction.
    Took {
        /// Its first halfword.
        first: u16,
        /// Its second halfword, or 0.
        second: u16,
        /// How many bytes it has: 2 or 4.
        size: u8,
    },
    /// Protection refuses one of them.
    NotAllowed,
    /// The bus maps none there.
    NotMapped,
}

/// What an instruction that computes in registers makes.
#[derive(Clone, Copy)]
pub enum Outcome {
    /// A value for the destination, and the flags.
    Gives { value: u32, flags: Flags },
    /// The flags alone.
    Tests { flags: Flags },
}
