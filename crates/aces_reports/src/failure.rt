//! How a command ends.

ghost use Rattle.std.specs.Prelude.{◌≡◌};
ghost use Rattle.aces_reports.specs.declared.failure.Failure.TheVariants.{NoMemory};
ghost use Rattle.aces_reports.specs.Faults as faults;

use base_lists::ListVec;
use ir_check_scopes::CheckFault;
use ir_reader::TextFault;
use machine_devices::tape::TapeFault;
use machine_image::fault::ImageFault;
use plan_board::fault::BoardFault;
use plan_layout::refusal::Lack;
use plan_model::limits::LimitKind;
use std::alloc::AllocError;

/// The end of a command that nothing stopped.
#[derive(Clone, Copy)]
pub enum Done {
    /// All was done: status 0.
    Completed,
    /// A run ended by a stop, or by a halt other than 0: status 7.
    RunFailed,
    /// What was asked is answered with a no: status 8.
    Negative,
    /// What is wrong with a file was printed, because it was asked for: status 1.
    FaultTold,
    /// What a board has no room for was printed, because it was asked for: status 3.
    NoRoomTold,
}

/// What is wrong with the content of a file: the fault that its reader told.
#[derive(Drop)]
pub enum Fault {
    /// It has more bytes than this limit.
    TooLarge { limit: u32 },
    /// It is no image.
    Image(ImageFault),
    /// It is no tape.
    Tape(TapeFault),
    /// It is no text of a firmware.
    Text(TextFault),
    /// It is the text of a firmware that a check refuses.
    Check(CheckFault),
    /// It describes no board.
    Board(BoardFault),
}

impl Fault {
    /// Whether its reader ran out of memory, so that it tells nothing of the content.
    pub fn is_want_of_memory(&self) -> bool
        ensures { result ≡ faults.is_want_of_memory self.now }
    {
        matches!(
            self,
            Fault::Image(ImageFault::NoMemory)
                | Fault::Tape(TapeFault::NoMemory)
                | Fault::Text(TextFault::NoMemory)
                | Fault::Check(CheckFault::NoMemory)
                | Fault::Board(BoardFault::NoMemory)
        )
    }
}

/// What stopped a command.
#[derive(Drop)]
pub enum Failure<'a> {
    /// The content of a file: status 1.
    Refused { name: &'a str, fault: Fault },
    /// A firmware has more of this than is compiled: status 1.
    PastLimit { which: LimitKind, count: u32 },
    /// A range of addresses that a firmware asks for meets one that the board denies, as this text tells: status 3.
    Denied { text: ListVec<u8> },
    /// The blocks of a firmware need more bytes than a memory of the board has: status 3.
    NoRoom(Lack),
    /// A file that was not read: status 4.
    Unread { name: &'a str },
    /// A file that was not written: status 5.
    Unwritten { name: &'a str },
    /// Output that was not written: status 5.
    Unprinted,
    /// Want of memory: status 6.
    NoMemory,
}

impl<'a> From<AllocError> for Failure<'a> {
    ghost from_gives = { λ _ failure. failure ≡ NoMemory };

    fn from(_error: AllocError) -> Failure<'a> {
        Failure::NoMemory
    }
}
