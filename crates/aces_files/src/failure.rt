//! Faults of files and refusals of planning as failures.

ghost use Rattle.std.specs.Prelude.{◌≡◌, ◌⊎◌};
ghost use Rattle.aces_reports.specs.declared.failure.Failure.TheVariants.{Denied, NoMemory};
ghost use Rattle.ir_model.specs.Plain.{firmware_of};
ghost use Rattle.plan_report.specs.Lines as denials;
ghost use Rattle.aces_files.specs.Contents.{IsContentFault};
ghost use Rattle.aces_files.specs.Loads.{IsContentFailure, IsPlanningFailure};

use aces_reports::{Failure, Fault};
use base_lists::ListVec;
use ir_model::firmware::Firmware;
use plan::PlanningRefusal;
use plan_denials::Meeting;
use plan_model::plan::Board;
use plan_report::meeting_text;
use std::alloc::Global;

/// A fault of a file's content as a failure: the refusal of the file, or want of memory where its reader met that.
pub fn content_failure(name: &str, fault: Fault) -> Failure<'_>
    ensures { IsContentFailure (IsContentFault fault) name.now result }
{
    if fault.is_want_of_memory() {
        Failure::NoMemory
    } else {
        Failure::Refused { name, fault }
    }
}

/// A refusal of a firmware for a board by planning as a failure; or want of memory to tell it.
pub fn planning_failure<'a>(
    alloc: Global,
    firmware: &Firmware,
    board: &Board,
    refusal: PlanningRefusal,
) -> Failure<'a>
    ensures { IsPlanningFailure (firmware_of firmware.now) board.now refusal result }
{
    match refusal {
        PlanningRefusal::NoMemory => Failure::NoMemory,
        PlanningRefusal::Limit { which, count } => Failure::PastLimit { which, count },
        PlanningRefusal::Denied(meeting) => denied_failure(alloc, firmware, board, meeting),
        PlanningRefusal::Room(lack) => Failure::NoRoom(lack),
    }
}

/// A range that is asked for and denied, as a failure.
fn denied_failure<'a>(
    alloc: Global,
    firmware: &Firmware,
    board: &Board,
    meeting: Meeting,
) -> Failure<'a>
    ensures { (result ≡ Denied (denials.meeting_text (firmware_of firmware.now) board.now meeting)) ⊎ (result ≡ NoMemory) }
{
    match meeting_text(alloc, firmware, board, meeting) {
        Ok(text) => Failure::Denied {
            text: ListVec::new(text),
        },
        Err(_) => Failure::NoMemory,
    }
}
