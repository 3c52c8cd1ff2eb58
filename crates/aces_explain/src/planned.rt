//! `explain` with a board and a policy: why a firmware has no plan.

ghost use Rattle.std.specs.Prelude.{◌≡◌, ◌≤◌, Ok, length, IfOk, IfErr};
ghost use Rattle.ir_model.specs.Plain.{firmware_of};
ghost use Rattle.plan_model.specs.Boards.{IsBoard};
ghost use Rattle.plan_board.specs.Reading as boards;
ghost use Rattle.plan_firmwares.specs.Analysed.{IsAnalysisOf, IsRefusalOf};
ghost use Rattle.aces_words.specs.Requests.{ExplainPlan as ToExplain, firmware_limit};
ghost use Rattle.aces_reports.specs.declared.failure.Failure.TheVariants.{NoMemory as WantOfMemory};
ghost use Rattle.aces_reports.specs.Ends.{status_of};
ghost use Rattle.aces_reports.specs.Faults as faults;
ghost use Rattle.aces_reports.specs.declared.failure.Fault.TheVariants.{Board as OfBoard};
ghost use Rattle.base_outside.specs.Sinks.{sink};
ghost use Rattle.aces_files.specs.CarriesOut.{CarriesOut};
ghost use Rattle.aces_files.specs.Tellings.{told_outcome};
ghost use Rattle.aces_firmwares.specs.Firmwares.{IsFirmware};
ghost use Rattle.aces_explain.specs.Plans.{refusal_status, IsPlanTold, ExplainPlanAnswer, AnswerToExplainPlan};

use crate::board_telling::board_told;
use crate::plan_telling::refusal_told;
use crate::telling::{Explained, examine, line_of_counts};
use aces_files::loading::load_firmware_and;
use aces_files::telling::{CommandOutput, print};
use aces_reports::{Done, Failure};
use base_outside::{Files, Sink};
use ir_model::checked::Checked;
use plan::PlanningRefusal;
use plan_board::board::read_board;
use plan_board::fault::BoardFault;
use plan_firmwares::{Analysis, analyse, planned_by};
use plan_model::Policy;
use plan_model::plan::Board;
use std::alloc::{AllocError, Global};

/// How the command ends behind the lines of a refusal.
fn done_by(refusal: PlanningRefusal) -> Result<Done, AllocError>
    ensures { IfOk result (λ d. status_of (Ok d) ≡ refusal_status refusal) }
{
    match refusal {
        PlanningRefusal::NoMemory => Err(AllocError),
        PlanningRefusal::Limit { .. } => Ok(Done::FaultTold),
        PlanningRefusal::Denied(_) | PlanningRefusal::Room(_) => Ok(Done::NoRoomTold),
    }
}

/// The lines on why a firmware has no plan for a board.
fn refusal_output(
    alloc: Global,
    firmware: &Checked,
    analysis: Analysis<'_>,
    policy: Policy,
    board: &Board,
    refusal: PlanningRefusal,
) -> Result<CommandOutput, AllocError>
    requires analysis { IsAnalysisOf policy (firmware_of firmware.now) board.now.closed analysis }
    requires board { IsBoard board.now }
    requires refused { IsRefusalOf analysis board.now refusal }
    ensures { IfOk result (λ t. IsPlanTold policy (firmware_of firmware.now) board.now (status_of (Ok t.done)) t.lines.items) }
{
    let done = done_by(refusal)?;
    let (program, needs, groups) = analysis.into_parts();
    let lines = refusal_told(
        alloc,
        firmware.firmware(),
        &program,
        &needs,
        groups,
        board,
        refusal,
    )?;
    Ok(CommandOutput { lines, done })
}

/// The lines on a firmware and a board: why there is no plan by a policy, or the counts of the firmware.
fn on_board(
    alloc: Global,
    firmware: &Checked,
    policy: Policy,
    board: &Board,
) -> Result<CommandOutput, AllocError>
    requires { IsBoard board.now }
    ensures { IfOk result (λ t. IsPlanTold policy (firmware_of firmware.now) board.now (status_of (Ok t.done)) t.lines.items) }
{
    firmware.firmware();
    let analysis = analyse(alloc, firmware, policy, board.closed)?;
    match planned_by(alloc, &analysis, board) {
        Ok(_) => Ok(CommandOutput {
            lines: line_of_counts(alloc, firmware)?,
            done: Done::Completed,
        }),
        Err(refusal) => refusal_output(alloc, firmware, analysis, policy, board, refusal),
    }
}

/// Whether a fault of a board is want of memory.
fn is_want_of_memory(fault: &BoardFault) -> bool
    ensures { result ≡ faults.is_want_of_memory (OfBoard fault.now) }
{
    matches!(fault, BoardFault::NoMemory)
}

/// The lines on a text that is no board's.
fn no_board(
    alloc: Global,
    firmware: &str,
    checked: &Checked,
    bytes: &[u8],
    board: &str,
    text: &[u8],
    policy: Policy,
    fault: &BoardFault,
) -> Result<CommandOutput, AllocError>
    requires firmware { IsFirmware (firmware_of checked.now) bytes.now }
    requires fault { boards.IsFault text.now fault.now }
    ensures { IfOk result (λ t. ExplainPlanAnswer firmware.now board.now policy bytes.now text.now (told_outcome t)) }
{
    if is_want_of_memory(fault) {
        return Err(AllocError);
    }
    Ok(CommandOutput {
        lines: board_told(alloc, board.as_bytes(), text, fault)?,
        done: Done::FaultTold,
    })
}

/// The lines on a firmware without a fault and the bytes of a board's file.
fn on_text(
    alloc: Global,
    firmware: &str,
    checked: &Checked,
    bytes: &[u8],
    board: &str,
    text: &[u8],
    policy: Policy,
) -> Result<CommandOutput, AllocError>
    requires { IsFirmware (firmware_of checked.now) bytes.now }
    ensures { IfOk result (λ t. ExplainPlanAnswer firmware.now board.now policy bytes.now text.now (told_outcome t)) }
{
    match read_board(alloc, text) {
        Ok(read) => {
            let told = on_board(alloc, checked, policy, &read)?;
            Ok(told)
        }
        Err(fault) => no_board(alloc, firmware, checked, bytes, board, text, policy, &fault),
    }
}

/// The lines by the bytes of both files, each behind its name.
fn on_both(
    alloc: Global,
    firmware: &str,
    bytes: &[u8],
    board: &str,
    text: &[u8],
    policy: Policy,
) -> Result<CommandOutput, AllocError>
    requires { length bytes.now ≤ firmware_limit }
    ensures { IfOk result (λ t. ExplainPlanAnswer firmware.now board.now policy bytes.now text.now (told_outcome t)) }
{
    match examine(alloc, firmware, bytes)? {
        Explained::Faulty(lines) => Ok(CommandOutput {
            lines,
            done: Done::FaultTold,
        }),
        Explained::Fine(checked) => on_text(alloc, firmware, &checked, bytes, board, text, policy),
    }
}

/// The same lines, with want of memory as a failure.
fn lines_on<'a>(
    alloc: Global,
    firmware: &'a str,
    bytes: &[u8],
    board: &'a str,
    text: &[u8],
    policy: Policy,
) -> Result<CommandOutput, Failure<'a>>
    requires { length bytes.now ≤ firmware_limit }
    ensures ok { IfOk result (λ t. ExplainPlanAnswer firmware.now board.now policy bytes.now text.now (told_outcome t)) }
    ensures err { IfErr result (λ e. e ≡ WantOfMemory) }
{
    let told = on_both(alloc, firmware, bytes, board, text, policy)?;
    Ok(told)
}

/// Reads a firmware and a board, and prints the first fault of either, or why the firmware has no plan for the board by a policy, or the line of
/// counts.
pub fn explain_plan<'a, F: Files, O: Sink>(
    alloc: Global,
    firmware: &'a str,
    board: &'a str,
    policy: Policy,
    files: &mut F,
    out: &mut O,
) -> Result<Done, Failure<'a>>
    ensures { CarriesOut (AnswerToExplainPlan firmware.now board.now policy) F.Files files.old files.new (ToExplain firmware.now board.now policy) (sink O.Sink out.old) (sink O.Sink out.new) result }
{
    let both = load_firmware_and(alloc, files, firmware, board)?;
    let told = lines_on(
        alloc,
        firmware,
        both.first.as_slice(),
        board,
        both.second.as_slice(),
        policy,
    )?;
    print(told.lines.as_slice(), told.done, out)
}
