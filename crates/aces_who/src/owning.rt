//! `who`: which compartments may write, read and use what, and which need it.

ghost use Rattle.std.specs.Prelude.{◌≡◌, ◌≤◌, None, IfOk, IfErr, length};
ghost use Rattle.aces_words.specs.Requests.{Who as ToWho, firmware_limit};
ghost use Rattle.base_outside.specs.Sinks.{sink};
ghost use Rattle.aces_files.specs.CarriesOut.{CarriesOut};
ghost use Rattle.aces_files.specs.Loads.{IsRefusal};
ghost use Rattle.aces_files.specs.Outcomes.{done};
ghost use Rattle.plan_firmwares.specs.Analysed.{IsAnalysisOf};
ghost use Rattle.plan_firmwares.specs.Unplanned.{IsUnplanned};
ghost use Rattle.ir_model.specs.Plain.{firmware_of as plain_of};
ghost use Rattle.ir_model.specs.Resolve.{resolve};
ghost use Rattle.ir_program.specs.Seen.{program_of};
ghost use Rattle.plan_model.specs.Boards.{IsBoard};
ghost use Rattle.aces_who.specs.Answers.{WhoAnswer, AnswerToWho};
ghost use Rattle.aces_who.specs.Owners.{AreOwners, owners_for};

use crate::laws::exposures_are_exact;
use crate::listing::who_lines;
use aces_files::failure::planning_failure;
use aces_files::loading::{board_of, load_firmware_and};
use aces_files::telling::print;
use aces_firmwares::reading::firmware_of;
use aces_reports::{Done, Failure};
use base_outside::{Files, Sink};
use ir_model::checked::Checked;
use plan::{PlannedFirmware, PlanningRefusal};
use plan_firmwares::{Analysis, analyse, planned_by};
use plan_model::Policy;
use plan_model::plan::Board;
use plan_report::subject::Subject;
use std::alloc::{AllocError, Global};

/// The lines of a firmware that is planned for a board.
fn lines_of(
    alloc: Global,
    firmware: &Checked,
    analysis: &Analysis,
    made: &PlannedFirmware,
    policy: Policy,
    board: &Board,
) -> Result<Vec<u8>, AllocError>
    requires program { program_of analysis.now.program ≡ resolve (plain_of firmware.now) }
    requires each { length made.now.graph.groups.of ≡ length analysis.now.needs.funcs }
    ensures { IfOk result (λ lines. lines.items ≡ owners_for policy (plain_of firmware.now) analysis.now.needs made.now board.now) }
{
    let subject = Subject {
        firmware: firmware.firmware(),
        program: &analysis.program,
        needs: &analysis.needs,
        graph: &made.graph,
        plan: &made.plan,
        board,
    };
    who_lines(alloc, &subject, policy)
}

/// What `who` prints of a firmware on a board, in the compartments of a policy.
///
/// # Errors
///
/// There is no memory, a limit of what is compiled is passed, an address that the firmware asks for is one that the board denies, or the
/// blocks have more bytes than a memory of the board.
pub fn owners_of(
    alloc: Global,
    firmware: &Checked,
    board: &Board,
    policy: Policy,
) -> Result<Vec<u8>, PlanningRefusal>
    requires { IsBoard board.now }
    ensures ok { IfOk result (λ lines. AreOwners policy (plain_of firmware.now) board.now lines.items) }
    ensures refused { IfErr result (IsUnplanned policy (plain_of firmware.now) board.now) }
{
    let analysis = analyse(alloc, firmware, policy, board.closed)?;
    owners_by(alloc, firmware, &analysis, board, policy)
}

/// The same of a firmware that is analysed.
fn owners_by(
    alloc: Global,
    firmware: &Checked,
    analysis: &Analysis,
    board: &Board,
    policy: Policy,
) -> Result<Vec<u8>, PlanningRefusal>
    requires board { IsBoard board.now }
    requires analysis { IsAnalysisOf policy (plain_of firmware.now) board.now.closed analysis.now }
    ensures ok { IfOk result (λ lines. AreOwners policy (plain_of firmware.now) board.now lines.items) }
    ensures refused { IfErr result (IsUnplanned policy (plain_of firmware.now) board.now) }
{
    firmware.firmware();
    exposures_are_exact();
    let made = planned_by(alloc, analysis, board)?;
    let lines = lines_of(alloc, firmware, analysis, &made, policy, board)?;
    Ok(lines)
}

/// Prints which compartments of a firmware may write, read and use what on a board, and which need it.
pub fn print_owners<'a, F: Files, O: Sink>(
    alloc: Global,
    firmware: &'a str,
    board: &'a str,
    policy: Policy,
    files: &mut F,
    out: &mut O,
) -> Result<Done, Failure<'a>>
    ensures { CarriesOut (AnswerToWho firmware.now board.now policy) F.Files files.old files.new (ToWho firmware.now board.now policy) (sink O.Sink out.old) (sink O.Sink out.new) result }
{
    let both = load_firmware_and(alloc, files, firmware, board)?;
    let lines = owners_by_bytes(
        alloc,
        firmware,
        both.first.as_slice(),
        board,
        both.second.as_slice(),
        policy,
    )?;
    print(lines.as_slice(), Done::Completed, out)
}

/// The lines by the bytes of both files, each behind its name. No file is touched.
fn owners_by_bytes<'a>(
    alloc: Global,
    firmware: &'a str,
    bytes: &[u8],
    board: &'a str,
    text: &[u8],
    policy: Policy,
) -> Result<Vec<u8>, Failure<'a>>
    requires { length bytes.now ≤ firmware_limit }
    ensures ok { IfOk result (λ lines. WhoAnswer firmware.now board.now policy bytes.now text.now (done 0 lines.items None)) }
    ensures err { IfErr result (IsRefusal (WhoAnswer firmware.now board.now policy bytes.now text.now)) }
{
    let checked = firmware_of(alloc, firmware, bytes)?;
    let read = board_of(alloc, board, text)?;
    match owners_of(alloc, &checked, &read, policy) {
        Ok(lines) => Ok(lines),
        Err(refusal) => Err(planning_failure(alloc, checked.firmware(), &read, refusal)),
    }
}
