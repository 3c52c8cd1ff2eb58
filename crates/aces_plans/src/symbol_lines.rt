//! The symbols of a firmware on a board by a policy.

ghost use Rattle.std.specs.Prelude.{◌≡◌, IfOk, IfErr, length};
ghost use Rattle.ir_model.specs.Plain.{firmware_of};
ghost use Rattle.ir_model.specs.Resolve.{resolve};
ghost use Rattle.ir_program.specs.Seen.{program_of};
ghost use Rattle.plan_model.specs.Boards.{IsBoard};
ghost use Rattle.plan_firmwares.specs.Analysed.{IsAnalysisOf};
ghost use Rattle.plan_firmwares.specs.Unplanned.{IsUnplanned};
ghost use Rattle.aces_plans.specs.FirmwareSymbols.{AreSymbols, symbols_for};

use image_symbols::symbols;
use ir_model::checked::Checked;
use plan::{PlannedFirmware, PlanningRefusal};
use plan_firmwares::{Analysis, analyse, planned_by};
use plan_model::Policy;
use plan_model::plan::Board;
use plan_report::subject::Subject;
use std::alloc::{AllocError, Global};

/// The symbols of a firmware that is planned for a board.
fn symbols_of_plan(
    alloc: Global,
    firmware: &Checked,
    analysis: &Analysis,
    made: &PlannedFirmware,
    board: &Board,
) -> Result<Vec<u8>, AllocError>
    requires program { program_of analysis.now.program ≡ resolve (firmware_of firmware.now) }
    requires each { length made.now.graph.groups.of ≡ length analysis.now.needs.funcs }
    ensures { IfOk result (λ lines. lines.items ≡ symbols_for (firmware_of firmware.now) analysis.now.needs made.now board.now) }
{
    let subject = Subject {
        firmware: firmware.firmware(),
        program: &analysis.program,
        needs: &analysis.needs,
        graph: &made.graph,
        plan: &made.plan,
        board,
    };
    symbols(alloc, &subject)
}

/// What is where in the image of a firmware on a board, in the compartments of a policy.
///
/// # Errors
///
/// There is no memory, a limit of what is compiled is passed, an address that the firmware asks for is one that the board denies, or the
/// blocks have more bytes than a memory of the board.
pub fn symbols_of(
    alloc: Global,
    firmware: &Checked,
    board: &Board,
    policy: Policy,
) -> Result<Vec<u8>, PlanningRefusal>
    requires { IsBoard board.now }
    ensures ok { IfOk result (λ lines. AreSymbols policy (firmware_of firmware.now) board.now lines.items) }
    ensures refused { IfErr result (IsUnplanned policy (firmware_of firmware.now) board.now) }
{
    let analysis = analyse(alloc, firmware, policy, board.closed)?;
    symbols_by(alloc, firmware, &analysis, board, policy)
}

/// The same of a firmware that is analysed.
fn symbols_by(
    alloc: Global,
    firmware: &Checked,
    analysis: &Analysis,
    board: &Board,
    policy: Policy,
) -> Result<Vec<u8>, PlanningRefusal>
    requires board { IsBoard board.now }
    requires analysis { IsAnalysisOf policy (firmware_of firmware.now) board.now.closed analysis.now }
    ensures ok { IfOk result (λ lines. AreSymbols policy (firmware_of firmware.now) board.now lines.items) }
    ensures refused { IfErr result (IsUnplanned policy (firmware_of firmware.now) board.now) }
{
    firmware.firmware();
    let made = planned_by(alloc, analysis, board)?;
    let lines = symbols_of_plan(alloc, firmware, analysis, &made, board)?;
    Ok(lines)
}
