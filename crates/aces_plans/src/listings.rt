//! The listing of a firmware on a board by a policy.

ghost use Rattle.std.specs.Prelude.{◌≡◌, IfOk, IfErr, length};
ghost use Rattle.ir_model.specs.Plain.{firmware_of};
ghost use Rattle.ir_model.specs.Resolve.{resolve};
ghost use Rattle.ir_program.specs.Seen.{program_of};
ghost use Rattle.plan_model.specs.Boards.{IsBoard};
ghost use Rattle.plan_firmwares.specs.Analysed.{IsAnalysisOf};
ghost use Rattle.plan_firmwares.specs.Unplanned.{IsUnplanned};
ghost use Rattle.aces_plans.specs.Listings.{IsListing, listing_for};

use image_promises::needed::{permissions_are_bounded, runs_stay_in_policy};
use ir_model::checked::Checked;
use need_laws::least_sets;
use plan::{PlannedFirmware, PlanningRefusal};
use plan_firmwares::{Analysis, analyse, planned_by};
use plan_model::Policy;
use plan_model::plan::Board;
use plan_report::listing::listing;
use plan_report::subject::Subject;
use std::alloc::{AllocError, Global};

/// The listing of a firmware that is planned for a board.
fn listing_of_plan(
    alloc: Global,
    firmware: &Checked,
    analysis: &Analysis,
    made: &PlannedFirmware,
    policy: Policy,
    board: &Board,
) -> Result<Vec<u8>, AllocError>
    requires program { program_of analysis.now.program ≡ resolve (firmware_of firmware.now) }
    requires each { length made.now.graph.groups.of ≡ length analysis.now.needs.funcs }
    ensures { IfOk result (λ lines. lines.items ≡ listing_for policy (firmware_of firmware.now) analysis.now.needs made.now board.now) }
{
    let subject = Subject {
        firmware: firmware.firmware(),
        program: &analysis.program,
        needs: &analysis.needs,
        graph: &made.graph,
        plan: &made.plan,
        board,
    };
    listing(alloc, &subject, policy.word())
}

/// What `list` prints of a firmware on a board, in the compartments of a policy.
///
/// # Errors
///
/// There is no memory, a limit of what is compiled is passed, an address that the firmware asks for is one that the board denies, or the
/// blocks have more bytes than a memory of the board.
pub fn listing_of(
    alloc: Global,
    firmware: &Checked,
    board: &Board,
    policy: Policy,
) -> Result<Vec<u8>, PlanningRefusal>
    requires { IsBoard board.now }
    ensures ok { IfOk result (λ lines. IsListing policy (firmware_of firmware.now) board.now lines.items) }
    ensures refused { IfErr result (IsUnplanned policy (firmware_of firmware.now) board.now) }
{
    let analysis = analyse(alloc, firmware, policy, board.closed)?;
    listing_by(alloc, firmware, &analysis, board, policy)
}

/// The same of a firmware that is analysed.
fn listing_by(
    alloc: Global,
    firmware: &Checked,
    analysis: &Analysis,
    board: &Board,
    policy: Policy,
) -> Result<Vec<u8>, PlanningRefusal>
    requires board { IsBoard board.now }
    requires analysis { IsAnalysisOf policy (firmware_of firmware.now) board.now.closed analysis.now }
    ensures ok { IfOk result (λ lines. IsListing policy (firmware_of firmware.now) board.now lines.items) }
    ensures refused { IfErr result (IsUnplanned policy (firmware_of firmware.now) board.now) }
{
    firmware.firmware();
    least_sets();
    permissions_are_bounded();
    runs_stay_in_policy();
    let made = planned_by(alloc, analysis, board)?;
    let lines = listing_of_plan(alloc, firmware, analysis, &made, policy, board)?;
    Ok(lines)
}
