//! The way from a checked firmware to its image: it is analysed, planned for a board, and linked.

ghost use Rattle.std.specs.Prelude.{◌≡◌, IfOk, IfErr};
ghost use Rattle.ir_model.specs.Plain.{firmware_of};
ghost use Rattle.ir_model.specs.Resolve.{resolve};
ghost use Rattle.ir_program.specs.Seen.{program_of};
ghost use Rattle.plan_model.specs.Boards.{IsBoard};
ghost use Rattle.plan_model.specs.Compartments.{AreCompartments};
ghost use Rattle.plan_compartments.specs.Analyses.{AreNeedsOf};
ghost use Rattle.plan.specs.Planned.{IsPlannedFor};
ghost use Rattle.plan.specs.PlannedFirmwares.{plan};
ghost use Rattle.plan.specs.Refusals.{IsPlanningRefusal};
ghost use Rattle.plan_firmwares.specs.Analysed.{IsAnalysisOf};
ghost use Rattle.plan_firmwares.specs.Unplanned.{IsUnplanned};
ghost use Rattle.image_promises.specs.Planned.{planned_image};
ghost use Rattle.aces_compiler.specs.ByPolicy.{IsImageBy};
ghost use Rattle.aces_compiler.specs.Compiled.{IsImageFor};

use crate::laws::all_promises;
use image_linker::link;
use ir_model::checked::Checked;
use machine_devices::image::Image;
use plan::{PlannedFirmware, PlanningRefusal, planned_firmware};
use plan_compartments::laws::divisions_are_one;
use plan_firmwares::{Analysis, analyse, planned_by};
use plan_model::Policy;
use plan_model::groups::Groups;
use plan_model::plan::Board;
use std::alloc::{AllocError, Global};

/// The image of a firmware for a board, in the compartments of a policy.
///
/// # Errors
///
/// There is no memory, a limit of what is compiled is passed, an address that the firmware asks for is one that the board denies, or the
/// blocks have more bytes than a memory of the board.
pub fn compile_by(
    alloc: Global,
    firmware: &Checked,
    board: &Board,
    policy: Policy,
) -> Result<Image, PlanningRefusal>
    requires { IsBoard board.now }
    ensures ok { IfOk result (IsImageBy policy (firmware_of firmware.now) board.now) }
    ensures refused { IfErr result (IsUnplanned policy (firmware_of firmware.now) board.now) }
{
    let analysis = analyse(alloc, firmware, policy, board.closed)?;
    image_by(alloc, firmware, &analysis, board, policy)
}

/// The same of a firmware that is analysed.
fn image_by(
    alloc: Global,
    firmware: &Checked,
    analysis: &Analysis,
    board: &Board,
    policy: Policy,
) -> Result<Image, PlanningRefusal>
    requires board { IsBoard board.now }
    requires analysis { IsAnalysisOf policy (firmware_of firmware.now) board.now.closed analysis.now }
    ensures ok { IfOk result (IsImageBy policy (firmware_of firmware.now) board.now) }
    ensures refused { IfErr result (IsUnplanned policy (firmware_of firmware.now) board.now) }
{
    divisions_are_one();
    let made = planned_by(alloc, analysis, board)?;
    let image = promised_image(alloc, firmware, analysis, &made, board)?;
    Ok(image)
}

/// The image of a firmware that is planned for a board, of which all is promised.
fn promised_image(
    alloc: Global,
    firmware: &Checked,
    analysis: &Analysis,
    planned: &PlannedFirmware,
    board: &Board,
) -> Result<Image, AllocError>
    requires program { program_of analysis.now.program ≡ resolve (firmware_of firmware.now) }
    requires needs { AreNeedsOf (firmware_of firmware.now) board.now.closed analysis.now.needs }
    requires groups { AreCompartments (resolve (firmware_of firmware.now)) planned.now.graph.groups }
    requires planned { IsPlannedFor (resolve (firmware_of firmware.now)) analysis.now.needs planned.now.graph.groups board.now planned.now }
    requires board { IsBoard board.now }
    ensures { IfOk result (IsImageFor (firmware_of firmware.now) analysis.now.needs board.now planned.now.graph.groups) }
{
    firmware.firmware();
    all_promises();
    let image = image_of_plan(alloc, firmware, analysis, planned, board)?;
    Ok(image)
}

/// The image of a firmware that is planned for a board.
pub(crate) fn image_of_plan(
    alloc: Global,
    firmware: &Checked,
    analysis: &Analysis,
    planned: &PlannedFirmware,
    board: &Board,
) -> Result<Image, AllocError>
    requires program { program_of analysis.now.program ≡ resolve (firmware_of firmware.now) }
    requires plan { planned.now.plan ≡ plan (firmware_of firmware.now) analysis.now.needs planned.now.graph board.now }
    ensures { IfOk result (λ image. image ≡ planned_image (firmware_of firmware.now) analysis.now.needs planned.now.graph board.now) }
{
    let periphs = firmware.firmware().periphs.as_slice();
    link(
        alloc,
        periphs,
        &analysis.program,
        &analysis.needs,
        &planned.graph,
        &planned.plan,
        board,
    )
}

/// How an analysed firmware is planned for a board in these compartments.
///
/// # Errors
///
/// There is no memory, a limit of what is compiled is passed, an address that the firmware asks for is one that the board denies, or the
/// blocks have more bytes than a memory of the board.
pub(crate) fn plan_of_groups(
    alloc: Global,
    firmware: &Checked,
    analysis: &Analysis,
    groups: Groups,
    board: &Board,
) -> Result<PlannedFirmware, PlanningRefusal>
    requires program { program_of analysis.now.program ≡ resolve (firmware_of firmware.now) }
    requires needs { AreNeedsOf (firmware_of firmware.now) board.now.closed analysis.now.needs }
    requires groups { AreCompartments (resolve (firmware_of firmware.now)) groups }
    requires board { IsBoard board.now }
    ensures ok { IfOk result (IsPlannedFor (resolve (firmware_of firmware.now)) analysis.now.needs groups board.now) }
    ensures refused { IfErr result (IsPlanningRefusal (resolve (firmware_of firmware.now)) analysis.now.needs groups board.now) }
{
    let made = planned_firmware(alloc, &analysis.program, &analysis.needs, groups, board)?;
    Ok(made)
}

/// The image of a firmware for a board, in these compartments: their graph is joined until the protection unit can hold it, all
/// blocks are placed, and code and tables are written.
///
/// # Errors
///
/// There is no memory, a limit of what is compiled is passed, an address that the firmware asks for is one that the board denies, or the
/// blocks have more bytes than a memory of the board.
pub fn compile_groups(
    alloc: Global,
    firmware: &Checked,
    analysis: &Analysis,
    groups: Groups,
    board: &Board,
) -> Result<Image, PlanningRefusal>
    requires program { program_of analysis.now.program ≡ resolve (firmware_of firmware.now) }
    requires needs { AreNeedsOf (firmware_of firmware.now) board.now.closed analysis.now.needs }
    requires groups { AreCompartments (resolve (firmware_of firmware.now)) groups }
    requires board { IsBoard board.now }
    ensures ok { IfOk result (IsImageFor (firmware_of firmware.now) analysis.now.needs board.now groups) }
    ensures refused { IfErr result (IsPlanningRefusal (resolve (firmware_of firmware.now)) analysis.now.needs groups board.now) }
{
    let plan = plan_of_groups(alloc, firmware, analysis, groups, board)?;
    let image = promised_image(alloc, firmware, analysis, &plan, board)?;
    Ok(image)
}
