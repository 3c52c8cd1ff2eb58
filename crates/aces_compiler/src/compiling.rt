//! Images of checked firmwares, whose functions are grouped by callbacks.

ghost use Rattle.std.specs.Prelude.{◌≡◌, length, IfOk, IfErr};
ghost use Rattle.std.specs.Fn.{FnReturnsAt};
ghost use Rattle.ir_model.specs.Plain.{firmware_of, funcs_of};
ghost use Rattle.ir_model.specs.Resolve.{resolve};
ghost use Rattle.ir_program.specs.Seen.{program_of};
ghost use Rattle.plan_model.specs.Boards.{IsBoard};
ghost use Rattle.plan_model.specs.Compartments.{AreCompartments};
ghost use Rattle.plan_policies.specs.Callbacks.{IsGrouping};
ghost use Rattle.plan_compartments.specs.Analyses.{AreNeedsOf};
ghost use Rattle.aces_compiler.specs.Compiled.{AreGroupsBy, IsCompiled};
ghost use Rattle.aces_compiler.specs.Refusals.{IsCompileRefusal};

use crate::pipeline::compile_groups;
use ir_model::checked::Checked;
use machine_devices::image::Image;
use plan::PlanningRefusal;
use plan_firmwares::Analysis;
use plan_model::groups::{FuncFacts, Groups};
use plan_model::needs::Needs;
use plan_model::plan::Board;
use plan_policies::facts::facts;
use plan_policies::grouping::{Grouping, groups};
use std::alloc::{AllocError, Global};

/// The compartments that a callback makes of the functions of a firmware.
pub(crate) fn compartments_of<F: Fn(&FuncFacts) -> u32>(
    alloc: Global,
    firmware: &Checked,
    needs: &Needs,
    grouping: &Grouping<F>,
) -> Result<Groups, AllocError>
    requires needs { length needs.now.funcs ≡ length (funcs_of (firmware_of firmware.now)) }
    requires grouping { IsGrouping grouping.now.functions grouping.now.count (F.pre grouping.now.callback) (FnReturnsAt F.Fn grouping.now.callback) }
    requires each { grouping.now.functions ≡ length (funcs_of (firmware_of firmware.now)) }
    ensures by { IfOk result (AreGroupsBy (firmware_of firmware.now) needs.now (FnReturnsAt F.Fn grouping.now.callback)) }
    ensures are { IfOk result (AreCompartments (resolve (firmware_of firmware.now))) }
{
    let facts = facts(alloc, firmware, needs)?;
    let made = groups(alloc, grouping, &facts)?;
    Ok(made)
}

/// The image of a firmware for a board, where a callback groups the functions.
///
/// # Errors
///
/// There is no memory, a limit of what is compiled is passed, an address that the firmware asks for is one that the board denies, or the
/// blocks have more bytes than a memory of the board.
pub fn compile<F: Fn(&FuncFacts) -> u32>(
    alloc: Global,
    firmware: &Checked,
    analysis: &Analysis,
    board: &Board,
    grouping: &Grouping<F>,
) -> Result<Image, PlanningRefusal>
    requires program { program_of analysis.now.program ≡ resolve (firmware_of firmware.now) }
    requires needs { AreNeedsOf (firmware_of firmware.now) board.now.closed analysis.now.needs }
    requires board { IsBoard board.now }
    requires grouping { IsGrouping grouping.now.functions grouping.now.count (F.pre grouping.now.callback) (FnReturnsAt F.Fn grouping.now.callback) }
    requires each { grouping.now.functions ≡ length (funcs_of (firmware_of firmware.now)) }
    ensures ok { IfOk result (IsCompiled (firmware_of firmware.now) analysis.now.needs board.now (FnReturnsAt F.Fn grouping.now.callback)) }
    ensures refused { IfErr result (IsCompileRefusal (firmware_of firmware.now) analysis.now.needs board.now (FnReturnsAt F.Fn grouping.now.callback)) }
{
    let groups = compartments_of(alloc, firmware, &analysis.needs, grouping)?;
    let image = compile_groups(alloc, firmware, analysis, groups, board)?;
    Ok(image)
}
