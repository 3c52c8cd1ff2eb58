//! The analysis of firmwares, and their plans for boards.

ghost use Rattle.std.specs.Prelude.{◌≡◌, IfOk, IfErr, length};
ghost use Rattle.ir_model.specs.Plain.{firmware_of, funcs_of};
ghost use Rattle.ir_model.specs.Resolve as definition;
ghost use Rattle.ir_program.specs.Seen.{program_of};
ghost use Rattle.plan_model.specs.Boards.{IsBoard};
ghost use Rattle.plan.specs.Planned.{IsPlannedFor};
ghost use Rattle.plan.specs.Refusals.{IsPlanningRefusal};
ghost use Rattle.plan_compartments.specs.Analyses.{AreNeedsOf};
ghost use Rattle.plan_firmwares.specs.Analysed.{IsAnalysisOf, IsPlanOf, IsRefusalOf};

use crate::analysis::Analysis;
use base_lists::ListVec;
use ir_model::checked::Checked;
use ir_program::program::Program;
use ir_resolve::resolving::resolve;
use need_points_to::solve;
use plan::{PlannedFirmware, PlanningRefusal, planned_firmware};
use plan_compartments::analysis::firmware_needs;
use plan_compartments::division::division;
use plan_model::Policy;
use plan_model::groups::Groups;
use plan_model::needs::Needs;
use plan_model::plan::Board;
use std::alloc::{AllocError, Global};

/// What the functions of a firmware need on an open or a closed board: the least sets of objects of its program are found first.
fn needs_of(
    alloc: Global,
    firmware: &Checked,
    program: &Program,
    closed: bool,
) -> Result<Needs, AllocError>
    requires { program_of program.now ≡ definition.resolve (firmware_of firmware.now) }
    ensures exact { IfOk result (AreNeedsOf (firmware_of firmware.now) closed) }
    ensures each { IfOk result (λ n. length n.funcs ≡ length (funcs_of (firmware_of firmware.now))) }
{
    let sets = solve(alloc, program)?;
    firmware_needs(alloc, firmware, program, &sets, closed)
}

/// The analysis of a firmware for an open or a closed board: names get numbers, then each function its needs, and by these a policy makes the
/// compartments.
///
/// # Errors
///
/// There is no memory for it.
pub fn analyse(
    alloc: Global,
    firmware: &Checked,
    policy: Policy,
    closed: bool,
) -> Result<Analysis<'_>, AllocError>
    ensures exact { IfOk result (IsAnalysisOf policy (firmware_of firmware.now) closed) }
    ensures each { IfOk result (λ analysis. length analysis.needs.funcs ≡ length (funcs_of (firmware_of firmware.now))) }
{
    let program = resolve(alloc, firmware)?;
    let needs = needs_of(alloc, firmware, &program, closed)?;
    let groups = division(alloc, firmware, &needs, policy)?;
    Ok(Analysis {
        program,
        needs,
        groups,
    })
}

/// Copied compartments.
fn copied(alloc: Global, groups: &Groups) -> Result<Groups, AllocError>
    ensures { IfOk result (λ made. made ≡ groups.now) }
{
    let of = Vec::from_slice(alloc, groups.of.as_slice())?;
    Ok(Groups {
        of: ListVec::new(of),
        count: groups.count,
    })
}

/// An analysed firmware planned for a board, in the compartments of its policy.
///
/// # Errors
///
/// There is no memory, a limit of what is compiled is passed, an address that the firmware asks for is one that the board denies, or the
/// blocks have more bytes than a memory of the board.
pub fn planned_by(
    alloc: Global,
    analysis: &Analysis,
    board: &Board,
) -> Result<PlannedFirmware, PlanningRefusal>
    requires { IsBoard board.now }
    ensures ok { IfOk result (IsPlanOf analysis.now board.now) }
    ensures planned { IfOk result (IsPlannedFor (program_of analysis.now.program) analysis.now.needs analysis.now.groups board.now) }
    ensures each { IfOk result (λ made. length made.graph.groups.of ≡ length analysis.now.needs.funcs) }
    ensures refused { IfErr result (IsRefusalOf analysis.now board.now) }
    ensures why { IfErr result (IsPlanningRefusal (program_of analysis.now.program) analysis.now.needs analysis.now.groups board.now) }
{
    let groups = copied(alloc, &analysis.groups)?;
    let made = planned_firmware(alloc, &analysis.program, &analysis.needs, groups, board)?;
    Ok(made)
}
