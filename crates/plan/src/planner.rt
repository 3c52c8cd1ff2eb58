//! The plan of a firmware for a board.

ghost use Rattle.std.specs.Prelude.{◌≡◌, ◌≤◌, length, IfOk, IfErr};
ghost use Rattle.ir_program.specs.Seen.{program_of};
ghost use Rattle.plan_model.specs.Boards.{IsBoard};
ghost use Rattle.plan_model.specs.CompileLimits.{KeepsLimits};
ghost use Rattle.plan_model.specs.FinalGraph.{IsFinal};
ghost use Rattle.plan.specs.Planned.{IsPlaced, IsPlannedFor};
ghost use Rattle.plan.specs.Refusals.{IsRoomRefusal, IsPlanningRefusal};

use crate::refusal::{PlanningRefusal, refusal_of_place};
use ir_program::program::Program;
use plan_denials::first_meeting;
use plan_graph::initial::initial;
use plan_graph::merge::merge;
use plan_layout::place::place;
use plan_limits::passed_limit;
use plan_model::graph::Final;
use plan_model::groups::Groups;
use plan_model::needs::Needs;
use plan_model::plan::{Board, Plan, Sizes};
use plan_sizes::sizes;
use std::alloc::{AllocError, Global};

/// A firmware that is planned for a board.
pub struct PlannedFirmware {
    /// The graph of its compartments that the protection unit can hold.
    pub graph: Final,
    /// How many bytes its code and its tables have.
    pub sizes: Sizes,
    /// Where the blocks of its image lie.
    pub plan: Plan,
}

impl Drop for PlannedFirmware {
    fn drop(self) {
        let PlannedFirmware {
            graph: _,
            sizes: _,
            plan: _,
        } = self;
    }
}

/// The final graph of the compartments of a firmware.
///
/// # Errors
///
/// There is no memory for it.
pub fn final_graph(
    alloc: Global,
    program: &Program,
    needs: &Needs,
    groups: Groups,
    slots: u32,
) -> Result<Final, AllocError>
    requires each { length groups.of ≡ length needs.now.funcs }
    requires two { 2 ≤ slots }
    ensures { IfOk result (λ graph. IsFinal (program_of program.now) needs.now groups slots graph) }
{
    let first = initial(alloc, program, needs, groups)?;
    merge(alloc, program, first, slots)
}

/// A graph with sizes and places.
fn placed_graph(
    alloc: Global,
    program: &Program,
    needs: &Needs,
    graph: Final,
    board: &Board,
) -> Result<PlannedFirmware, PlanningRefusal>
    requires board { IsBoard board.now }
    requires each { length graph.groups.of ≡ length program.now.funcs }
    ensures graph { IfOk result (λ made. made.graph ≡ graph) }
    ensures placed { IfOk result (λ made. IsPlaced (program_of program.now) needs.now board.now made) }
    ensures refused { IfErr result (λ refusal. IsRoomRefusal (program_of program.now) needs.now graph board.now refusal) }
{
    let sizes = sizes(alloc, program, needs, &graph, board.slots())?;
    match place(alloc, program, &graph, &sizes, board) {
        Ok(plan) => Ok(PlannedFirmware { graph, sizes, plan }),
        Err(refusal) => Err(refusal_of_place(refusal)),
    }
}

/// A firmware planned for a board, where no limit is passed.
fn planned_within_limits(
    alloc: Global,
    program: &Program,
    needs: &Needs,
    groups: Groups,
    board: &Board,
) -> Result<PlannedFirmware, PlanningRefusal>
    requires board { IsBoard board.now }
    requires needs { length groups.of ≡ length needs.now.funcs }
    requires each { length groups.of ≡ length program.now.funcs }
    requires limits { KeepsLimits needs.now groups }
    ensures ok { IfOk result (IsPlannedFor (program_of program.now) needs.now groups board.now) }
    ensures refused { IfErr result (IsPlanningRefusal (program_of program.now) needs.now groups board.now) }
{
    let graph = final_graph(alloc, program, needs, groups, board.slots())?;
    if let Some(meeting) = first_meeting(board.denied.as_slice(), program, &graph) {
        return Err(PlanningRefusal::Denied(meeting));
    }
    placed_graph(alloc, program, needs, graph, board)
}

/// A firmware planned for a board: the final graph of its compartments, the sizes of its code and its tables, and where the blocks of
/// its image lie. Each function has a need and a compartment.
///
/// # Errors
///
/// There is no memory, a limit of what is compiled is passed, an address that the firmware asks for is one that the board denies, or the
/// blocks have more bytes than a memory of the board.
pub fn planned_firmware(
    alloc: Global,
    program: &Program,
    needs: &Needs,
    groups: Groups,
    board: &Board,
) -> Result<PlannedFirmware, PlanningRefusal>
    requires board { IsBoard board.now }
    requires needs { length groups.of ≡ length needs.now.funcs }
    requires each { length groups.of ≡ length program.now.funcs }
    ensures ok { IfOk result (IsPlannedFor (program_of program.now) needs.now groups board.now) }
    ensures refused { IfErr result (IsPlanningRefusal (program_of program.now) needs.now groups board.now) }
{
    if let Some((which, count)) = passed_limit(needs, &groups) {
        return Err(PlanningRefusal::Limit { which, count });
    }
    planned_within_limits(alloc, program, needs, groups, board)
}
