//! The bound on the stack of a checked firmware on a board by a policy.

ghost use Rattle.std.specs.Prelude.{IfOk, IfErr};
ghost use Rattle.ir_model.specs.Plain.{firmware_of};
ghost use Rattle.plan_model.specs.Boards.{IsBoard};
ghost use Rattle.plan_model.specs.CompileLimits.{KeepsLimits};
ghost use Rattle.plan_firmwares.specs.Analysed.{IsAnalysisOf};
ghost use Rattle.aces_stack.specs.Limited.{IsLimited};
ghost use Rattle.aces_stack.specs.Bounded.{IsStackBy};

use crate::image_laws::bounded_images;
use crate::run_laws::functions_are_there;
use ir_laws::typing::places;
use ir_model::checked::Checked;
use need_laws::least_sets;
use plan::PlanningRefusal;
use plan_firmwares::{Analysis, analyse};
use plan_limits::passed_limit;
use plan_model::Policy;
use plan_model::plan::Board;
use refine_stack::answer::StackAnswer;
use refine_stack::bound;
use std::alloc::{AllocError, Global};

/// The answer on the stack of a firmware in these compartments, of which no limit is passed.
fn within(
    alloc: Global,
    firmware: &Checked,
    analysis: &Analysis,
    board: &Board,
    policy: Policy,
) -> Result<StackAnswer, AllocError>
    requires analysis { IsAnalysisOf policy (firmware_of firmware.now) board.now.closed analysis.now }
    requires limits { KeepsLimits analysis.now.needs analysis.now.groups }
    requires board { IsBoard board.now }
    ensures { IfOk result (IsStackBy policy (firmware_of firmware.now) board.now) }
{
    firmware.firmware();
    places();
    least_sets();
    functions_are_there();
    bounded_images();
    let answer = bound(
        alloc,
        &analysis.program,
        &analysis.needs,
        &analysis.groups,
        board.stack,
    )?;
    Ok(answer)
}

/// The answer on the stack of a firmware on a board, in the compartments of a policy.
///
/// # Errors
///
/// There is no memory, or a limit of what is compiled is passed.
pub fn stack_of(
    alloc: Global,
    firmware: &Checked,
    board: &Board,
    policy: Policy,
) -> Result<StackAnswer, PlanningRefusal>
    requires { IsBoard board.now }
    ensures ok { IfOk result (IsStackBy policy (firmware_of firmware.now) board.now) }
    ensures refused { IfErr result (IsLimited policy (firmware_of firmware.now) board.now) }
{
    let analysis = analyse(alloc, firmware, policy, board.closed)?;
    if let Some((which, count)) = passed_limit(&analysis.needs, &analysis.groups) {
        return Err(PlanningRefusal::Limit { which, count });
    }
    let answer = within(alloc, firmware, &analysis, board, policy)?;
    Ok(answer)
}
