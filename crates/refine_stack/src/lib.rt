//! The bound on the stack of a firmware: what it is, and the search for it.
#![tactic(auto)]

ghost use Rattle.std.specs.Prelude.{◌≤◌, ◌<◌, ◌^◌, length, IfOk};
ghost use Rattle.base_ranges.specs.Ranges.{IsPowerBetween};
ghost use Rattle.ir_program.specs.Seen.{program_of};
ghost use Rattle.refine_stack.specs.Answers.{IsAnswer};
ghost use Rattle.refine_stack.specs.Cycles.{HasNoCycle};
ghost use Rattle.refine_stack.specs.Paths.{SitesAreThere};
ghost use Rattle.refine_stack.specs.Listed.{AreThere, Calls};
ghost use Rattle.refine_stack.specs.Found.{IsAnswerBy};

pub mod answer;
mod calls;
mod cycles;
mod deepest;
mod sizing;
mod worst;

use crate::answer::StackAnswer;
use base_lists::ListVec;
use calls::{Call, calls_of};
use cycles::first_cycle;
use deepest::deepest;
use ir_program::program::Program;
use plan_model::groups::Groups;
use plan_model::needs::Needs;
use sizing::frame_sizes;
use std::alloc::{AllocError, Global};
use worst::worst_path;

/// The path that takes the most, where no function that is reached reaches itself.
fn path_by(
    alloc: Global,
    calls: &[Call],
    frames: &[u32],
    stack: u32,
    main: usize,
) -> Result<StackAnswer, AllocError>
    requires stack { 8 ≤ stack }
    requires there { AreThere (length frames.now) calls.now }
    requires main { main < length frames.now }
    requires small { length frames.now < 2 ^ 32 }
    requires none { HasNoCycle (Calls calls.now) main }
    ensures { IfOk result (IsAnswerBy frames.now stack calls.now main) }
{
    let taken = deepest(alloc, calls, frames, stack, main)?;
    let answer = worst_path(alloc, calls, frames, stack, main, taken.as_slice())?;
    Ok(answer)
}

/// The answer by the list of calls.
fn bound_by(
    alloc: Global,
    calls: &[Call],
    frames: &[u32],
    stack: u32,
    main: usize,
) -> Result<StackAnswer, AllocError>
    requires stack { 8 ≤ stack }
    requires there { AreThere (length frames.now) calls.now }
    requires main { main < length frames.now }
    requires small { length frames.now < 2 ^ 32 }
    ensures { IfOk result (IsAnswerBy frames.now stack calls.now main) }
{
    match first_cycle(alloc, calls, frames.len(), main)? {
        Some(cycle) => Ok(StackAnswer::Cycle(ListVec::new(cycle))),
        None => path_by(alloc, calls, frames, stack, main),
    }
}

/// The bound on the stack of a firmware in its compartments, or why there is none.
///
/// # Errors
///
/// There is no memory for it, or a path takes more than 32 bits tell.
pub fn bound(
    alloc: Global,
    program: &Program,
    needs: &Needs,
    groups: &Groups,
    stack: u32,
) -> Result<StackAnswer, AllocError>
    requires stack { IsPowerBetween 9 16 stack }
    requires main { (program_of program.now).main < length (program_of program.now).funcs }
    requires there { SitesAreThere (program_of program.now) needs.now }
    ensures { IfOk result (IsAnswer (program_of program.now) needs.now groups.now stack) }
{
    let calls = calls_of(alloc, needs, groups)?;
    let frames = frame_sizes(alloc, program)?;
    if frames.len() > u32::MAX as usize {
        return Err(AllocError);
    }
    let answer = bound_by(
        alloc,
        calls.as_slice(),
        frames.as_slice(),
        stack,
        program.main as usize,
    )?;
    Ok(answer)
}
