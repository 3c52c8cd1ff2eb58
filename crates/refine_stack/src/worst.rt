//! The path that takes the most.

ghost use Rattle.std.specs.Prelude.{◌≡◌, ◌≤◌, ◌<◌, ◌^◌, length, IfOk};
ghost use Rattle.refine_stack.specs.Listed.{IsThere, AreThere};
ghost use Rattle.refine_stack.specs.Worst.{IsMost, IsLoweredBy, IsBefore, IsWorstBy};

use crate::answer::StackAnswer;
use crate::calls::Call;
use crate::deepest::callee_takes;
use base_lists::ListVec;
use std::alloc::{AllocError, Global};

/// The lowest-numbered function that has the most.
fn most(taken: &[u32]) -> usize
    requires { 0 < length taken.now }
    ensures { IsMost taken.now result }
{
    let mut last = 0;
    for func in 1..taken.len() {
        if taken[last] < taken[func] {
            last = func;
        }
    }
    last
}

/// The function of a call, if the call gives a function its number and it is lower.
fn lowered(
    frames: &[u32],
    stack: u32,
    taken: &[u32],
    func: usize,
    call: Call,
    least: usize,
) -> Result<usize, AllocError>
    requires stack { 8 ≤ stack }
    requires count { length frames.now ≡ length taken.now }
    requires there { IsThere (length taken.now) call }
    requires func { func < length taken.now }
    ensures { IfOk result (IsLoweredBy frames.now stack taken.now func call least) }
{
    let from = call.from as usize;
    if call.to as usize != func {
        return Ok(least);
    }
    if taken[from] == 0 {
        return Ok(least);
    }
    if least < from {
        return Ok(least);
    }
    match callee_takes(frames, stack, call, taken[from]) {
        Some(given) => Ok(if given == taken[func] { from } else { least }),
        None => Err(AllocError),
    }
}

/// The lowest-numbered function whose call gives a function its number; as many as there are where none does.
fn before(
    calls: &[Call],
    frames: &[u32],
    stack: u32,
    taken: &[u32],
    func: usize,
) -> Result<usize, AllocError>
    requires stack { 8 ≤ stack }
    requires count { length frames.now ≡ length taken.now }
    requires there { AreThere (length taken.now) calls.now }
    requires func { func < length taken.now }
    ensures { IfOk result (IsBefore frames.now stack calls.now taken.now func) }
{
    let mut least = taken.len();
    for i in 0..calls.len() {
        least = lowered(frames, stack, taken, func, calls[i], least)?;
    }
    Ok(least)
}

/// The bound by what paths to each function take.
pub(crate) fn worst_path(
    alloc: Global,
    calls: &[Call],
    frames: &[u32],
    stack: u32,
    main: usize,
    taken: &[u32],
) -> Result<StackAnswer, AllocError>
    requires stack { 8 ≤ stack }
    requires count { length frames.now ≡ length taken.now }
    requires there { AreThere (length taken.now) calls.now }
    requires main { main < length taken.now }
    requires small { length taken.now < 2 ^ 32 }
    ensures { IfOk result (IsWorstBy frames.now stack calls.now main taken.now) }
{
    let mut func = most(taken);
    let needed = u64::from(taken[func]) + 32;
    let mut path = Vec::new(alloc);
    path.push(func as u32)?;
    for _k in 0..taken.len() {
        if func == main {
            path.reverse();
            return Ok(StackAnswer::Bound {
                needed,
                path: ListVec::new(path),
            });
        }
        func = before(calls, frames, stack, taken, func)?;
        if func >= taken.len() {
            return Err(AllocError);
        }
        path.push(func as u32)?;
    }
    Err(AllocError)
}
