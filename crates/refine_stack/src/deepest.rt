//! The most that call paths to a function take.

ghost use Rattle.std.specs.Prelude.{◌≡◌, ◌≤◌, ◌<◌, length, get_or, slice_index, IfSome, IfOk, OnOk};
ghost use Rattle.refine_stack.specs.Paths as paths;
ghost use Rattle.refine_stack.specs.Listed.{IsThere, AreThere};
ghost use Rattle.refine_stack.specs.Taken.{value, IsRaised, IsRelaxed, IsRound, IsSound, IsClosed};

use crate::calls::Call;
use ir_model::rounding::rounded_up;
use std::alloc::{AllocError, Global};

/// What is taken above a callee's frame, by what its caller and those before it take; none where that takes more than 32 bits.
fn taken_above(stack: u32, crosses: bool, taken: u32) -> Option<u32>
    requires { 8 ≤ stack }
    ensures { IfSome result (λ t. t ≡ paths.taken_above stack crosses taken) }
{
    if crosses {
        rounded_up(taken.checked_add(32)?, stack / 8)
    } else {
        Some(taken)
    }
}

/// What the callee's frame and those below it take, by what the caller's take.
pub(crate) fn callee_takes(frames: &[u32], stack: u32, call: Call, taken: u32) -> Option<u32>
    requires stack { 8 ≤ stack }
    requires there { call.to < length frames.now }
    ensures { IfSome result (λ t. t ≡ value frames.now stack call taken) }
{
    let above = taken_above(stack, call.crosses, taken)?;
    above.checked_add(frames[call.to as usize])
}

/// Raises a number; whether it was lower.
fn raise(taken: &mut [u32], func: usize, least: u32) -> bool
    requires { func < length taken.old }
    ensures { IsRaised func least taken.old taken.new result }
{
    if taken[func] < least {
        taken[func] = least;
        return true;
    }
    false
}

/// Raises what a callee takes by what its caller takes, if a path ends there; whether it was lower.
fn relax(taken: &mut [u32], frames: &[u32], stack: u32, call: Call) -> Result<bool, AllocError>
    requires stack { 8 ≤ stack }
    requires count { length frames.now ≡ length taken.old }
    requires there { IsThere (length taken.old) call }
    ensures { IfOk result (IsRelaxed frames.now stack call taken.old taken.new) }
{
    let own = taken[call.from as usize];
    if own == 0 {
        return Ok(false);
    }
    match callee_takes(frames, stack, call, own) {
        Some(least) => Ok(raise(taken, call.to as usize, least)),
        None => Err(AllocError),
    }
}

/// Relaxes each call; whether any number was lower.
fn round(
    taken: &mut [u32],
    frames: &[u32],
    stack: u32,
    calls: &[Call],
    main: usize,
) -> Result<bool, AllocError>
    requires stack { 8 ≤ stack }
    requires count { length frames.now ≡ length taken.old }
    requires there { AreThere (length taken.old) calls.now }
    ensures { IfOk result (IsRound frames.now stack calls.now main taken.old taken.new) }
{
    let mut changed = false;
    for i in 0..calls.len() {
        let raised = relax(taken, frames, stack, calls[i])?;
        changed = changed | raised;
    }
    Ok(changed)
}

/// Runs rounds until none is lower.
fn settle(
    taken: &mut [u32],
    frames: &[u32],
    stack: u32,
    calls: &[Call],
    main: usize,
) -> Result<(), AllocError>
    requires stack { 8 ≤ stack }
    requires count { length frames.now ≡ length taken.old }
    requires there { AreThere (length taken.old) calls.now }
    requires sound { IsSound frames.now stack calls.now main taken.old }
    ensures grows { OnOk result (get_or taken.old main 0 ≤ get_or taken.new main 0) }
    ensures sound { OnOk result (IsSound frames.now stack calls.now main taken.new) }
    ensures closed { OnOk result (IsClosed frames.now stack calls.now taken.new) }
{
    for _k in 0..u32::MAX {
        if !round(taken, frames, stack, calls, main)? {
            return Ok(());
        }
    }
    Err(AllocError)
}

/// The most that a path to each function takes, 0 where there is none. Without a cycle of calls there is such a number, after as many
/// rounds as a path has functions.
pub(crate) fn deepest(
    alloc: Global,
    calls: &[Call],
    frames: &[u32],
    stack: u32,
    main: usize,
) -> Result<Vec<u32>, AllocError>
    requires stack { 8 ≤ stack }
    requires there { AreThere (length frames.now) calls.now }
    requires main { main < length frames.now }
    ensures count { IfOk result (λ taken. length taken.items ≡ length frames.now) }
    ensures first { IfOk result (λ taken. slice_index frames.now main ≤ slice_index taken.items main) }
    ensures sound { IfOk result (λ taken. IsSound frames.now stack calls.now main taken.items) }
    ensures closed { IfOk result (λ taken. IsClosed frames.now stack calls.now taken.items) }
{
    let mut taken = vec![in alloc; 0; frames.len()]?;
    taken[main] = frames[main];
    settle(taken.as_mut_slice(), frames, stack, calls, main)?;
    Ok(taken)
}
