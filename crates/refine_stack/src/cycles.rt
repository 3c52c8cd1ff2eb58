//! The first cycle of calls.

ghost use Rattle.std.specs.Prelude.{◌≡◌, ◌↔◌, true, ◌<◌, ◌+◌, ◌^◌, length, get_or, IfOk, MatchOption};
ghost use Rattle.refine_stack.specs.Cycles.{HasNoCycle, IsCycle};
ghost use Rattle.refine_stack.specs.Listed.{IsThere, AreThere, Calls};
ghost use Rattle.refine_stack.specs.Far.{near, IsMarked, IsLevel, AreFar, IsLowered, IsNext, IsAround, IsOnCycle};

use crate::calls::Call;
use std::alloc::{AllocError, Global};

/// Whether `more` further calls lead from a call's target to `to`.
fn is_near(far: &[u32], to: usize, more: u32, call: Call) -> bool
    requires { call.to < length far.now }
    ensures { result ≡ near far.now to more call }
{
    if more == 0 {
        call.to as usize == to
    } else {
        far[call.to as usize] == more
    }
}

/// Gives the function of a call, if it has no number and the call is near, the number of these calls and one more; whether it did.
fn mark(far: &mut [u32], to: usize, more: u32, call: Call) -> bool
    requires there { IsThere (length far.old) call }
    requires more { more + 1 < 2 ^ 32 }
    ensures { IsMarked to more call far.old far.new result }
{
    if far[call.from as usize] != 0 {
        return false;
    }
    if !is_near(far, to, more, call) {
        return false;
    }
    far[call.from as usize] = more + 1;
    true
}

/// Marks by each call; whether it did by any.
fn level(far: &mut [u32], calls: &[Call], to: usize, more: u32) -> bool
    requires there { AreThere (length far.old) calls.now }
    requires more { more + 1 < 2 ^ 32 }
    ensures { IsLevel calls.now to more far.old far.new result }
{
    let mut changed = false;
    for i in 0..calls.len() {
        let marked = mark(far, to, more, calls[i]);
        changed = changed | marked;
    }
    changed
}

/// How many calls each function needs to come to a function, 0 where it does not.
fn distances(alloc: Global, calls: &[Call], count: usize, to: usize) -> Result<Vec<u32>, AllocError>
    requires { AreThere count calls.now }
    ensures count { IfOk result (λ far. length far.items ≡ count) }
    ensures far { IfOk result (λ far. AreFar calls.now to far.items) }
{
    let mut far = vec![in alloc; 0; count]?;
    for more in 0..u32::MAX {
        if !level(far.as_mut_slice(), calls, to, more) {
            return Ok(far);
        }
    }
    Err(AllocError)
}

/// The target of a call of a function, if it has this number and is lower.
fn lowered(far: &[u32], from: usize, more: u32, call: Call, least: usize) -> usize
    requires { IsThere (length far.now) call }
    ensures { IsLowered far.now from more call least result }
{
    let target = call.to as usize;
    if call.from as usize != from {
        return least;
    }
    if far[target] != more {
        return least;
    }
    if least < target {
        return least;
    }
    target
}

/// The lowest-numbered target of the calls of a function that has this number; as many as there are where none has.
fn next(far: &[u32], calls: &[Call], from: usize, more: u32) -> usize
    requires { AreThere (length far.now) calls.now }
    ensures { IsNext calls.now far.now from more result }
{
    let mut least = far.len();
    for i in 0..calls.len() {
        least = lowered(far, from, more, calls[i], least);
    }
    least
}

/// The shortest cycle through a function, and of these the first.
fn around(alloc: Global, far: &[u32], calls: &[Call], func: usize) -> Result<Vec<u32>, AllocError>
    requires there { AreThere (length far.now) calls.now }
    requires func { func < length far.now }
    requires small { length far.now < 2 ^ 32 }
    requires far { AreFar calls.now func far.now }
    requires some { 0 < get_or far.now func 0 }
    ensures { IfOk result (λ path. IsAround calls.now func path.items) }
{
    let mut path = Vec::new(alloc);
    path.push(func as u32)?;
    let total = far[func];
    let mut last = func;
    for k in 1..total {
        let target = next(far, calls, last, total - k);
        if target >= far.len() {
            return Err(AllocError);
        }
        path.push(target as u32)?;
        last = target;
    }
    path.push(func as u32)?;
    Ok(path)
}

/// Whether a function comes to itself, and `main` to it.
fn is_on_cycle(far: &[u32], func: usize, main: usize) -> bool
    requires func { func < length far.now }
    requires main { main < length far.now }
    ensures { result ≡ true ↔ IsOnCycle far.now func main }
{
    if far[func] == 0 {
        return false;
    }
    if func == main {
        return true;
    }
    far[main] > 0
}

/// The shortest cycle through the lowest-numbered function that is reached and reaches itself, if there is one.
pub(crate) fn first_cycle(
    alloc: Global,
    calls: &[Call],
    count: usize,
    main: usize,
) -> Result<Option<Vec<u32>>, AllocError>
    requires there { AreThere count calls.now }
    requires main { main < count }
    requires small { count < 2 ^ 32 }
    ensures { IfOk result (λ o. MatchOption o (HasNoCycle (Calls calls.now) main) (λ c. IsCycle (Calls calls.now) main c.items)) }
{
    for func in 0..count {
        let far = distances(alloc, calls, count, func)?;
        if is_on_cycle(far.as_slice(), func, main) {
            let path = around(alloc, far.as_slice(), calls, func)?;
            return Ok(Some(path));
        }
    }
    Ok(None)
}
