//! Lists of numbers as sets: flags, and the numbers of two lists.

ghost use Rattle.std.specs.Prelude.{◌≡◌, ◌<◌, ◌||◌, ℕ, nat_eq, false, length, get_or, IfOk, OnOk};
ghost use Rattle.plan_model.specs.Lists.{union};
ghost use Rattle.plan_graph.specs.Known.{AreFlags, unflagged};

use std::alloc::{AllocError, Global};

/// Sets the flag of a number.
fn mark(flags: &mut Vec<bool>, number: u32) -> Result<(), AllocError>
    ensures { OnOk result ((n : ℕ) → get_or flags.new.items n false ≡ (get_or flags.old.items n false || nat_eq number n)) }
{
    let place = number as usize;
    if flags.len() <= place {
        flags.resize(place + 1, false)?;
    }
    flags[place] = true;
    Ok(())
}

/// A flag for each number up to the greatest: whether it is one of a list.
///
/// # Errors
///
/// There is no memory for them.
pub(crate) fn flags(alloc: Global, numbers: &[u32]) -> Result<Vec<bool>, AllocError>
    ensures { IfOk result (λ flags. AreFlags numbers.now flags.items) }
{
    let mut flags = Vec::new(alloc);
    for i in 0..numbers.len() {
        mark(&mut flags, numbers[i])?;
    }
    Ok(flags)
}

/// Whether the flag of a number is set.
pub(crate) fn is_flagged(flags: &[bool], number: u32) -> bool
    ensures { result ≡ get_or flags.now number false }
{
    let place = number as usize;
    place < flags.len() && flags[place]
}

/// How many numbers of a list have no flag set.
pub(crate) fn count_unflagged(numbers: &[u32], flags: &[bool]) -> usize
    ensures { result ≡ length (unflagged numbers.now flags.now) }
{
    let mut count = 0;
    for i in 0..numbers.len() {
        if !is_flagged(flags, numbers[i]) {
            count += 1;
        }
    }
    count
}

/// The numbers of two lists, in rising order.
///
/// # Errors
///
/// There is no memory for them.
pub(crate) fn union_of(alloc: Global, ones: &[u32], others: &[u32]) -> Result<Vec<u32>, AllocError>
    ensures { IfOk result (λ all. all.items ≡ union ones.now others.now) }
{
    let mut all = Vec::from_slice(alloc, ones)?;
    for i in 0..others.len() {
        if !ones.contains(&others[i]) {
            all.push(others[i])?;
        }
    }
    all.sort_by(|a, b| a.cmp(b))?;
    Ok(all)
}
