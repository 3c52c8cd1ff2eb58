//! The groups that have a function, numbered in rising order.

ghost use Rattle.std.specs.Prelude.{◌≡◌, ◌<◌, ◌+◌, ◌^◌, ℕ, List, length, IfOk};
ghost use Rattle.std.specs.List.{All};
ghost use Rattle.plan_model.specs.Compartments.{compartments};
ghost use Rattle.plan_policies.specs.Marks.{AreMarks, AreNumbers};

use base_lists::ListVec;
use plan_model::groups::Groups;
use std::alloc::{AllocError, Global};

/// Which numbers below `count` are groups of a function.
fn marks(alloc: Global, groups: &[u32], count: u32) -> Result<Vec<bool>, AllocError>
    requires { All (λ g. g < count) groups.now }
    ensures each { IfOk result (λ used. length used.items ≡ count) }
    ensures exact { IfOk result (λ used. AreMarks groups.now used.items) }
{
    let mut used = vec![in alloc; false; count as usize]?;
    for i in 0..groups.len() {
        used[groups[i] as usize] = true;
    }
    Ok(used)
}

/// For each number how many groups below it have a function, and at the end how many groups have one.
fn numbers(alloc: Global, used: &[bool]) -> Result<Vec<u32>, AllocError>
    requires { length used.now < 2 ^ 32 }
    ensures each { IfOk result (λ numbers. length numbers.items ≡ length used.now + 1) }
    ensures exact { IfOk result (λ numbers. (groups : List ℕ) → AreMarks groups used.now → AreNumbers groups numbers.items) }
{
    let mut numbers = Vec::new(alloc);
    let mut number = 0u32;
    numbers.push(0)?;
    for i in 0..used.len() {
        number += u32::from(used[i]);
        numbers.push(number)?;
    }
    Ok(numbers)
}

/// The compartment of each function, by the group of each; the groups are below `count`.
///
/// # Errors
///
/// There is no memory for them.
pub(crate) fn compartments_by_group(
    alloc: Global,
    groups: &[u32],
    count: u32,
) -> Result<Groups, AllocError>
    requires { All (λ g. g < count) groups.now }
    ensures { IfOk result (λ made. made ≡ compartments groups.now) }
{
    let used = marks(alloc, groups, count)?;
    let numbers = numbers(alloc, &used)?;
    let mut of = Vec::new(alloc);
    for i in 0..groups.len() {
        of.push(numbers[groups[i] as usize])?;
    }
    Ok(Groups {
        of: ListVec::new(of),
        count: numbers[count as usize],
    })
}
