//! The numbers that are reached from a first one.

ghost use Rattle.std.specs.Prelude.{◌≡◌, ◌↔◌, ◌⊎◌, ◌<◌, ◌≤◌, ℕ, true, false, [], length, get_or, IfOk, OnOk, Contains};
ghost use Rattle.aces_why.specs.Reached.{AreReached};
ghost use Rattle.aces_why.specs.Marks.{AreMarks};

use base_lists::ListVec;
use std::alloc::{AllocError, Global};

/// Marks a number, if it is one of those that there are, and puts it behind those that were found before it.
fn mark(flags: &mut Vec<bool>, found: &mut Vec<usize>, number: usize) -> Result<(), AllocError>
    requires { AreMarks flags.old.items found.old.items }
    ensures count { OnOk result (length flags.new.items ≡ length flags.old.items) }
    ensures marks { OnOk result (AreMarks flags.new.items found.new.items) }
    ensures longer { OnOk result (length found.old.items ≤ length found.new.items) }
    ensures kept { OnOk result ((k : ℕ) → k < length found.old.items → get_or found.new.items k 0 ≡ get_or found.old.items k 0) }
    ensures flags { OnOk result ((g : ℕ) → get_or flags.new.items g false ≡ true ↔ ((get_or flags.old.items g false ≡ true) ⊎ ((g ≡ number) × (g < length flags.old.items)))) }
{
    if number < flags.len() && !flags[number] {
        flags[number] = true;
        found.push(number)?;
    }
    Ok(())
}

/// Marks these numbers.
fn mark_all(
    flags: &mut Vec<bool>,
    found: &mut Vec<usize>,
    numbers: &[usize],
) -> Result<(), AllocError>
    requires { AreMarks flags.old.items found.old.items }
    ensures count { OnOk result (length flags.new.items ≡ length flags.old.items) }
    ensures marks { OnOk result (AreMarks flags.new.items found.new.items) }
    ensures longer { OnOk result (length found.old.items ≤ length found.new.items) }
    ensures kept { OnOk result ((k : ℕ) → k < length found.old.items → get_or found.new.items k 0 ≡ get_or found.old.items k 0) }
    ensures flags { OnOk result ((g : ℕ) → get_or flags.new.items g false ≡ true ↔ ((get_or flags.old.items g false ≡ true) ⊎ (Contains numbers.now g × (g < length flags.old.items)))) }
{
    for i in 0..numbers.len() {
        mark(flags, found, numbers[i])?;
    }
    Ok(())
}

/// The numbers that come next of one.
fn row(next: &[ListVec<usize>], number: usize) -> &[usize]
    ensures { result.now ≡ get_or next.now number [] }
{
    match next.get(number) {
        Some(row) => row.as_slice(),
        None => &[],
    }
}

/// For each number that has a list, whether it is the first one, or is reached from it by lists: `next` has for each number those
/// that come next of it. Numbers that have no list are left out.
///
/// # Errors
///
/// There is no memory for it.
pub fn reached_flags(
    alloc: Global,
    next: &[ListVec<usize>],
    first: usize,
) -> Result<Vec<bool>, AllocError>
    ensures { IfOk result (λ flags. AreReached next.now first flags.items) }
{
    let mut flags = vec![in alloc; false; next.len()]?;
    let mut found = Vec::new(alloc);
    mark(&mut flags, &mut found, first)?;
    let mut handled = 0;
    while handled < found.len() {
        let number = found[handled];
        mark_all(&mut flags, &mut found, row(next, number))?;
        handled += 1;
    }
    Ok(flags)
}
