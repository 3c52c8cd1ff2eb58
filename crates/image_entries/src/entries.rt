//! Where functions begin: each compartment's stand one behind the other in its block. None where a number takes more than 32 bits.

ghost use Rattle.std.specs.Prelude.{◌≡◌, ◌<◌, ℕ, List, length, map, count_by, is_some, IfOk, IfSome};
ghost use Rattle.ir_program.specs.Seen.{program_of};
ghost use Rattle.plan_model.specs.Lists.{numbers_below};
ghost use Rattle.code_model.specs.CompartmentCode as compartments;
ghost use Rattle.image_entries.specs.Bases.{base_in, entry_in, entries_in};
ghost use Rattle.image_entries.specs.Grouped.{groups_in, HasEachLend};

use crate::numbers::Numbers;
use code_offsets::sizes::function_size;
use ir_program::program::Program;
use plan_crossings::bytes_before;
use plan_model::plan::Plan;
use std::alloc::{AllocError, Global};

/// How many locals have a number by which they are lent.
pub fn lent_count(lends: &[Option<u32>]) -> Option<u32>
    ensures { IfSome result (λ n. n ≡ count_by is_some lends.now) }
{
    let mut count: u32 = 0;
    for number in lends {
        if number.is_some() {
            count = count.checked_add(1)?;
        }
    }
    Some(count)
}

/// The bytes of a function's code.
pub fn size_of(program: &Program, numbers: &Numbers, func: usize) -> Option<u32>
    requires { HasEachLend (program_of program.now) numbers.now }
    ensures { IfSome result (λ n. (cs : List ℕ) → n ≡ compartments.size_of (program_of program.now) (groups_in cs numbers.now) func) }
{
    let sites = numbers.sites.as_slice().get(func)?;
    let lends = numbers.lends.as_slice().get(func)?;
    function_size(
        program,
        func,
        sites.as_slice(),
        lent_count(lends.as_slice())?,
    )
}

/// The bytes of each function's code.
pub fn sizes(alloc: Global, program: &Program, numbers: &Numbers) -> Result<Vec<u32>, AllocError>
    requires { HasEachLend (program_of program.now) numbers.now }
    ensures { IfOk result (λ sizes. (cs : List ℕ) → sizes.items ≡ map (compartments.size_of (program_of program.now) (groups_in cs numbers.now)) (numbers_below (length program.now.funcs))) }
{
    let mut sizes = Vec::new(alloc);
    for func in 0..program.funcs.len() {
        let Some(size) = size_of(program, numbers, func) else {
            return Err(AllocError);
        };
        sizes.push(size)?;
    }
    Ok(sizes)
}

/// The first address of a compartment's code.
pub fn base_of(plan: &Plan, compartment: u32) -> u32
    ensures { result ≡ base_in plan.now compartment }
{
    match plan.code.as_slice().get(compartment as usize) {
        Some(spot) => spot.base,
        None => 0,
    }
}

/// The entry of a function.
fn entry_of(plan: &Plan, compartments: &[u32], sizes: &[u32], func: usize) -> Option<u32>
    requires each { length compartments.now ≡ length sizes.now }
    requires there { func < length sizes.now }
    ensures { IfSome result (λ n. n ≡ entry_in plan.now compartments.now sizes.now func) }
{
    let compartment = compartments[func];
    let before = bytes_before(compartments, sizes, compartment, func)?;
    base_of(plan, compartment).checked_add(before)
}

/// The entry of each function.
pub fn entries(
    alloc: Global,
    plan: &Plan,
    compartments: &[u32],
    sizes: &[u32],
) -> Result<Vec<u32>, AllocError>
    requires { length compartments.now ≡ length sizes.now }
    ensures { IfOk result (λ entries. entries.items ≡ entries_in plan.now compartments.now sizes.now) }
{
    let mut entries = Vec::new(alloc);
    for func in 0..sizes.len() {
        let Some(entry) = entry_of(plan, compartments, sizes, func) else {
            return Err(AllocError);
        };
        entries.push(entry)?;
    }
    Ok(entries)
}
