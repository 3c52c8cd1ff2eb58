//! The bytes of functions, and of compartments.

ghost use Rattle.std.specs.Prelude.{◌≡◌, ◌<◌, length, map, count_by, IfOk, IfSome};
ghost use Rattle.std.specs.List.{list_any};
ghost use Rattle.ir_model.specs.Resolved.{func_at};
ghost use Rattle.ir_program.specs.Parts.{routine_of};
ghost use Rattle.ir_program.specs.Seen.{known_of, program_of};
ghost use Rattle.plan_model.specs.Lists.{numbers_below};
ghost use Rattle.plan_model.specs.Lending.{is_local};
ghost use Rattle.code_model.specs.CompartmentCode.{members_from};
ghost use Rattle.plan_crossings.specs.Filled.{filled_total};
ghost use Rattle.plan_crossings.specs.Seen.{seen_sites};
ghost use Rattle.plan_sizes.specs.Parts.{size_with, function_bytes};

use code_model::CallSite;
use code_offsets::sizes::function_size;
use ir_program::program::{Program, Routine};
use plan_crossings::{bytes_before, call_sites};
use plan_model::needs::SiteNeed;
use std::alloc::{AllocError, Global};

/// Whether a local is one of these.
fn is_lent(lent: &[(u32, u32)], func: usize, local: usize) -> bool
    ensures { result ≡ list_any (is_local func local) lent.now }
{
    lent.iter()
        .any(|pair| pair.0 as usize == func && pair.1 as usize == local)
}

/// How many of a function's locals are among these.
fn lent_count(lent: &[(u32, u32)], func: usize, locals: usize) -> Option<u32>
    ensures { IfSome result (λ n. n ≡ count_by (λ k. list_any (is_local func k) lent.now) (numbers_below locals)) }
{
    let mut count: u32 = 0;
    for local in 0..locals {
        if is_lent(lent, func, local) {
            count = count.checked_add(1)?;
        }
    }
    Some(count)
}

/// The function of this number.
fn routine_at<'a>(program: &'a Program<'a>, func: usize) -> &'a Routine<'a>
    requires { func < length program.now.funcs }
    ensures { func_at (program_of program.now) func ≡ routine_of (known_of program.now) result.now }
{
    &program.funcs.as_slice()[func]
}

/// The bytes of a function with these calls to other compartments.
fn size_with(program: &Program, calls: &[CallSite], lent: &[(u32, u32)], func: usize) -> Option<u32>
    requires { func < length program.now.funcs }
    ensures { IfSome result (λ n. n ≡ size_with (program_of program.now) calls.now lent.now func) }
{
    let routine = routine_at(program, func);
    let count = lent_count(lent, func, routine.locals.len())?;
    function_size(program, func, calls, count)
}

/// The bytes of a function, by the crossing sites and the locals that are lent.
fn function_bytes(
    alloc: Global,
    program: &Program,
    sites: &[&SiteNeed],
    lent: &[(u32, u32)],
    func: usize,
) -> Result<u32, AllocError>
    requires { func < length program.now.funcs }
    ensures { IfOk result (λ n. n ≡ function_bytes (program_of program.now) (seen_sites sites.now) lent.now func) }
{
    let calls = call_sites(alloc, sites, func)?;
    match size_with(program, &calls, lent, func) {
        None => Err(AllocError),
        Some(bytes) => Ok(bytes),
    }
}

/// The bytes of all functions.
pub(crate) fn all_bytes(
    alloc: Global,
    program: &Program,
    sites: &[&SiteNeed],
    lent: &[(u32, u32)],
) -> Result<Vec<u32>, AllocError>
    ensures { IfOk result (λ all. all.items ≡ map (function_bytes (program_of program.now) (seen_sites sites.now) lent.now) (numbers_below (length program.now.funcs))) }
{
    let mut all = Vec::new(alloc);
    for func in 0..program.funcs.len() {
        all.push(function_bytes(alloc, program, sites, lent, func)?)?;
    }
    Ok(all)
}

/// The bytes of a compartment, by the compartments and the bytes of all functions.
#[tactic(auto, using(crate::proofs::Same::of_all))]
fn compartment_bytes(compartments: &[u32], all: &[u32], compartment: u32) -> Option<u32>
    requires { length compartments.now ≡ length all.now }
    ensures { IfSome result (λ n. n ≡ filled_total all.now (members_from 0 compartments.now compartment)) }
{
    bytes_before(compartments, all, compartment, all.len())
}

/// The bytes of the code of `count` compartments.
pub(crate) fn code_bytes(
    alloc: Global,
    compartments: &[u32],
    all: &[u32],
    count: u32,
) -> Result<Vec<u32>, AllocError>
    requires { length compartments.now ≡ length all.now }
    ensures { IfOk result (λ code. code.items ≡ map (λ c. filled_total all.now (members_from 0 compartments.now c)) (numbers_below count)) }
{
    let mut code = Vec::new(alloc);
    for compartment in 0..count {
        let Some(bytes) = compartment_bytes(compartments, all, compartment) else {
            return Err(AllocError);
        };
        code.push(bytes)?;
    }
    Ok(code)
}
