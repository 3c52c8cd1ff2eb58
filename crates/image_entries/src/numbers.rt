//! The calls of each function that may go to another compartment, and the locals that it lends, by their numbers.

ghost use Rattle.std.specs.Prelude.{◌≡◌, ◌<◌, ◌≤◌, length, map, position, IfOk, IfSome};
ghost use Rattle.std.specs.List.{All};
ghost use Rattle.ir_model.specs.Resolved.{func_at};
ghost use Rattle.ir_program.specs.Seen.{program_of};
ghost use Rattle.plan_model.specs.Lists.{numbers_below};
ghost use Rattle.plan_model.specs.Lending.{is_local};
ghost use Rattle.code_model.specs.declared.places.CallSite as call_site;
ghost use Rattle.code_model.specs.Planned.{call_sites_among};
ghost use Rattle.plan_crossings.specs.Seen.{seen_sites};
ghost use Rattle.image_entries.specs.Grouped.{AreNumbers, AreSmall};
ghost use Rattle.plan_model.specs.CompileLimits.{site_limit};

use base_lists::ListVec;
use code_model::CallSite;
use ir_program::locals::local_count;
use ir_program::program::Program;
use plan_crossings::call_sites;
use plan_model::limits::{LENT_LIMIT, SITE_LIMIT};
use plan_model::needs::SiteNeed;
use std::alloc::{AllocError, Global};

/// The calls of each function that may go to another compartment, and the numbers of the locals that it lends.
pub struct Numbers {
    /// The calls of each function that may go to another compartment.
    pub sites: ListVec<ListVec<CallSite>>,
    /// The number by which each local of each function is lent, if it is.
    pub lends: ListVec<ListVec<Option<u32>>>,
}

impl Drop for Numbers {
    fn drop(self) {
        let Numbers { sites: _, lends: _ } = self;
    }
}

/// The calls of each of so many functions among crossing sites.
fn all_sites(
    alloc: Global,
    sites: &[&SiteNeed],
    funcs: usize,
) -> Result<Vec<ListVec<CallSite>>, AllocError>
    requires { length sites.now ≤ site_limit }
    ensures exact { IfOk result (λ all. all.items ≡ map (call_sites_among 0 (seen_sites sites.now)) (numbers_below funcs)) }
    ensures small { IfOk result (λ all. All (λ ss. All (λ (s : call_site.CallSite). s.number < site_limit) ss) all.items) }
{
    let mut all = Vec::new(alloc);
    for func in 0..funcs {
        all.push(ListVec::new(call_sites(alloc, sites, func)?))?;
    }
    Ok(all)
}

/// The number of a local among those that are lent, if it is one.
fn lend_number(lent: &[(u32, u32)], func: usize, local: usize) -> Option<u32>
    requires { length lent.now ≤ 32 }
    ensures exact { result ≡ position (is_local func local) lent.now }
    ensures small { IfSome result (λ k. k < 32) }
{
    for (number, pair) in lent.iter().enumerate() {
        if pair.0 as usize == func && pair.1 as usize == local {
            return Some(number as u32);
        }
    }
    None
}

/// For each of so many locals of a function, its number if it is lent.
fn lend_numbers(
    alloc: Global,
    lent: &[(u32, u32)],
    func: usize,
    locals: usize,
) -> Result<Vec<Option<u32>>, AllocError>
    requires { length lent.now ≤ 32 }
    ensures exact { IfOk result (λ numbers. numbers.items ≡ map (λ k. position (is_local func k) lent.now) (numbers_below locals)) }
    ensures small { IfOk result (λ numbers. All (λ n. IfSome n (λ k. k < 32)) numbers.items) }
{
    let mut numbers = Vec::new(alloc);
    for local in 0..locals {
        numbers.push(lend_number(lent, func, local))?;
    }
    Ok(numbers)
}

/// The numbers of the locals of each function among those that are lent.
fn all_lends(
    alloc: Global,
    program: &Program,
    lent: &[(u32, u32)],
) -> Result<Vec<ListVec<Option<u32>>>, AllocError>
    requires { length lent.now ≤ 32 }
    ensures exact { IfOk result (λ all. all.items ≡ map (λ h. map (λ k. position (is_local h k) lent.now) (numbers_below (length (func_at (program_of program.now) h).locals))) (numbers_below (length program.now.funcs))) }
    ensures small { IfOk result (λ all. All (λ ns. All (λ n. IfSome n (λ k. k < 32)) ns) all.items) }
{
    let mut all = Vec::new(alloc);
    for func in 0..program.funcs.len() {
        let locals = local_count(program, func);
        all.push(ListVec::new(lend_numbers(alloc, lent, func, locals)?))?;
    }
    Ok(all)
}

/// The calls and the locals that have numbers. None are given where there are more than 4,096 sites or 32 lent locals.
pub fn numbers_of(
    alloc: Global,
    program: &Program,
    sites: &[&SiteNeed],
    lent: &[(u32, u32)],
) -> Result<Numbers, AllocError>
    ensures exact { IfOk result (λ x. AreNumbers (program_of program.now) (seen_sites sites.now) lent.now x) }
    ensures small { IfOk result AreSmall }
{
    if sites.len() > SITE_LIMIT || lent.len() > LENT_LIMIT {
        return Err(AllocError);
    }
    let calls = all_sites(alloc, sites, program.funcs.len())?;
    let lends = all_lends(alloc, program, lent)?;
    Ok(Numbers {
        sites: ListVec::new(calls),
        lends: ListVec::new(lends),
    })
}
