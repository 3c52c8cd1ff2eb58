//! The addresses of globals, windows and functions, and what the code of a function needs. None where an address takes more than
//! 32 bits.

ghost use Rattle.std.specs.Prelude.{◌≡◌, ◌<◌, length, map, unwrap_or, IfOk, IfSome};
ghost use Rattle.ir_model.specs.Resolved.{NumberedWindow};
ghost use Rattle.ir_program.specs.Seen.{program_of};
ghost use Rattle.plan_model.specs.Lists.{numbers_below};
ghost use Rattle.plan_model.specs.Blocks.{offset_in_region};
ghost use Rattle.plan_model.specs.Placement as placement;

use ir_model::rounding::rounded_up;
use ir_program::program::Program;
use plan_model::graph::Final;
use plan_model::plan::{Plan, Spot};
use plan_sizes::regions::extent_of;
use std::alloc::{AllocError, Global};

/// Where a global begins in the block of some globals.
#[tactic(auto, unfolding(plan_model::specs::Blocks::offset_in_region))]
pub(crate) fn offset_in(program: &Program, globals: &[u32], global: u32) -> Option<u32>
    ensures { IfSome result (λ n. n ≡ offset_in_region (program_of program.now) globals.now global) }
{
    let mut at = 0;
    for other in globals {
        let extent = extent_of(program, *other);
        at = rounded_up(at, extent.align)?;
        if *other == global {
            return Some(at);
        }
        at = at.checked_add(extent.size)?;
    }
    Some(0)
}

/// The number of the data region of a global, if it is in one.
fn region_with(graph: &Final, global: u32) -> Option<usize>
    ensures exact { result ≡ placement.region_with graph.now global }
    ensures there { IfSome result (λ r. r < length graph.now.regions) }
{
    for (number, region) in graph.regions.as_slice().iter().enumerate() {
        if region.globals.as_slice().contains(&global) {
            return Some(number);
        }
    }
    None
}

/// Where a data region lies.
pub(crate) fn region_spot(plan: &Plan, region: usize) -> Spot
    ensures { result ≡ placement.region_spot plan.now region }
{
    match plan.regions.as_slice().get(region) {
        Some(spot) => *spot,
        None => Spot { base: 0, size: 0 },
    }
}

/// Where the globals of no data region lie.
pub(crate) fn unwritten_spot(plan: &Plan) -> Spot
    ensures { result ≡ unwrap_or plan.now.unwritten placement.no_spot }
{
    match plan.unwritten {
        Some(spot) => spot,
        None => Spot { base: 0, size: 0 },
    }
}

/// The address of a global.
#[tactic(auto, unfolding(plan_model::specs::Placement::global_address), using(crate::proofs::Blocks::region_there))]
fn global_address(program: &Program, graph: &Final, plan: &Plan, global: u32) -> Option<u32>
    ensures { IfSome result (λ n. n ≡ placement.global_address (program_of program.now) graph.now plan.now global) }
{
    match region_with(graph, global) {
        Some(region) => {
            let globals = graph.regions.as_slice()[region].globals.as_slice();
            let offset = offset_in(program, globals, global)?;
            region_spot(plan, region).base.checked_add(offset)
        }
        None => {
            let offset = offset_in(program, graph.unwritten.as_slice(), global)?;
            unwritten_spot(plan).base.checked_add(offset)
        }
    }
}

/// The address of each global.
pub fn global_addresses(
    alloc: Global,
    program: &Program,
    graph: &Final,
    plan: &Plan,
) -> Result<Vec<u32>, AllocError>
    ensures { IfOk result (λ addresses. addresses.items ≡ map (placement.global_address (program_of program.now) graph.now plan.now) (numbers_below (length (program_of program.now).globals))) }
{
    let Ok(count) = u32::try_from(program.globals.len()) else {
        return Err(AllocError);
    };
    let mut addresses = Vec::new(alloc);
    for global in 0..count {
        let Some(address) = global_address(program, graph, plan, global) else {
            return Err(AllocError);
        };
        addresses.push(address)?;
    }
    Ok(addresses)
}

/// The first address of each window.
pub fn window_addresses(alloc: Global, program: &Program) -> Result<Vec<u32>, AllocError>
    ensures { IfOk result (λ addresses. addresses.items ≡ map (λ (w : NumberedWindow). w.base) (program_of program.now).periphs) }
{
    let mut addresses = Vec::new(alloc);
    for span in program.periphs.as_slice() {
        addresses.push(span.base)?;
    }
    Ok(addresses)
}
