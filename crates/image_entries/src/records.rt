//! The records of crossing sites, of their targets, and of lent locals.

ghost use Rattle.std.specs.Prelude.{◌≡◌, ◌++◌, map, IfOk, IfSome, OnOk};
ghost use Rattle.ir_model.specs.Resolved.{local_at};
ghost use Rattle.ir_program.specs.Seen.{program_of};
ghost use Rattle.plan_crossings.specs.Seen.{seen_sites};
ghost use Rattle.image_entries.specs.Making.{IsReady};
ghost use Rattle.image_entries.specs.Recorded.{entry_in, offset_with, returns_to, site_records_in, target_in, target_records_in};
ghost use Rattle.image_model.specs.LinkedTables as records;

use crate::making::Making;
use crate::walks::{Found, find};
use ir_program::program::Program;
use monitor_model::{SiteRecord, TargetRecord};
use plan_model::needs::SiteNeed;
use std::alloc::{AllocError, Global};

/// The entry of a function.
pub fn entry_at(making: &Making, func: u32) -> Option<u32>
    requires { IsReady making.now }
    ensures { IfSome result (λ e. e ≡ entry_in making.now func) }
{
    let entries = making.addresses.entries.as_slice();
    let place = func as usize;
    if place >= entries.len() {
        return None;
    }
    Some(entries[place])
}

/// The address behind the SVC of a site, by how far that stands behind the entry of its function.
fn return_address(making: &Making, site: &SiteNeed, offset: u32) -> Option<u32>
    requires ready { IsReady making.now }
    requires offset { offset ≡ offset_with (program_of making.now.program.now) making.now.numbers.now site.now.func site.now.block site.now.inst }
    ensures { IfSome result (λ n. n ≡ returns_to making.now site.now) }
{
    entry_at(making, site.func)?.checked_add(offset)
}

/// The records of crossing sites.
pub fn site_records(
    alloc: Global,
    making: &Making,
    sites: &[&SiteNeed],
) -> Result<Vec<SiteRecord>, AllocError>
    requires { IsReady making.now }
    ensures { IfOk result (λ all. all.items ≡ site_records_in making.now 0 (seen_sites sites.now)) }
{
    let mut all = Vec::new(alloc);
    let mut first: u32 = 0;
    let mut last: Option<Found> = None;
    for site in sites {
        let Ok(count) = u32::try_from(site.targets.len()) else {
            return Err(AllocError);
        };
        let Some(found) = find(making.program, making.numbers, last, site) else {
            return Err(AllocError);
        };
        let Some(ret) = return_address(making, site, found.offset) else {
            return Err(AllocError);
        };
        all.push(SiteRecord { ret, first, count })?;
        let Some(next) = first.checked_add(count) else {
            return Err(AllocError);
        };
        first = next;
        last = Some(found);
    }
    Ok(all)
}

/// The record of a target.
fn target_record(making: &Making, func: u32) -> Option<TargetRecord>
    requires { IsReady making.now }
    ensures { IfSome result (λ g. g ≡ target_in making.now func) }
{
    Some(TargetRecord {
        entry: entry_at(making, func)?.checked_add(1)?,
        compartment: *making.compartments.get(func as usize)?,
    })
}

/// Puts the records of targets behind others.
fn put_targets(
    making: &Making,
    targets: &[u32],
    all: &mut Vec<TargetRecord>,
) -> Result<(), AllocError>
    requires { IsReady making.now }
    ensures { OnOk result (all.new.items ≡ all.old.items ++ map (target_in making.now) targets.now) }
{
    for target in targets {
        let Some(record) = target_record(making, *target) else {
            return Err(AllocError);
        };
        all.push(record)?;
    }
    Ok(())
}

/// The records of the targets of all sites, one site's behind the other's.
pub fn target_records(
    alloc: Global,
    making: &Making,
    sites: &[&SiteNeed],
) -> Result<Vec<TargetRecord>, AllocError>
    requires { IsReady making.now }
    ensures { IfOk result (λ all. all.items ≡ target_records_in making.now (seen_sites sites.now)) }
{
    let mut all = Vec::new(alloc);
    for site in sites {
        put_targets(making, site.targets.as_slice(), &mut all)?;
    }
    Ok(all)
}

/// The bytes of a local.
fn local_size(program: &Program, func: u32, local: u32) -> u32
    ensures { result ≡ (local_at (program_of program.now) func local).size }
{
    match program.funcs.as_slice().get(func as usize) {
        None => 0,
        Some(routine) => match routine.locals.as_slice().get(local as usize) {
            None => 0,
            Some(storage) => storage.size,
        },
    }
}

/// The bytes of each lent local.
pub fn lend_sizes(
    alloc: Global,
    program: &Program,
    lent: &[(u32, u32)],
) -> Result<Vec<u32>, AllocError>
    ensures { IfOk result (λ sizes. sizes.items ≡ records.lend_sizes (program_of program.now) lent.now) }
{
    let mut sizes = Vec::new(alloc);
    for pair in lent {
        sizes.push(local_size(program, pair.0, pair.1))?;
    }
    Ok(sizes)
}
