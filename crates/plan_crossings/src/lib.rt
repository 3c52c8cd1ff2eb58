//! The calls that may go to another compartment, the locals that are lent, and the bytes of a compartment's functions.
#![tactic(auto)]

mod filled;

ghost use Rattle.std.specs.Prelude.{◌≡◌, ◌<◌, ◌++◌, ◌∷◌, [], length, IfOk, IfSome, OnOk};
ghost use Rattle.std.specs.List.{All};
ghost use Rattle.plan_model.specs.Groups as groups_of;
ghost use Rattle.plan_model.specs.Crossing as crossing;
ghost use Rattle.plan_model.specs.Lending as lending;
ghost use Rattle.code_model.specs.Planned.{call_sites_among};
ghost use Rattle.plan_crossings.specs.Seen.{seen_sites};

use code_model::CallSite;
pub use filled::bytes_before;
use plan_model::groups::Groups;
use plan_model::needs::{Needs, SiteNeed};
use std::alloc::{AllocError, Global};

/// The compartment of a function; 0 for an absent one.
pub fn compartment_of(groups: &Groups, func: u32) -> u32
    ensures { result ≡ groups_of.compartment_of groups.now func }
{
    match groups.of.as_slice().get(func as usize) {
        None => 0,
        Some(compartment) => *compartment,
    }
}

/// Whether a call may go to another compartment.
pub fn crosses(groups: &Groups, site: &SiteNeed) -> bool
    ensures { result ≡ crossing.crosses groups.now site.now }
{
    let own = compartment_of(groups, site.func);
    site.targets
        .as_slice()
        .iter()
        .any(|target| compartment_of(groups, *target) != own)
}

/// The crossing sites in the order of the text.
///
/// # Errors
///
/// There is no memory.
pub fn crossing_sites<'a>(
    alloc: Global,
    needs: &'a Needs,
    groups: &Groups,
) -> Result<Vec<&'a SiteNeed>, AllocError>
    ensures { IfOk result (λ sites. seen_sites sites.items ≡ crossing.crossing_sites needs.now groups.now) }
{
    let mut sites = Vec::new(alloc);
    for site in needs.sites.as_slice() {
        if crosses(groups, site) {
            sites.push(site)?;
        }
    }
    Ok(sites)
}

/// How many targets crossing sites have together. `None` if the number takes more than a word of this machine.
pub fn target_count(sites: &[&SiteNeed]) -> Option<usize>
    ensures { IfSome result (λ n. n ≡ crossing.target_count (seen_sites sites.now)) }
{
    let mut count: usize = 0;
    for site in sites {
        count = count.checked_add(site.targets.len())?;
    }
    Some(count)
}

/// The call of a site, by the site's number.
fn call_of(site: &SiteNeed, number: usize) -> Result<CallSite, AllocError>
    ensures { IfOk result (λ call. call ≡ record { block = site.now.block; place = site.now.inst; number = number }) }
{
    let Ok(number) = u32::try_from(number) else {
        return Err(AllocError);
    };
    Ok(CallSite {
        block: site.block,
        place: site.inst,
        number,
    })
}

/// Adds the call of a site, by the site's number, if the site is in the function.
fn add_call(
    calls: &mut Vec<CallSite>,
    site: &SiteNeed,
    number: usize,
    func: usize,
) -> Result<(), AllocError>
    ensures { OnOk result (calls.new.items ≡ calls.old.items ++ call_sites_among number (site.now ∷ []) func) }
{
    if site.func as usize == func {
        calls.push(call_of(site, number)?)?;
    }
    Ok(())
}

/// The calls of a function among crossing sites, each with its number among these.
///
/// # Errors
///
/// There is no memory, or a number takes more than 32 bits.
pub fn call_sites(
    alloc: Global,
    sites: &[&SiteNeed],
    func: usize,
) -> Result<Vec<CallSite>, AllocError>
    ensures exact { IfOk result (λ calls. calls.items ≡ call_sites_among 0 (seen_sites sites.now) func) }
    ensures small { IfOk result (λ calls. All (λ (s : CallSite). s.number < length sites.now) calls.items) }
{
    let mut calls = Vec::new(alloc);
    for (number, site) in sites.iter().enumerate() {
        add_call(&mut calls, site, number, func)?;
    }
    Ok(calls)
}

/// The locals that are lent: the lendable ones, if there are compartments to lend them to.
pub fn lent_locals<'a>(needs: &'a Needs, groups: &Groups) -> &'a [(u32, u32)]
    ensures { result.now ≡ lending.lent needs.now groups.now }
{
    if groups.count > 1 {
        needs.lendable.as_slice()
    } else {
        &[]
    }
}
