//! The test of the limits of what is compiled.
#![tactic(auto)]

ghost use Rattle.std.specs.Prelude.{◌≡◌, ◌-◌, ◌^◌, length, min, option_map};
ghost use Rattle.plan_model.specs.CompileLimits.{first_passed, wide_site};
ghost use Rattle.plan_model.specs.Crossing as crossing;
ghost use Rattle.plan_limits.specs.Told.{in_32_bits};

use plan_crossings::{crosses, lent_locals};
use plan_model::groups::Groups;
use plan_model::limits::{COMPARTMENT_LIMIT, LENT_LIMIT, LimitKind, SITE_LIMIT, TARGET_LIMIT};
use plan_model::needs::Needs;

/// How many calls may go to another compartment.
fn site_count(needs: &Needs, groups: &Groups) -> usize
    ensures { result ≡ length (crossing.crossing_sites needs.now groups.now) }
{
    let mut count = 0;
    for site in needs.sites.as_slice() {
        if crosses(groups, site) {
            count += 1;
        }
    }
    count
}

/// The number of targets of the first crossing site that has too many.
fn wide_count(needs: &Needs, groups: &Groups) -> Option<usize>
    ensures { result ≡ option_map (λ s. length s.targets) (wide_site needs.now groups.now) }
{
    for site in needs.sites.as_slice() {
        if crosses(groups, site) && site.targets.len() > TARGET_LIMIT {
            return Some(site.targets.len());
        }
    }
    None
}

/// A count in 32 bits, or the greatest number of 32 bits where it passes that.
fn counted(count: usize) -> u32
    ensures { result ≡ min count (2 ^ 32 - 1) }
{
    u32::try_from(count).unwrap_or(u32::MAX)
}

/// The first limit that is passed, with its count. Takes no memory.
///
/// A count that passes 32 bits, as that of no checked firmware does, is told as the greatest number of 32 bits.
pub fn passed_limit(needs: &Needs, groups: &Groups) -> Option<(LimitKind, u32)>
    ensures { result ≡ option_map in_32_bits (first_passed needs.now groups.now) }
{
    if groups.count > COMPARTMENT_LIMIT {
        return Some((LimitKind::Compartments, groups.count));
    }
    let lent = lent_locals(needs, groups).len();
    if lent > LENT_LIMIT {
        return Some((LimitKind::Lent, counted(lent)));
    }
    let sites = site_count(needs, groups);
    if sites > SITE_LIMIT {
        return Some((LimitKind::Sites, counted(sites)));
    }
    match wide_count(needs, groups) {
        None => None,
        Some(targets) => Some((LimitKind::Targets, counted(targets))),
    }
}
