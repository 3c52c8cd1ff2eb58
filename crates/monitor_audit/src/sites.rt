//! The check of sites, of their targets and of `main`.

ghost use Rattle.std.specs.Prelude.{◌≡◌, ◌+◌, ◌*◌, ◌<◌, ◌^◌, length};
ghost use Rattle.monitor_model.specs.Checks as checks;
ghost use Rattle.monitor_audit.specs.Reach.{IsInReach};

use crate::places::places_of;
use monitor_model::{SiteRecord, Tables, TargetRecord};

/// Whether the site has 1 to 64 targets, all of them in the list.
fn is_site(tables: &Tables, site: &SiteRecord) -> bool
    ensures { result ≡ checks.is_site tables.now site.now }
{
    1 <= site.count
        && site.count <= 64
        && u64::from(site.first) + u64::from(site.count) <= tables.targets.len() as u64
}

/// Whether an address is an odd entry in a compartment's code.
fn is_entry(tables: &Tables, entry: u32, compartment: u32) -> bool
    ensures { result ≡ checks.is_entry tables.now entry compartment }
{
    match tables.comps.as_slice().get(compartment as usize) {
        Some(found) => entry % 2 == 1 && found.code.holds(entry),
        None => false,
    }
}

/// Whether the target's entry is one of its compartment.
fn is_target(tables: &Tables, target: &TargetRecord) -> bool
    ensures { result ≡ checks.is_target tables.now target.now }
{
    is_entry(tables, target.entry, target.compartment)
}

/// The address of the first site's record that fails.
fn site_fault(tables: &Tables, start: u32) -> Option<u32>
    requires { start + 12 * length tables.now.sites < 2 ^ 32 }
    ensures { result ≡ checks.each_record (checks.is_site tables.now) start 12 tables.now.sites }
{
    let mut at = start;
    for site in tables.sites.as_slice() {
        if !is_site(tables, site) {
            return Some(at);
        }
        at += 12;
    }
    None
}

/// The address of the first target's record that fails.
fn target_fault(tables: &Tables, start: u32) -> Option<u32>
    requires { start + 8 * length tables.now.targets < 2 ^ 32 }
    ensures { result ≡ checks.each_record (checks.is_target tables.now) start 8 tables.now.targets }
{
    let mut at = start;
    for target in tables.targets.as_slice() {
        if !is_target(tables, target) {
            return Some(at);
        }
        at += 8;
    }
    None
}

/// The address of the first site's record that fails, else of the first target's, and else the base of flash where `main` is no entry.
pub fn sites_fault(tables: &Tables) -> Option<u32>
    requires { IsInReach tables.now }
    ensures { result ≡ checks.sites_fail tables.now }
{
    let places = places_of(tables);
    if let Some(at) = site_fault(tables, places.sites) {
        return Some(at);
    }
    if let Some(at) = target_fault(tables, places.targets) {
        return Some(at);
    }
    if is_entry(tables, tables.main, tables.main_comp) {
        None
    } else {
        Some(tables.base)
    }
}
