//! The lines of the calls that may go to another compartment.

ghost use Rattle.std.specs.Prelude.{◌≡◌, ◌++◌, map, IfOk, OnOk};
ghost use Rattle.monitor_model.specs.declared.tables.SiteRecord as site_record;
ghost use Rattle.plan_crossings.specs.Seen.{seen_sites};
ghost use Rattle.plan_report.specs.Subjects.{subject_of};
ghost use Rattle.image_symbols.specs.SiteLines as lines;
ghost use Rattle.image_symbols.specs.Made.{AreMade};

use crate::rising::{Lying, rising};
use image_linker::LinkParts;
use monitor_model::SiteRecord;
use plan_crossings::crossing_sites;
use plan_model::needs::SiteNeed;
use plan_report::naming::put_func;
use plan_report::subject::Subject;
use plan_report::text::Text;
use std::alloc::{AllocError, Global};

/// Puts the name of a function behind a space.
fn put_target(text: &mut Text, subject: &Subject<'_>, func: u32) -> Result<(), AllocError>
    ensures { OnOk result (text.new ≡ text.old ++ lines.target_text (subject_of subject.now) func) }
{
    text.put(b" ")?;
    put_func(text, subject.firmware, func)
}

/// Puts the names of functions, each behind a space.
fn put_targets(text: &mut Text, subject: &Subject<'_>, funcs: &[u32]) -> Result<(), AllocError>
    ensures { OnOk result (text.new ≡ text.old ++ lines.target_texts (subject_of subject.now) funcs.now) }
{
    for i in 0..funcs.len() {
        put_target(text, subject, funcs[i])?;
    }
    Ok(())
}

/// Puts the line of a call that returns there.
fn put_call(
    text: &mut Text,
    subject: &Subject<'_>,
    address: u32,
    call: &SiteNeed,
) -> Result<(), AllocError>
    ensures { OnOk result (text.new ≡ text.old ++ lines.call_line (subject_of subject.now) address call.now) }
{
    text.put(b"site 0x")?;
    text.put_hexadecimal(8, address)?;
    text.put(b" ")?;
    put_func(text, subject.firmware, call.func)?;
    put_targets(text, subject, call.targets.as_slice())?;
    text.put(b"\n")
}

/// Puts the line of a crossing site that lies there.
fn put_site(
    text: &mut Text,
    subject: &Subject<'_>,
    calls: &[&SiteNeed],
    of: Lying,
) -> Result<(), AllocError>
    requires { seen_sites calls.now ≡ lines.sites (subject_of subject.now) }
    ensures { OnOk result (text.new ≡ text.old ++ lines.site_line (subject_of subject.now) of) }
{
    match calls.get(of.number as usize) {
        Some(call) => put_call(text, subject, of.address, call),
        None => Err(AllocError),
    }
}

/// The addresses to which sites return.
fn return_addresses(alloc: Global, sites: &[SiteRecord]) -> Result<Vec<u32>, AllocError>
    ensures { IfOk result (λ all. all.items ≡ map (λ (s : site_record.SiteRecord). s.ret) sites.now) }
{
    let mut all = Vec::new(alloc);
    for site in sites {
        all.push(site.ret)?;
    }
    Ok(all)
}

/// The crossing sites, in rising order of where they return to.
fn returns(
    alloc: Global,
    subject: &Subject<'_>,
    parts: &LinkParts,
) -> Result<Vec<Lying>, AllocError>
    requires { AreMade subject.now parts.now }
    ensures { IfOk result (λ all. all.items ≡ lines.rising_sites (subject_of subject.now)) }
{
    let addresses = return_addresses(alloc, parts.tables.sites.as_slice())?;
    rising(alloc, &addresses)
}

/// Puts the lines of crossing sites that lie there.
fn put_all(
    text: &mut Text,
    subject: &Subject<'_>,
    calls: &[&SiteNeed],
    sites: &[Lying],
) -> Result<(), AllocError>
    requires { seen_sites calls.now ≡ lines.sites (subject_of subject.now) }
    ensures { OnOk result (text.new ≡ text.old ++ lines.site_lines_of (subject_of subject.now) sites.now) }
{
    for i in 0..sites.len() {
        put_site(text, subject, calls, sites[i])?;
    }
    Ok(())
}

/// Puts the lines of crossing sites.
#[tactic(auto, unfolding(crate::specs::SiteLines::site_lines))]
pub(crate) fn put_sites(
    alloc: Global,
    text: &mut Text,
    subject: &Subject<'_>,
    parts: &LinkParts,
) -> Result<(), AllocError>
    requires { AreMade subject.now parts.now }
    ensures { OnOk result (text.new ≡ text.old ++ lines.site_lines (subject_of subject.now)) }
{
    let calls = crossing_sites(alloc, subject.needs, &subject.graph.groups)?;
    let sites = returns(alloc, subject, parts)?;
    put_all(text, subject, &calls, &sites)
}
