//! The lines of calls from compartment to compartment.

ghost use Rattle.std.specs.Prelude.{◌≡◌, ◌++◌, ◌&&◌, ◌<◌, OnOk, filter, flat_map, length, nat_eq};
ghost use Rattle.std.specs.List.{list_any};
ghost use Rattle.plan_model.specs.declared.needs.SiteNeed.{SiteNeed as TheSite};
ghost use Rattle.plan_model.specs.Crossing as crossing;
ghost use Rattle.plan_model.specs.Lists.{has};
ghost use Rattle.plan_report.specs.Subjects.{subject_of};
ghost use Rattle.aces_who.specs.Calls as calls;
ghost use Rattle.aces_who.specs.WhoLines as lines;

use plan_crossings::{compartment_of, crosses};
use plan_model::groups::Groups;
use plan_model::needs::SiteNeed;
use plan_report::naming::put_func;
use plan_report::subject::Subject;
use plan_report::text::Text;
use std::alloc::AllocError;

/// Whether a call is a crossing site of one function that may lead to another.
fn leads(groups: &Groups, site: &SiteNeed, caller: u32, callee: u32) -> bool
    ensures { result ≡ (crossing.crosses groups.now site.now && (nat_eq site.now.func caller && has site.now.targets callee)) }
{
    site.func == caller && site.targets.as_slice().contains(&callee) && crosses(groups, site)
}

/// Whether one of some calls is a crossing site of one function that may lead to another.
fn one_leads(groups: &Groups, sites: &[SiteNeed], caller: u32, callee: u32) -> bool
    ensures { result ≡ list_any (λ (k : TheSite). crossing.crosses groups.now k && (nat_eq k.func caller && has k.targets callee)) sites.now }
{
    sites.iter().any(|site| leads(groups, site, caller, callee))
}

/// Whether a function has a crossing site from which another one is called.
fn crosses_to(subject: &Subject<'_>, caller: u32, callee: u32) -> bool
    ensures { result ≡ calls.crosses_to (subject_of subject.now) caller callee }
{
    let sites = subject.needs.sites.as_slice();
    one_leads(&subject.graph.groups, sites, caller, callee)
}

/// Puts the line of a pair of functions.
fn put_call(
    text: &mut Text,
    subject: &Subject<'_>,
    caller: u32,
    callee: u32,
) -> Result<(), AllocError>
    ensures { OnOk result (text.new ≡ text.old ++ lines.call_line (subject_of subject.now) caller callee) }
{
    let groups = &subject.graph.groups;
    text.put(b"call ")?;
    put_func(text, subject.firmware, caller)?;
    text.put(b" ")?;
    put_func(text, subject.firmware, callee)?;
    text.put(b" ")?;
    text.put_decimal(u64::from(compartment_of(groups, caller)))?;
    text.put(b" ")?;
    text.put_decimal(u64::from(compartment_of(groups, callee)))?;
    text.put(b"\n")
}

/// Puts the lines of those of some functions that a function calls from crossing sites.
fn put_callees(
    text: &mut Text,
    subject: &Subject<'_>,
    caller: u32,
    callees: &[u32],
) -> Result<(), AllocError>
    ensures { OnOk result (text.new ≡ text.old ++ flat_map (lines.call_line (subject_of subject.now) caller) (filter (calls.crosses_to (subject_of subject.now) caller) callees.now)) }
{
    for i in 0..callees.len() {
        if crosses_to(subject, caller, callees[i]) {
            put_call(text, subject, caller, callees[i])?;
        }
    }
    Ok(())
}

/// Puts the lines of the functions that a function calls from crossing sites.
#[tactic(auto, unfolding(crate::specs::WhoLines::caller_lines))]
pub(crate) fn put_caller(
    text: &mut Text,
    subject: &Subject<'_>,
    caller: u32,
) -> Result<(), AllocError>
    requires { caller < length subject.now.needs.now.funcs }
    ensures { OnOk result (text.new ≡ text.old ++ lines.caller_lines (subject_of subject.now) caller) }
{
    let need = &subject.needs.funcs.as_slice()[caller as usize];
    put_callees(text, subject, caller, need.callees.as_slice())
}
