//! Needs as text.

use crate::sets::put_objects;
use anyhow::Result;
use plan_model::needs::{FuncNeed, Needs, SiteNeed};
use std::alloc::Global;

/// Puts a line of a heading and numbers, if there is one.
pub(crate) fn put_numbers(
    alloc: Global,
    text: &mut String,
    heading: &str,
    numbers: &[u32],
) -> Result<()> {
    if numbers.is_empty() {
        return Ok(());
    }
    text.push_str(heading)?;
    for number in numbers {
        let word = format!(in alloc; " {number}")?;
        text.push_str(word.as_str())?;
    }
    text.push_str("\n")?;
    Ok(())
}

fn put_need(alloc: Global, text: &mut String, func: usize, need: &FuncNeed) -> Result<()> {
    let heading = format!(in alloc; "func {func}\n")?;
    text.push_str(heading.as_str())?;
    put_objects(alloc, text, "written", need.written.as_slice())?;
    put_objects(alloc, text, "read", need.read.as_slice())?;
    put_numbers(alloc, text, "periphs", need.periphs.as_slice())?;
    put_numbers(alloc, text, "callees", need.callees.as_slice())
}

fn put_site(alloc: Global, text: &mut String, site: &SiteNeed) -> Result<()> {
    let SiteNeed {
        func,
        block,
        inst,
        ..
    } = site;
    let heading = format!(in alloc; "site {func}.{block}.{inst}")?;
    put_numbers(alloc, text, heading.as_str(), site.targets.as_slice())
}

/// Puts what each function needs, the sites and the lendable locals.
pub(crate) fn put_needs(alloc: Global, text: &mut String, needs: &Needs) -> Result<()> {
    let funcs = needs.funcs.as_slice();
    for func in 0..funcs.len() {
        put_need(alloc, text, func, &funcs[func])?;
    }
    for site in needs.sites.as_slice() {
        put_site(alloc, text, site)?;
    }
    for (func, local) in needs.lendable.as_slice() {
        let line = format!(in alloc; "lendable {func}.{local}\n")?;
        text.push_str(line.as_str())?;
    }
    Ok(())
}
