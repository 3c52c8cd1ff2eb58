//! The calls of a firmware, each with one of its targets.

ghost use Rattle.std.specs.Prelude.{◌↔◌, IfOk, Contains};
ghost use Rattle.need_lists.specs.AnyOf.{AnyOf};
ghost use Rattle.refine_stack.specs.declared.calls.Call as seen;
ghost use Rattle.refine_stack.specs.Listed.{IsCallTo, IsCallAt};

use plan_crossings::crosses;
use plan_model::groups::Groups;
use plan_model::needs::Needs;
use std::alloc::{AllocError, Global};

/// A call and one of its targets.
#[derive(Clone, Copy)]
pub(crate) struct Call {
    /// The function in which it stands.
    pub(crate) from: u32,
    /// The function that it may go to.
    pub(crate) to: u32,
    /// Whether it is a crossing site.
    pub(crate) crosses: bool,
}

/// The calls of a function to these targets.
fn calls_to(
    alloc: Global,
    from: u32,
    targets: &[u32],
    crosses: bool,
) -> Result<Vec<Call>, AllocError>
    ensures { IfOk result (λ calls. (x : seen.Call) → Contains calls.items x ↔ AnyOf (λ t. IsCallTo from crosses t x) targets.now) }
{
    let mut calls = Vec::new(alloc);
    for i in 0..targets.len() {
        let to = targets[i];
        calls.push(Call { from, to, crosses })?;
    }
    Ok(calls)
}

/// All calls of a firmware, each with each of its targets.
pub(crate) fn calls_of(
    alloc: Global,
    needs: &Needs,
    groups: &Groups,
) -> Result<Vec<Call>, AllocError>
    ensures { IfOk result (λ calls. (x : seen.Call) → Contains calls.items x ↔ AnyOf (λ s. IsCallAt groups.now s x) needs.now.sites) }
{
    let mut calls = Vec::new(alloc);
    let sites = needs.sites.as_slice();
    for i in 0..sites.len() {
        let site = &sites[i];
        let more = calls_to(
            alloc,
            site.func,
            site.targets.as_slice(),
            crosses(groups, site),
        )?;
        calls.extend_from_slice(more.as_slice())?;
    }
    Ok(calls)
}
