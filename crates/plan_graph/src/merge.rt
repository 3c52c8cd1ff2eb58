//! The graph that the protection unit can hold.

ghost use Rattle.std.specs.Prelude.{◌≤◌, ◌<◌, ◌+◌, ℕ, [], length, get_or, IfOk};
ghost use Rattle.ir_program.specs.Seen.{program_of};
ghost use Rattle.plan_model.specs.FinalGraph.{IsMerged};
ghost use Rattle.plan_model.specs.Regions.{regions_used};

use crate::merging::merging_of;
use ir_program::program::Program;
use plan_model::graph::{Final, Graph};
use std::alloc::{AllocError, Global};

/// The graph after as many joins as there are: data regions and covers are joined until no compartment has more of both than
/// there are slots.
///
/// # Errors
///
/// There is no memory for it, the exposure that a join adds has more than 64 bits, or the size of a joined cover more than 32.
pub fn merge(
    alloc: Global,
    program: &Program,
    graph: Graph,
    slots: u32,
) -> Result<Final, AllocError>
    requires { 2 ≤ slots }
    ensures merged { IfOk result (λ last. IsMerged (program_of program.now) slots graph last) }
    ensures few { IfOk result (λ last. (c : ℕ) → c < last.groups.count → length (regions_used last.regions c) + length (get_or last.covers c []) ≤ slots) }
{
    let mut merging = merging_of(alloc, program, graph)?;
    while merging.join(alloc, slots)? {}
    Ok(merging.into_graph().into_final())
}
