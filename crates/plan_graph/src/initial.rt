//! The graph of compartments before any join.

ghost use Rattle.std.specs.Prelude.{◌≡◌, length, IfOk};
ghost use Rattle.ir_program.specs.Seen.{program_of};
ghost use Rattle.plan_model.specs.InitialGraph.{initial_graph};

use crate::covers::all_covers;
use crate::masks::{masks, read_masks};
use crate::regions::{regions, unwritten};
use crate::users::all_users;
use base_lists::ListVec;
use ir_program::program::Program;
use plan_model::graph::Graph;
use plan_model::groups::Groups;
use plan_model::needs::Needs;
use std::alloc::{AllocError, Global};

/// The graph of compartments before any join: which of them write and read which globals, and which windows of peripherals
/// and which lendable locals each has. The needs are of as many functions as stand in the compartments.
///
/// # Errors
///
/// There is no memory for it, or there are more globals or peripherals than a number of 32 bits tells.
pub fn initial(
    alloc: Global,
    program: &Program,
    needs: &Needs,
    groups: Groups,
) -> Result<Graph, AllocError>
    requires { length groups.of ≡ length needs.now.funcs }
    ensures { IfOk result (λ graph. graph ≡ initial_graph (program_of program.now) needs.now groups) }
{
    let Ok(globals) = u32::try_from(program.globals.len()) else {
        return Err(AllocError);
    };
    let users = all_users(alloc, needs, &groups, globals)?;
    let regions = regions(alloc, &users)?;
    let unwritten = unwritten(alloc, &users)?;
    let covers = all_covers(alloc, program, needs, &groups)?;
    let masks = masks(alloc, needs, &groups)?;
    let reads = read_masks(alloc, needs, &groups)?;
    Ok(Graph {
        groups,
        regions: ListVec::new(regions),
        unwritten: ListVec::new(unwritten),
        covers: ListVec::new(covers),
        masks: ListVec::new(masks),
        reads: ListVec::new(reads),
    })
}
