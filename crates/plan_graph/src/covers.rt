//! Covers: the windows of the peripherals that compartments use.

ghost use Rattle.std.specs.Prelude.{◌≡◌, length, map, filter, IfOk};
ghost use Rattle.plan_model.specs.Groups as sets;
ghost use Rattle.plan_model.specs.InitialGraph as initial;
ghost use Rattle.plan_model.specs.Lists.{numbers_below};
ghost use Rattle.ir_program.specs.Seen.{program_of};

use crate::uses;
use base_lists::ListVec;
use ir_program::program::Program;
use plan_model::graph::Cover;
use plan_model::groups::Groups;
use plan_model::needs::Needs;
use std::alloc::{AllocError, Global};

/// The windows of the peripherals that a compartment uses, in order of declaration.
fn windows(
    alloc: Global,
    program: &Program,
    needs: &Needs,
    groups: &Groups,
    compartment: u32,
) -> Result<Vec<Cover>, AllocError>
    requires { length groups.now.of ≡ length needs.now.funcs }
    ensures { IfOk result (λ covers. covers.items ≡ map (initial.cover_of (program_of program.now)) (filter (sets.uses needs.now groups.now compartment) (numbers_below (length (program_of program.now).periphs)))) }
{
    let spans = program.periphs.as_slice();
    let Ok(count) = u32::try_from(spans.len()) else {
        return Err(AllocError);
    };
    let mut covers = Vec::new(alloc);
    for periph in 0..count {
        if uses(needs, groups, compartment, periph) {
            let span = spans[periph as usize];
            covers.push(Cover {
                base: span.base,
                size: span.size,
            })?;
        }
    }
    Ok(covers)
}

/// The covers of a compartment, in order of their bases.
fn covers(
    alloc: Global,
    program: &Program,
    needs: &Needs,
    groups: &Groups,
    compartment: u32,
) -> Result<Vec<Cover>, AllocError>
    requires { length groups.now.of ≡ length needs.now.funcs }
    ensures { IfOk result (λ covers. covers.items ≡ initial.covers_of (program_of program.now) needs.now groups.now compartment) }
{
    let mut covers = windows(alloc, program, needs, groups, compartment)?;
    covers.sort_by(|a, b| a.base.cmp(&b.base))?;
    Ok(covers)
}

/// The covers of each compartment.
///
/// # Errors
///
/// There is no memory for them.
pub(crate) fn all_covers(
    alloc: Global,
    program: &Program,
    needs: &Needs,
    groups: &Groups,
) -> Result<Vec<ListVec<Cover>>, AllocError>
    requires { length groups.now.of ≡ length needs.now.funcs }
    ensures { IfOk result (λ all. all.items ≡ map (initial.covers_of (program_of program.now) needs.now groups.now) (numbers_below groups.now.count)) }
{
    let mut all = Vec::new(alloc);
    for compartment in 0..groups.count {
        all.push(ListVec::new(covers(alloc, program, needs, groups, compartment)?))?;
    }
    Ok(all)
}
