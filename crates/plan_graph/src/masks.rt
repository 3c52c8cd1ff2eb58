//! Masks: which lendable locals compartments reach.

ghost use Rattle.std.specs.Prelude.{◌≡◌, length, map, IfOk};
ghost use Rattle.plan_model.specs.InitialGraph as initial;
ghost use Rattle.plan_model.specs.Lists.{numbers_below};
ghost use Rattle.plan_graph.specs.ReachMasks.{reach_mask_of};

use crate::{reaches, writes};
use ir_model::object::ObjId;
use plan_model::groups::Groups;
use plan_model::needs::Needs;
use std::alloc::{AllocError, Global};

/// The greatest number of bits in a mask.
const BITS: usize = 32;

/// Bit i tells whether a compartment's functions may write lendable local i.
fn mask(needs: &Needs, groups: &Groups, compartment: u32) -> u32
    requires { length groups.now.of ≡ length needs.now.funcs }
    ensures { result ≡ initial.mask_of needs.now groups.now compartment }
{
    let locals = needs.lendable.as_slice();
    let mut left = locals.len().min(BITS);
    let mut mask = 0u32;
    while left > 0 {
        left -= 1;
        let (func, local) = locals[left];
        let object = ObjId::Local { func, local };
        mask = 2 * mask + u32::from(writes(needs, groups, compartment, &object));
    }
    mask
}

/// Bit i tells whether a compartment's functions may write or read lendable local i.
fn reach_mask(needs: &Needs, groups: &Groups, compartment: u32) -> u32
    requires { length groups.now.of ≡ length needs.now.funcs }
    ensures { result ≡ reach_mask_of needs.now groups.now compartment }
{
    let locals = needs.lendable.as_slice();
    let mut left = locals.len().min(BITS);
    let mut mask = 0u32;
    while left > 0 {
        left -= 1;
        let (func, local) = locals[left];
        let object = ObjId::Local { func, local };
        mask = 2 * mask + u32::from(reaches(needs, groups, compartment, &object));
    }
    mask
}

/// The read mask of a compartment: on an open board it is 0.
fn read_mask(needs: &Needs, groups: &Groups, compartment: u32) -> u32
    requires { length groups.now.of ≡ length needs.now.funcs }
    ensures { result ≡ initial.read_mask_of needs.now groups.now compartment }
{
    if needs.closed {
        reach_mask(needs, groups, compartment)
    } else {
        0
    }
}

/// The mask of each compartment.
///
/// # Errors
///
/// There is no memory for them.
pub(crate) fn masks(alloc: Global, needs: &Needs, groups: &Groups) -> Result<Vec<u32>, AllocError>
    requires { length groups.now.of ≡ length needs.now.funcs }
    ensures { IfOk result (λ masks. masks.items ≡ map (initial.mask_of needs.now groups.now) (numbers_below groups.now.count)) }
{
    let mut masks = Vec::new(alloc);
    for compartment in 0..groups.count {
        masks.push(mask(needs, groups, compartment))?;
    }
    Ok(masks)
}

/// The read mask of each compartment.
///
/// # Errors
///
/// There is no memory for them.
pub(crate) fn read_masks(
    alloc: Global,
    needs: &Needs,
    groups: &Groups,
) -> Result<Vec<u32>, AllocError>
    requires { length groups.now.of ≡ length needs.now.funcs }
    ensures { IfOk result (λ masks. masks.items ≡ map (initial.read_mask_of needs.now groups.now) (numbers_below groups.now.count)) }
{
    let mut masks = Vec::new(alloc);
    for compartment in 0..groups.count {
        masks.push(read_mask(needs, groups, compartment))?;
    }
    Ok(masks)
}
