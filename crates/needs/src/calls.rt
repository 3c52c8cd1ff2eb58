//! The functions that a function may call.

ghost use Rattle.std.specs.Prelude.{◌↔◌, ◌⊎◌, ℕ, IfOk, OnOk, Contains, length};
ghost use Rattle.std.specs.List.{All};
ghost use Rattle.std.specs.Ordering.{nat_cmp};
ghost use Rattle.ir_model.specs.Resolved as plain;
ghost use Rattle.ir_laws.specs.Sets.{ObjectSets};
ghost use Rattle.plan_model.specs.Lists.{ListsExactly};
ghost use Rattle.need_lists.specs.AnyOf.{AnyOf};
ghost use Rattle.needs.specs.Accesses.{Calls, HasTargets};
ghost use Rattle.needs.specs.Bounds.{IsBelow};

use crate::instructions::Use;
use base_lists::ListVec;
use need_lists::each_once;
use std::alloc::{AllocError, Global};

fn push_callees(targets: &[ListVec<u32>], by: Use, callees: &mut Vec<u32>) -> Result<(), AllocError>
    requires { IsBelow (length targets.now) by }
    ensures { OnOk result ((p : plain.Program) (S : ObjectSets) (f : ℕ) (g : ℕ) → HasTargets p S f targets.now → Contains callees.new.items g ↔ (Contains callees.old.items g ⊎ Calls p S f g by)) }
{
    match by {
        Use::Call(func) => {
            callees.push(u32::from(func))?;
            Ok(())
        }
        Use::Indirect(register) => {
            callees.extend_from_slice(targets[register].as_slice())?;
            Ok(())
        }
        Use::Load(_) => Ok(()),
        Use::Store(_) => Ok(()),
    }
}

/// The functions that a function may call, in rising order: `targets` has those that a call through each register may go to.
///
/// # Errors
///
/// There is no memory for them.
pub fn callees(
    alloc: Global,
    targets: &[ListVec<u32>],
    uses: &[Use],
) -> Result<Vec<u32>, AllocError>
    requires { All (IsBelow (length targets.now)) uses.now }
    ensures { IfOk result (λ cs. (p : plain.Program) (S : ObjectSets) (f : ℕ) → HasTargets p S f targets.now → ListsExactly nat_cmp (λ g. AnyOf (Calls p S f g) uses.now) cs.items) }
{
    let mut callees = Vec::new(alloc);
    for i in 0..uses.len() {
        push_callees(targets, uses[i], &mut callees)?;
    }
    each_once(callees)
}
