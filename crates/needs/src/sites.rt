//! The calls of a function in the order of its text.

ghost use Rattle.std.specs.Prelude.{◌≡◌, ◌<◌, ◌++◌, ◌∷◌, [], List, OnOk, length};
ghost use Rattle.ir_model.specs.Layout.{Known};
ghost use Rattle.ir_model.specs.Resolved as plain;
ghost use Rattle.ir_model.specs.Resolved.{Does, func_at, block_at, here};
ghost use Rattle.ir_program.specs.Parts.{operation_of};
ghost use Rattle.ir_program.specs.Seen.{program_of};
ghost use Rattle.ir_laws.specs.Sets.{ObjectSets};
ghost use Rattle.plan_model.specs.Calls.{calls_from, calls_of};
ghost use Rattle.needs.specs.Accesses.{HasTargets};
ghost use Rattle.needs.specs.Bounds.{HasSmallNumbers, RegistersAreThere};
ghost use Rattle.needs.specs.Sites.{CallsBelow, Adds};

use base_lists::ListVec;
use ir_program::program::{Operation, Program};
use plan_model::needs::SiteNeed;
use std::alloc::{AllocError, Global};

/// Where an instruction stands.
#[derive(Clone, Copy)]
struct InstPlace {
    /// The function.
    func: u32,
    /// The block of that function.
    block: u32,
    /// Its place in that block.
    inst: u32,
}

// A call of these functions.
fn push(place: InstPlace, targets: Vec<u32>, sites: &mut Vec<SiteNeed>) -> Result<(), AllocError>
    ensures { OnOk result (sites.new.items ≡ sites.old.items ++ record { func = place.func; block = place.block; inst = place.inst; targets = targets.items } ∷ []) }
{
    sites.push(SiteNeed {
        func: place.func,
        block: place.block,
        inst: place.inst,
        targets: ListVec::new(targets),
    })?;
    Ok(())
}

fn push_site(
    alloc: Global,
    place: InstPlace,
    operation: &Operation,
    targets: &[ListVec<u32>],
    sites: &mut Vec<SiteNeed>,
) -> Result<(), AllocError>
    requires { CallsBelow (length targets.now) operation.now }
    ensures { OnOk result ((p : plain.Program) (S : ObjectSets) (ks : List Known) → HasTargets p S place.func targets.now
        → here p place.func place.block place.inst ≡ Does (operation_of ks operation.now)
        → Adds p S sites.old.items sites.new.items (calls_from place.func place.block place.inst (operation_of ks operation.now ∷ []))) }
{
    match operation {
        Operation::Call { func, .. } => {
            let called = vec![in alloc; u32::from(*func)]?;
            push(place, called, sites)
        }
        Operation::ICall { func, .. } => {
            let called = Vec::from_slice(alloc, targets[*func].as_slice())?;
            push(place, called, sites)
        }
        Operation::Const { .. } => Ok(()),
        Operation::Move { .. } => Ok(()),
        Operation::Bin { .. } => Ok(()),
        Operation::Cmp { .. } => Ok(()),
        Operation::Addr { .. } => Ok(()),
        Operation::FAddr { .. } => Ok(()),
        Operation::Elem { .. } => Ok(()),
        Operation::Field { .. } => Ok(()),
        Operation::Load { .. } => Ok(()),
        Operation::Store { .. } => Ok(()),
    }
}

fn push_block_sites(
    alloc: Global,
    program: &Program,
    func: usize,
    block: usize,
    targets: &[ListVec<u32>],
    sites: &mut Vec<SiteNeed>,
) -> Result<(), AllocError>
    requires func { func < length program.now.funcs }
    requires block { block < length (func_at (program_of program.now) func).blocks }
    requires numbers { HasSmallNumbers (program_of program.now) }
    requires registers { RegistersAreThere (program_of program.now) }
    requires count { length targets.now ≡ length (func_at (program_of program.now) func).regs }
    ensures { OnOk result ((S : ObjectSets) → HasTargets (program_of program.now) S func targets.now → Adds (program_of program.now) S sites.old.items sites.new.items (calls_from func block 0 (block_at (program_of program.now) func block).insts)) }
{
    let blocks = program.funcs.as_slice()[func].blocks.as_slice();
    let operations = blocks[block].operations.as_slice();
    for i in 0..operations.len() {
        let place = InstPlace {
            func: func as u32,
            block: block as u32,
            inst: i as u32,
        };
        push_site(alloc, place, &operations[i], targets, sites)?;
    }
    Ok(())
}

/// Puts the calls of a function behind others, in the order of its text: `targets` has the functions that a call through each of its
/// registers may go to.
///
/// # Errors
///
/// There is no memory for them.
pub fn push_sites(
    alloc: Global,
    program: &Program,
    func: usize,
    targets: &[ListVec<u32>],
    sites: &mut Vec<SiteNeed>,
) -> Result<(), AllocError>
    requires func { func < length program.now.funcs }
    requires numbers { HasSmallNumbers (program_of program.now) }
    requires registers { RegistersAreThere (program_of program.now) }
    requires count { length targets.now ≡ length (func_at (program_of program.now) func).regs }
    ensures { OnOk result ((S : ObjectSets) → HasTargets (program_of program.now) S func targets.now → Adds (program_of program.now) S sites.old.items sites.new.items (calls_of (program_of program.now) func)) }
{
    for block in 0..program.funcs.as_slice()[func].blocks.len() {
        push_block_sites(alloc, program, func, block, targets, sites)?;
    }
    Ok(())
}
