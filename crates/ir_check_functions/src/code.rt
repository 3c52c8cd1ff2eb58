//! Instructions, block ends and blocks.

ghost use Rattle.std.specs.Prelude.{◌≤◌, length};
ghost use Rattle.std.specs.List.{All};
ghost use Rattle.ir_model.specs.declared.firmware.Block.{Block as Code};
ghost use Rattle.ir_model.specs.Plain.{func_of, firmware_of};
ghost use Rattle.ir_model.specs.TextLimits.{instruction_limit};
ghost use Rattle.ir_model.specs.Typing.{blocks_checks, code_checks};
ghost use Rattle.ir_check_scopes.specs.Found.{Finds};
ghost use Rattle.ir_check_functions.specs.FunctionParts.{inst_check, term_check};
ghost use Rattle.ir_check_scopes.specs.Spots.{place_of};

use crate::register_names::{inst_names, term_names};
use crate::{inst_fits, term_fits};
use ir_check_scopes::found::require;
use ir_check_scopes::{CheckFault, CheckPlaceRef, FuncScope, Scope};
use ir_model::check::CheckKind;
use ir_model::firmware::{Block, Inst, Term};

#[tactic(auto, using(ir_check_scopes::proofs::Order::checks_in_order))]
fn inst(scope: &Scope, func: &FuncScope, spot: CheckPlaceRef, inst: &Inst) -> Result<(), CheckFault>
    ensures { Finds (inst_check (firmware_of scope.now.firmware.now) (func_of func.now.func.now) (place_of spot.entry) inst.now) result }
{
    inst_names(scope, func, spot, inst)?;
    require(inst_fits(scope, func, inst), CheckKind::IllTyped, spot)?;
    Ok(())
}

#[tactic(auto, using(ir_check_scopes::proofs::Order::checks_in_order))]
fn term(func: &FuncScope, spot: CheckPlaceRef, term: &Term) -> Result<(), CheckFault>
    ensures { Finds (term_check (func_of func.now.func.now) (place_of spot.entry) term.now) result }
{
    term_names(func, spot, term)?;
    require(term_fits(func, term), CheckKind::IllTyped, spot)?;
    Ok(())
}

fn block(scope: &Scope, func: &FuncScope, block: &Block) -> Result<(), CheckFault>
    requires { length block.now.insts ≤ instruction_limit }
    ensures { Finds (code_checks (firmware_of scope.now.firmware.now) (func_of func.now.func.now) block.now.label 0 block.now.insts block.now.term) result }
{
    let insts = block.insts.as_slice();
    for i in 0..insts.len() {
        let spot = CheckPlaceRef::Inst(&func.func.name, &block.label, i as u32);
        inst(scope, func, spot, &insts[i])?;
    }
    let spot = CheckPlaceRef::Inst(&func.func.name, &block.label, insts.len() as u32);
    term(func, spot, &block.term)?;
    Ok(())
}

/// The checks of blocks.
pub fn blocks(scope: &Scope, func: &FuncScope, blocks: &[Block]) -> Result<(), CheckFault>
    requires { All (λ (b : Code). length b.insts ≤ instruction_limit) blocks.now }
    ensures { Finds (blocks_checks (firmware_of scope.now.firmware.now) (func_of func.now.func.now) blocks.now) result }
{
    for code in blocks {
        block(scope, func, code)?;
    }
    Ok(())
}
