//! The register names and labels of instructions.

ghost use Rattle.std.specs.Prelude.{◌∷◌, []};
ghost use Rattle.ir_model.specs.Plain.{func_of, firmware_of};
ghost use Rattle.ir_model.specs.Typing.{registers_known, label_known, optional_name, inst_names, term_names, is_known, has_address};
ghost use Rattle.ir_check_scopes.specs.Found.{Finds};
ghost use Rattle.ir_check_scopes.specs.Spots.{place_of};

use base_names::Name;
use ir_check_scopes::found::require_known;
use ir_check_scopes::{CheckFault, CheckPlaceRef, FuncScope, Scope};
use ir_model::firmware::{Inst, Term};

fn one_known(func: &FuncScope, spot: CheckPlaceRef, name: &Name) -> Result<(), CheckFault>
    ensures { Finds (registers_known (func_of func.now.func.now) (place_of spot.entry) (name.now ∷ [])) result }
{
    require_known(func.registers.has(name), name, spot)
}

#[tactic(auto, using(ir_check_scopes::proofs::Order::checks_of_both))]
fn two_known(func: &FuncScope, spot: CheckPlaceRef, a: &Name, b: &Name) -> Result<(), CheckFault>
    ensures { Finds (registers_known (func_of func.now.func.now) (place_of spot.entry) (a.now ∷ b.now ∷ [])) result }
{
    one_known(func, spot, a)?;
    one_known(func, spot, b)?;
    Ok(())
}

#[tactic(auto, using(ir_check_scopes::proofs::Order::checks_of_both))]
fn three_known(
    func: &FuncScope,
    spot: CheckPlaceRef,
    a: &Name,
    b: &Name,
    c: &Name,
) -> Result<(), CheckFault>
    ensures { Finds (registers_known (func_of func.now.func.now) (place_of spot.entry) (a.now ∷ b.now ∷ c.now ∷ [])) result }
{
    one_known(func, spot, a)?;
    two_known(func, spot, b, c)?;
    Ok(())
}

fn all_known(func: &FuncScope, spot: CheckPlaceRef, names: &[Name]) -> Result<(), CheckFault>
    ensures { Finds (registers_known (func_of func.now.func.now) (place_of spot.entry) names.now) result }
{
    for name in names {
        one_known(func, spot, name)?;
    }
    Ok(())
}

fn kept_known(func: &FuncScope, spot: CheckPlaceRef, name: &Option<Name>) -> Result<(), CheckFault>
    ensures { Finds (registers_known (func_of func.now.func.now) (place_of spot.entry) (optional_name name.now)) result }
{
    match name {
        None => Ok(()),
        Some(name) => one_known(func, spot, name),
    }
}

fn label_known(func: &FuncScope, spot: CheckPlaceRef, label: &Name) -> Result<(), CheckFault>
    ensures { Finds (label_known (func_of func.now.func.now) (place_of spot.entry) label.now ∷ []) result }
{
    require_known(func.labels.has(label), label, spot)
}

fn address_known(
    scope: &Scope,
    func: &FuncScope,
    spot: CheckPlaceRef,
    name: &Name,
) -> Result<(), CheckFault>
    ensures { Finds (is_known (has_address (firmware_of scope.now.firmware.now) (func_of func.now.func.now) name.now) name.now (place_of spot.entry) ∷ []) result }
{
    let known = func.locals.has(name) || scope.periphs.has(name) || scope.globals.has(name);
    require_known(known, name, spot)
}

/// Whether each name of a block's end is there.
#[tactic(auto, using(ir_check_scopes::proofs::Order::checks_of_both))]
pub fn term_names(func: &FuncScope, spot: CheckPlaceRef, term: &Term) -> Result<(), CheckFault>
    ensures { Finds (term_names (func_of func.now.func.now) (place_of spot.entry) term.now) result }
{
    match term {
        Term::Jump(label) => label_known(func, spot, label),
        Term::Branch { on, yes, no } => {
            one_known(func, spot, on)?;
            label_known(func, spot, yes)?;
            label_known(func, spot, no)?;
            Ok(())
        }
        Term::Ret(value) => kept_known(func, spot, value),
    }
}

/// Whether each name of an instruction is there, from left to right.
#[tactic(auto, using(ir_check_scopes::proofs::Order::checks_of_both))]
pub fn inst_names(
    scope: &Scope,
    func: &FuncScope,
    spot: CheckPlaceRef,
    inst: &Inst,
) -> Result<(), CheckFault>
    ensures { Finds (inst_names (firmware_of scope.now.firmware.now) (func_of func.now.func.now) (place_of spot.entry) inst.now) result }
{
    match inst {
        Inst::Call {
            to,
            func: callee,
            args,
        } => {
            kept_known(func, spot, to)?;
            require_known(scope.funcs.has(callee), callee, spot)?;
            all_known(func, spot, args.as_slice())?;
            Ok(())
        }
        Inst::ICall {
            to,
            func: callee,
            args,
        } => {
            kept_known(func, spot, to)?;
            one_known(func, spot, callee)?;
            all_known(func, spot, args.as_slice())?;
            Ok(())
        }
        Inst::Addr { to, of } => {
            one_known(func, spot, to)?;
            address_known(scope, func, spot, of)?;
            Ok(())
        }
        Inst::FAddr { to, of } => {
            one_known(func, spot, to)?;
            require_known(scope.funcs.has(of), of, spot)?;
            Ok(())
        }
        Inst::Const { to, .. } => one_known(func, spot, to),
        Inst::Move { to, from } => two_known(func, spot, to, from),
        Inst::Bin { to, a, b, .. } => three_known(func, spot, to, a, b),
        Inst::Cmp { to, a, b, .. } => three_known(func, spot, to, a, b),
        Inst::Elem { to, base, index } => three_known(func, spot, to, base, index),
        Inst::Field { to, base, .. } => two_known(func, spot, to, base),
        Inst::Load { to, from } => two_known(func, spot, to, from),
        Inst::Store { to, from } => two_known(func, spot, to, from),
    }
}
