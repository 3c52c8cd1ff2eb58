//! The lines of functions.

ghost use Rattle.std.specs.Prelude.{◌≡◌, ◌++◌, map, option_map, Some, OnOk};
ghost use Rattle.std.specs.Borrow.{Bor};
ghost use Rattle.std.specs.List.{slice_get};
ghost use Rattle.ir_model.specs.declared.firmware.Binding.{Binding as BindingValue};
ghost use Rattle.ir_model.specs.Types.{type_of, result_of};
ghost use Rattle.ir_model.specs.Plain.{binding_of, func_of, firmware_of};
ghost use Rattle.ir_model.specs.Resolve.{main_name};
ghost use Rattle.ir_check_details.specs.Found as found;
ghost use Rattle.ir_check_details.specs.Functions as lines;

use crate::calls::{put_inst, put_term};
use crate::instructions::put_signature;
use crate::lookup::{Site, block_named, func_named};
use crate::wording::{put, put_expected, put_found_typed};
use base_names::Name;
use ir_check_scopes::kinds::is_register_type;
use ir_model::firmware::{Binding, Block, Firmware, Func};
use ir_model::types::Ty;
use std::alloc::AllocError;

/// Puts the lines of the instruction of a number, or of the block's end.
fn put_stand(
    out: &mut Vec<u8>,
    site: &Site<'_>,
    block: &Block,
    number: u32,
) -> Result<(), AllocError>
    ensures { OnOk result (out.new.items ≡ out.old.items ++ lines.stand_lines (firmware_of site.now.firmware.now) (func_of site.now.func.now) block.now number (slice_get block.now.insts number)) }
{
    let insts = block.insts.as_slice();
    match insts.get(number as usize) {
        Some(inst) => put_inst(out, site, inst),
        None => {
            if number as usize == insts.len() {
                put_term(out, site, &block.term)
            } else {
                Ok(())
            }
        }
    }
}

/// Puts the lines of an instruction of the block of a label.
fn put_in_block(
    out: &mut Vec<u8>,
    site: &Site<'_>,
    label: &Name,
    number: u32,
) -> Result<(), AllocError>
    ensures { OnOk result (out.new.items ≡ out.old.items ++ lines.block_lines (firmware_of site.now.firmware.now) (func_of site.now.func.now) number (found.block_named site.now.func.now.blocks label.now)) }
{
    match block_named(site.func.blocks.as_slice(), label.as_slice()) {
        None => Ok(()),
        Some(block) => put_stand(out, site, block, number),
    }
}

/// Puts the lines of an instruction of a function.
fn put_in_func(
    out: &mut Vec<u8>,
    firmware: &Firmware,
    func: &Func,
    label: &Name,
    number: u32,
) -> Result<(), AllocError>
    ensures { OnOk result (out.new.items ≡ out.old.items ++ lines.place_lines (firmware_of firmware.now) label.now number (Some (func_of func.now))) }
{
    let integer = Ty::U32;
    let site = Site {
        firmware,
        func,
        number: &integer,
    };
    put_in_block(out, &site, label, number)
}

/// Puts the lines of an instruction, by the names of its function and of its block.
pub(crate) fn put_place(
    out: &mut Vec<u8>,
    firmware: &Firmware,
    func: &Name,
    label: &Name,
    number: u32,
) -> Result<(), AllocError>
    ensures { OnOk result (out.new.items ≡ out.old.items ++ lines.place_lines (firmware_of firmware.now) label.now number (found.func_in (firmware_of firmware.now).files func.now)) }
{
    match func_named(firmware.files.as_slice(), func.as_slice()) {
        None => Ok(()),
        Some(func) => put_in_func(out, firmware, func, label, number),
    }
}

/// The first binding that is of no register type.
fn no_register<'s>(bindings: &'s [Binding]) -> Option<&'s Binding>
    ensures { option_map (λ (s : Bor BindingValue). binding_of s.now) result ≡ lines.no_register (map binding_of bindings.now) }
{
    match bindings {
        [] => None,
        [binding, more @ ..] => {
            if is_register_type(&binding.ty) {
                no_register(more)
            } else {
                Some(binding)
            }
        }
    }
}

/// Puts the lines of a binding that is of no register type.
fn put_binding(out: &mut Vec<u8>, name: &[u8], ty: &Ty) -> Result<(), AllocError>
    ensures { OnOk result (out.new.items ≡ out.old.items ++ lines.binding_lines (record { name = name.now; ty = type_of ty.now })) }
{
    put_found_typed(out, name, ty)?;
    put_expected(out, b"u32, a pointer or a function")
}

/// Puts the lines of the first register that is of no register type.
fn put_odd_register(out: &mut Vec<u8>, regs: &[Binding]) -> Result<(), AllocError>
    ensures { OnOk result (out.new.items ≡ out.old.items ++ lines.odd_binding_lines (lines.no_register (map binding_of regs.now))) }
{
    match no_register(regs) {
        None => Ok(()),
        Some(binding) => put_binding(out, binding.name.as_slice(), &binding.ty),
    }
}

/// Puts the lines of the result or the first register that is of no register type.
fn put_odd_result(
    out: &mut Vec<u8>,
    outcome: &Option<Ty>,
    regs: &[Binding],
) -> Result<(), AllocError>
    ensures { OnOk result (out.new.items ≡ out.old.items ++ lines.odd_binding_lines (lines.no_register (lines.result_binding (result_of outcome.now) ++ map binding_of regs.now))) }
{
    match outcome {
        None => put_odd_register(out, regs),
        Some(ty) => {
            if is_register_type(ty) {
                put_odd_register(out, regs)
            } else {
                put_binding(out, b"result", ty)
            }
        }
    }
}

/// Puts the lines of the first parameter, result or register that is of no register type.
#[tactic(auto, using(crate::proofs::FirstNamed::odd_first, crate::proofs::FirstNamed::odd_later))]
fn put_odd(out: &mut Vec<u8>, func: &Func) -> Result<(), AllocError>
    ensures { OnOk result (out.new.items ≡ out.old.items ++ lines.func_lines (Some (func_of func.now))) }
{
    match no_register(func.params.as_slice()) {
        Some(binding) => put_binding(out, binding.name.as_slice(), &binding.ty),
        None => put_odd_result(out, &func.result, func.regs.as_slice()),
    }
}

/// Puts the lines of the function of a name, where a parameter, the result or a register is of no register type.
pub(crate) fn put_func(
    out: &mut Vec<u8>,
    firmware: &Firmware,
    func: &Name,
) -> Result<(), AllocError>
    ensures { OnOk result (out.new.items ≡ out.old.items ++ lines.func_lines (found.func_in (firmware_of firmware.now).files func.now)) }
{
    match func_named(firmware.files.as_slice(), func.as_slice()) {
        None => Ok(()),
        Some(func) => put_odd(out, func),
    }
}

/// Puts the line of a function `main`.
fn put_found_main(out: &mut Vec<u8>, func: &Func) -> Result<(), AllocError>
    ensures { OnOk result (out.new.items ≡ out.old.items ++ lines.found_main (Some (func_of func.now))) }
{
    put(out, b"found ")?;
    put(out, b"main")?;
    put(out, b":")?;
    put_signature(out, func)?;
    put(out, b"\n")
}

/// Puts the line of the function `main`, where there is one.
fn put_any_main(out: &mut Vec<u8>, firmware: &Firmware) -> Result<(), AllocError>
    ensures { OnOk result (out.new.items ≡ out.old.items ++ lines.found_main (found.func_in (firmware_of firmware.now).files main_name)) }
{
    match func_named(firmware.files.as_slice(), b"main") {
        None => Ok(()),
        Some(func) => put_found_main(out, func),
    }
}

/// Puts the lines of a firmware without a function `main` that takes and gives nothing.
pub(crate) fn put_main(out: &mut Vec<u8>, firmware: &Firmware) -> Result<(), AllocError>
    ensures { OnOk result (out.new.items ≡ out.old.items ++ lines.main_lines (firmware_of firmware.now)) }
{
    put_any_main(out, firmware)?;
    put_expected(out, b"main: fn ( )")
}
