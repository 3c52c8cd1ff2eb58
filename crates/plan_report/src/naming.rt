//! The names of things by their numbers.

ghost use Rattle.std.specs.Prelude.{◌≡◌, ◌++◌, codes, map, get_or, [], OnOk};
ghost use Rattle.ir_model.specs.Plain.{file_of, firmware_of, func_of, names_of, binding_of};
ghost use Rattle.plan_report.specs.Names as names;

use crate::text::Text;
use ir_model::firmware::{Binding, FileDecl, Firmware, Func};
use std::alloc::AllocError;

/// The function of a number, counted over these files in order.
fn func_in(files: &[FileDecl], number: usize) -> Option<&Func>
    ensures { names.names_of_found result ≡ names.func_names_in (map file_of files.now) number }
{
    match files {
        [] => None,
        [file, more @ ..] => {
            let funcs = file.funcs.as_slice();
            if number < funcs.len() {
                Some(&funcs[number])
            } else {
                func_in(more, number - funcs.len())
            }
        }
    }
}

/// Puts the name of a function; nothing for an absent one.
///
/// # Errors
///
/// There is no memory for it.
pub fn put_func(text: &mut Text, firmware: &Firmware, func: u32) -> Result<(), AllocError>
    ensures { OnOk result (text.new ≡ text.old ++ names.func_name (firmware_of firmware.now) func) }
{
    match func_in(firmware.files.as_slice(), func as usize) {
        Some(found) => text.put(found.name.as_slice()),
        None => Ok(()),
    }
}

/// The name of the binding of a number; empty for an absent one.
#[tactic(auto, using(crate::proofs::Named::binding_found, crate::proofs::Named::binding_missing))]
fn binding_name(bindings: &[Binding], number: usize) -> &[u8]
    ensures { result.now ≡ get_or (names_of (map binding_of bindings.now)) number [] }
{
    if number < bindings.len() {
        bindings[number].name.as_slice()
    } else {
        b""
    }
}

/// The name of a function's local; empty for an absent one.
fn local_name(func: &Func, local: u32) -> &[u8]
    ensures { result.now ≡ get_or (names.names_in (func_of func.now)).locals local [] }
{
    binding_name(func.locals.as_slice(), local as usize)
}

/// The name of a function's register, its parameters first; empty for an absent one.
#[tactic(auto, using(crate::proofs::Named::is_param, crate::proofs::Named::is_register))]
fn register_name(func: &Func, register: usize) -> &[u8]
    ensures { result.now ≡ get_or (names.names_in (func_of func.now)).registers register [] }
{
    let params = func.params.as_slice();
    if register < params.len() {
        binding_name(params, register)
    } else {
        binding_name(func.regs.as_slice(), register - params.len())
    }
}

/// Puts the name of a function's register; nothing for an absent one.
///
/// # Errors
///
/// There is no memory for it.
pub fn put_register(
    text: &mut Text,
    firmware: &Firmware,
    func: u32,
    register: usize,
) -> Result<(), AllocError>
    ensures { OnOk result (text.new ≡ text.old ++ names.register_name (firmware_of firmware.now) func register) }
{
    match func_in(firmware.files.as_slice(), func as usize) {
        Some(found) => text.put(register_name(found, register)),
        None => Ok(()),
    }
}

/// Puts the name of a function's local; nothing for an absent one.
///
/// # Errors
///
/// There is no memory for it.
pub fn put_local(
    text: &mut Text,
    firmware: &Firmware,
    func: u32,
    local: u32,
) -> Result<(), AllocError>
    ensures { OnOk result (text.new ≡ text.old ++ names.local_name (firmware_of firmware.now) func local) }
{
    match func_in(firmware.files.as_slice(), func as usize) {
        Some(found) => text.put(local_name(found, local)),
        None => Ok(()),
    }
}

/// The label of a function's block; empty for an absent one.
#[tactic(auto, using(crate::proofs::Named::label_found, crate::proofs::Named::label_missing))]
fn label_in(func: &Func, block: usize) -> &[u8]
    ensures { result.now ≡ get_or (names.names_in (func_of func.now)).labels block [] }
{
    let blocks = func.blocks.as_slice();
    if block < blocks.len() {
        blocks[block].label.as_slice()
    } else {
        b""
    }
}

/// Puts the label of a function's block; nothing for an absent one.
///
/// # Errors
///
/// There is no memory for it.
pub fn put_label(
    text: &mut Text,
    firmware: &Firmware,
    func: u32,
    block: usize,
) -> Result<(), AllocError>
    ensures { OnOk result (text.new ≡ text.old ++ names.label_of (firmware_of firmware.now) func block) }
{
    match func_in(firmware.files.as_slice(), func as usize) {
        Some(found) => text.put(label_in(found, block)),
        None => Ok(()),
    }
}

/// The name of a global; empty for an absent one.
#[tactic(auto, using(crate::proofs::Named::global_found, crate::proofs::Named::global_missing))]
pub fn global_name(firmware: &Firmware, global: u32) -> &[u8]
    ensures { result.now ≡ names.global_name (firmware_of firmware.now) global }
{
    let globals = firmware.globals.as_slice();
    if (global as usize) < globals.len() {
        globals[global as usize].name.as_slice()
    } else {
        b""
    }
}

/// Puts the name of a global behind a space.
///
/// # Errors
///
/// There is no memory for it.
pub fn put_global(text: &mut Text, firmware: &Firmware, global: u32) -> Result<(), AllocError>
    ensures { OnOk result (text.new ≡ text.old ++ (codes " " ++ names.global_name (firmware_of firmware.now) global)) }
{
    text.put(b" ")?;
    text.put(global_name(firmware, global))
}

/// The name of a file; empty for an absent one.
#[tactic(auto, using(crate::proofs::Named::file_found, crate::proofs::Named::file_missing))]
pub fn file_name(firmware: &Firmware, file: u32) -> &[u8]
    ensures { result.now ≡ names.file_name (firmware_of firmware.now) file }
{
    let files = firmware.files.as_slice();
    if (file as usize) < files.len() {
        files[file as usize].name.as_slice()
    } else {
        b""
    }
}

/// The name of a peripheral; empty for an absent one.
pub fn periph_name(firmware: &Firmware, periph: usize) -> &[u8]
    ensures { result.now ≡ names.periph_name (firmware_of firmware.now) periph }
{
    match firmware.periphs.as_slice().get(periph) {
        Some(found) => found.name.as_slice(),
        None => b"",
    }
}

/// Puts the name of a peripheral behind a space.
///
/// # Errors
///
/// There is no memory for it.
pub fn put_periph(text: &mut Text, firmware: &Firmware, periph: usize) -> Result<(), AllocError>
    ensures { OnOk result (text.new ≡ text.old ++ (codes " " ++ names.periph_name (firmware_of firmware.now) periph)) }
{
    text.put(b" ")?;
    text.put(periph_name(firmware, periph))
}

/// Puts the names of globals, each behind a space.
///
/// # Errors
///
/// There is no memory for them.
pub fn put_globals(text: &mut Text, firmware: &Firmware, globals: &[u32]) -> Result<(), AllocError>
    ensures { OnOk result (text.new ≡ text.old ++ names.spaced (map (names.global_name (firmware_of firmware.now)) globals.now)) }
{
    for i in 0..globals.len() {
        put_global(text, firmware, globals[i])?;
    }
    Ok(())
}
