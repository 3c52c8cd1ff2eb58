//! How many tokens of a firmware's text stand before an item.

ghost use Rattle.std.specs.Prelude.{◌≡◌, ◌+◌, map, take, drop, IfOk, sum_by};
ghost use Rattle.ir_model.specs.Plain.{func_of, file_of, firmware_of, funcs_of, lent_funcs};
ghost use Rattle.ir_text_places.specs.Items.{tokens_before};
ghost use Rattle.ir_text_places.specs.Sizes as sizes;

use crate::declarations::{declarations_size, front, globals_size, periphs_size, structs_size};
use crate::functions::{blocks_size, file_size, files_size, front_size, funcs_size, insts_size};
use crate::item::Item;
use crate::types::add;
use ir_model::firmware::{Block, FileDecl, Firmware, Func};
use std::alloc::AllocError;

// A file before its function of this number.
fn func_in(file: &FileDecl, number: usize) -> Result<u64, AllocError>
    ensures { IfOk result (λ n. n ≡ 3 + sizes.funcs_size (take number (file_of file.now).funcs)) }
{
    let funcs = funcs_size(front(file.funcs.as_slice(), number))?;
    add(3, funcs)
}

// Files before the function of this number.
fn func_start(files: &[FileDecl], number: usize) -> Result<u64, AllocError>
    ensures { IfOk result (λ n. n ≡ sizes.func_start number (map file_of files.now)) }
{
    let mut rest = files;
    let mut left = number;
    let mut size = 0;
    while let Some((file, behind)) = rest.split_first() {
        if left < file.funcs.len() {
            return add(size, func_in(file, left)?);
        }
        left -= file.funcs.len();
        size = add(size, file_size(file)?)?;
        rest = behind;
    }
    Ok(size)
}

// A block before its instruction of this number.
fn place_start(blocks: &[Block], block: usize, place: usize) -> Result<u64, AllocError>
    ensures { IfOk result (λ n. n ≡ sizes.place_start place (drop block blocks.now)) }
{
    if block >= blocks.len() {
        return Ok(0);
    }
    let insts = insts_size(front(blocks[block].insts.as_slice(), place))?;
    add(2, insts)
}

// A function before a place of its code.
fn code_in(func: &Func, block: usize, place: usize) -> Result<u64, AllocError>
    ensures { IfOk result (λ n. n ≡ sizes.front_size (func_of func.now)
        + (sum_by sizes.block_size (take block (func_of func.now).blocks) + sizes.place_start place (drop block (func_of func.now).blocks))) }
{
    let head = front_size(func)?;
    let blocks = blocks_size(front(func.blocks.as_slice(), block))?;
    let within = place_start(func.blocks.as_slice(), block, place)?;
    let behind = add(blocks, within)?;
    add(head, behind)
}

// The function of this number before a place of its code.
fn code_start(bodies: &[&Func], func: usize, block: usize, place: usize) -> Result<u64, AllocError>
    ensures { IfOk result (λ n. n ≡ sizes.code_start block place (drop func (lent_funcs bodies.now))) }
{
    if func >= bodies.len() {
        return Ok(0);
    }
    code_in(bodies[func], block, place)
}

fn periph_start(firmware: &Firmware, number: usize) -> Result<u64, AllocError>
    ensures { IfOk result (λ n. n ≡ sizes.size_before (firmware_of firmware.now) (Item.Periph number)) }
{
    let structs = structs_size(firmware.structs.as_slice())?;
    let periphs = periphs_size(front(firmware.periphs.as_slice(), number))?;
    add(structs, periphs)
}

fn global_start(firmware: &Firmware, number: usize) -> Result<u64, AllocError>
    ensures { IfOk result (λ n. n ≡ sizes.size_before (firmware_of firmware.now) (Item.Global number)) }
{
    let structs = structs_size(firmware.structs.as_slice())?;
    let periphs = periphs_size(firmware.periphs.as_slice())?;
    let globals = globals_size(front(firmware.globals.as_slice(), number))?;
    let behind = add(periphs, globals)?;
    add(structs, behind)
}

fn file_start(firmware: &Firmware, number: usize) -> Result<u64, AllocError>
    ensures { IfOk result (λ n. n ≡ sizes.size_before (firmware_of firmware.now) (Item.File number)) }
{
    let declarations = declarations_size(firmware)?;
    let files = files_size(front(firmware.files.as_slice(), number))?;
    add(declarations, files)
}

fn func_place(firmware: &Firmware, number: usize) -> Result<u64, AllocError>
    ensures { IfOk result (λ n. n ≡ sizes.size_before (firmware_of firmware.now) (Item.Func number)) }
{
    let declarations = declarations_size(firmware)?;
    let funcs = func_start(firmware.files.as_slice(), number)?;
    add(declarations, funcs)
}

// The sums before an item, by the functions of all files in order.
fn size_before(firmware: &Firmware, bodies: &[&Func], item: Item) -> Result<u64, AllocError>
    requires { lent_funcs bodies.now ≡ funcs_of (firmware_of firmware.now) }
    ensures { IfOk result (λ n. n ≡ sizes.size_before (firmware_of firmware.now) item) }
{
    match item {
        Item::Whole => Ok(0),
        Item::Struct(number) => structs_size(front(firmware.structs.as_slice(), number)),
        Item::Periph(number) => periph_start(firmware, number),
        Item::Global(number) => global_start(firmware, number),
        Item::File(number) => file_start(firmware, number),
        Item::Func(number) => func_place(firmware, number),
        Item::Code { func, block, place } => {
            let declarations = declarations_size(firmware)?;
            let funcs = func_start(firmware.files.as_slice(), func)?;
            let code = code_start(bodies, func, block, place)?;
            add(declarations, add(funcs, code)?)
        }
    }
}

/// How many tokens of a firmware's text stand before an item, by the functions of all files in order.
///
/// # Errors
///
/// There are more than 64 bits tell.
#[tactic(auto, using(crate::proofs::Counted::before_count))]
pub fn tokens_before(firmware: &Firmware, bodies: &[&Func], item: Item) -> Result<u64, AllocError>
    requires { lent_funcs bodies.now ≡ funcs_of (firmware_of firmware.now) }
    ensures { IfOk result (λ n. n ≡ tokens_before (firmware_of firmware.now) item) }
{
    size_before(firmware, bodies, item)
}
