//! What start-up fills: the blocks of globals, and the words that stand for their first values. None where a number takes more
//! than 32 bits, or a global passes 65,536 bytes.

ghost use Rattle.std.specs.Prelude.{◌≡◌, ◌+◌, ◌*◌, ◌++◌, length, map, IfOk, IfSome, OnOk, OnSome};
ghost use Rattle.std.specs.List.{fold, flat_map};
ghost use Rattle.std.proofs.Math.ListN.{get_or};
ghost use Rattle.base_words.specs.Bytes.{write};
ghost use Rattle.base_words.specs.Width.{byte_count};
ghost use Rattle.machine_model.specs.Stack.{words_at};
ghost use Rattle.ir_model.specs.Types.{type_of, width_of};
ghost use Rattle.ir_program.specs.Seen.{known_of, program_of};
ghost use Rattle.ir_program.specs.Values.{value_of};
ghost use Rattle.plan_model.specs.Blocks.{offset_in_region};
ghost use Rattle.plan_model.specs.TableSize as table_size;
ghost use Rattle.image_model.specs.FirstWords as first_words;
ghost use Rattle.image_model.specs.LinkedTables as records;
ghost use Rattle.image_blocks.specs.Filling.{filled_of, object_places, first_in, cells_put};

use crate::places::{offset_in, region_spot, unwritten_spot};
use base_words::memory::{Width, read_value, write_value};
use code_model::Addresses;
use ir_model::types::Ty;
use ir_program::program::{Program, Variable};
use ir_program::types::zero;
use ir_program::value::Value;
use monitor_model::InitRecord;
use plan_model::graph::Final;
use plan_model::plan::Plan;
use plan_sizes::regions::words_in;
use std::alloc::{AllocError, Global};

/// A block of RAM and its globals.
#[derive(Clone, Copy)]
pub struct Filled<'a> {
    /// Its first address.
    pub base: u32,
    /// The numbers of the globals that lie in it, in order.
    pub globals: &'a [u32],
}

/// The blocks that start-up fills.
pub fn filled_blocks<'a>(
    alloc: Global,
    graph: &'a Final,
    plan: &Plan,
) -> Result<Vec<Filled<'a>>, AllocError>
    ensures { IfOk result (λ blocks. map filled_of blocks.items ≡ records.filled graph.now plan.now) }
{
    let mut blocks = Vec::new(alloc);
    for (number, region) in graph.regions.as_slice().iter().enumerate() {
        blocks.push(Filled {
            base: region_spot(plan, number).base,
            globals: region.globals.as_slice(),
        })?;
    }
    put_unwritten(graph, plan, &mut blocks)?;
    Ok(blocks)
}

/// Puts the block of the globals of no data region behind others, where there are any.
#[tactic(auto, using(crate::proofs::Cells::none_unwritten, crate::proofs::Cells::some_unwritten))]
fn put_unwritten<'a>(
    graph: &'a Final,
    plan: &Plan,
    blocks: &mut Vec<Filled<'a>>,
) -> Result<(), AllocError>
    ensures { OnOk result (map filled_of blocks.new.items ≡ map filled_of blocks.old.items ++ records.filled_unwritten plan.now graph.now.unwritten) }
{
    if graph.unwritten.is_empty() {
        return Ok(());
    }
    blocks.push(Filled {
        base: unwritten_spot(plan).base,
        globals: graph.unwritten.as_slice(),
    })?;
    Ok(())
}

/// An address of a list.
fn address_at(addresses: &[u32], number: usize) -> u32
    ensures { result ≡ get_or addresses.now number 0 }
{
    match addresses.get(number) {
        Some(address) => *address,
        None => 0,
    }
}

/// The word of a value.
fn first_word(addresses: &Addresses, value: Value) -> Option<u32>
    ensures { IfSome result (λ n. n ≡ first_words.first_word (object_places addresses.now) (value_of value)) }
{
    match value {
        Value::Number(number) => Some(number),
        Value::Code(func) => {
            address_at(addresses.entries.as_slice(), func as usize).checked_add(1)
        }
        Value::Null => Some(0),
        Value::AtGlobal { global, offset } => {
            let address = address_at(addresses.globals.as_slice(), global as usize);
            Some(address.wrapping_add(offset))
        }
        Value::AtPeriph { periph, offset } => {
            let address = address_at(addresses.windows.as_slice(), periph as usize);
            Some(address.wrapping_add(offset))
        }
        Value::AtLocal { .. } => Some(0),
    }
}

/// The width of a cell.
fn cell_width(ty: &Ty) -> Width
    ensures { byte_count result ≡ width_of (type_of ty.now) }
{
    match ty {
        Ty::U8 => Width::Byte,
        Ty::U16 => Width::Half,
        Ty::U32 | Ty::Ptr(_) | Ty::Array(_, _) | Ty::Named(_) | Ty::Callee(_) => Width::Word,
    }
}

/// Writes the low bytes of a word, where the memory has the place.
fn put_word(memory: &mut [u8], at: u32, width: Width, word: u32) -> Option<()>
    ensures { OnSome result (memory.new ≡ write (byte_count width) at word memory.old) }
{
    let place = at as usize;
    if place + width.bytes() > memory.len() {
        return None;
    }
    write_value(memory, place, width, word);
    Some(())
}

/// The first value of a cell of a global.
fn first_value(variable: &Variable, number: u32, ty: &Ty) -> Value
    ensures { value_of result ≡ first_in (map value_of variable.now.init) number (type_of ty.now) }
{
    match variable.init.as_slice().get(number as usize) {
        Some(value) => *value,
        None => zero(ty),
    }
}

/// Writes the first values of a global that begins at an offset.
fn put_cells(
    program: &Program,
    addresses: &Addresses,
    variable: &Variable,
    at: u32,
    memory: &mut [u8],
) -> Option<()>
    ensures { OnSome result (memory.new ≡ cells_put (known_of program.now) (object_places addresses.now) variable.now at memory.old) }
{
    if program.layouts.measure(variable.storage.ty).size > 0x1_0000 {
        return None;
    }
    for number in 0..u32::MAX {
        let Some(cell) = ir_cells::cell(&program.layouts, variable.storage.ty, number) else {
            return Some(());
        };
        let value = first_value(variable, number, cell.ty);
        let word = first_word(addresses, value)?;
        put_word(memory, at.checked_add(cell.at)?, cell_width(cell.ty), word)?;
    }
    None
}

/// Writes the first values of a global of a number.
fn put_global(
    program: &Program,
    addresses: &Addresses,
    global: u32,
    at: u32,
    memory: &mut [u8],
) -> Option<()>
    ensures { OnSome result (memory.new ≡ first_words.with_global (program_of program.now) (object_places addresses.now) global at memory.old) }
{
    match program.globals.as_slice().get(global as usize) {
        None => Some(()),
        Some(variable) => put_cells(program, addresses, variable, at, memory),
    }
}

/// Writes the first values of the globals of a block.
fn put_globals(
    program: &Program,
    addresses: &Addresses,
    globals: &[u32],
    memory: &mut [u8],
) -> Option<()>
    ensures { OnSome result (memory.new ≡ fold (λ mem x. first_words.with_global (program_of program.now) (object_places addresses.now) x (offset_in_region (program_of program.now) globals.now x) mem) memory.old globals.now) }
{
    for global in globals {
        let at = offset_in(program, globals, *global)?;
        put_global(program, addresses, *global, at, memory)?;
    }
    Some(())
}

/// Puts so many words of a memory behind others.
fn put_words(memory: &[u8], count: usize, words: &mut Vec<u32>) -> Result<(), AllocError>
    requires { length memory.now ≡ 4 * count }
    ensures { OnOk result (words.new.items ≡ words.old.items ++ words_at count 0 memory.now) }
{
    for number in 0..count {
        words.push(read_value(memory, 4 * number, Width::Word))?;
    }
    Ok(())
}

/// Puts the words of a block behind others.
#[tactic(auto, unfolding(image_model::specs::FirstWords::first_words))]
fn put_block(
    alloc: Global,
    program: &Program,
    addresses: &Addresses,
    globals: &[u32],
    words: &mut Vec<u32>,
) -> Result<(), AllocError>
    ensures { OnOk result (words.new.items ≡ words.old.items ++ first_words.first_words (program_of program.now) (object_places addresses.now) globals.now) }
{
    let Some(count) = words_in(program, globals) else {
        return Err(AllocError);
    };
    let count = count as usize;
    let mut memory = vec![in alloc; 0; 4 * count]?;
    match put_globals(program, addresses, globals, &mut memory) {
        None => Err(AllocError),
        Some(()) => put_words(&memory, count, words),
    }
}

/// The words of all blocks.
pub fn words_of(
    alloc: Global,
    program: &Program,
    addresses: &Addresses,
    blocks: &[Filled],
) -> Result<Vec<u32>, AllocError>
    ensures { IfOk result (λ words. words.items ≡ flat_map (λ b. first_words.first_words (program_of program.now) (object_places addresses.now) b.globals.now) blocks.now) }
{
    let mut words = Vec::new(alloc);
    for block in blocks {
        put_block(alloc, program, addresses, block.globals, &mut words)?;
    }
    Ok(words)
}

/// The record of a block whose words stand at an address.
fn init_record(program: &Program, from: u32, block: &Filled) -> Option<InitRecord>
    ensures { IfSome result (λ n. n ≡ record { at = block.now.base; end = block.now.base + 4 * table_size.words_in (program_of program.now) block.now.globals.now; from = from }) }
{
    let bytes = words_in(program, block.globals)?.checked_mul(4)?;
    Some(InitRecord {
        at: block.base,
        end: block.base.checked_add(bytes)?,
        from,
    })
}

/// The records of blocks whose words stand from an address on.
pub fn init_records(
    alloc: Global,
    program: &Program,
    from: u32,
    blocks: &[Filled],
) -> Result<Vec<InitRecord>, AllocError>
    ensures { IfOk result (λ all. all.items ≡ records.init_records (program_of program.now) from (map filled_of blocks.now)) }
{
    let mut all = Vec::new(alloc);
    let mut next = from;
    for block in blocks {
        let Some(init) = init_record(program, next, block) else {
            return Err(AllocError);
        };
        let Some(behind) = next.checked_add(init.end - init.at) else {
            return Err(AllocError);
        };
        all.push(init)?;
        next = behind;
    }
    Ok(all)
}
