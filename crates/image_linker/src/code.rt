//! The code of compartments.

ghost use Rattle.std.specs.Prelude.{◌≡◌, ◌+◌, ◌<◌, ◌^◌, [], length, true, IfOk, OnOk};
ghost use Rattle.machine_thumb_asm.specs.Assembly.{here, ArePut};
ghost use Rattle.machine_thumb_asm.specs.Finished.{assembled};
ghost use Rattle.ir_model.specs.Resolved.{func_at};
ghost use Rattle.ir_program.specs.Seen.{program_of};
ghost use Rattle.code_model.specs.Places.{entry_address};
ghost use Rattle.code_model.specs.CompartmentCode.{filling};
ghost use Rattle.code_model.specs.Emitted.{IsNear, AreNear, size_in, with_more};
ghost use Rattle.code_model.specs.Fitting.{FuncFits};
ghost use Rattle.image_entries.specs.Grouped.{places_in};
ghost use Rattle.image_entries.specs.Making.{program_in, IsReady};
ghost use Rattle.image_linker.specs.Standing.{MayStand, with_filled, standing, first_members, bytes_in};

use code_lower::lower;
use code_model::Places;
use image_entries::entries::{base_of, size_of};
use image_entries::making::Making;
use image_entries::needed::places_for;
use ir_program::program::Program;
use machine_thumb::Instr;
use machine_thumb_asm::Asm;
use std::alloc::{AllocError, Global};

/// Whether an entry is even, and less than 2^20 bytes from each address from one on to before another.
fn is_near(from: u32, to: u32, entry: u32) -> bool
    requires from { from < 2 ^ 31 }
    ensures { result ≡ true → IsNear from to entry }
{
    entry % 2 == 0 && entry < from + 0x10_0000 && to <= entry.saturating_add(0x10_0000)
}

/// Whether each entry is near.
fn are_near(from: u32, to: u32, entries: &[u32]) -> bool
    requires from { from < 2 ^ 31 }
    ensures { result ≡ true → AreNear from to entries.now }
{
    for entry in entries {
        if !is_near(from, to, *entry) {
            return false;
        }
    }
    true
}

/// Whether a function of so many bytes begins here and may stand here.
fn may_stand(asm: &Asm, places: &Places, func: usize, size: u32) -> bool
    ensures { result ≡ true → MayStand asm.now places.now func size }
{
    let from = asm.here();
    let entries = places.entries.as_slice();
    match entries.get(func) {
        None => false,
        Some(entry) => {
            *entry == from
                && size < 0x10_0000
                && from < 0x7000_0000
                && are_near(from, from + size, entries)
        }
    }
}

/// A NOP where a function's bytes are no multiple of 4.
fn put_filling(asm: &mut Asm, size: u32) -> Result<(), AllocError>
    requires { here asm.old + 4 < 2 ^ 31 }
    ensures { OnOk result (asm.new ≡ with_more asm.old (filling size)) }
{
    if size % 4 == 0 {
        return Ok(());
    }
    asm.emit(&Instr::BreakpointNop { op: 1, imm8: 0 })
}

/// Puts a function with what fills it up.
fn put_standing(
    alloc: Global,
    program: &Program,
    func: usize,
    places: &Places,
    size: u32,
    asm: &mut Asm,
) -> Result<(), AllocError>
    requires there { func < length program.now.funcs }
    requires fits { FuncFits places.now (func_at (program_of program.now) func) }
    requires stands { MayStand asm.old places.now func size }
    requires size { size ≡ size_in places.now (func_at (program_of program.now) func) }
    ensures { OnOk result (asm.new ≡ with_filled asm.old (func_at (program_of program.now) func) places.now size) }
{
    code_model::laws::sizes();
    lower(alloc, program, func, places, asm)?;
    put_filling(asm, size)
}

/// Puts a function of a compartment, where it may stand here.
fn put_function(
    alloc: Global,
    making: &Making,
    func: usize,
    asm: &mut Asm,
) -> Result<(), AllocError>
    requires ready { IsReady making.now }
    requires there { func < length making.now.program.now.funcs }
    ensures entry { OnOk result (entry_address (places_in making.now.addresses.now making.now.numbers.now func) func ≡ here asm.old) }
    ensures exact { OnOk result (asm.new ≡ with_filled asm.old (func_at (program_in making.now) func) (places_in making.now.addresses.now making.now.numbers.now func) (size_in (places_in making.now.addresses.now making.now.numbers.now func) (func_at (program_in making.now) func))) }
{
    code_lower_laws::laws::typed_functions();
    let Some(size) = size_of(making.program, making.numbers, func) else {
        return Err(AllocError);
    };
    let places = places_for(alloc, making.addresses, making.numbers, func)?;
    if !may_stand(asm, &places, func, size) {
        return Err(AllocError);
    }
    put_standing(alloc, making.program, func, &places, size, asm)
}

/// Puts a function behind those before it, if it stands in a compartment.
fn put_member(
    alloc: Global,
    making: &Making,
    compartment: u32,
    func: usize,
    asm: &mut Asm,
) -> Result<(), AllocError>
    requires ready { IsReady making.now }
    requires there { func < length making.now.compartments.now }
    requires before { asm.old ≡ standing making.now compartment (first_members making.now compartment func) }
    ensures { OnOk result (asm.new ≡ standing making.now compartment (first_members making.now compartment (func + 1))) }
{
    if making.compartments[func] != compartment {
        return Ok(());
    }
    put_function(alloc, making, func, asm)?;
    Ok(())
}

/// Puts the functions of a compartment.
fn put_functions(
    alloc: Global,
    making: &Making,
    compartment: u32,
    asm: &mut Asm,
) -> Result<(), AllocError>
    requires ready { IsReady making.now }
    requires empty { asm.old ≡ standing making.now compartment [] }
    ensures { OnOk result (asm.new ≡ standing making.now compartment (first_members making.now compartment (length making.now.compartments.now))) }
{
    for func in 0..making.compartments.len() {
        put_member(alloc, making, compartment, func, asm)?;
    }
    Ok(())
}

/// The bytes of an assembler whose labels are all put.
fn finished(asm: Asm) -> Result<Vec<u8>, AllocError>
    requires { ArePut asm.places asm.items }
    ensures { IfOk result (λ bytes. bytes.items ≡ assembled asm) }
{
    match asm.finish() {
        Ok(bytes) => Ok(bytes),
        Err(_) => Err(AllocError),
    }
}

/// The bytes of a compartment's code.
pub(crate) fn compartment_code(
    alloc: Global,
    making: &Making,
    compartment: u32,
) -> Result<Vec<u8>, AllocError>
    requires { IsReady making.now }
    ensures { IfOk result (λ bytes. bytes.items ≡ bytes_in making.now compartment) }
{
    let base = base_of(making.plan, compartment);
    if base >= 1 << 31 {
        return Err(AllocError);
    }
    let mut asm = Asm::new(alloc, base);
    put_functions(alloc, making, compartment, &mut asm)?;
    finished(asm)
}
