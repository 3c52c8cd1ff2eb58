//! The numbering of a program.

ghost use Rattle.std.specs.Prelude.{◌≡◌, IfOk};
ghost use Rattle.ir_program.specs.Seen.{program_of};
ghost use Rattle.need_sets.specs.Numbers.{numbering_of, object_groups, node_groups};

use crate::Numbering;
use ir_program::program::Program;
use need_numbers::Groups;
use std::alloc::{AllocError, Global};

/// A count in 32 bits.
fn in_32_bits(count: usize) -> Result<u32, AllocError>
    ensures { IfOk result (λ n. n ≡ count) }
{
    match u32::try_from(count) {
        Ok(count) => Ok(count),
        Err(_) => Err(AllocError),
    }
}

fn objects_of(alloc: Global, program: &Program) -> Result<Groups, AllocError>
    ensures { IfOk result (λ g. g ≡ object_groups (program_of program.now)) }
{
    let mut groups = Groups::new(alloc);
    groups.push(in_32_bits(program.globals.len())?)?;
    groups.push(in_32_bits(program.periphs.len())?)?;
    for func in program.funcs.as_slice() {
        groups.push(in_32_bits(func.locals.len())?)?;
    }
    groups.push(in_32_bits(program.funcs.len())?)?;
    Ok(groups)
}

fn nodes_of(alloc: Global, program: &Program, objects: u32) -> Result<Groups, AllocError>
    ensures { IfOk result (λ g. g ≡ node_groups (program_of program.now) objects) }
{
    let mut groups = Groups::new(alloc);
    for func in program.funcs.as_slice() {
        groups.push(in_32_bits(func.registers.len())?)?;
    }
    groups.push(objects)?;
    groups.push(in_32_bits(program.funcs.len())?)?;
    Ok(groups)
}

/// The numbering of a program.
///
/// # Errors
///
/// There is no memory for it, or there would be 2^32 nodes or more.
pub fn number_program(alloc: Global, program: &Program) -> Result<Numbering, AllocError>
    ensures { IfOk result (λ c. c ≡ numbering_of (program_of program.now)) }
{
    let funcs = in_32_bits(program.funcs.len())?;
    let objects = objects_of(alloc, program)?;
    let nodes = nodes_of(alloc, program, objects.total())?;
    Ok(Numbering {
        funcs,
        objects,
        nodes,
    })
}
