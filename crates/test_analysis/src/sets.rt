//! Sets of objects as text.

use anyhow::Result;
use ir_model::object::ObjId;
use ir_program::program::Program;
use need_sets::{Node, PointsTo};
use std::alloc::Global;

/// Puts an object behind a blank.
pub(crate) fn put_object(alloc: Global, text: &mut String, object: &ObjId) -> Result<()> {
    let word = match object {
        ObjId::Global(n) => format!(in alloc; " global {n}")?,
        ObjId::Periph(n) => format!(in alloc; " periph {n}")?,
        ObjId::Local { func, local } => format!(in alloc; " local {func}.{local}")?,
        ObjId::Func(n) => format!(in alloc; " func {n}")?,
    };
    text.push_str(word.as_str())?;
    Ok(())
}

/// Puts a line of a heading and objects, if there is one.
pub(crate) fn put_objects(
    alloc: Global,
    text: &mut String,
    heading: &str,
    objects: &[ObjId],
) -> Result<()> {
    if objects.is_empty() {
        return Ok(());
    }
    text.push_str(heading)?;
    for object in objects {
        put_object(alloc, text, object)?;
    }
    text.push_str("\n")?;
    Ok(())
}

/// Puts the set of each register of a function, and of what it gives.
fn put_function(
    alloc: Global,
    text: &mut String,
    func: u32,
    registers: u32,
    sets: &PointsTo,
) -> Result<()> {
    for reg in 0..registers {
        let heading = format!(in alloc; "reg {func}.{reg}")?;
        let node = Node::Reg { func, reg };
        put_objects(alloc, text, heading.as_str(), sets.of(&node))?;
    }
    let heading = format!(in alloc; "result {func}")?;
    put_objects(alloc, text, heading.as_str(), sets.of(&Node::Result(func)))
}

/// Puts the sets that are not empty: of registers and results of each function, and of the contents of globals.
pub(crate) fn put_sets(
    alloc: Global,
    text: &mut String,
    program: &Program,
    sets: &PointsTo,
) -> Result<()> {
    let funcs = program.funcs.as_slice();
    let count = u32::try_from(funcs.len())?;
    for func in 0..count {
        let registers = u32::try_from(funcs[func as usize].registers.len())?;
        put_function(alloc, text, func, registers, sets)?;
    }
    let globals = u32::try_from(program.globals.len())?;
    for global in 0..globals {
        let heading = format!(in alloc; "content {global}")?;
        let node = Node::Content(ObjId::Global(global));
        put_objects(alloc, text, heading.as_str(), sets.of(&node))?;
    }
    Ok(())
}
