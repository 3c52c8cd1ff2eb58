//! The code of a whole function.

ghost use Rattle.std.specs.Prelude.{◌≡◌, ◌+◌, ◌%◌, ◌<◌, ◌^◌, ◌++◌, length, take, drop, replicate, None, OnOk};
ghost use Rattle.std.proofs.Math.ListN.{get_or};
ghost use Rattle.machine_thumb_asm.specs.Assembly.{here, total};
ghost use Rattle.ir_model.specs.Resolved.{func_at};
ghost use Rattle.ir_program.specs.Seen.{program_of};
ghost use Rattle.code_model.specs.Places.{entry_address};
ghost use Rattle.code_model.specs.Fitting.{FuncFits};
ghost use Rattle.code_lower.specs.Subjects.{func_of, first_label, IsSubject, HasLabels, block_items, rest_items, rest_labels};
ghost use Rattle.code_model.specs.Emitted.{with_block, with_function, size_in, HasRoom, AreNear};

use crate::subject::{Subject, make_subject};
use crate::templates::{put_entry, put_exit, put_inst};
use code_model::Places;
use ir_program::program::Program;
use machine_thumb_asm::Asm;
use std::alloc::{AllocError, Global};

/// A block.
fn put_block(asm: &mut Asm, subject: &Subject, block: usize) -> Result<(), AllocError>
    requires subject { IsSubject subject.now }
    requires there { block < length (func_of subject.now).blocks }
    requires labels { HasLabels subject.now asm.old }
    requires free { get_or asm.old.places (first_label subject.now.labels.items + block) None ≡ None }
    requires even { here asm.old % 2 ≡ 0 }
    requires near { AreNear (here asm.old) (here asm.old + total (block_items subject.now (here asm.old) block)) subject.now.places.now.entries }
    requires room { HasRoom asm.old (block_items subject.now (here asm.old) block) }
    ensures { OnOk result (asm.new ≡ with_block asm.old (first_label subject.now.labels.items + block) (block_items subject.now (here asm.old) block)) }
{
    let sequence = subject.sequence(block);
    asm.put_label(subject.label(block));
    for (place, operation) in sequence.operations.as_slice().iter().enumerate() {
        put_inst(asm, subject, block, place, operation)?;
    }
    put_exit(asm, subject, sequence.exit)
}

/// The blocks of a function, one behind the other.
fn put_blocks(asm: &mut Asm, subject: &Subject) -> Result<(), AllocError>
    requires subject { IsSubject subject.now }
    requires free { drop (first_label subject.now.labels.items) asm.old.places ≡ replicate (length (func_of subject.now).blocks) None }
    requires even { here asm.old % 2 ≡ 0 }
    requires near { AreNear (here asm.old) (here asm.old + total (rest_items subject.now (here asm.old) 0)) subject.now.places.now.entries }
    requires room { HasRoom asm.old (rest_items subject.now (here asm.old) 0) }
    ensures { OnOk result (asm.new ≡ record asm.old { items = asm.old.items ++ rest_items subject.now (here asm.old) 0; places = take (first_label subject.now.labels.items) asm.old.places ++ rest_labels subject.now (here asm.old) 0 }) }
{
    for block in 0..subject.routine.blocks.len() {
        put_block(asm, subject, block)?;
    }
    Ok(())
}

/// Puts the code of a function of a firmware.
///
/// # Errors
///
/// There is no memory for it; what was put then says nothing.
pub fn lower(
    alloc: Global,
    program: &Program,
    func: usize,
    places: &Places,
    asm: &mut Asm,
) -> Result<(), AllocError>
    requires there { func < length program.now.funcs }
    requires fits { FuncFits places.now (func_at (program_of program.now) func) }
    requires entry { entry_address places.now func ≡ here asm.old }
    requires listed { func < length places.now.entries }
    requires near { AreNear (here asm.old) (here asm.old + size_in places.now (func_at (program_of program.now) func)) places.now.entries }
    requires room { here asm.old + size_in places.now (func_at (program_of program.now) func) < 2 ^ 31 }
    ensures { OnOk result (asm.new ≡ with_function asm.old (func_at (program_of program.now) func) places.now) }
{
    let subject = make_subject(alloc, program, func, places, asm)?;
    put_entry(asm, &subject)?;
    put_blocks(asm, &subject)
}
