//! Look-ups by the numbers of a function, a block and a place.

ghost use Rattle.std.specs.Prelude.{◌≡◌, List};
ghost use Rattle.ir_model.specs.Layout.{Known};
ghost use Rattle.ir_model.specs.Resolved as plain;
ghost use Rattle.ir_model.specs.Step as step;
ghost use Rattle.ir_program.specs.Parts.{operation_of, sequence_of};
ghost use Rattle.ir_program.specs.Seen.{known_of, program_of};
ghost use Rattle.ir_run.specs.Standing.{here_of, HasPlaceBehind};

use crate::frame::Frame;
use crate::place::Here;
use ir_program::program::{Exit, Operation, Program, Sequence};

// What stands at a place of a block.
fn here_in<'p, 'a>(sequence: &'p Sequence<'a>, place: usize) -> Here<'p, 'a>
    ensures exact { (ks : List Known) → here_of ks result ≡ plain.here_in (sequence_of ks sequence.now).insts (sequence_of ks sequence.now).term place }
    ensures next { HasPlaceBehind result place }
{
    let operations = sequence.operations.as_slice();
    if place < operations.len() {
        Here::Does(&operations[place])
    } else {
        Here::Ends(sequence.exit)
    }
}

/// What stands at a place of a function: behind the instructions of its block the block's end. A block that is not
/// there is empty, and goes to the first.
pub fn here<'p, 'a>(program: &'p Program<'a>, func: u16, block: usize, place: usize) -> Here<'p, 'a>
    ensures exact { here_of (known_of program.now) result ≡ plain.here (program_of program.now) func block place }
    ensures next { HasPlaceBehind result place }
{
    let routines = program.funcs.as_slice();
    let number = usize::from(func);
    if number >= routines.len() {
        return Here::Ends(Exit::Jump(0));
    }
    let blocks = routines[number].blocks.as_slice();
    if block >= blocks.len() {
        return Here::Ends(Exit::Jump(0));
    }
    here_in(&blocks[block], place)
}

/// The register in which a frame that stands at a call keeps the result.
pub fn result_register(program: &Program, frame: &Frame) -> Option<usize>
    ensures { result ≡ step.result_register (plain.here (program_of program.now) frame.now.func frame.now.block frame.now.place) }
{
    match here(program, frame.func, frame.block, frame.place) {
        Here::Does(operation) => kept_in(operation),
        Here::Ends(_) => None,
    }
}

// The register in which an instruction keeps what a function returned.
fn kept_in(operation: &Operation) -> Option<usize>
    ensures { (ks : List Known) → result ≡ step.result_register (plain.Does (operation_of ks operation.now)) }
{
    match operation {
        Operation::Call {
            to,
            func: _,
            args: _,
        } => *to,
        Operation::ICall {
            to,
            func: _,
            args: _,
        } => *to,
        Operation::Const { .. }
        | Operation::Move { .. }
        | Operation::Bin { .. }
        | Operation::Cmp { .. }
        | Operation::Addr { .. }
        | Operation::FAddr { .. }
        | Operation::Elem { .. }
        | Operation::Field { .. }
        | Operation::Load { .. }
        | Operation::Store { .. } => None,
    }
}
