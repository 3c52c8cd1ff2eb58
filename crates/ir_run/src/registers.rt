//! Registers, places and blocks of the running frame.

ghost use Rattle.std.specs.Prelude.{◌≡◌, nat_eq, if◌then◌else◌};
ghost use Rattle.ir_model.specs.Step as step;
ghost use Rattle.ir_program.specs.Values.{value_of};
ghost use Rattle.ir_run.specs.Acts.{frame_of};
ghost use Rattle.ir_run.specs.Places.{HasNext};

use crate::arithmetic::number_in;
use crate::frame::Frame;
use ir_program::value::Value;

/// Writes a register.
#[tactic(auto, using(crate::proofs::Writing::written))]
pub fn write_register(frame: &mut Frame, register: usize, value: Value)
    ensures { frame_of frame.new ≡ step.with_register (frame_of frame.old) register (value_of value) }
{
    frame.regs.put(register, value);
}

/// Goes on behind an instruction.
pub fn advance(frame: &mut Frame)
    requires { HasNext frame.old.place }
    ensures { frame_of frame.new ≡ step.onward (frame_of frame.old) }
{
    frame.place += 1;
}

/// Goes to the begin of a block.
pub fn jump(frame: &mut Frame, block: usize)
    ensures { frame_of frame.new ≡ step.jumped (frame_of frame.old) block }
{
    frame.block = block;
    frame.place = 0;
}

/// The block to which a branch goes: the second where the register is 0.
pub fn branch_target(frame: &Frame, on: usize, yes: usize, no: usize) -> usize
    ensures { result ≡ (if nat_eq (step.number_in (step.register (frame_of frame.now) on)) 0 then no else yes) }
{
    if number_in(frame.regs.at(on)) == 0 {
        no
    } else {
        yes
    }
}
