//! The code of lists of steps.

ghost use Rattle.std.specs.Prelude.{OnOk};
ghost use Rattle.monitor_steps.specs.Steps.{End};
ghost use Rattle.monitor_steps.specs.Lists.{before, steps_of};
ghost use Rattle.monitor_steps.specs.Code.{code};
ghost use Rattle.monitor_assembler.specs.Emitted.{MayPut, HasPut};

use crate::lengths::length_of;
use crate::pieces::{
    put_choice, put_const, put_copy, put_go, put_halt, put_load, put_loop_end, put_loop_head,
    put_operation, put_read_psp, put_return, put_skip, put_store, put_write_control, put_write_psp,
};
use machine_thumb_asm::Asm;
use monitor_steps::PrivilegedStep;
use std::alloc::AllocError;

/// Puts the code of a list behind all that the assembler holds. After an error it may hold a part of the code.
#[cycle(assembling)]
pub fn assemble(steps: &[PrivilegedStep], asm: &mut Asm) -> Result<(), AllocError>
    requires { MayPut asm.old (steps_of steps.now) }
    ensures { OnOk result (HasPut asm.old asm.new (code (steps_of steps.now))) }
{
    for step in steps {
        put_step(step, asm)?;
    }
    Ok(())
}

/// Puts the code of a step.
#[cycle(assembling)]
fn put_step(step: &PrivilegedStep, asm: &mut Asm) -> Result<(), AllocError>
    requires { MayPut asm.old (before step.now End) }
    ensures { OnOk result (HasPut asm.old asm.new (code (before step.now End))) }
{
    match step {
        PrivilegedStep::Const { to, value } => put_const(*to, *value, asm),
        PrivilegedStep::Copy { to, from } => put_copy(*to, *from, asm),
        PrivilegedStep::Load {
            to,
            base,
            offset,
            width,
        } => put_load(*width, *to, *base, *offset, asm),
        PrivilegedStep::Store {
            from,
            base,
            offset,
            width,
        } => put_store(*width, *from, *base, *offset, asm),
        PrivilegedStep::Alu { op, to, a, b } => put_operation(*op, *to, *a, *b, asm),
        PrivilegedStep::ReadPsp { to } => put_read_psp(*to, asm),
        PrivilegedStep::WritePsp { from } => put_write_psp(*from, asm),
        PrivilegedStep::WriteControl { from } => put_write_control(*from, asm),
        PrivilegedStep::Test {
            cond,
            a,
            b,
            yes,
            no,
        } => {
            let first = length_of(yes);
            let second = length_of(no);
            put_choice(*cond, *a, *b, first, asm)?;
            assemble(yes, asm)?;
            put_skip(second, asm)?;
            assemble(no, asm)
        }
        PrivilegedStep::Repeat { left, body, .. } => {
            let length = length_of(body);
            put_loop_head(*left, length, asm)?;
            assemble(body, asm)?;
            put_loop_end(*left, length, asm)
        }
        PrivilegedStep::Halt { code } => put_halt(*code, asm),
        PrivilegedStep::Return => put_return(asm),
        PrivilegedStep::Go { to, link } => put_go(*to, *link, asm),
    }
}
