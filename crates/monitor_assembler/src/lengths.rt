//! How many bytes the code of a list has, known before it is put: branches go over it.

ghost use Rattle.std.specs.Prelude.{◌≡◌, ◌<◌, ◌^◌, nat_eq};
ghost use Rattle.monitor_steps.specs.Steps.{End};
ghost use Rattle.monitor_steps.specs.Lists.{before, steps_of};
ghost use Rattle.monitor_steps.specs.Code.{operation_length, code_length};

use monitor_steps::{PrivilegedOp, PrivilegedStep};

/// The bytes of an operation.
fn operation_length(op: PrivilegedOp, to: u8, a: u8, b: u8) -> u32
    ensures { result ≡ operation_length op (nat_eq to a) (nat_eq to b) }
{
    match op {
        PrivilegedOp::Add | PrivilegedOp::Sub => 2,
        PrivilegedOp::And | PrivilegedOp::Or | PrivilegedOp::Shl | PrivilegedOp::Shr if to == a =>
            2,
        PrivilegedOp::And | PrivilegedOp::Or | PrivilegedOp::Shl | PrivilegedOp::Shr if to == b =>
            8,
        PrivilegedOp::And | PrivilegedOp::Or | PrivilegedOp::Shl | PrivilegedOp::Shr => 4,
    }
}

/// The bytes of a list's code.
#[cycle(lengths)]
pub fn length_of(steps: &[PrivilegedStep]) -> u32
    requires { code_length (steps_of steps.now) < 2 ^ 24 }
    ensures { result ≡ code_length (steps_of steps.now) }
{
    let mut length = 0;
    for step in steps {
        length += step_length(step);
    }
    length
}

/// The bytes of a step's code.
#[cycle(lengths)]
fn step_length(step: &PrivilegedStep) -> u32
    requires { code_length (before step.now End) < 2 ^ 24 }
    ensures { result ≡ code_length (before step.now End) }
{
    match step {
        PrivilegedStep::Copy { .. }
        | PrivilegedStep::Load { .. }
        | PrivilegedStep::Store { .. }
        | PrivilegedStep::Halt { .. } => 2,
        PrivilegedStep::ReadPsp { .. }
        | PrivilegedStep::WritePsp { .. }
        | PrivilegedStep::Go { .. } => 4,
        PrivilegedStep::Const { .. } | PrivilegedStep::WriteControl { .. } => 8,
        PrivilegedStep::Return => 10,
        PrivilegedStep::Alu { op, to, a, b } => operation_length(*op, *to, *a, *b),
        PrivilegedStep::Test { yes, no, .. } => 12 + length_of(yes) + length_of(no),
        PrivilegedStep::Repeat { body, .. } => 14 + length_of(body),
    }
}
