//! Instructions that compute in registers (Armv7-M ARM, A7.7): their result, if there is one, and their flags.

ghost use Rattle.std.specs.Prelude.{◌≡◌};
ghost use Rattle.machine_model.specs.DataOperations as operations;
ghost use Rattle.machine_model.specs.State.{bit_of};

use base_words::conditions::{Flags, add_with_carry, compare_flags, result_flags};
use base_words::operations;
use machine_model::answers::Outcome;
use machine_model::state::CoreRegisters;

/// A result that sets N and Z.
fn logical(flags: Flags, value: u32) -> Outcome
    ensures { result ≡ operations.logical flags value }
{
    Outcome::Gives {
        value,
        flags: result_flags(flags, value),
    }
}

/// A shifted value, which sets the carry too.
fn shifted(flags: Flags, value: u32, carry: bool) -> Outcome
    ensures { result ≡ operations.shifted flags value carry }
{
    Outcome::Gives {
        value,
        flags: Flags {
            carry,
            ..result_flags(flags, value)
        },
    }
}

/// AddWithCarry.
fn sum(x: u32, y: u32, carry: bool) -> Outcome
    ensures { result ≡ operations.sum x y (bit_of carry) }
{
    let (value, flags) = add_with_carry(x, y, carry);
    Outcome::Gives { value, flags }
}

/// LSLS with `op` 0, LSRS with 1, ASRS with 2, by an amount; 0 is no shift.
pub fn shift_by(op: u8, x: u32, amount: u32, flags: Flags) -> Outcome
    ensures { result ≡ operations.shift_by op x amount flags }
{
    let (value, carry) = match op {
        0 => (
            operations::shift_left(x, amount),
            operations::shifted_left_carry(x, amount, flags.carry),
        ),
        1 => (
            operations::shift_right(x, amount),
            operations::shifted_right_carry(x, amount, flags.carry),
        ),
        _ => (
            operations::shift_right_signed(x, amount),
            operations::shifted_right_signed_carry(x, amount, flags.carry),
        ),
    };
    shifted(flags, value, carry)
}

/// How many places a shift by a number shifts: LSRS and ASRS by 0 shift by 32 (DecodeImmShift).
pub fn immediate_amount(op: u8, imm5: u8) -> u32
    ensures { result ≡ operations.immediate_amount op imm5 }
{
    match (op, imm5) {
        (0, _) => u32::from(imm5),
        (_, 0) => 32,
        _ => u32::from(imm5),
    }
}

/// ADDS with `op` 0, SUBS with 1.
pub fn add_or_subtract(op: u8, x: u32, y: u32) -> Outcome
    ensures { result ≡ operations.add_or_subtract op x y }
{
    if op == 0 {
        sum(x, y, false)
    } else {
        sum(x, !y, true)
    }
}

/// MOVS, CMP, ADDS and SUBS with a number, by `op` from 0.
pub fn immediate(op: u8, x: u32, number: u32, flags: Flags) -> Outcome
    ensures { result ≡ operations.immediate op x number flags }
{
    match op {
        0 => logical(flags, number),
        1 => Outcome::Tests {
            flags: compare_flags(x, number),
        },
        2 => sum(x, number, false),
        _ => sum(x, !number, true),
    }
}

/// The operations on two registers, by `op` from 0 to 15.
pub fn operation(op: u8, x: u32, y: u32, flags: Flags) -> Outcome
    ensures { result ≡ operations.operation op x y flags }
{
    match op {
        0 => logical(flags, x & y),
        1 => logical(flags, x ^ y),
        2 => shift_by(0, x, y, flags),
        3 => shift_by(1, x, y, flags),
        4 => shift_by(2, x, y, flags),
        5 => sum(x, y, flags.carry),
        6 => sum(x, !y, flags.carry),
        7 => rotated(x, y, flags),
        8 => Outcome::Tests {
            flags: result_flags(flags, x & y),
        },
        9 => sum(!y, 0, true),
        10 => Outcome::Tests {
            flags: compare_flags(x, y),
        },
        11 => Outcome::Tests {
            flags: add_with_carry(x, y, false).1,
        },
        12 => logical(flags, x | y),
        13 => logical(flags, operations::multiply(x, y)),
        14 => logical(flags, operations::bit_clear(x, y)),
        _ => logical(flags, !y),
    }
}

/// RORS by a register.
fn rotated(x: u32, y: u32, flags: Flags) -> Outcome
    ensures { result ≡ operations.operation 7 x y flags }
{
    let value = operations::rotate_right(x, y);
    let carry = operations::rotated_right_carry(x, y, flags.carry);
    shifted(flags, value, carry)
}

/// Takes an outcome into the destination, before the next instruction.
#[inline(always)]
pub fn take_outcome(outcome: Outcome, core: &mut CoreRegisters, next: u32, destination: u8)
    ensures { core.new ≡ operations.after_outcome outcome core.old next destination }
{
    core.pc = next;
    match outcome {
        Outcome::Gives { value, flags } => {
            core.set_low_register(destination, value);
            core.flags = flags;
        }
        Outcome::Tests { flags } => core.flags = flags,
    }
}
